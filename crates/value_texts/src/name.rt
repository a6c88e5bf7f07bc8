//! Names of gatekeepers.

ghost use Rattle.std.specs.Prelude.{◌≡◌};
ghost use Rattle.value_texts.specs.Texts.{name_of};

use ras_module::Name;

/// The characters that a name has at most.
const MOST: usize = 128;

/// The name that a word writes in UTF-8, of 1 to 128 characters of 16 bits.
pub fn name_of(word: &[u8]) -> Option<Name>
    ensures { result ≡ name_of word.now }
{
    let Ok(text) = str::from_utf8(word) else {
        return None;
    };
    let mut units = [0u16; MOST];
    let mut count = 0;
    for c in text.chars() {
        let number = u32::from(c);
        if number > 0xFFFF || count == MOST {
            return None;
        }
        units[count] = number as u16;
        count += 1;
    }
    Name::new(&units[..count])
}
