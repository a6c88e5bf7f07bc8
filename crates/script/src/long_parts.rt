//! The parts of long texts.

ghost use Rattle.std.specs.Prelude.{◌≡◌};
ghost use Rattle.value_texts.specs.Parts.{front_part, rest_part};

use memchr::memchr;

/// What stands before the first such mark, and what stands behind it; all of the text, and nothing,
/// if there is no such mark. This looks at many octets at a time, which serves long parts.
pub(crate) fn long_parted(text: &[u8], mark: u8) -> (&[u8], &[u8])
    ensures front { result.0.now ≡ front_part mark text.now }
    ensures rest { result.1.now ≡ rest_part mark text.now }
{
    match memchr(mark, text) {
        Some(place) => (&text[..place], &text[place + 1..]),
        None => (text, &[]),
    }
}
