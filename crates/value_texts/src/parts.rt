//! Parts of a text.

ghost use Rattle.std.specs.Prelude.{◌≡◌};
ghost use Rattle.std.specs.Str.{bytes_eq};
ghost use Rattle.value_texts.specs.Parts.{front_part, rest_part};

/// What stands before the first such mark, and what stands behind it; all of the text, and nothing,
/// if there is no such mark.
pub fn parted(text: &[u8], mark: u8) -> (&[u8], &[u8])
    ensures front { result.0.now ≡ front_part mark text.now }
    ensures rest { result.1.now ≡ rest_part mark text.now }
{
    match text.iter().position(|c| *c == mark) {
        Some(place) => (&text[..place], &text[place + 1..]),
        None => (text, &[]),
    }
}

/// Whether a word is this text.
pub fn is_word(word: &[u8], text: &str) -> bool
    ensures { result ≡ bytes_eq word.now text.now }
{
    word == text.as_bytes()
}
