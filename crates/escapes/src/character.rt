//! Characters of UTF-16.

ghost use Rattle.std.specs.Prelude.{◌≡◌, ◌∷◌, ◌<◌, ◌≤◌, ◌&&◌, [], length, IsTrue, MatchOption};
ghost use Rattle.std.specs.Option.{unwrap_or};
ghost use Rattle.std.specs.Char.Utf16.{is_high_surrogate, is_low_surrogate, lone_unit_char};
ghost use Rattle.std.specs.Char.Utf16.{surrogate_pair_char, utf16_lossy_chars};

/// The first character of a text, and the units behind it; None at its end. Half of a surrogate
/// pair is U+FFFD.
pub(crate) fn first_character(units: &[u16]) -> Option<(char, &[u16])>
    ensures character { MatchOption result (utf16_lossy_chars units.now ≡ [])
        (λ found. utf16_lossy_chars units.now ≡ found.0 ∷ utf16_lossy_chars found.1.now) }
    ensures shorter { MatchOption result (units.now ≡ [])
        (λ found. length found.1.now < length units.now) }
{
    if units.is_empty() {
        return None;
    }
    if units.len() >= 2 && is_pair(units[0], units[1]) {
        return Some((paired_character(units[0], units[1]), &units[2..]));
    }
    Some((lone_character(units[0]), &units[1..]))
}

/// Whether two units are the halves of a surrogate pair.
fn is_pair(first: u16, second: u16) -> bool
    ensures { result ≡ (is_high_surrogate first && is_low_surrogate second) }
{
    (0xD800..0xDC00).contains(&first) && (0xDC00..0xE000).contains(&second)
}

/// The character of a surrogate pair.
fn paired_character(high: u16, low: u16) -> char
    requires high { IsTrue (is_high_surrogate high) }
    requires low { IsTrue (is_low_surrogate low) }
    ensures { result ≡ surrogate_pair_char high low }
{
    let code = 0x1_0000 + (u32::from(high) - 0xD800) * 0x400 + (u32::from(low) - 0xDC00);
    char::from_u32(code).unwrap_or(char::REPLACEMENT_CHARACTER)
}

/// The character of a unit that is in no pair.
fn lone_character(unit: u16) -> char
    ensures { result ≡ unwrap_or (lone_unit_char unit) 0xFFFD }
{
    char::from_u32(u32::from(unit)).unwrap_or(char::REPLACEMENT_CHARACTER)
}
