//! Texts, escaped.

ghost use Rattle.std.specs.Prelude.{◌≡◌, ◌++◌, ◌<◌, OnOk, IsTrue, List, ℕ};
ghost use Rattle.std.specs.Char.Utf16.{utf16_lossy_chars};
ghost use Rattle.std.specs.List.{flat_map};
ghost use Rattle.std.specs.Str.{encode_utf8_all};
ghost use Rattle.std.specs.String.{string_bytes};
ghost use Rattle.escapes.specs.Escapes.{html_piece, is_html_text, is_json_text, is_label_text};
ghost use Rattle.escapes.specs.Escapes.{json_piece, label_piece};

use crate::character::first_character;
use crate::pieces::{push_html, push_json, push_label};
use std::alloc::AllocError;

/// Writes a text in UTF-16 as text in HTML, also between quotes: `&`, `<`, `>`, `"` and `'` become
/// references, and half of a surrogate pair becomes U+FFFD.
///
/// promise strangers-texts-stay-texts: A text is written as defined, and none of its characters
/// that mean something in HTML is left; likewise in JSON and in labels of metrics (`is_html_text`).
pub fn html(out: &mut String, units: &[u16]) -> Result<(), AllocError>
    ensures text { OnOk result (string_bytes out.new ≡ string_bytes out.old
        ++ encode_utf8_all (flat_map html_piece (utf16_lossy_chars units.now))) }
    ensures escaped { OnOk result ((cs : List ℕ)
        × (string_bytes out.new ≡ string_bytes out.old ++ encode_utf8_all cs)
        × IsTrue (is_html_text cs)) }
{
    let mut rest = units;
    while let Some((c, behind)) = first_character(rest) {
        push_html(out, c)?;
        rest = behind;
    }
    Ok(())
}

/// Writes a text in UTF-16 as text between the quotes of a string in JSON: `"`, `\`, `<`, control
/// characters, U+2028 and U+2029 are escaped, and half of a surrogate pair becomes U+FFFD. So it
/// does no harm on a terminal either.
pub fn json_string(out: &mut String, units: &[u16]) -> Result<(), AllocError>
    ensures text { OnOk result (string_bytes out.new ≡ string_bytes out.old
        ++ encode_utf8_all (flat_map json_piece (utf16_lossy_chars units.now))) }
    ensures escaped { OnOk result ((cs : List ℕ)
        × (string_bytes out.new ≡ string_bytes out.old ++ encode_utf8_all cs)
        × IsTrue (is_json_text cs)) }
{
    let mut rest = units;
    while let Some((c, behind)) = first_character(rest) {
        push_json(out, c)?;
        rest = behind;
    }
    Ok(())
}

/// Writes a text in UTF-16 as the value of a label in Prometheus' text format: `\`, `"` and ends
/// of lines are escaped, and half of a surrogate pair becomes U+FFFD.
pub fn label(out: &mut String, units: &[u16]) -> Result<(), AllocError>
    ensures text { OnOk result (string_bytes out.new ≡ string_bytes out.old
        ++ encode_utf8_all (flat_map label_piece (utf16_lossy_chars units.now))) }
    ensures escaped { OnOk result ((cs : List ℕ)
        × (string_bytes out.new ≡ string_bytes out.old ++ encode_utf8_all cs)
        × IsTrue (is_label_text cs)) }
{
    let mut rest = units;
    while let Some((c, behind)) = first_character(rest) {
        push_label(out, c)?;
        rest = behind;
    }
    Ok(())
}
