//! What one character becomes.

ghost use Rattle.std.specs.Prelude.{◌≡◌, ◌++◌, ◌<◌, OnOk};
ghost use Rattle.std.specs.Str.{encode_utf8_all};
ghost use Rattle.std.specs.String.{string_bytes};
ghost use Rattle.escapes.specs.Escapes.{hex_digit, html_piece, json_piece, label_piece};

use std::alloc::AllocError;

/// Writes a character as text in HTML, also between quotes.
pub(crate) fn push_html(out: &mut String, c: char) -> Result<(), AllocError>
    ensures { OnOk result (string_bytes out.new
        ≡ string_bytes out.old ++ encode_utf8_all (html_piece c)) }
{
    match c {
        '&' => out.push_str("&amp;"),
        '<' => out.push_str("&lt;"),
        '>' => out.push_str("&gt;"),
        '"' => out.push_str("&quot;"),
        '\'' => out.push_str("&#39;"),
        c => out.push(c),
    }
}

/// Writes a character as text in the value of a label, in Prometheus' text format.
pub(crate) fn push_label(out: &mut String, c: char) -> Result<(), AllocError>
    ensures { OnOk result (string_bytes out.new
        ≡ string_bytes out.old ++ encode_utf8_all (label_piece c)) }
{
    match c {
        '\\' => out.push_str("\\\\"),
        '"' => out.push_str("\\\""),
        '\n' => out.push_str("\\n"),
        c => out.push(c),
    }
}

/// Writes a character as text between the quotes of a string in JSON.
pub(crate) fn push_json(out: &mut String, c: char) -> Result<(), AllocError>
    ensures { OnOk result (string_bytes out.new
        ≡ string_bytes out.old ++ encode_utf8_all (json_piece c)) }
{
    match c {
        '\\' => out.push_str("\\\\"),
        '"' => out.push_str("\\\""),
        '<' => out.push_str("\\u003c"),
        '\u{2028}' => out.push_str("\\u2028"),
        '\u{2029}' => out.push_str("\\u2029"),
        '\0'..='\x1f' | '\x7f'..='\u{9f}' => {
            let code = c as u8;
            out.push_str("\\u00")?;
            out.push(hex_digit(code / 16))?;
            out.push(hex_digit(code % 16))
        }
        c => out.push(c),
    }
}

/// The digit of a number below 16.
fn hex_digit(number: u8) -> char
    requires { number < 16 }
    ensures { result ≡ hex_digit number }
{
    char::from(if number < 10 {
        b'0' + number
    } else {
        b'a' - 10 + number
    })
}
