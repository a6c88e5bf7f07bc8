//! Parts of the page for people.

ghost use Rattle.std.specs.Prelude.{◌≡◌, ◌++◌, OnOk, option_copied};
ghost use Rattle.std.specs.String.{string_bytes};
ghost use Rattle.status_page.specs.HomeParts.{bar_html, calls_behind, days_text};
ghost use Rattle.status_page.specs.HomeParts.{endpoints_behind, hours_text, html_text, link_html};
ghost use Rattle.status_page.specs.HomeParts.{shade, spaced, span_text, tenths_text, thousandths};
ghost use Rattle.status_page.specs.HomeParts.{tile_html, value_text, words_of};

use crate::text_parts::{push_key, push_number};
use escapes::html;
use percent_encoding::{NON_ALPHANUMERIC, utf8_percent_encode};
use ras_module::{CallKey, EndpointId};
use std::alloc::AllocError;

/// Writes a text, and characters of strangers behind it, as text in HTML.
pub(crate) fn push_html(out: &mut String, before: &str, units: &[u16]) -> Result<(), AllocError>
    ensures { OnOk result (string_bytes out.new
        ≡ string_bytes out.old ++ before.now ++ html_text units.now) }
{
    out.push_str(before)?;
    html(out, units)
}

/// Writes a text, and characters behind it as a value in a query: percent-encoded, in UTF-8.
fn push_value(out: &mut String, before: &str, units: &[u16]) -> Result<(), AllocError>
    ensures { OnOk result (string_bytes out.new
        ≡ string_bytes out.old ++ before.now ++ value_text units.now) }
{
    let text = String::from_utf16_lossy(*out.allocator(), units)?;
    out.push_str(before)?;
    utf8_percent_encode(text.as_str(), NON_ALPHANUMERIC).append_to(out)
}

/// Writes how long something lasts: days, hours and minutes, or seconds if it's under a minute.
#[tactic(auto, unfolding(crate::specs::HomeParts::span_text))]
pub(crate) fn push_span(out: &mut String, milliseconds: u64) -> Result<(), AllocError>
    ensures { OnOk result (string_bytes out.new
        ≡ string_bytes out.old ++ span_text milliseconds) }
{
    let seconds = milliseconds / 1_000;
    if seconds < 60 {
        push_number(out, "", seconds)?;
        return out.push_str(" s");
    }
    push_days(out, seconds)?;
    push_hours(out, seconds)?;
    push_number(out, "", seconds / 60 % 60)?;
    out.push_str(" min")
}

/// Writes how many days there are in these seconds, if there are any.
fn push_days(out: &mut String, seconds: u64) -> Result<(), AllocError>
    ensures { OnOk result (string_bytes out.new ≡ string_bytes out.old ++ days_text seconds) }
{
    if seconds < 86_400 {
        return Ok(());
    }
    push_number(out, "", seconds / 86_400)?;
    out.push_str(" d ")
}

/// Writes how many hours there are in these seconds beside the days, if it's an hour or more.
fn push_hours(out: &mut String, seconds: u64) -> Result<(), AllocError>
    ensures { OnOk result (string_bytes out.new ≡ string_bytes out.old ++ hours_text seconds) }
{
    if seconds < 3_600 {
        return Ok(());
    }
    push_number(out, "", seconds / 3_600 % 24)?;
    out.push_str(" h ")
}

/// Writes a text, and a number of tenths behind it, as in `6.4`.
#[tactic(auto, unfolding(crate::specs::HomeParts::tenths_text))]
pub(crate) fn push_tenths(out: &mut String, before: &str, tenths: u64) -> Result<(), AllocError>
    ensures { OnOk result (string_bytes out.new
        ≡ string_bytes out.old ++ before.now ++ tenths_text tenths) }
{
    push_number(out, before, tenths / 10)?;
    push_number(out, ".", tenths % 10)
}

/// Writes a label, with spaces in place of its underscores.
#[tactic(auto, unfolding(crate::specs::HomeParts::words_of))]
pub(crate) fn push_words(out: &mut String, label: &str) -> Result<(), AllocError>
    ensures { OnOk result (string_bytes out.new ≡ string_bytes out.old ++ words_of label.now) }
{
    for character in label.chars() {
        out.push(spaced(character))?;
    }
    Ok(())
}

/// A space in place of an underscore, and else the character itself.
fn spaced(character: char) -> char
    ensures { result ≡ spaced character }
{
    match character {
        '_' => ' ',
        _ => character,
    }
}

/// How many thousandths a part is of a whole: at most 1,000; 0 of nothing.
#[tactic(auto, unfolding(crate::specs::HomeParts::thousandths))]
fn thousandths(part: u64, whole: u64) -> u64
    ensures { result ≡ thousandths part whole }
{
    if whole == 0 {
        return 0;
    }
    let share = u128::from(part) * 1_000 / u128::from(whole);
    share.min(1_000) as u64
}

/// Writes a bar that shows bandwidth in use against a limit, in units of 100 bit/s and in kbit/s.
/// The title is HTML.
#[tactic(auto, unfolding(crate::specs::HomeParts::bar_html))]
pub(crate) fn push_bar(
    out: &mut String,
    title: &str,
    in_use: u64,
    limit: u64,
) -> Result<(), AllocError>
    ensures { OnOk result (string_bytes out.new
        ≡ string_bytes out.old ++ bar_html title.now in_use limit) }
{
    let share = thousandths(in_use, limit);
    out.push_str("<div class=bar><p><b>")?;
    out.push_str(title)?;
    push_tenths(out, "</b><b>", share)?;
    out.push_str(" %</b></p><div><i")?;
    out.push_str(shade(share))?;
    push_tenths(out, " style=\"width:", share)?;
    push_number(out, "%\"></i></div><p><span>", in_use)?;
    push_number(out, " of ", limit)?;
    push_tenths(out, " units</span><span>", in_use)?;
    push_tenths(out, " of ", limit)?;
    out.push_str(" kbit/s</span></p></div>\n")?;
    Ok(())
}

/// The attribute that gives a bar its shade: a warning from three quarters on, and an alarm from
/// nineteen twentieths on.
#[tactic(auto, unfolding(crate::specs::HomeParts::shade))]
fn shade(share: u64) -> &'static str
    ensures { result.now ≡ shade share }
{
    match share {
        0..750 => "",
        750..950 => " class=warn",
        _ => " class=bad",
    }
}

/// Writes a tile: a number, and what it counts.
#[tactic(auto, unfolding(crate::specs::HomeParts::tile_html))]
pub(crate) fn push_tile(out: &mut String, number: u64, label: &str) -> Result<(), AllocError>
    ensures { OnOk result (string_bytes out.new
        ≡ string_bytes out.old ++ tile_html number label.now) }
{
    push_number(out, "<div><b>", number)?;
    out.push_str("</b><span>")?;
    out.push_str(label)?;
    out.push_str("</span></div>\n")
}

/// Writes a link to this page with the endpoints behind this one, and the calls behind this one.
#[tactic(auto, unfolding(crate::specs::HomeParts::link_html))]
pub(crate) fn push_link(
    out: &mut String,
    words: &str,
    endpoint: Option<&EndpointId>,
    call: Option<CallKey>,
) -> Result<(), AllocError>
    ensures { OnOk result (string_bytes out.new
        ≡ string_bytes out.old ++ link_html words.now (option_copied endpoint.entry) call) }
{
    out.push_str("<a href=\"/?")?;
    push_endpoints_behind(out, endpoint)?;
    push_calls_behind(out, call)?;
    out.push_str("\">")?;
    out.push_str(words)?;
    out.push_str("</a>\n")?;
    Ok(())
}

/// Writes the parameter for the endpoints behind this one, if there is one.
#[tactic(auto, unfolding(crate::specs::HomeParts::endpoints_behind))]
fn push_endpoints_behind(out: &mut String, endpoint: Option<&EndpointId>) -> Result<(), AllocError>
    ensures { OnOk result (string_bytes out.new
        ≡ string_bytes out.old ++ endpoints_behind (option_copied endpoint.entry)) }
{
    match endpoint {
        Some(identifier) => push_value(out, "endpoints=", identifier.as_slice()),
        None => Ok(()),
    }
}

/// Writes the parameter for the calls behind this one, if there is one.
#[tactic(auto, unfolding(crate::specs::HomeParts::calls_behind))]
fn push_calls_behind(out: &mut String, call: Option<CallKey>) -> Result<(), AllocError>
    ensures { OnOk result (string_bytes out.new ≡ string_bytes out.old ++ calls_behind call) }
{
    match call {
        Some(key) => push_key(out, "&amp;calls=", key),
        None => Ok(()),
    }
}
