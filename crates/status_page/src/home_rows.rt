//! Endpoints and calls, on the page for people.

ghost use Rattle.std.specs.Prelude.{◌≡◌, ◌++◌, OnOk};
ghost use Rattle.std.specs.String.{string_bytes};
ghost use Rattle.status_page.specs.HomeRows.{alias_html, aliases_html, call_html, call_rows};
ghost use Rattle.status_page.specs.HomeRows.{call_table, calls_html, endpoint_html, endpoint_rows};
ghost use Rattle.status_page.specs.HomeRows.{endpoint_table, endpoints_html, more_html};
ghost use Rattle.status_page.specs.HomeRows.{second_html, shown_html};

use crate::html_parts::{push_html, push_span, push_tenths};
use crate::text_parts::{push_address, push_key, push_number, units_of};
use ras_module::{Alias, EndpointId};
use std::alloc::AllocError;
use zone_view::{CallRow, EndpointRow};

/// Writes the table of endpoints, or that there are none. The clock is that of the zone, in
/// milliseconds.
pub(crate) fn push_endpoints(
    out: &mut String,
    rows: &[Box<EndpointRow>],
    clock: u64,
) -> Result<(), AllocError>
    ensures { OnOk result (string_bytes out.new
        ≡ string_bytes out.old ++ endpoints_html clock rows.now) }
{
    if rows.is_empty() {
        return out.push_str("<p class=none>There are no endpoints to show.</p>\n");
    }
    push_endpoint_table(out, rows, clock)
}

/// Writes the table of endpoints.
#[tactic(auto, unfolding(crate::specs::HomeRows::endpoint_table))]
fn push_endpoint_table(
    out: &mut String,
    rows: &[Box<EndpointRow>],
    clock: u64,
) -> Result<(), AllocError>
    ensures { OnOk result (string_bytes out.new
        ≡ string_bytes out.old ++ endpoint_table clock rows.now) }
{
    out.push_str("<div class=wide><table><thead><tr><th>Identifier<th>Aliases<th>Call signalling")?;
    out.push_str(
        "<th>RAS<th class=n>Calls<th class=n>Ends in<th class=n>Last heard</tr></thead><tbody>\n",
    )?;
    push_endpoint_rows(out, rows, clock)?;
    out.push_str("</tbody></table></div>\n")?;
    Ok(())
}

/// Writes rows of the table of endpoints.
fn push_endpoint_rows(
    out: &mut String,
    rows: &[Box<EndpointRow>],
    clock: u64,
) -> Result<(), AllocError>
    ensures { OnOk result (string_bytes out.new
        ≡ string_bytes out.old ++ endpoint_rows clock rows.now) }
{
    for row in rows {
        push_endpoint(out, row, clock)?;
    }
    Ok(())
}

/// Writes a row of the table of endpoints.
#[tactic(auto, unfolding(crate::specs::HomeRows::endpoint_html))]
fn push_endpoint(out: &mut String, row: &EndpointRow, clock: u64) -> Result<(), AllocError>
    ensures { OnOk result (string_bytes out.new
        ≡ string_bytes out.old ++ endpoint_html clock row.now) }
{
    push_html(out, "<tr><td><code>", row.identifier.as_slice())?;
    out.push_str("</code><td class=a>")?;
    push_aliases(out, row.aliases.as_slice(), row.alias_count)?;
    push_address(out, "<td>", row.call_signal)?;
    push_address(out, "<td>", row.ras)?;
    push_number(out, "<td class=n>", row.legs as u64)?;
    out.push_str("<td class=n>")?;
    push_span(out, row.deadline.saturating_sub(clock))?;
    out.push_str("<td class=n>")?;
    push_span(out, clock.saturating_sub(row.heard))?;
    out.push_str(" ago</tr>\n")?;
    Ok(())
}

/// Writes the first aliases of an endpoint, and how many more it has.
fn push_aliases(out: &mut String, shown: &[Alias], count: usize) -> Result<(), AllocError>
    ensures { OnOk result (string_bytes out.new
        ≡ string_bytes out.old ++ aliases_html shown.now count) }
{
    push_each_alias(out, shown)?;
    push_more(out, count.saturating_sub(shown.len()) as u64)
}

/// Writes how many more there are, if there are any.
fn push_more(out: &mut String, number: u64) -> Result<(), AllocError>
    ensures { OnOk result (string_bytes out.new ≡ string_bytes out.old ++ more_html number) }
{
    if number == 0 {
        return Ok(());
    }
    push_number(out, " and ", number)?;
    out.push_str(" more")
}

/// Writes aliases, with commas between them.
fn push_each_alias(out: &mut String, aliases: &[Alias]) -> Result<(), AllocError>
    ensures { OnOk result (string_bytes out.new
        ≡ string_bytes out.old ++ shown_html aliases.now) }
{
    let mut before = "";
    for alias in aliases {
        push_alias(out, before, alias)?;
        before = ", ";
    }
    Ok(())
}

/// Writes a text, and an alias behind it.
#[tactic(auto, unfolding(crate::specs::HomeRows::alias_html))]
fn push_alias(out: &mut String, before: &str, alias: &Alias) -> Result<(), AllocError>
    ensures { OnOk result (string_bytes out.new
        ≡ string_bytes out.old ++ (before.now ++ alias_html alias.now)) }
{
    out.push_str(before)?;
    push_html(out, "<bdi>", units_of(alias))?;
    out.push_str("</bdi>")
}

/// Writes the table of calls, or that there are none.
pub(crate) fn push_calls(out: &mut String, rows: &[Box<CallRow>]) -> Result<(), AllocError>
    ensures { OnOk result (string_bytes out.new ≡ string_bytes out.old ++ calls_html rows.now) }
{
    if rows.is_empty() {
        return out.push_str("<p class=none>There are no calls to show.</p>\n");
    }
    push_call_table(out, rows)
}

/// Writes the table of calls.
#[tactic(auto, unfolding(crate::specs::HomeRows::call_table))]
fn push_call_table(out: &mut String, rows: &[Box<CallRow>]) -> Result<(), AllocError>
    ensures { OnOk result (string_bytes out.new ≡ string_bytes out.old ++ call_table rows.now) }
{
    out.push_str(
        "<div class=wide><table><thead><tr><th>First endpoint<th>Second endpoint<th class=n>Units",
    )?;
    out.push_str("<th class=n>kbit/s<th class=n>Pool<th>Key</tr></thead><tbody>\n")?;
    push_call_rows(out, rows)?;
    out.push_str("</tbody></table></div>\n")?;
    Ok(())
}

/// Writes rows of the table of calls.
fn push_call_rows(out: &mut String, rows: &[Box<CallRow>]) -> Result<(), AllocError>
    ensures { OnOk result (string_bytes out.new ≡ string_bytes out.old ++ call_rows rows.now) }
{
    for row in rows {
        push_call(out, row)?;
    }
    Ok(())
}

/// Writes a row of the table of calls.
#[tactic(auto, unfolding(crate::specs::HomeRows::call_html))]
fn push_call(out: &mut String, row: &CallRow) -> Result<(), AllocError>
    ensures { OnOk result (string_bytes out.new ≡ string_bytes out.old ++ call_html row.now) }
{
    push_html(out, "<tr><td><code>", row.first.as_slice())?;
    out.push_str("</code><td>")?;
    push_second(out, &row.second)?;
    push_number(out, "<td class=n>", u64::from(row.units))?;
    push_tenths(out, "<td class=n>", u64::from(row.units))?;
    push_number(out, "<td class=n>", row.pool as u64)?;
    push_key(out, "<td><code>", row.key)?;
    out.push_str("</code></tr>\n")?;
    Ok(())
}

/// Writes the identifier of the other endpoint of a call, or that there is none.
#[tactic(auto, unfolding(crate::specs::HomeRows::second_html))]
fn push_second(out: &mut String, second: &Option<EndpointId>) -> Result<(), AllocError>
    ensures { OnOk result (string_bytes out.new
        ≡ string_bytes out.old ++ second_html second.now) }
{
    match second {
        Some(identifier) => {
            push_html(out, "<code>", identifier.as_slice())?;
            out.push_str("</code>")
        }
        None => out.push_str("<span class=none>none</span>"),
    }
}
