//! Endpoints in JSON.

ghost use Rattle.std.specs.Prelude.{◌≡◌, ◌++◌, IfOk, OnOk, codes};
ghost use Rattle.std.specs.String.{string_bytes};
ghost use Rattle.status_page.specs.JsonRows.{alias_front, alias_json, endpoint_json};
ghost use Rattle.status_page.specs.JsonRows.{endpoints_text};
ghost use Rattle.status_page.specs.JsonRows.{last_of, next_endpoint_json};
ghost use Rattle.status_page.specs.Texts.{with_commas};
ghost use Rattle.status_page.specs.declared.response.Content.TheVariants.{Json};
ghost use Rattle.status_page.specs.declared.response.Status.TheVariants.{Found};

use crate::lists::EndpointList;
use crate::response::{Content, Response, found};
use crate::text_parts::{push_address, push_json, push_number, units_of};
use ras_module::Alias;
use std::alloc::{AllocError, Global};
use zone_view::EndpointRow;

/// A list of endpoints in JSON: their rows, and the `after` of the next list, or null if this is
/// the last one.
pub fn endpoints_json(alloc: Global, list: &EndpointList) -> Result<Response, AllocError>
    ensures found { IfOk result (λ response. response.status ≡ Found) }
    ensures content { IfOk result (λ response. response.content ≡ Json) }
    ensures text { IfOk result (λ response.
        string_bytes response.text ≡ endpoints_text list.now.rows.items list.now.is_more) }
{
    let mut text = String::new(alloc);
    let rows = list.rows.as_slice();
    text.push_str("{\"endpoints\":[")?;
    push_endpoints(&mut text, rows)?;
    text.push_str("],\"next\":")?;
    push_next(&mut text, list.is_more, rows)?;
    text.push_str("}\n")?;
    Ok(found(Content::Json, text))
}

/// Writes the `after` of the next list behind these rows, or null if there is none.
#[tactic(auto, unfolding(crate::specs::JsonRows::next_endpoint_json))]
fn push_next(out: &mut String, is_more: bool, rows: &[Box<EndpointRow>]) -> Result<(), AllocError>
    ensures { OnOk result (string_bytes out.new
        ≡ string_bytes out.old ++ next_endpoint_json is_more (last_of rows.now)) }
{
    match rows.last() {
        Some(row) if is_more => {
            push_json(out, "\"", row.identifier.as_slice())?;
            out.push_str("\"")
        }
        _ => out.push_str("null"),
    }
}

/// Writes endpoints, with commas between them.
fn push_endpoints(out: &mut String, rows: &[Box<EndpointRow>]) -> Result<(), AllocError>
    ensures { OnOk result (string_bytes out.new
        ≡ string_bytes out.old ++ with_commas (λ row. endpoint_json row.value) rows.now) }
{
    let mut before = "";
    for row in rows {
        push_endpoint(out, before, row)?;
        before = ",";
    }
    Ok(())
}

/// Writes a text, and an endpoint behind it.
#[tactic(auto, unfolding(crate::specs::JsonRows::endpoint_json))]
fn push_endpoint(out: &mut String, before: &str, row: &EndpointRow) -> Result<(), AllocError>
    ensures { OnOk result (string_bytes out.new
        ≡ string_bytes out.old ++ (before.now ++ endpoint_json row.now)) }
{
    out.push_str(before)?;
    push_json(out, "{\"identifier\":\"", row.identifier.as_slice())?;
    push_address(out, "\",\"call_signal\":\"", row.call_signal)?;
    push_address(out, "\",\"ras\":\"", row.ras)?;
    out.push_str("\",\"aliases\":[")?;
    push_aliases(out, row.aliases.as_slice())?;
    push_number(out, "],\"alias_count\":", row.alias_count as u64)?;
    push_number(out, ",\"calls\":", row.legs as u64)?;
    push_number(out, ",\"deadline\":", row.deadline)?;
    push_number(out, ",\"heard\":", row.heard)?;
    out.push_str("}")?;
    Ok(())
}

/// Writes aliases, with commas between them.
fn push_aliases(out: &mut String, aliases: &[Alias]) -> Result<(), AllocError>
    ensures { OnOk result (string_bytes out.new
        ≡ string_bytes out.old ++ with_commas alias_json aliases.now) }
{
    let mut before = "";
    for alias in aliases {
        push_alias(out, before, alias)?;
        before = ",";
    }
    Ok(())
}

/// Writes a text, and an alias behind it, as in `{"digits":"100"}`.
#[tactic(auto, unfolding(crate::specs::JsonRows::alias_json))]
fn push_alias(out: &mut String, before: &str, alias: &Alias) -> Result<(), AllocError>
    ensures { OnOk result (string_bytes out.new
        ≡ string_bytes out.old ++ (before.now ++ alias_json alias.now)) }
{
    out.push_str(before)?;
    push_json(out, alias_front(alias), units_of(alias))?;
    out.push_str("\"}")
}

/// What stands before the characters of an alias.
fn alias_front(alias: &Alias) -> &'static str
    ensures { result.now ≡ alias_front alias.now }
{
    match alias {
        Alias::Digits(_) => "{\"digits\":\"",
        Alias::H323Id(_) => "{\"h323_id\":\"",
    }
}
