//! Calls in JSON.

ghost use Rattle.std.specs.Prelude.{◌≡◌, ◌++◌, IfOk, OnOk};
ghost use Rattle.std.specs.String.{string_bytes};
ghost use Rattle.status_page.specs.JsonRows.{call_json, calls_text, last_of, next_call_json};
ghost use Rattle.status_page.specs.JsonRows.{second_json};
ghost use Rattle.status_page.specs.Texts.{with_commas};
ghost use Rattle.status_page.specs.declared.response.Content.TheVariants.{Json};
ghost use Rattle.status_page.specs.declared.response.Status.TheVariants.{Found};

use crate::lists::CallList;
use crate::response::{Content, Response, found};
use crate::text_parts::{push_json, push_key, push_number};
use ras_module::EndpointId;
use std::alloc::{AllocError, Global};
use zone_view::CallRow;

/// A list of calls in JSON: their rows, and the `after` of the next list, or null if this is the
/// last one.
pub fn calls_json(alloc: Global, list: &CallList) -> Result<Response, AllocError>
    ensures found { IfOk result (λ response. response.status ≡ Found) }
    ensures content { IfOk result (λ response. response.content ≡ Json) }
    ensures text { IfOk result (λ response.
        string_bytes response.text ≡ calls_text list.now.rows.items list.now.is_more) }
{
    let mut text = String::new(alloc);
    let rows = list.rows.as_slice();
    text.push_str("{\"calls\":[")?;
    push_calls(&mut text, rows)?;
    text.push_str("],\"next\":")?;
    push_next(&mut text, list.is_more, rows)?;
    text.push_str("}\n")?;
    Ok(found(Content::Json, text))
}

/// Writes the `after` of the next list behind these rows, or null if there is none.
#[tactic(auto, unfolding(crate::specs::JsonRows::next_call_json))]
fn push_next(out: &mut String, is_more: bool, rows: &[Box<CallRow>]) -> Result<(), AllocError>
    ensures { OnOk result (string_bytes out.new
        ≡ string_bytes out.old ++ next_call_json is_more (last_of rows.now)) }
{
    match rows.last() {
        Some(row) if is_more => {
            push_key(out, "\"", row.key)?;
            out.push_str("\"")
        }
        _ => out.push_str("null"),
    }
}

/// Writes calls, with commas between them.
fn push_calls(out: &mut String, rows: &[Box<CallRow>]) -> Result<(), AllocError>
    ensures { OnOk result (string_bytes out.new
        ≡ string_bytes out.old ++ with_commas (λ row. call_json row.value) rows.now) }
{
    let mut before = "";
    for row in rows {
        push_call(out, before, row)?;
        before = ",";
    }
    Ok(())
}

/// Writes a text, and a call behind it.
#[tactic(auto, unfolding(crate::specs::JsonRows::call_json))]
fn push_call(out: &mut String, before: &str, row: &CallRow) -> Result<(), AllocError>
    ensures { OnOk result (string_bytes out.new
        ≡ string_bytes out.old ++ (before.now ++ call_json row.now)) }
{
    out.push_str(before)?;
    push_key(out, "{\"key\":\"", row.key)?;
    push_number(out, "\",\"pool\":", row.pool as u64)?;
    push_number(out, ",\"units\":", u64::from(row.units))?;
    push_json(out, ",\"first\":\"", row.first.as_slice())?;
    out.push_str("\",\"second\":")?;
    push_second(out, &row.second)?;
    out.push_str("}")?;
    Ok(())
}

/// Writes the identifier of the other endpoint of a call, or null if there is none yet.
#[tactic(auto, unfolding(crate::specs::JsonRows::second_json))]
fn push_second(out: &mut String, second: &Option<EndpointId>) -> Result<(), AllocError>
    ensures { OnOk result (string_bytes out.new
        ≡ string_bytes out.old ++ second_json second.now) }
{
    match second {
        Some(identifier) => {
            push_json(out, "\"", identifier.as_slice())?;
            out.push_str("\"")
        }
        None => out.push_str("null"),
    }
}
