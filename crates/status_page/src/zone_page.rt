//! The figures and counts of a zone in JSON.

ghost use Rattle.std.specs.Prelude.{◌≡◌, ◌++◌, IfOk, OnOk};
ghost use Rattle.std.specs.String.{string_bytes};
ghost use Rattle.status_page.specs.JsonZone.{about_json, counts_json, figures_json, member_json};
ghost use Rattle.status_page.specs.JsonZone.{members_json, pool_json, reject_json, rejects_json};
ghost use Rattle.status_page.specs.JsonZone.{server_json, zone_text};
ghost use Rattle.status_page.specs.Texts.{with_commas};
ghost use Rattle.status_page.specs.declared.response.Content.TheVariants.{Json};
ghost use Rattle.status_page.specs.declared.response.Status.TheVariants.{Found};

use crate::counted::{answers, ignored, label_of, replies, requests, turns};
use crate::overview::{About, Overview};
use crate::response::{Content, Response, found};
use crate::text_parts::{push_address, push_json, push_number};
use pools::Figures;
use std::alloc::{AllocError, Global};
use zone_view::{Count, Counts, Reject, ServerFigures, ZoneFigures};

/// A zone in JSON: its name and address, its figures, those of its pools, what was counted of its
/// steps, and what its server counted.
pub fn zone_json(alloc: Global, about: &About, overview: &Overview) -> Result<Response, AllocError>
    ensures found { IfOk result (λ response. response.status ≡ Found) }
    ensures content { IfOk result (λ response. response.content ≡ Json) }
    ensures text { IfOk result (λ response.
        string_bytes response.text ≡ zone_text about.now overview.now) }
{
    let mut text = String::new(alloc);
    text.push_str("{")?;
    push_about(&mut text, about)?;
    push_figures(&mut text, &overview.figures)?;
    text.push_str(",\"pools\":[")?;
    push_pools(&mut text, overview.pools.as_slice())?;
    text.push_str("],\"counts\":")?;
    push_counts(&mut text, &overview.counts)?;
    text.push_str(",\"server\":")?;
    push_server(&mut text, &overview.server)?;
    text.push_str("}\n")?;
    Ok(found(Content::Json, text))
}

/// Writes what a zone is called, and where it is served.
#[tactic(auto, unfolding(crate::specs::JsonZone::about_json))]
fn push_about(out: &mut String, about: &About) -> Result<(), AllocError>
    ensures { OnOk result (string_bytes out.new ≡ string_bytes out.old ++ about_json about.now) }
{
    push_json(out, "\"name\":\"", about.name.as_slice())?;
    push_address(out, "\",\"address\":\"", about.address)?;
    out.push_str("\"")
}

/// Writes the figures of a zone.
#[tactic(auto, unfolding(crate::specs::JsonZone::figures_json))]
fn push_figures(out: &mut String, figures: &ZoneFigures) -> Result<(), AllocError>
    ensures { OnOk result (string_bytes out.new
        ≡ string_bytes out.old ++ figures_json figures.now) }
{
    push_number(out, ",\"clock\":", figures.clock)?;
    push_number(out, ",\"steps\":", figures.steps)?;
    push_number(out, ",\"endpoints\":", figures.endpoints as u64)?;
    push_number(out, ",\"calls\":", figures.calls as u64)?;
    push_number(out, ",\"kept\":", figures.kept as u64)?;
    push_number(out, ",\"in_use\":", figures.in_use)?;
    push_number(out, ",\"limit\":", figures.limit)?;
    Ok(())
}

/// Writes the figures of pools, with commas between them.
fn push_pools(out: &mut String, pools: &[Figures]) -> Result<(), AllocError>
    ensures { OnOk result (string_bytes out.new
        ≡ string_bytes out.old ++ with_commas pool_json pools.now) }
{
    let mut before = "";
    for pool in pools {
        push_pool(out, before, pool)?;
        before = ",";
    }
    Ok(())
}

/// Writes a text, and the figures of a pool behind it.
#[tactic(auto, unfolding(crate::specs::JsonZone::pool_json))]
fn push_pool(out: &mut String, before: &str, pool: &Figures) -> Result<(), AllocError>
    ensures { OnOk result (string_bytes out.new
        ≡ string_bytes out.old ++ (before.now ++ pool_json pool.now)) }
{
    out.push_str(before)?;
    push_number(out, "{\"limit\":", pool.limit)?;
    push_number(out, ",\"lent\":", pool.lent)?;
    push_number(out, ",\"refusals\":", pool.refusals)?;
    push_number(out, ",\"waits\":", pool.waits)?;
    out.push_str("}")?;
    Ok(())
}

/// Writes what was counted.
#[tactic(auto, unfolding(crate::specs::JsonZone::counts_json))]
fn push_counts(out: &mut String, counts: &Counts) -> Result<(), AllocError>
    ensures { OnOk result (string_bytes out.new
        ≡ string_bytes out.old ++ counts_json counts.now) }
{
    push_members(out, "{\"requests\":", counts, &requests())?;
    push_members(out, ",\"replies\":", counts, &replies())?;
    out.push_str(",\"rejects\":")?;
    push_rejects(out, counts, &Reject::ALL)?;
    push_members(out, ",\"ignored\":", counts, &ignored())?;
    push_members(out, ",\"turns\":", counts, &turns())?;
    push_members(out, ",\"answers\":", counts, &answers())?;
    push_number(out, ",\"repeats\":", counts.get(Count::Repeat))?;
    out.push_str("}")?;
    Ok(())
}

/// Writes a text, and an object behind it with how often each of these kinds came.
#[tactic(auto, unfolding(crate::specs::JsonZone::members_json))]
fn push_members(
    out: &mut String,
    before: &str,
    counts: &Counts,
    kinds: &[Count],
) -> Result<(), AllocError>
    ensures { OnOk result (string_bytes out.new
        ≡ string_bytes out.old ++ before.now ++ members_json counts.now kinds.now) }
{
    out.push_str(before)?;
    out.push_str("{")?;
    push_each_member(out, counts, kinds)?;
    out.push_str("}")
}

/// Writes how often each of these kinds came, with commas between them.
fn push_each_member(out: &mut String, counts: &Counts, kinds: &[Count]) -> Result<(), AllocError>
    ensures { OnOk result (string_bytes out.new
        ≡ string_bytes out.old ++ with_commas (member_json counts.now) kinds.now) }
{
    let mut before = "";
    for kind in kinds {
        push_member(out, before, counts, *kind)?;
        before = ",";
    }
    Ok(())
}

/// Writes a text, and how often something came behind it, as in `"GRQ":7`.
#[tactic(auto, unfolding(crate::specs::JsonZone::member_json))]
fn push_member(
    out: &mut String,
    before: &str,
    counts: &Counts,
    kind: Count,
) -> Result<(), AllocError>
    ensures { OnOk result (string_bytes out.new
        ≡ string_bytes out.old ++ (before.now ++ member_json counts.now kind)) }
{
    out.push_str(before)?;
    out.push_str("\"")?;
    out.push_str(label_of(kind))?;
    push_number(out, "\":", counts.get(kind))
}

/// Writes a list of how often requests were rejected for each of these reasons.
#[tactic(auto, unfolding(crate::specs::JsonZone::rejects_json))]
fn push_rejects(out: &mut String, counts: &Counts, rejects: &[Reject]) -> Result<(), AllocError>
    ensures { OnOk result (string_bytes out.new
        ≡ string_bytes out.old ++ rejects_json counts.now rejects.now) }
{
    out.push_str("[")?;
    push_each_reject(out, counts, rejects)?;
    out.push_str("]")
}

/// Writes how often requests were rejected for each of these reasons, with commas between them.
fn push_each_reject(out: &mut String, counts: &Counts, rejects: &[Reject]) -> Result<(), AllocError>
    ensures { OnOk result (string_bytes out.new
        ≡ string_bytes out.old ++ with_commas (reject_json counts.now) rejects.now) }
{
    let mut before = "";
    for reject in rejects {
        push_reject(out, before, counts, *reject)?;
        before = ",";
    }
    Ok(())
}

/// Writes a text, and how often requests were rejected for a reason behind it.
#[tactic(auto, unfolding(crate::specs::JsonZone::reject_json))]
fn push_reject(
    out: &mut String,
    before: &str,
    counts: &Counts,
    reject: Reject,
) -> Result<(), AllocError>
    ensures { OnOk result (string_bytes out.new
        ≡ string_bytes out.old ++ (before.now ++ reject_json counts.now reject)) }
{
    out.push_str(before)?;
    out.push_str("{\"message\":\"")?;
    out.push_str(reject.message().label())?;
    out.push_str("\",\"reason\":\"")?;
    out.push_str(reject.label())?;
    push_number(out, "\",\"count\":", counts.get(Count::Reject(reject)))?;
    out.push_str("}")?;
    Ok(())
}

/// Writes what the server counted.
#[tactic(auto, unfolding(crate::specs::JsonZone::server_json))]
fn push_server(out: &mut String, server: &ServerFigures) -> Result<(), AllocError>
    ensures { OnOk result (string_bytes out.new
        ≡ string_bytes out.old ++ server_json server.now) }
{
    push_number(out, "{\"received\":", server.received)?;
    push_number(out, ",\"sent\":", server.sent)?;
    push_number(out, ",\"dropped\":", server.dropped)?;
    push_number(out, ",\"refused\":", server.refused)?;
    push_number(out, ",\"receive_faults\":", server.receive_faults)?;
    push_number(out, ",\"send_faults\":", server.send_faults)?;
    out.push_str("}")?;
    Ok(())
}
