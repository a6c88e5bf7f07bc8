//! What was counted, on the page for people.

ghost use Rattle.std.specs.Prelude.{◌≡◌, ◌++◌, OnOk};
ghost use Rattle.std.specs.String.{string_bytes};
ghost use Rattle.status_page.specs.HomeCounts.{counts_html, entries_html, entry_html, list_html};
ghost use Rattle.status_page.specs.HomeCounts.{is_none_rejected, number_front, number_html};
ghost use Rattle.status_page.specs.HomeCounts.{reject_entries, reject_html, rejects_end};
ghost use Rattle.status_page.specs.HomeCounts.{rejects_html, server_html};

use crate::counted::{answers, ignored, label_of, replies, requests, turns};
use crate::html_parts::push_words;
use crate::text_parts::push_number;
use std::alloc::AllocError;
use zone_view::{Count, Counts, Reject, ServerFigures};

/// Writes what was counted of the steps of a zone, and by its server.
#[tactic(auto, unfolding(crate::specs::HomeCounts::counts_html))]
pub(crate) fn push_counts(
    out: &mut String,
    counts: &Counts,
    server: &ServerFigures,
) -> Result<(), AllocError>
    ensures { OnOk result (string_bytes out.new
        ≡ string_bytes out.old ++ counts_html counts.now server.now) }
{
    out.push_str("<section id=traffic><h2>Traffic</h2><div class=counts>\n")?;
    push_list(out, "Requests", counts, &requests())?;
    push_list(out, "Replies", counts, &replies())?;
    push_rejects(out, counts)?;
    push_list(out, "Ignored datagrams", counts, &ignored())?;
    push_list(out, "Turns of the timers", counts, &turns())?;
    push_list(out, "Answers of pools", counts, &answers())?;
    push_server(out, server, counts.get(Count::Repeat))?;
    out.push_str("</div></section>\n")?;
    Ok(())
}

/// Writes what a server counted, and the repeats that it answered.
#[tactic(auto, unfolding(crate::specs::HomeCounts::server_html))]
fn push_server(out: &mut String, server: &ServerFigures, repeats: u64) -> Result<(), AllocError>
    ensures { OnOk result (string_bytes out.new
        ≡ string_bytes out.old ++ server_html server.now repeats) }
{
    out.push_str("<div><h3>Server</h3><dl>")?;
    push_entry(out, "received", server.received)?;
    push_entry(out, "sent", server.sent)?;
    push_entry(out, "repeated", repeats)?;
    push_entry(out, "dropped", server.dropped)?;
    push_entry(out, "refused", server.refused)?;
    push_entry(out, "receive_faults", server.receive_faults)?;
    push_entry(out, "send_faults", server.send_faults)?;
    out.push_str("</dl></div>\n")?;
    Ok(())
}

/// Writes a list of counts under a title.
#[tactic(auto, unfolding(crate::specs::HomeCounts::list_html))]
fn push_list(
    out: &mut String,
    title: &str,
    counts: &Counts,
    kinds: &[Count],
) -> Result<(), AllocError>
    ensures { OnOk result (string_bytes out.new
        ≡ string_bytes out.old ++ list_html title.now counts.now kinds.now) }
{
    out.push_str("<div><h3>")?;
    out.push_str(title)?;
    out.push_str("</h3><dl>")?;
    push_entries(out, counts, kinds)?;
    out.push_str("</dl></div>\n")
}

/// Writes a count for each of these kinds.
fn push_entries(out: &mut String, counts: &Counts, kinds: &[Count]) -> Result<(), AllocError>
    ensures { OnOk result (string_bytes out.new
        ≡ string_bytes out.old ++ entries_html counts.now kinds.now) }
{
    for kind in kinds {
        push_entry(out, label_of(*kind), counts.get(*kind))?;
    }
    Ok(())
}

/// Writes a count behind its label.
#[tactic(auto, unfolding(crate::specs::HomeCounts::entry_html))]
fn push_entry(out: &mut String, label: &str, number: u64) -> Result<(), AllocError>
    ensures { OnOk result (string_bytes out.new
        ≡ string_bytes out.old ++ entry_html label.now number) }
{
    out.push_str("<dt>")?;
    push_words(out, label)?;
    push_count(out, number)
}

/// Writes a count, with the end of what stands before it.
#[tactic(auto, unfolding(crate::specs::HomeCounts::number_html))]
fn push_count(out: &mut String, number: u64) -> Result<(), AllocError>
    ensures { OnOk result (string_bytes out.new ≡ string_bytes out.old ++ number_html number) }
{
    push_number(out, number_front(number), number)?;
    out.push_str("</dd>")
}

/// What stands before a count. One of zero is paler than others.
fn number_front(number: u64) -> &'static str
    ensures { result.now ≡ number_front number }
{
    match number {
        0 => "</dt><dd class=zero>",
        _ => "</dt><dd>",
    }
}

/// Writes the rejects that came at least once.
#[tactic(auto, unfolding(crate::specs::HomeCounts::rejects_html))]
fn push_rejects(out: &mut String, counts: &Counts) -> Result<(), AllocError>
    ensures { OnOk result (string_bytes out.new ≡ string_bytes out.old ++ rejects_html counts.now) }
{
    out.push_str("<div><h3>Rejects</h3><dl>")?;
    push_reject_entries(out, counts, &Reject::ALL)?;
    out.push_str(rejects_end(is_none_rejected(counts, &Reject::ALL)))?;
    Ok(())
}

/// Whether no request was rejected for one of these reasons.
fn is_none_rejected(counts: &Counts, rejects: &[Reject]) -> bool
    ensures { result ≡ is_none_rejected counts.now rejects.now }
{
    for reject in rejects {
        if counts.get(Count::Reject(*reject)) > 0 {
            return false;
        }
    }
    true
}

/// What stands behind the rejects.
fn rejects_end(is_none: bool) -> &'static str
    ensures { result.now ≡ rejects_end is_none }
{
    if is_none {
        "</dl><p class=none>No request was rejected.</p></div>\n"
    } else {
        "</dl></div>\n"
    }
}

/// Writes those of these rejects that came at least once.
fn push_reject_entries(
    out: &mut String,
    counts: &Counts,
    rejects: &[Reject],
) -> Result<(), AllocError>
    ensures { OnOk result (string_bytes out.new
        ≡ string_bytes out.old ++ reject_entries counts.now rejects.now) }
{
    for reject in rejects {
        push_reject(out, *reject, counts.get(Count::Reject(*reject)))?;
    }
    Ok(())
}

/// Writes how often requests were rejected for a reason, if they were.
#[tactic(auto, unfolding(crate::specs::HomeCounts::reject_html))]
fn push_reject(out: &mut String, reject: Reject, number: u64) -> Result<(), AllocError>
    ensures { OnOk result (string_bytes out.new
        ≡ string_bytes out.old ++ reject_html reject number) }
{
    if number == 0 {
        return Ok(());
    }
    out.push_str("<dt>")?;
    out.push_str(reject.message().label())?;
    out.push_str(" ")?;
    out.push_str(reject.label())?;
    push_count(out, number)
}
