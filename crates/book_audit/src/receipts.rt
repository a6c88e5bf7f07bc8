//! Receipts against the entries of a history.

ghost use Rattle.std.specs.Prelude.{◌≡◌, ◌++◌, ◌↔◌, ◌==◌, ◌&&◌, nat_le, IfErr, IsTrue, MatchOption};
ghost use Rattle.std.specs.Prelude.{OnOk, length, slice_get};
ghost use Rattle.std.specs.List.{list_any};
ghost use Rattle.std.specs.Option.{option_copied};
ghost use Rattle.book_audit.specs.Joined.{entries_of};
ghost use Rattle.book_audit.specs.Receipts.{AreGoodBelow, HasReceiptFault, IsGood, IsReceiptFault};
ghost use Rattle.book_audit.specs.Receipts.{receipt_entry};

use crate::fault::AuditFault;
use books::{Chapter, Entry, Receipt};
use zone_events::{Change, Event, Outcome, PoolChange};

/// Whether the receipts of a history with these chapters, and these entries behind them, are good.
/// The first one that isn't is the fault.
pub(crate) fn check_receipts(
    chapters: &[Chapter],
    rest: &[Entry],
    receipts: &[Receipt],
) -> Result<(), AuditFault>
    ensures ok { OnOk result (AreGoodBelow (entries_of chapters.now ++ rest.now) receipts.now
        (length receipts.now)) }
    ensures err { IfErr result
        (HasReceiptFault (entries_of chapters.now ++ rest.now) receipts.now) }
{
    for (i, receipt) in receipts.iter().enumerate() {
        if let Some(fault) = receipt_fault(chapters, rest, &receipts[..i], receipt) {
            return Err(fault);
        }
    }
    Ok(())
}

/// What is wrong with a receipt that came behind the earlier ones. None, if it is good.
fn receipt_fault(
    chapters: &[Chapter],
    rest: &[Entry],
    earlier: &[Receipt],
    receipt: &Receipt,
) -> Option<AuditFault>
    ensures { MatchOption result
        (IsGood (entries_of chapters.now ++ rest.now) earlier.now receipt.now)
        (IsReceiptFault (entries_of chapters.now ++ rest.now) earlier.now receipt.now) }
{
    let Some(entry) = entry_at(chapters, rest, receipt.place) else {
        return Some(AuditFault::WrongPlace);
    };
    if !is_receipt_of(receipt, entry) {
        return Some(AuditFault::WrongEntry);
    }
    if is_taken(earlier, receipt.place) {
        return Some(AuditFault::Twice);
    }
    if is_overtaken(earlier, receipt) {
        return Some(AuditFault::OutOfOrder);
    }
    None
}

/// The entry at a place. None, if the history has no such place.
fn entry_at<'a>(chapters: &'a [Chapter], rest: &'a [Entry], place: usize) -> Option<&'a Entry>
    ensures { option_copied result ≡ slice_get (entries_of chapters.now ++ rest.now) place }
{
    let mut left = place;
    for chapter in chapters {
        let entries = chapter.entries();
        if left < entries.len() {
            return Some(&entries[left]);
        }
        left -= entries.len();
    }
    entry_in(rest, left)
}

/// The entry of this list at a place. None, if the list has no such place.
fn entry_in(entries: &[Entry], place: usize) -> Option<&Entry>
    ensures { option_copied result ≡ slice_get entries.now place }
{
    entries.get(place)
}

/// Whether an earlier receipt has this place.
fn is_taken(earlier: &[Receipt], place: usize) -> bool
    ensures { result ≡ list_any (λ e. e.place == place) earlier.now }
{
    earlier.iter().any(|e| e.place == place)
}

/// Whether an earlier receipt of the same seat has a place that isn't below that of this one.
fn is_overtaken(earlier: &[Receipt], receipt: &Receipt) -> bool
    ensures { result ≡ list_any
        (λ e. e.seat == receipt.now.seat && nat_le receipt.now.place e.place) earlier.now }
{
    earlier
        .iter()
        .any(|e| e.seat == receipt.seat && receipt.place <= e.place)
}

/// Whether the receipt tells of this entry: its seat, its call, its event and its outcome.
fn is_receipt_of(receipt: &Receipt, entry: &Entry) -> bool
    ensures { IsTrue result ↔ (entry.now ≡ receipt_entry receipt.now) }
{
    entry.seat == receipt.seat
        && entry.call == receipt.call
        && is_same_change(&entry.event, &receipt.event)
        && is_same_outcome(&entry.outcome, &receipt.outcome)
}

/// Whether two steps are of the same: of the same event, or of the same fresh pool for the same
/// one.
fn is_same_change(a: &Change, b: &Change) -> bool
    ensures { IsTrue result ↔ (a.now ≡ b.now) }
{
    match a {
        Change::Event(event) => match b {
            Change::Event(other) => is_same_event(event, other),
            Change::PoolChange(_) => false,
        },
        Change::PoolChange(change) => match b {
            Change::Event(_) => false,
            Change::PoolChange(other) => is_same_pool_change(change, other),
        },
    }
}

/// Whether two pools took the place of the same one, with the same figures, at the same moment.
fn is_same_pool_change(a: &PoolChange, b: &PoolChange) -> bool
    ensures { IsTrue result ↔ (a.now ≡ b.now) }
{
    a.pool == b.pool
        && a.offered.limit == b.offered.limit
        && a.offered.lent == b.offered.lent
        && a.offered.refusals == b.offered.refusals
        && a.offered.waits == b.offered.waits
        && a.moment == b.moment
}

/// Whether two events are the same: the same datagram from the same address at the same moment, or
/// a turn at the same moment.
fn is_same_event(a: &Event, b: &Event) -> bool
    ensures { IsTrue result ↔ (a.now ≡ b.now) }
{
    match a {
        Event::Datagram(source, bytes, moment) => match b {
            Event::Datagram(other_source, other_bytes, other_moment) => {
                *source == *other_source && *bytes == *other_bytes && *moment == *other_moment
            }
            Event::Turn(_) => false,
        },
        Event::Turn(moment) => match b {
            Event::Datagram(_, _, _) => false,
            Event::Turn(other_moment) => *moment == *other_moment,
        },
    }
}

/// Whether two outcomes are the same.
fn is_same_outcome(a: &Outcome, b: &Outcome) -> bool
    ensures { IsTrue result ↔ (a.now ≡ b.now) }
{
    *a == *b
}
