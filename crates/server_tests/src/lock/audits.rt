//! Audits of a history with receipts and chapters that were altered.

use crate::lock::fixtures::{Looked, all_hold};
use crate::lock::locks::Made;
use book_audit::{AuditFault, audit};
use books::Receipt;
use std::alloc::Global;

/// What the audit finds, if it finds a fault.
fn fault(made: &Made) -> Option<AuditFault> {
    audit(
        &made.gathered.chapters,
        &made.finished,
        &made.gathered.receipts,
    )
    .err()
}

/// Has the first receipt tell of this call and place. What the audit finds then.
fn fault_of_first(made: &mut Made, call: usize, place: usize) -> Option<AuditFault> {
    if let Some(first) = made.gathered.receipts.first_mut() {
        first.call = call;
        first.place = place;
    }
    fault(made)
}

/// An equal receipt.
fn copy_of(alloc: Global, receipt: &Receipt) -> Option<Receipt> {
    let octets = match &receipt.outcome.output {
        Some(output) => output.bytes.as_slice().len(),
        None => 0,
    };
    let buffer = Vec::with_capacity(alloc, octets).ok()?;
    let event = receipt.event.copy().ok()?;
    Some(Receipt {
        seat: receipt.seat,
        call: receipt.call,
        place: receipt.place,
        event,
        outcome: receipt.outcome.copy_into(buffer),
    })
}

/// Puts an equal receipt behind the others. What the audit finds then.
fn fault_of_repeat(alloc: Global, made: &mut Made) -> Option<AuditFault> {
    let again = copy_of(alloc, made.gathered.receipts.first()?)?;
    made.gathered.receipts.push(again).ok()?;
    fault(made)
}

/// Alters receipts: one at a place that the history hasn't, one with another call, and one that
/// comes twice are found.
pub fn find_altered_receipts(alloc: Global, made: &mut Made) -> Looked {
    let displaced = fault_of_first(made, 0, 2);
    let recalled = fault_of_first(made, 1, 0);
    let restored = fault_of_first(made, 0, 0);
    let repeated = fault_of_repeat(alloc, made);
    all_hold(&[
        (
            displaced == Some(AuditFault::WrongPlace),
            "a place that the history hasn't is found",
        ),
        (
            recalled == Some(AuditFault::WrongEntry),
            "another call is found",
        ),
        (restored.is_none(), "nothing is found in between"),
        (
            repeated == Some(AuditFault::Twice),
            "a receipt that comes twice is found",
        ),
    ])
}

/// Exchanges the two receipts of a seat, then the first two of its three chapters, and then leaves
/// out the second one. Each is found.
pub fn find_altered_chapters(made: &mut Made) -> Looked {
    if made.gathered.receipts.len() != 2 || made.gathered.chapters.len() != 3 {
        return Err("there are two receipts and three chapters");
    }
    made.gathered.receipts.swap(0, 1);
    let disordered = fault(made);
    made.gathered.receipts.swap(0, 1);
    made.gathered.chapters.swap(0, 1);
    let exchanged = fault(made);
    made.gathered.chapters.swap(0, 1);
    drop(made.gathered.chapters.remove(1));
    let parted = fault(made);
    all_hold(&[
        (
            disordered == Some(AuditFault::OutOfOrder),
            "receipts out of order are found",
        ),
        (
            exchanged == Some(AuditFault::NotJoined),
            "exchanged chapters are found",
        ),
        (
            parted == Some(AuditFault::NotJoined),
            "a chapter that is missing is found",
        ),
    ])
}
