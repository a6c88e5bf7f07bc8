//! The check of one recorded step after the other, and of one whose pool lent, as the least grant
//! has it.

use crate::fixtures::{CALL_LIMIT, event, open_call, sent, zone};
use crate::messages::ACF_720;
use crate::replays::recorded::record_call;
use books::Book;
use facts::{all_hold, ensure};
use pools::{FixedPool, Lend};
use ras_core::{Change, Outcome, Snapshot, Zone};
use std::alloc::Global;
use std::test::Fail;
use step_check::{accepts, same};
use vectors::replies::ARJ;
use vectors::requests::ARQ_OF_A_SECOND_CALL;
use worked_zone::zone_of;

/// Offers each entry of the book of a call in its order, which is accepted, and one that comes
/// again, which isn't. The snapshot is then the state of the zone.
fn accept_each(
    alloc: Global,
    snapshot: &mut Snapshot,
    book: &mut Book,
    zone: &mut Zone<FixedPool>,
) -> Result<(), Fail> {
    record_call(alloc, book, zone)?;
    for entry in &book.entries {
        let fits = accepts(snapshot, &entry.event, &entry.outcome)?;
        ensure(fits, "each entry is accepted in its order")?;
    }
    let first = book.entries.first().ok_or("an entry")?;
    let again = accepts(snapshot, &first.event, &first.outcome)?;
    all_hold(&[
        (!again, "an entry that comes twice isn't accepted"),
        (
            same(snapshot, zone),
            "the snapshot is the state of the zone",
        ),
    ])
}

/// Does so with a call that begins at this zone.
fn accept_from(alloc: Global, zone: &mut Zone<FixedPool>) -> Result<(), Fail> {
    let mut snapshot = zone.snapshot()?;
    let mut book = Book::new(alloc, snapshot.copy()?);
    let ended = accept_each(alloc, &mut snapshot, &mut book, zone);
    drop(book);
    drop(snapshot);
    ended
}

#[test]
fn recorded_steps_are_accepted_in_their_order(rt: HostRuntime) -> Result<(), Fail> {
    let mut zone = zone(rt.alloc())?;
    let ended = accept_from(rt.alloc(), &mut zone);
    drop(zone);
    ended
}

/// The units that the pool lends to the second call: all that the zone has left behind a call of
/// 1,280.
const LEFT: u64 = 720;

/// Offers the step as it was recorded, which is accepted, and otherwise in vain: with another reply,
/// and as if no pool was asked. The snapshot is then the state of the zone.
fn accept_as_recorded(
    alloc: Global,
    snapshot: &mut Snapshot,
    zone: &Zone<FixedPool>,
    event: &Change,
    outcome: &Outcome,
    replies: (&[u8], &[u8]),
) -> Result<(), Fail> {
    let (reply, other) = replies;
    let unasked = sent(alloc, reply)?;
    let mut recorded = sent(alloc, reply)?;
    recorded.answer = Some(Lend::Lent(LEFT));
    let mut otherwise = sent(alloc, other)?;
    otherwise.answer = Some(Lend::Lent(LEFT));
    let takes_other = accepts(snapshot, event, &otherwise)?;
    let takes_unasked = accepts(snapshot, event, &unasked)?;
    let is_accepted = accepts(snapshot, event, outcome)?;
    all_hold(&[
        (*outcome == recorded, "the pool lent, and the reply is sent"),
        (!takes_other, "the other reply isn't accepted"),
        (!takes_unasked, "a step that asks no pool isn't accepted"),
        (is_accepted, "the step is accepted as it was recorded"),
        (
            same(snapshot, zone),
            "the snapshot is the state of the zone",
        ),
    ])
}

/// Does so with the step in which a second call is lent what is left, behind a call of 1,280 units.
fn accept_second_call(
    alloc: Global,
    zone: &mut Zone<FixedPool>,
    replies: (&[u8], &[u8]),
) -> Result<(), Fail> {
    open_call(alloc, zone)?;
    let mut snapshot = zone.snapshot()?;
    let request = event(alloc, &ARQ_OF_A_SECOND_CALL, 1)?;
    let outcome = zone.step(request.copy()?)?;
    let event = Change::Event(request);
    accept_as_recorded(alloc, &mut snapshot, zone, &event, &outcome, replies)
}

/// Does so in a zone of 2,000 units with this least grant.
fn accept_with(alloc: Global, least_grant: u64, replies: (&[u8], &[u8])) -> Result<(), Fail> {
    let mut zone = zone_of(alloc, CALL_LIMIT, least_grant).ok_or("memory for a zone")?;
    let ended = accept_second_call(alloc, &mut zone, replies);
    drop(zone);
    ended
}

#[test]
fn a_loan_that_went_back_is_a_reject_and_the_least_grant_a_confirm(
    rt: HostRuntime,
) -> Result<(), Fail> {
    accept_with(rt.alloc(), LEFT + 280, (&ARJ, &ACF_720))?;
    accept_with(rt.alloc(), LEFT, (&ACF_720, &ARJ))
}
