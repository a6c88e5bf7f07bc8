//! Whether an item is due.

ghost use Rattle.std.specs.Prelude.{◌↔◌, IsTrue};
ghost use Rattle.kept_replies.specs.Kept.{Passes, is_over, is_retry};
ghost use Rattle.registrations.specs.Silence.{is_silent, is_to_be_asked};
ghost use Rattle.zone_tables.specs.EndpointsDue.{IsLiveAnd};
ghost use Rattle.expiry.specs.Due.{IsDue, is_deadline_past};

use crate::due_search::is_in_call;
use admission::Calls;
use kept_replies::Kept;
use ras_module::EndpointId;
use registrations::{Registrations, Times, is_silent, is_to_be_asked};
use zone_events::DueItem;

/// Whether this item is due now. The pools' next turn is at the moment `next_turn`. Moments are in
/// milliseconds. This takes no memory.
pub fn is_due(
    item: &DueItem,
    registrations: &Registrations,
    calls: &Calls,
    kept: &Kept,
    now: u64,
    next_turn: u64,
    times: &Times,
) -> bool
    ensures { IsTrue result ↔ IsDue now next_turn times.now registrations.now.live
        calls.now.calls kept.now.kept item.now }
{
    match item {
        DueItem::RegistrationOver(id) => is_registration_over(registrations, id, now),
        DueItem::Interrogate(id) => {
            is_in_call(calls, id) && asks_for_life(registrations, id, now, times)
        }
        DueItem::Silent(id) => is_in_call(calls, id) && gave_no_life(registrations, id, now, times),
        DueItem::Retry(born) => waits_until(kept, *born, now),
        DueItem::KeptOver(born) => is_kept_over(kept, *born, now),
        DueItem::PoolTurn => next_turn <= now,
    }
}

/// Whether the time to live of an endpoint that is registered is over.
fn is_registration_over(registrations: &Registrations, id: &EndpointId, now: u64) -> bool
    ensures { IsTrue result ↔ IsLiveAnd (is_deadline_past now) registrations.now.live id.now }
{
    match registrations.get(id) {
        Some(registration) => registration.deadline <= now,
        None => false,
    }
}

/// Whether a registered endpoint, if it is in a call, is to be asked for a sign of life.
fn asks_for_life(registrations: &Registrations, id: &EndpointId, now: u64, times: &Times) -> bool
    ensures { IsTrue result
        ↔ IsLiveAnd (is_to_be_asked times.now now) registrations.now.live id.now }
{
    match registrations.get(id) {
        Some(registration) => is_to_be_asked(registration, now, times),
        None => false,
    }
}

/// Whether a registered endpoint, if it is in a call, was interrogated `asks` times and gave no
/// sign of life.
fn gave_no_life(registrations: &Registrations, id: &EndpointId, now: u64, times: &Times) -> bool
    ensures { IsTrue result ↔ IsLiveAnd (is_silent times.now now) registrations.now.live id.now }
{
    match registrations.get(id) {
        Some(registration) => is_silent(registration, now, times),
        None => false,
    }
}

/// Whether the entry with this birth waits, and is to be served again.
fn waits_until(kept: &Kept, born: u64, now: u64) -> bool
    ensures { IsTrue result ↔ Passes (is_retry now) kept.now.kept born }
{
    match kept.by_born(born) {
        Some((_, entry)) => entry.is_retry(now),
        None => false,
    }
}

/// Whether the kept reply with this birth is over.
fn is_kept_over(kept: &Kept, born: u64, now: u64) -> bool
    ensures { IsTrue result ↔ Passes (is_over now) kept.now.kept born }
{
    match kept.by_born(born) {
        Some((_, entry)) => entry.is_over(now),
        None => false,
    }
}
