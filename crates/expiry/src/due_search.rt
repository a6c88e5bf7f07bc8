//! The search for what is due.

ghost use Rattle.std.specs.Prelude.{◌≡◌, ◌↔◌, IsTrue, MatchOption};
ghost use Rattle.zone_tables.specs.EndpointsDue.{IsEndpointItem, IsInCall, IsNoEndpointDue};
ghost use Rattle.expiry.specs.Due.{IsDue, IsNothingDue};
ghost use Rattle.registrations.specs.declared.times.Times.{Times};
ghost use Rattle.admission.specs.Calls.{OpenCalls};
ghost use Rattle.expiry.specs.inside.Searched.{item_of};

use admission::Calls;
use kept_replies::Kept;
use ras_module::EndpointId;
use registrations::{Registration, Registrations, Times};
use zone_events::DueItem;
use zone_tables::item_in_call;

/// Something that is due now: any one item that is due. None if and only if nothing is due. The
/// pools' next turn is at the moment `next_turn`. Moments are in milliseconds. This takes no
/// memory.
///
/// promise due-item-is-told: An item is told that is due; None if and only if nothing is, without
/// memory (`IsDue`).
pub fn due(
    registrations: &Registrations,
    calls: &Calls,
    kept: &Kept,
    now: u64,
    next_turn: u64,
    times: &Times,
) -> Option<DueItem>
    ensures { MatchOption result
        (IsNothingDue now next_turn times.now registrations.now.live calls.now.calls kept.now.kept)
        (IsDue now next_turn times.now registrations.now.live calls.now.calls kept.now.kept) }
{
    let endpoint = endpoint_due(registrations, calls, now, times);
    due_beside(endpoint, registrations, kept, now, next_turn)
}

/// The same, if it is known what is due of an endpoint in a call: `endpoint` is such an item, or
/// None if there is none.
pub fn due_beside(
    endpoint: Option<DueItem>,
    registrations: &Registrations,
    kept: &Kept,
    now: u64,
    next_turn: u64,
) -> Option<DueItem>
    ensures { (times : Times) (calls : OpenCalls)
        → MatchOption endpoint (IsNoEndpointDue now times registrations.now.live calls)
        (IsEndpointItem now times registrations.now.live calls)
        → MatchOption result
        (IsNothingDue now next_turn times registrations.now.live calls kept.now.kept)
        (IsDue now next_turn times registrations.now.live calls kept.now.kept) }
{
    if let Some(registration) = registrations.over(now) {
        return Some(DueItem::RegistrationOver(registration.identifier));
    }
    if let Some(item) = endpoint {
        return Some(item);
    }
    if let Some(born) = kept.retry(now) {
        return Some(DueItem::Retry(born));
    }
    if let Some(born) = kept.over(now) {
        return Some(DueItem::KeptOver(born));
    }
    if next_turn <= now {
        return Some(DueItem::PoolTurn);
    }
    None
}

/// An item that is due of an endpoint in a call: any such item. None if there is none.
fn endpoint_due(
    registrations: &Registrations,
    calls: &Calls,
    now: u64,
    times: &Times,
) -> Option<DueItem>
    ensures { MatchOption result
        (IsNoEndpointDue now times.now registrations.now.live calls.now.calls)
        (IsEndpointItem now times.now registrations.now.live calls.now.calls) }
{
    for i in 0..registrations.len() {
        if let Some(registration) = registrations.nth(i) {
            if let Some(item) = item_of(registration, calls, now, times) {
                return Some(item);
            }
        }
    }
    None
}

/// What is due of this endpoint as it takes part in a call.
fn item_of(registration: &Registration, calls: &Calls, now: u64, times: &Times) -> Option<DueItem>
    ensures { result ≡ item_of now times.now calls.now.calls registration.now }
{
    let item = item_in_call(registration, now, times)?;
    if !is_in_call(calls, &registration.identifier) {
        return None;
    }
    Some(item)
}

/// Whether this endpoint takes part in a call.
pub(crate) fn is_in_call(calls: &Calls, endpoint: &EndpointId) -> bool
    ensures { IsTrue result ↔ IsInCall calls.now.calls endpoint.now }
{
    calls.legs_of(endpoint) > 0
}
