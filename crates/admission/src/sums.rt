//! Sums and searches over the stored calls.

ghost use Rattle.std.specs.Prelude.{◌≡◌, ◌≤◌, length, IfSome, IsSome};
ghost use Rattle.std.specs.List.{sum_by, find};
ghost use Rattle.std.specs.Option.{option_map};
ghost use Rattle.indexmap.specs.IndexMap.{get, values};
ghost use Rattle.ras_module.specs.CallKeys.{same_call_key};
ghost use Rattle.admission.specs.Calls.{units_from, leg_count, has_leg, legs_in};
ghost use Rattle.admission.specs.Legs.{leg_of};

use crate::call::Call;
use crate::table::Calls;
use indexmap::IndexMap;
use ras_module::{CallKey, EndpointId};

/// The units of the calls of one pool.
pub(crate) fn units_of_pool(calls: &IndexMap<CallKey, Call>, pool: usize) -> u64
    requires { length calls.now.entries ≤ Calls.MOST }
    ensures { result ≡ sum_by (units_from pool) (values calls.now) }
{
    let mut sum = 0;
    for call in calls.values() {
        if call.pool == pool {
            sum += u64::from(call.units);
        }
    }
    sum
}

/// How many of the calls have a leg of this endpoint.
pub(crate) fn legs_with(calls: &IndexMap<CallKey, Call>, endpoint: &EndpointId) -> usize
    ensures { result ≡ sum_by (leg_count endpoint.now) (values calls.now) }
{
    let mut count = 0;
    for call in calls.values() {
        if call.legs.get(endpoint).is_some() {
            count += 1;
        }
    }
    count
}

/// The key of a call with a leg of this endpoint.
pub(crate) fn call_in(calls: &IndexMap<CallKey, Call>, endpoint: &EndpointId) -> Option<CallKey>
    ensures { result
        ≡ option_map (λ e. e.0) (find (λ e. has_leg endpoint.now e.1) calls.now.entries) }
{
    for (key, call) in calls.iter() {
        if call.legs.get(endpoint).is_some() {
            return Some(*key);
        }
    }
    None
}

/// The key of such a call, if one stands at this place or after it.
pub(crate) fn call_from(
    calls: &IndexMap<CallKey, Call>,
    place: usize,
    endpoint: &EndpointId,
) -> Option<CallKey>
    ensures { IfSome result (λ key. IsSome (leg_of (legs_in (get same_call_key calls.now key))
        endpoint.now)) }
{
    for at in place..calls.len() {
        if let Some((key, call)) = calls.get_index(at) {
            if call.legs.get(endpoint).is_some() {
                return Some(*key);
            }
        }
    }
    None
}
