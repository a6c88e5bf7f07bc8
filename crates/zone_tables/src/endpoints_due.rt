//! What is due of an endpoint in a call.

ghost use Rattle.std.specs.Prelude.{◌≡◌};
ghost use Rattle.zone_tables.specs.EndpointsDue.{item_in_call};

use registrations::{Registration, Times, is_silent, is_to_be_asked};
use zone_events::DueItem;

/// What is due of this endpoint if it takes part in a call. Moments are in milliseconds.
pub fn item_in_call(registration: &Registration, now: u64, times: &Times) -> Option<DueItem>
    ensures { result ≡ item_in_call now times.now registration.now }
{
    if is_to_be_asked(registration, now, times) {
        return Some(DueItem::Interrogate(registration.identifier));
    }
    if is_silent(registration, now, times) {
        return Some(DueItem::Silent(registration.identifier));
    }
    None
}
