//! Unregistration of endpoints.

ghost use Rattle.std.specs.Prelude.{◌≡◌, IfSome, None, Some};
ghost use Rattle.std.specs.Option.{option_copied};
ghost use Rattle.registrations.specs.Registry.{at_address};
ghost use Rattle.ras_requests.specs.Urq.{leaving, unregistration};
ghost use Rattle.ras_requests.specs.Planned.{Settles};

use crate::plan::Settlement;
use ras_module::{Reply, Request, UnregRejectReason, UnregistrationRequest};
use registrations::Registration;
use zone_config::Moment;
use zone_tables::{Change, EndpointChange, ZoneTables};

/// The endpoint that an UnregistrationRequest names: by its identifier if it has one, else by its
/// address.
fn leaving<'a>(tables: &'a ZoneTables, q: &UnregistrationRequest) -> Option<&'a Registration>
    ensures found { option_copied result ≡ leaving tables.now q.now.endpoint q.now.call_signal }
    ensures at { IfSome result (λ r. at_address tables.now.live r.now.call_signal ≡ Some r.now) }
{
    match &q.endpoint {
        Some(id) => tables.registrations().get(id),
        None => tables.registrations().by_address(q.call_signal?),
    }
}

/// What is decided about an UnregistrationRequest.
pub(crate) fn unregister(tables: &ZoneTables, now: Moment, q: &UnregistrationRequest) -> Settlement
    ensures settles { Settles tables.now now (Request.Urq q.now)
        (unregistration tables.now q.now) result }
{
    let Some(r) = leaving(tables, q) else {
        return rejection(q, UnregRejectReason::NotCurrentlyRegistered);
    };
    if tables.legs_of(&r.identifier) > 0 {
        return rejection(q, UnregRejectReason::CallInProgress);
    }
    Settlement {
        reply: Reply::Ucf { seq: q.seq },
        change: Change::Endpoint(EndpointChange::Removal(r.call_signal)),
    }
}

/// An UnregistrationReject.
fn rejection(q: &UnregistrationRequest, reason: UnregRejectReason) -> Settlement
    ensures { result ≡ record {
      reply = Reply.Urj q.now.seq reason;
      change = Change.Nothing;
    } }
{
    Settlement::reply(Reply::Urj { seq: q.seq, reason })
}
