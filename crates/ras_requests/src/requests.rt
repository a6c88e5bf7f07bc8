//! The plan of a request, of whatever kind it is.

ghost use Rattle.std.specs.Prelude.{◌≡◌, IfOk, OnErr};
ghost use Rattle.std.specs.Option.{option_copied};
ghost use Rattle.ras_requests.specs.Requests.{HasReply, endpoint_of, seq_of};
ghost use Rattle.ras_requests.specs.Planned.{IsPlanOf, MayWantMemory};

use crate::arq::admit;
use crate::brq::change_bandwidth;
use crate::drq::disengage;
use crate::grq::discover;
use crate::plan::{Plan, Settlement};
use crate::rrq::register;
use crate::urq::unregister;
use ras_module::{EndpointId, Request, RequestSeqNum};
use std::alloc::{AllocError, Global};
use zone_config::Moment;
use zone_tables::ZoneTables;

/// The plan of a request: what it comes to, by look-ups alone. An InfoRequestResponse is no request
/// that has a reply.
///
/// promise plan-is-the-defined-one: By look-ups alone, a request comes to its defined plan, which
/// can be carried out; only a GRQ or RRQ that names no other gatekeeper can want memory (`plan_of`,
/// `IsPlanOf`, `MayWantMemory`).
pub fn plan_of(
    alloc: Global,
    tables: &ZoneTables,
    now: Moment,
    request: &Request,
) -> Result<Plan, AllocError>
    requires { HasReply request.now }
    ensures plans { IfOk result (IsPlanOf tables.now now request.now) }
    ensures memory { OnErr result (MayWantMemory tables.now request.now) }
{
    match request {
        Request::Grq(q) => {
            let reply = discover(alloc, tables, q.get())?;
            Ok(Plan::Settled(Settlement::reply(reply)))
        }
        Request::Rrq(q) => register(alloc, tables, now, q.get()),
        Request::Urq(q) => Ok(Plan::Settled(unregister(tables, now, q.get()))),
        Request::Arq(q) => Ok(admit(tables, now, q.get())),
        Request::Brq(q) => Ok(change_bandwidth(tables, now, q.get())),
        Request::Drq(q) => Ok(Plan::Settled(disengage(tables, now, q.get()))),
        Request::Irr(_) => unreachable!(),
    }
}

/// The requestSeqNum of a request.
pub fn seq_of(request: &Request) -> RequestSeqNum
    ensures { result ≡ seq_of request.now }
{
    match request {
        Request::Grq(q) => q.get().seq,
        Request::Rrq(q) => q.get().seq,
        Request::Urq(q) => q.get().seq,
        Request::Arq(q) => q.get().seq,
        Request::Brq(q) => q.get().seq,
        Request::Drq(q) => q.get().seq,
        Request::Irr(q) => q.get().seq,
    }
}

/// The endpointIdentifier of a request, if it has one.
pub fn endpoint_of(request: &Request) -> Option<&EndpointId>
    ensures { option_copied result ≡ endpoint_of request.now }
{
    match request {
        Request::Grq(_) => None,
        Request::Rrq(q) => q.get().endpoint.as_ref(),
        Request::Urq(q) => q.get().endpoint.as_ref(),
        Request::Arq(q) => Some(&q.get().endpoint),
        Request::Brq(q) => Some(&q.get().endpoint),
        Request::Drq(q) => Some(&q.get().endpoint),
        Request::Irr(q) => Some(&q.get().endpoint),
    }
}
