//! Admission of calls.

ghost use Rattle.std.specs.Prelude.{◌≡◌, ◌<◌, length, None, Some, IsSome};
ghost use Rattle.std.specs.FinMap as fin;
ghost use Rattle.admission.specs.Legs.{leg_of};
ghost use Rattle.ras_requests.specs.Arq.{admission, admission_of, destination};
ghost use Rattle.ras_requests.specs.Arq.{joining, making};
ghost use Rattle.ras_requests.specs.Standing.{NoCall, standing_in};
ghost use Rattle.zone_config.specs.Networks.{pool_of};
ghost use Rattle.ras_requests.specs.Planned.{IsPlan, Settles};

use crate::brq::{least_units, units_left, wanted};
use crate::plan::{Plan, Settlement};
use admission::Call;
use ras_module::{Address, AdmissionRejectReason, AdmissionRequest, Reply, Request};
use registrations::Registration;
use zone_config::Moment;
use zone_tables::{CallChange, Change, Purpose, UnitRequest, ZoneTables};

/// The address that an endpoint is told to call.
fn destination(tables: &ZoneTables, q: &AdmissionRequest, caller: &Registration) -> Option<Address>
    ensures { result ≡ destination tables.now q.now (Some caller.now) }
{
    if q.answer {
        return Some(caller.call_signal);
    }
    tables.translate(q.dest.as_slice(), q.dest_address)
}

/// The second endpoint joins a call that is there.
fn join(
    tables: &ZoneTables,
    now: Moment,
    q: &AdmissionRequest,
    call: &Call,
    told: Address,
) -> Settlement
    requires endpoint { IsSome (fin.get tables.now.live q.now.endpoint) }
    requires call { fin.get tables.now.calls q.now.call ≡ Some call.now }
    requires leg { leg_of call.now.legs q.now.endpoint ≡ None }
    ensures settles { Settles tables.now now (Request.Arq q.now)
        (joining tables.now q.now call.now told) result }
{
    if call.legs.are_two() {
        return denial(q, AdmissionRejectReason::ResourceUnavailable);
    }
    Settlement::calls(
        Reply::Acf {
            seq: q.seq,
            units: q.asked.min(call.units),
            dest: told,
        },
        CallChange::Joining(q.call, told),
    )
}

/// An endpoint makes a call.
fn make(tables: &ZoneTables, now: Moment, q: &AdmissionRequest, pool: usize, told: Address) -> Plan
    requires endpoint { IsSome (fin.get tables.now.live q.now.endpoint) }
    requires call { fin.get tables.now.calls q.now.call ≡ None }
    requires pool { pool < length tables.now.pools }
    ensures plans { IsPlan tables.now now (Request.Arq q.now)
        (making tables.now q.now pool told) result }
{
    if tables.calls().len() == tables.config().calls() {
        return denied(q, AdmissionRejectReason::ResourceUnavailable);
    }
    let wanted = wanted(tables, q.asked);
    if wanted == 0 {
        return Plan::Settled(opening_without_units(q, pool, told));
    }
    let left = units_left(tables);
    if left == 0 {
        return denied(q, AdmissionRejectReason::RequestDenied);
    }
    Plan::Asking(UnitRequest {
        call: q.call,
        pool,
        units: u64::from(wanted).min(left) as u32,
        least: least_units(tables, wanted),
        purpose: Purpose::Opening(told),
    })
}

/// An endpoint enters a call that is there.
fn enter_call(
    tables: &ZoneTables,
    now: Moment,
    q: &AdmissionRequest,
    caller: &Registration,
    call: &Call,
) -> Settlement
    requires endpoint { fin.get tables.now.live q.now.endpoint ≡ Some caller.now }
    requires call { fin.get tables.now.calls q.now.call ≡ Some call.now }
    ensures settles { Settles tables.now now (Request.Arq q.now)
        (admission_of tables.now q.now (Some caller.now)
        (standing_in call.now (leg_of call.now.legs q.now.endpoint))
        (destination tables.now q.now (Some caller.now))) result }
{
    if let Some(leg) = call.legs.get(&q.endpoint) {
        return Settlement::reply(Reply::Acf {
            seq: q.seq,
            units: q.asked.min(call.units),
            dest: leg.told,
        });
    }
    match destination(tables, q, caller) {
        None => denial(q, AdmissionRejectReason::CalledPartyNotRegistered),
        Some(told) => join(tables, now, q, call, told),
    }
}

/// An endpoint makes a call that isn't there yet.
fn make_call(tables: &ZoneTables, now: Moment, q: &AdmissionRequest, caller: &Registration) -> Plan
    requires endpoint { fin.get tables.now.live q.now.endpoint ≡ Some caller.now }
    requires call { fin.get tables.now.calls q.now.call ≡ None }
    ensures plans { IsPlan tables.now now (Request.Arq q.now)
        (admission_of tables.now q.now (Some caller.now) NoCall
        (destination tables.now q.now (Some caller.now))) result }
{
    match destination(tables, q, caller) {
        None => denied(q, AdmissionRejectReason::CalledPartyNotRegistered),
        Some(told) => {
            let pool = pool_of(tables, caller.call_signal);
            make(tables, now, q, pool, told)
        }
    }
}

/// The pool that serves the calls of an endpoint with this address.
fn pool_of(tables: &ZoneTables, address: Address) -> usize
    ensures pool { result ≡ pool_of tables.now.config.networks address.ip }
    ensures few { result < length tables.now.pools }
{
    tables.config().parts().networks.pool_of(address.ip)
}

/// What is decided about an AdmissionRequest.
pub(crate) fn admit(tables: &ZoneTables, now: Moment, q: &AdmissionRequest) -> Plan
    ensures plans { IsPlan tables.now now (Request.Arq q.now)
        (admission tables.now q.now) result }
{
    let Some(caller) = tables.registrations().get(&q.endpoint) else {
        return denied(q, AdmissionRejectReason::InvalidEndpointIdentifier);
    };
    match tables.calls().get(&q.call) {
        Some(call) => Plan::Settled(enter_call(tables, now, q, caller, call)),
        None => make_call(tables, now, q, caller),
    }
}

/// An AdmissionReject.
fn denial(q: &AdmissionRequest, reason: AdmissionRejectReason) -> Settlement
    ensures { result ≡ record {
      reply = Reply.Arj q.now.seq reason;
      change = Change.Nothing;
    } }
{
    Settlement::reply(Reply::Arj { seq: q.seq, reason })
}

/// A request that is settled by an AdmissionReject.
fn denied(q: &AdmissionRequest, reason: AdmissionRejectReason) -> Plan
    ensures { result ≡ Plan.Settled (record {
      reply = Reply.Arj q.now.seq reason;
      change = Change.Nothing;
    }) }
{
    Plan::Settled(denial(q, reason))
}

/// A call that wants no units opens without asking a pool.
fn opening_without_units(q: &AdmissionRequest, pool: usize, told: Address) -> Settlement
    ensures { result ≡ record {
      reply = Reply.Acf q.now.seq 0 told;
      change = Change.Calls (CallChange.Opening q.now.call pool told);
    } }
{
    Settlement::calls(
        Reply::Acf {
            seq: q.seq,
            units: 0,
            dest: told,
        },
        CallChange::Opening(q.call, pool, told),
    )
}
