//! Changes of a call's bandwidth.

ghost use Rattle.std.specs.Prelude.{◌≡◌, ◌≤◌, ◌-◌, None, Some};
ghost use Rattle.std.specs.FinMap as fin;
ghost use Rattle.ras_requests.specs.Brq.{bandwidth, least_units, resizing, units_left, wanted};
ghost use Rattle.zone_tables.specs.Soundness.{SoundTables};
ghost use Rattle.ras_requests.specs.Planned.{IsPlan};

use crate::plan::{Plan, Settlement};
use admission::Call;
use ras_module::{BandRejectReason, BandwidthRequest, Reply, Request};
use zone_config::Moment;
use zone_tables::{CallChange, Change, Purpose, UnitRequest, ZoneTables};

/// The units that the zone has left.
pub(crate) fn units_left(tables: &ZoneTables) -> u64
    ensures left { result ≡ units_left tables.now }
    ensures sound { SoundTables tables.now }
{
    tables.config().parts().limit - tables.calls().total()
}

/// The units that are asked for, but no more than a call may have.
pub(crate) fn wanted(tables: &ZoneTables, asked: u32) -> u32
    ensures { result ≡ wanted tables.now asked }
{
    asked.min(tables.config().call_limit())
}

/// The least units with which a pool's loan may leave a call that wants these.
pub(crate) fn least_units(tables: &ZoneTables, wanted: u32) -> u32
    ensures { result ≡ least_units tables.now wanted }
{
    tables.config().least_grant().min(wanted)
}

/// A call gives units back, or its pool is asked for more.
fn resize(tables: &ZoneTables, now: Moment, q: &BandwidthRequest, call: &Call) -> Plan
    requires call { fin.get tables.now.calls q.now.call ≡ Some call.now }
    ensures plans { IsPlan tables.now now (Request.Brq q.now)
        (resizing tables.now q.now call.now) result }
{
    let wanted = wanted(tables, q.asked);
    if wanted <= call.units {
        return Plan::Settled(lowering(q, call, wanted));
    }
    let left = units_left(tables);
    if left == 0 {
        let reason = BandRejectReason::InsufficientResources;
        return Plan::Settled(rejection(q, reason, call.units));
    }
    Plan::Asking(UnitRequest {
        call: q.call,
        pool: call.pool,
        units: u64::from(wanted - call.units).min(left) as u32,
        least: least_units(tables, wanted).saturating_sub(call.units),
        purpose: Purpose::Raising(call.units),
    })
}

/// What is decided about a BandwidthRequest.
pub(crate) fn change_bandwidth(tables: &ZoneTables, now: Moment, q: &BandwidthRequest) -> Plan
    ensures plans { IsPlan tables.now now (Request.Brq q.now)
        (bandwidth tables.now q.now) result }
{
    if tables.registrations().get(&q.endpoint).is_none() {
        return rejected(q, BandRejectReason::NotBound);
    }
    let Some(call) = tables.calls().get(&q.call) else {
        return rejected(q, BandRejectReason::InvalidConferenceId);
    };
    if call.legs.get(&q.endpoint).is_none() {
        return rejected(q, BandRejectReason::InvalidConferenceId);
    }
    resize(tables, now, q, call)
}

/// A request that is settled by a BandwidthReject: no bandwidth is allowed.
fn rejected(q: &BandwidthRequest, reason: BandRejectReason) -> Plan
    ensures { result ≡ Plan.Settled (record {
      reply = Reply.Brj q.now.seq reason 0;
      change = Change.Nothing;
    }) }
{
    Plan::Settled(rejection(q, reason, 0))
}

/// A BandwidthReject, with the bandwidth that is allowed.
fn rejection(q: &BandwidthRequest, reason: BandRejectReason, allowed: u32) -> Settlement
    ensures { result ≡ record {
      reply = Reply.Brj q.now.seq reason allowed;
      change = Change.Nothing;
    } }
{
    Settlement::reply(Reply::Brj {
        seq: q.seq,
        reason,
        allowed,
    })
}

/// A call keeps these units, and gives the others back.
fn lowering(q: &BandwidthRequest, call: &Call, units: u32) -> Settlement
    requires { units ≤ call.now.units }
    ensures { result ≡ record {
      reply = Reply.Bcf q.now.seq units;
      change = Change.Calls
          (CallChange.Lowering q.now.call units call.now.pool (call.now.units - units));
    } }
{
    Settlement::calls(
        Reply::Bcf { seq: q.seq, units },
        CallChange::Lowering(q.call, units, call.pool, call.units - units),
    )
}
