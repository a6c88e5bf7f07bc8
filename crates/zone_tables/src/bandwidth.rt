//! The calls of a zone, with the figures of the pools that lend them their bandwidth.

ghost use Rattle.std.specs.Prelude.{◌↔◌};
ghost use Rattle.zone_tables.specs.Parts.{HaveSame};
ghost use Rattle.std.specs.Prelude.{◌≡◌, ◌<◌, ◌≤◌, ◌^◌, ℕ, All, Some};
ghost use Rattle.std.specs.Prelude.{IfOk, IsSome, IsTrue, OnErr, OnOk};
ghost use Rattle.std.specs.FinMap as fin;
ghost use Rattle.keyed.specs.Maps.{update};
ghost use Rattle.admission.specs.Calls.{IsConsistent, after_leave, freed_by_leave, in_use, leg_at};
ghost use Rattle.admission.specs.Calls.{legs_of, new_call, with_leg, with_units};
ghost use Rattle.pools.specs.Account.{IsAnswer};
ghost use Rattle.zone_tables.specs.Pools.{IsIdle, MayReplace, figures_at};
ghost use Rattle.zone_tables.specs.Pools.{pools_after_answer, pools_after_end, pools_after_return};
ghost use Rattle.zone_tables.specs.Pools.{pools_after_replacing};
ghost use Rattle.zone_tables.specs.Changes.{IsCallChange, IsJoinable, IsLowerable, IsOpenable};
ghost use Rattle.zone_tables.specs.Changes.{OpensCall, leg_with};
ghost use Rattle.zone_tables.specs.UnitRequests.{IsEnterable, IsUnitRequest};
ghost use Rattle.zone_tables.specs.UnitRequests.{units_requested, calls_after_answer};
ghost use Rattle.zone_tables.specs.Changes.{calls_after, pools_after};
ghost use Rattle.zone_config.specs.Ranges.{IsConfig};
ghost use Rattle.zone_tables.specs.Parts.{IsSoundUsage, with_usage};
ghost use Rattle.zone_tables.specs.Leaving.{HaveLeft, HaveOthersLegs};
ghost use Rattle.zone_tables.specs.Soundness.{HasCounts};

use crate::change::CallChange;
use crate::pool_figures::PoolFigures;
use crate::unit_request::{Purpose, UnitRequest};
use admission::{Calls, Leg};
use pools::{Figures, Lend};
use ras_module::{Address, CallKey, EndpointId};
use std::alloc::{AllocError, Global};
use std::marker::Model;
use zone_config::Config;

/// The calls, with the figures of the pools from which they have their units. Contracts see that
/// each pool has lent what its calls use.
pub struct Bandwidth {
    calls: Calls,
    pools: PoolFigures,
    limit: u64,
    call_limit: u32,
}

// By hand, so that it is one call where one is dropped.
impl Drop for Bandwidth {
    fn drop(self) {
        let Bandwidth {
            calls: _,
            pools: _,
            limit: _,
            call_limit: _,
        } = self;
    }
}

impl Model for Bandwidth {
    ghost use Rattle.std.specs.Coded.{codes};
    ghost use Rattle.std.specs.FinMap as fin;
    ghost use Rattle.zone_tables.specs.Parts.{IsSoundUsage, Lending};

    ghost Value = { Lending };

    ghost coded = { Prim.hlevel (codes, fin.code) };

    ghost view = { λ b. record {
      usage = record {
        calls = b.calls.calls;
        pools = b.pools;
        most = b.calls.most;
        limit = b.limit;
        call_limit = b.call_limit;
      };
      room = b.calls.room;
    } };

    ghost invariant = { λ b. IsSoundUsage (record {
      calls = b.calls.calls;
      pools = b.pools;
      most = b.calls.most;
      limit = b.limit;
      call_limit = b.call_limit;
    }) };
}

impl Bandwidth {
    /// No call, and pools with nothing lent.
    pub fn new(alloc: Global, config: &Config, pools: PoolFigures) -> Self
        requires { All IsIdle pools }
        ensures usage { result.usage ≡ record {
          calls = fin.empty;
          pools = pools;
          most = config.now.calls;
          limit = config.now.limit;
          call_limit = config.now.call_limit;
        } }
        ensures sound { IsSoundUsage result.usage }
        ensures settings { IsConfig config.now }
    {
        Bandwidth {
            calls: Calls::new(alloc, config.calls()),
            pools,
            limit: config.parts().limit,
            call_limit: config.call_limit(),
        }
    }

    /// The same calls and figures, in tables of their own.
    pub fn copy(&self) -> Result<Self, AllocError>
        ensures { IfOk result (λ copy. copy.usage ≡ self.now.usage) }
    {
        Ok(Bandwidth {
            calls: self.calls.copy()?,
            pools: self.pools.copy(),
            limit: self.limit,
            call_limit: self.call_limit,
        })
    }

    /// Whether the other has the same calls and figures.
    pub fn have_same(&self, other: &Self) -> bool
        ensures { IsTrue result ↔ HaveSame self.now.usage other.now.usage }
    {
        self.calls.is_same(&other.calls) && self.pools.is_same(&other.pools)
    }

    /// The table of the calls.
    pub fn table(&self) -> &Calls
        ensures { result.now.calls ≡ self.now.usage.calls }
    {
        &self.calls
    }

    /// The figures of the pools.
    pub fn pools(&self) -> &PoolFigures
        ensures { result.now ≡ self.now.usage.pools }
    {
        &self.pools
    }

    /// Makes room for this many more calls.
    pub fn reserve(&mut self, more: usize) -> Result<(), AllocError>
        ensures usage { self.new.usage ≡ self.old.usage }
        ensures room { OnOk result (more ≤ self.new.room) }
    {
        self.calls.reserve(more)
    }

    /// Makes a change for an endpoint, for which no pool is asked. Memory is asked for only if a
    /// call opens, and before anything changes.
    pub fn apply(&mut self, endpoint: &EndpointId, change: CallChange) -> Result<(), AllocError>
        requires { IsCallChange self.old.usage endpoint.now change }
        ensures ok { OnOk result (self.new.usage ≡ with_usage self.old.usage
            (calls_after endpoint.now change self.old.usage.calls)
            (pools_after endpoint.now change self.old.usage.calls self.old.usage.pools)) }
        ensures sound { OnOk result (IsSoundUsage self.new.usage) }
        ensures err { OnErr result (self.new.usage ≡ self.old.usage) }
        ensures memory { OnErr result (OpensCall change) }
    {
        match change {
            CallChange::Opening(key, pool, told) => self.open(key, pool, leg(endpoint, told))?,
            CallChange::Joining(key, told) => self.join(key, leg(endpoint, told)),
            CallChange::Lowering(key, units, pool, back) => self.lower(&key, units, pool, back),
            CallChange::Leaving(key) => self.leave(&key, endpoint),
        }
        let _ = &self.calls;
        Ok(())
    }

    /// Opens a call without units.
    fn open(&mut self, key: CallKey, pool: usize, leg: Leg) -> Result<(), AllocError>
        requires { IsOpenable self.old.usage key pool }
        ensures ok { OnOk result (self.new.usage ≡ with_usage self.old.usage
            (fin.insert self.old.usage.calls key (new_call pool 0 leg)) self.old.usage.pools) }
        ensures err { OnErr result (self.new.usage ≡ self.old.usage) }
    {
        self.calls.reserve(1)?;
        self.calls.open(key, pool, 0, leg).unwrap();
        Ok(())
    }

    fn join(&mut self, key: CallKey, leg: Leg)
        requires { IsJoinable self.old.usage.calls key leg }
        ensures { self.new.usage ≡ with_usage self.old.usage
            (update self.old.usage.calls key (with_leg leg)) self.old.usage.pools }
    {
        self.calls.join(key, leg).unwrap();
    }

    fn lower(&mut self, key: &CallKey, units: u32, pool: usize, back: u32)
        requires { IsLowerable self.old.usage.calls key.now units pool back }
        ensures { self.new.usage ≡ with_usage self.old.usage
            (update self.old.usage.calls key.now (with_units units))
            (pools_after_return self.old.usage.pools pool back) }
    {
        self.pools.take_back(pool, u64::from(back));
        self.calls.set_units(key, units).unwrap();
    }

    fn leave(&mut self, key: &CallKey, endpoint: &EndpointId)
        requires { IsSome (leg_at self.old.usage.calls key.now endpoint.now) }
        ensures { self.new.usage ≡ with_usage self.old.usage
            (after_leave self.old.usage.calls key.now endpoint.now)
            (pools_after_end self.old.usage.pools
            (freed_by_leave self.old.usage.calls key.now endpoint.now)) }
    {
        let left = self.calls.leave(key, endpoint).unwrap();
        if let Some((pool, units)) = left.ended {
            self.pools.take_back(pool, u64::from(units));
        }
    }

    /// Takes an endpoint out of all its calls, of which there are this many.
    pub fn leave_all(&mut self, endpoint: &EndpointId, legs: usize)
        requires { legs ≡ legs_of self.old.usage.calls endpoint.now }
        ensures left { HaveLeft endpoint.now self.old.usage self.new.usage }
        ensures others { HaveOthersLegs endpoint.now self.old.usage.calls self.new.usage.calls }
        ensures sound { IsSoundUsage self.new.usage }
    {
        for _gone in 0..legs {
            let call = self.calls.call_of(endpoint).unwrap();
            self.leave(&call, endpoint);
        }
        let _ = &self.calls;
    }

    /// Notes that a fresh pool, which was offered with these figures, took the place of a pool and
    /// took over its loans.
    pub fn replace_pool(&mut self, pool: usize, offered: Figures)
        requires { MayReplace self.old.usage.pools pool offered }
        ensures usage { self.new.usage ≡ with_usage self.old.usage self.old.usage.calls
            (pools_after_replacing self.old.usage.pools pool offered) }
        ensures sound { IsSoundUsage self.new.usage }
    {
        let _ = &self.calls;
        self.pools.replace(pool, offered);
    }

    /// Notes what a pool answered to a request for units for a call of an endpoint. If enough units
    /// are lent, the call opens with them, or gets them if it is open. This takes no memory.
    pub fn note_answer(&mut self, endpoint: &EndpointId, request: &UnitRequest, answer: Lend)
        requires room { 0 < self.old.room }
        requires may { IsUnitRequest self.old.usage request.now }
        requires counts { All (HasCounts (2 ^ 63)) self.old.usage.pools }
        requires answer { IsAnswer (figures_at self.old.usage.pools request.now.pool)
            request.now.units answer }
        ensures usage { self.new.usage ≡ with_usage self.old.usage
            (calls_after_answer endpoint.now request.now answer self.old.usage.calls)
            (pools_after_answer self.old.usage.pools (units_requested request.now) answer) }
        ensures sound { IsSoundUsage self.new.usage }
    {
        let units = u64::from(request.units);
        let least = u64::from(request.least);
        self.pools.note_answer(request.pool, units, least, answer);
        enter(&mut self.calls, endpoint, request, answer);
    }
}

/// The leg of an endpoint that is told this address.
fn leg(endpoint: &EndpointId, told: Address) -> Leg
    ensures { result ≡ leg_with endpoint.now told }
{
    Leg {
        endpoint: *endpoint,
        told,
    }
}

/// Enters a pool's answer into the calls. If the request of an endpoint gets units by it, a call
/// opens with them, or gets them if it is open.
fn enter(calls: &mut Calls, endpoint: &EndpointId, request: &UnitRequest, answer: Lend)
    requires { IsEnterable calls.old request.now answer }
    ensures calls { calls.new.calls
        ≡ calls_after_answer endpoint.now request.now answer calls.old.calls }
    ensures most { calls.new.most ≡ calls.old.most }
    ensures sound { IsConsistent calls.old → IsConsistent calls.new }
{
    let Some(units) = request.grant(answer) else {
        return;
    };
    match request.purpose {
        Purpose::Opening(told) => {
            let leg = leg(endpoint, told);
            let opened = calls.open(request.call, request.pool, units as u32, leg);
            opened.unwrap();
        }
        Purpose::Raising(had) => {
            let raised = calls.set_units(&request.call, had + units as u32);
            raised.unwrap();
        }
    }
}
