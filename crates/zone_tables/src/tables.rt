//! The tables of a zone: its endpoints and its calls, under its settings.

ghost use Rattle.std.specs.Prelude.{◌↔◌};
ghost use Rattle.std.specs.Prelude.{◌≡◌, ◌<◌, ◌≤◌, ◌^◌, All, IfOk, IfSome, IsTrue};
ghost use Rattle.std.specs.Prelude.{MatchOption, None, OnErr, OnOk, Some, length, map, ℕ};
ghost use Rattle.std.specs.Option.{IsSomeAnd, option_copied};
ghost use Rattle.std.specs.FinMap as fin;
ghost use Rattle.keyed.specs.Maps.{update};
ghost use Rattle.registrations.specs.Registry.{after_ask};
ghost use Rattle.registrations.specs.Agreement.{registered_elsewhere};
ghost use Rattle.zone_tables.specs.Translation.{translation};
ghost use Rattle.admission.specs.Calls.{EachLeg, legs_of};
ghost use Rattle.zone_tables.specs.Leaving.{AreSameButLent, IsOther};
ghost use Rattle.pools.specs.Account.{IsAnswer};
ghost use Rattle.zone_tables.specs.Tables.{empty_tables, with_live};
ghost use Rattle.zone_tables.specs.Disengaging.{without_endpoint, without_legs_of, without_silent};
ghost use Rattle.zone_tables.specs.Pools.{IsIdle, MayReplace, figures_at};
ghost use Rattle.zone_tables.specs.Pools.{pools_after_answer, pools_after_replacing};
ghost use Rattle.zone_tables.specs.Parts.{usage_of};
ghost use Rattle.zone_tables.specs.Changes.{IsPossible, IsPossibleFor, IsRegistered, OpensCall};
ghost use Rattle.zone_tables.specs.Changes.{RegistersInFull, TakesMemory};
ghost use Rattle.zone_tables.specs.UnitRequests.{IsUnitRequest};
ghost use Rattle.zone_tables.specs.UnitRequests.{units_requested};
ghost use Rattle.zone_tables.specs.UnitRequests.{calls_after_answer, leg_of_purpose};
ghost use Rattle.zone_tables.specs.Changes.{after_change, heard};
ghost use Rattle.zone_tables.specs.Soundness.{HasCounts, SoundTables};
ghost use Rattle.zone_tables.specs.Silence.{times_of};
ghost use Rattle.zone_tables.specs.EndpointsDue.{IsEndpointItem, IsNoEndpointDue};

use crate::bandwidth::Bandwidth;
use crate::change::{CallChange, Change, EndpointChange};
use crate::endpoints::Endpoints;
use crate::endpoints_due::item_in_call;
use crate::lender::Lender;
use crate::pool_figures::PoolFigures;
use crate::unit_request::UnitRequest;
use admission::Calls;
use pools::{Figures, Lend};
use ras_module::{Address, Alias, EndpointId, ReplyAliases};
use registrations::{Registrations, Times};
use std::alloc::{AllocError, Global};
use std::marker::Model;
use zone_config::{Config, Moment};
use zone_events::DueItem;

/// The settings of a zone, its endpoints, and its calls with the figures of its pools. The contract
/// of each change says that the tables are sound after it.
pub struct ZoneTables {
    config: Config,
    endpoints: Endpoints,
    bandwidth: Bandwidth,
}

// By hand, so that it is one call where they are dropped.
impl Drop for ZoneTables {
    fn drop(self) {
        let ZoneTables {
            config: _,
            endpoints: _,
            bandwidth: _,
        } = self;
    }
}

impl Model for ZoneTables {
    ghost use Rattle.std.specs.Prelude.{◌≡◌, length};
    ghost use Rattle.std.specs.Coded.{codes};
    ghost use Rattle.std.specs.FinMap as map;
    ghost use Rattle.zone_tables.specs.Tables.{Tables};
    ghost use Rattle.zone_tables.specs.Parts.{AreSoundParts};

    ghost Value = { Tables };

    ghost coded = { Prim.hlevel (codes, map.code) };

    ghost view = { λ m. record {
      config = m.config;
      live = m.endpoints.roll.live;
      calls = m.bandwidth.usage.calls;
      pools = m.bandwidth.usage.pools;
    } };

    ghost invariant = { λ m. AreSoundParts m.config m.endpoints m.bandwidth.usage };
}

impl ZoneTables {
    /// The tables of a zone in which nobody is registered and no call is open.
    pub fn new(alloc: Global, config: Config, pools: PoolFigures) -> Self
        requires idle { All IsIdle pools }
        requires each { length pools ≡ length config.networks }
        ensures tables { result ≡ empty_tables config pools }
        ensures sound { SoundTables result }
    {
        let endpoints = Endpoints::new(alloc, config.endpoints(), times_of(&config));
        let bandwidth = Bandwidth::new(alloc, &config, pools);
        ZoneTables {
            config,
            endpoints,
            bandwidth,
        }
    }

    /// The same settings, endpoints and calls, in tables of their own.
    ///
    /// promise table-copy-has-the-same: A copy has what the tables have; likewise copies of its
    /// parts, and of machines.
    pub fn copy(&self) -> Result<Self, AllocError>
        ensures { IfOk result (λ copy. copy ≡ self.now) }
    {
        Ok(ZoneTables {
            config: self.config.copy()?,
            endpoints: self.endpoints.copy()?,
            bandwidth: self.bandwidth.copy()?,
        })
    }

    /// Whether the other tables have the same settings, endpoints, calls and figures. This takes no
    /// memory.
    ///
    /// promise same-tables-are-told: Whether two have the same is told exactly, without memory;
    /// likewise of its parts, and of machines.
    pub fn is_same(&self, other: &Self) -> bool
        ensures { IsTrue result ↔ (self.now ≡ other.now) }
    {
        self.config.is_same(&other.config)
            && self.endpoints.have_same(&other.endpoints)
            && self.bandwidth.have_same(&other.bandwidth)
    }

    /// The figures of the pools.
    pub fn pools(&self) -> &PoolFigures
        ensures { result.now ≡ self.now.pools }
    {
        self.bandwidth.pools()
    }

    /// The settings.
    pub fn config(&self) -> &Config
        ensures same { result.now ≡ self.now.config }
        ensures asks { self.now.config.asks ≤ 16 }
        ensures call_limit { self.now.config.call_limit < 2 ^ 32 }
        ensures sound { SoundTables self.now }
    {
        &self.config
    }

    /// How long an endpoint in a call may be silent.
    pub fn times(&self) -> Times
        ensures same { result ≡ times_of self.now.config }
        ensures asks { result.asks ≤ 16 }
    {
        times_of(&self.config)
    }

    /// The registered endpoints.
    ///
    /// promise tables-are-sound: The tables are sound, as after each change (`SoundTables`).
    pub fn registrations(&self) -> &Registrations
        ensures live { result.now.live ≡ self.now.live }
        ensures sound { SoundTables self.now }
        ensures asks { self.now.config.asks ≤ 16 }
    {
        self.endpoints.table()
    }

    /// The open calls.
    pub fn calls(&self) -> &Calls
        ensures { result.now.calls ≡ self.now.calls }
    {
        self.bandwidth.table()
    }

    /// Those of these aliases that endpoints with another call signal address hold.
    pub fn conflicts(
        &self,
        aliases: &ReplyAliases,
        address: Address,
    ) -> Result<ReplyAliases, AllocError>
        ensures { IfOk result (λ held.
            held ≡ registered_elsewhere self.now.live address aliases.now) }
    {
        let held = self.endpoints.conflicts(aliases.as_slice(), address)?;
        Ok(ReplyAliases::new(held)?.unwrap())
    }

    /// The call signal address of the endpoint with the first of these aliases that is registered.
    /// The other address if none is.
    pub fn translate(&self, aliases: &[Alias], other: Option<Address>) -> Option<Address>
        ensures { result ≡ translation self.now.live aliases.now other }
    {
        self.endpoints.translate(aliases, other)
    }

    /// In how many calls an endpoint has a leg.
    pub fn legs_of(&self, endpoint: &EndpointId) -> usize
        ensures { result ≡ legs_of self.now.calls endpoint.now }
    {
        self.endpoints.table().legs(endpoint).unwrap_or(0)
    }

    /// Makes a change of a request that names this endpoint, if it names one. Memory is asked for
    /// only if something is entered for the first time, or an endpoint registers anew, and before
    /// anything changes.
    ///
    /// promise changes-are-whole-or-none: A change leaves the tables as defined or, if refused, as
    /// they were; only opening a call or registering in full can want memory (`after_change`,
    /// `TakesMemory`).
    pub fn apply(
        &mut self,
        now: Moment,
        who: Option<&EndpointId>,
        change: Change,
    ) -> Result<(), AllocError>
        requires { IsPossible self.old (option_copied who) change }
        ensures ok { OnOk result
            (self.new ≡ after_change now (option_copied who.entry) change self.old) }
        ensures sound { SoundTables self.new }
        ensures err { OnErr result (self.new ≡ self.old) }
        ensures memory { OnErr result (TakesMemory change) }
    {
        let _ = &self.config;
        match change {
            Change::Nothing => Ok(()),
            Change::Endpoint(change) => self.change_endpoints(now, who, change),
            Change::Calls(change) => self.change_calls(who.unwrap(), change),
        }
    }

    fn change_endpoints(
        &mut self,
        now: Moment,
        who: Option<&EndpointId>,
        change: EndpointChange,
    ) -> Result<(), AllocError>
        requires { IsPossible self.old (option_copied who) (Change.Endpoint change) }
        ensures ok { OnOk result
            (self.new ≡ after_change now (option_copied who.entry) (Change.Endpoint change)
            self.old) }
        ensures sound { SoundTables self.new }
        ensures err { OnErr result (self.new ≡ self.old) }
        ensures memory { OnErr result (RegistersInFull change) }
    {
        let _ = &self.config;
        self.endpoints.apply(now, who, change)?;
        Ok(())
    }

    fn change_calls(&mut self, endpoint: &EndpointId, change: CallChange) -> Result<(), AllocError>
        requires { IsPossibleFor self.old endpoint.now change }
        ensures ok { (now : ℕ) → OnOk result
            (self.new ≡ after_change now (Some endpoint.now) (Change.Calls change) self.old) }
        ensures sound { SoundTables self.new }
        ensures err { OnErr result (self.new ≡ self.old) }
        ensures memory { OnErr result (OpensCall change) }
    {
        let movement = change.movement();
        self.bandwidth.apply(endpoint, change)?;
        self.endpoints.count(endpoint, movement);
        Ok(())
    }

    /// Notes that an endpoint was heard, if it is registered.
    pub fn hear(&mut self, now: Moment, id: &EndpointId)
        ensures heard { self.new ≡ heard self.old now (Some id.now) }
        ensures sound { SoundTables self.new }
    {
        let _ = &self.config;
        self.endpoints.hear(now, id);
    }

    /// Requests units of a pool, once, for a call of an endpoint. If enough units are lent, the
    /// call opens with them, or gets them if it is open. The memory is there before the pool is
    /// asked.
    ///
    /// promise units-follow-the-answer: Whoever lends is asked once, after all memory is there; a
    /// loan below the least goes back in the same step (`units_requested`, `grant_of`,
    /// `pools_after_answer`).
    pub fn request_units<L: Lender>(
        &mut self,
        endpoint: &EndpointId,
        request: &UnitRequest,
        lender: &mut L,
    ) -> Result<Lend, AllocError>
        requires figures { L.lends_for lender.old self.old.pools }
        requires may { IsUnitRequest (usage_of self.old) request.now }
        requires leg { IfSome (leg_of_purpose endpoint.now request.now.purpose)
            (IsRegistered self.old.live) }
        requires counts { All (HasCounts (2 ^ 63)) self.old.pools }
        ensures answer { IfOk result (IsAnswer (figures_at self.old.pools request.now.pool)
            request.now.units) }
        ensures tables { IfOk result (λ answer. self.new ≡ record self.old {
          calls = calls_after_answer endpoint.now request.now answer self.old.calls;
          pools = pools_after_answer self.old.pools (units_requested request.now) answer;
        }) }
        ensures lends { IfOk result (λ answer. L.lends lender.old self.old.pools
            (units_requested request.now) answer lender.new) }
        ensures sound { SoundTables self.new }
        ensures err { OnErr result (self.new ≡ self.old) }
        ensures not_asked { OnErr result (lender.new ≡ lender.old) }
    {
        let _ = &self.config;
        self.bandwidth.reserve(1)?;
        let units = u64::from(request.units);
        let least = u64::from(request.least);
        let answer = lender.ask(self.bandwidth.pools(), request.pool, units, least);
        self.bandwidth.note_answer(endpoint, request, answer);
        self.endpoints.count(endpoint, request.movement(answer));
        Ok(answer)
    }

    /// Notes that a fresh pool, which was offered with these figures, took the place of a pool and
    /// took over its loans.
    ///
    /// promise replaced-figures-keep-the-loans: The fresh figures stand there with the old loans,
    /// and nothing else changes (`pools_after_replacing`).
    pub fn replace_pool(&mut self, pool: usize, offered: Figures)
        requires { MayReplace self.old.pools pool offered }
        ensures tables { self.new ≡ record self.old {
          pools = pools_after_replacing self.old.pools pool offered;
        } }
        ensures sound { SoundTables self.new }
    {
        let _ = &self.config;
        self.bandwidth.replace_pool(pool, offered);
    }

    /// Takes an endpoint out of all its calls.
    fn leave_all(&mut self, id: &EndpointId)
        ensures tables { self.new ≡ without_legs_of self.old id.now }
        ensures pools { AreSameButLent self.old.pools self.new.pools }
        ensures gone { EachLeg (IsOther id.now) self.new.calls }
    {
        let _ = &self.config;
        let legs = self.endpoints.table().legs(id).unwrap_or(0);
        self.bandwidth.leave_all(id, legs);
        self.endpoints.no_legs(id);
    }

    /// Removes a registration, with the endpoint's legs.
    ///
    /// promise registration-ends-with-its-legs: A registration that ends takes its legs along, and
    /// calls without a leg give their units back (`without_endpoint`).
    pub fn lapse(&mut self, id: &EndpointId)
        ensures tables { self.new ≡ without_endpoint self.old id.now }
        ensures sound { SoundTables self.new }
        ensures pools { AreSameButLent self.old.pools self.new.pools }
    {
        self.leave_all(id);
        self.endpoints.remove(id);
    }

    /// Removes the legs of a silent endpoint, which stays registered.
    ///
    /// promise silent-endpoint-loses-its-legs: A silent endpoint loses its legs, and stays
    /// registered (`without_silent`).
    pub fn silence(&mut self, id: &EndpointId)
        ensures tables { self.new ≡ without_silent self.old id.now }
        ensures sound { SoundTables self.new }
        ensures pools { AreSameButLent self.old.pools self.new.pools }
    {
        self.leave_all(id);
        self.endpoints.calm(id);
    }

    /// Notes that an endpoint is asked for a sign of life now.
    pub fn interrogated(&mut self, now: Moment, id: &EndpointId)
        requires { IsSomeAnd (fin.get self.old.live id.now) (λ r. r.tries < 16) }
        ensures tables { self.new
            ≡ with_live self.old (update self.old.live id.now (after_ask now)) }
        ensures sound { SoundTables self.new }
    {
        let _ = &self.config;
        self.endpoints.interrogated(now, id);
    }

    /// An item that is due of an endpoint in a call, any such item: the endpoint is asked for a
    /// sign of life, or counts as silent. None if there is none.
    ///
    /// promise due-endpoint-is-told: An item is told that is due of an endpoint; None if and only
    /// if nothing is (`IsEndpointItem`, `IsNoEndpointDue`).
    pub fn endpoint_due(&self, now: Moment) -> Option<DueItem>
        ensures { MatchOption result
            (IsNoEndpointDue now (times_of self.now.config) self.now.live self.now.calls)
            (IsEndpointItem now (times_of self.now.config) self.now.live self.now.calls) }
    {
        let moment = now.milliseconds();
        let registration = self.endpoints.table().silent(moment)?;
        item_in_call(registration, moment, &self.times())
    }
}

/// How long an endpoint in a call may be silent, as it is set.
fn times_of(config: &Config) -> Times
    ensures same { result ≡ times_of config.now }
    ensures asks { result.asks ≤ 16 }
{
    let parts = config.parts();
    Times {
        silence: parts.silence,
        asks: parts.asks as u8,
        ask_wait: parts.ask_wait,
    }
}
