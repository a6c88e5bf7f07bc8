//! The endpoints of a zone, with the table of their aliases.

ghost use Rattle.std.specs.Prelude.{◌↔◌, IsTrue};
ghost use Rattle.std.specs.Prelude.{◌≡◌, ◌≤◌, ◌<◌, [], IsSome, IfOk, OnOk, OnErr};
ghost use Rattle.std.specs.Option.{option_copied, IsSomeAnd};
ghost use Rattle.std.specs.FinMap as map;
ghost use Rattle.keyed.specs.Maps.{update};
ghost use Rattle.registrations.specs.Registry.{after_ask, after_calm, after_rewrite, at_address};
ghost use Rattle.registrations.specs.Registry.{with_deadline};
ghost use Rattle.aliases.specs.Held.{Becomes, without_holder};
ghost use Rattle.registrations.specs.Agreement.{Agree, registered_elsewhere};
ghost use Rattle.zone_tables.specs.Tables.{heard_now, identifier_at};
ghost use Rattle.zone_tables.specs.Translation.{registered_with, translation};
ghost use Rattle.zone_tables.specs.Changes.{IsAddable, IsEndpointChange, RegistersInFull};
ghost use Rattle.zone_tables.specs.Changes.{IsRewritable, after_endpoint_change};
ghost use Rattle.zone_tables.specs.Parts.{IsSoundRoll};
ghost use Rattle.zone_tables.specs.inside.Counted.{IsMove, legs_after_change, legs_after_move};

use crate::change::{EndpointChange, Move};
use crate::entry::Entry;
use aliases::AliasTable;
use ras_module::{Address, Alias, AliasList, EndpointId};
use registrations::{Registration, Registrations, Times};
use std::alloc::{AllocError, Global};
use std::marker::Model;
use zone_config::Moment;

/// The endpoints that are registered. The table of their aliases agrees with them.
pub struct Endpoints {
    registrations: Registrations,
    aliases: AliasTable,
}

// By hand, so that it is one call where one is dropped.
impl Drop for Endpoints {
    fn drop(self) {
        let Endpoints {
            registrations: _,
            aliases: _,
        } = self;
    }
}

impl Model for Endpoints {
    ghost use Rattle.std.specs.Coded.{codes};
    ghost use Rattle.std.specs.FinMap as map;
    ghost use Rattle.zone_tables.specs.inside.Stored.{AreStored};
    ghost use Rattle.zone_tables.specs.Parts.{Roster};

    ghost Value = { Roster };

    ghost coded = { Prim.hlevel (codes, map.code) };

    ghost view = { λ e. record {
      roll = record { live = e.registrations.live; most = e.registrations.most };
      legs = e.registrations.legs;
      times = e.registrations.times;
    } };

    ghost invariant = { λ e. AreStored e.registrations e.aliases.held };
}

impl Endpoints {
    /// A table with no endpoint, for at most this many. One in a call may be silent for these
    /// times.
    pub fn new(alloc: Global, most: usize, times: Times) -> Self
        requires { most ≤ Registrations.MOST }
        ensures empty { result ≡ record {
          roll = record { live = map.empty; most = most };
          legs = map.empty;
          times = times;
        } }
        ensures sound { IsSoundRoll result.roll }
    {
        Endpoints {
            registrations: Registrations::with_times(alloc, most, times),
            aliases: AliasTable::new(alloc),
        }
    }

    /// The same endpoints, in a table of their own.
    pub fn copy(&self) -> Result<Self, AllocError>
        ensures { IfOk result (λ copy. copy ≡ self.now) }
    {
        Ok(Endpoints {
            registrations: self.registrations.copy()?,
            aliases: self.aliases.copy()?,
        })
    }

    /// Whether the other has the same endpoints.
    pub fn have_same(&self, other: &Self) -> bool
        ensures { IsTrue result ↔ (self.now.roll.live ≡ other.now.roll.live) }
    {
        self.registrations.is_same(&other.registrations)
    }

    /// Those of these aliases that endpoints with another call signal address hold.
    pub fn conflicts(&self, aliases: &[Alias], address: Address) -> Result<AliasList, AllocError>
        ensures { IfOk result (λ held.
            held ≡ registered_elsewhere self.now.roll.live address aliases.now) }
    {
        let _ = &self.registrations;
        self.aliases.conflicts(aliases, address)
    }

    /// The call signal address of the endpoint with the first of these aliases that is registered.
    /// The other address if none is.
    pub fn translate(&self, aliases: &[Alias], other: Option<Address>) -> Option<Address>
        ensures { result ≡ translation self.now.roll.live aliases.now other }
    {
        for alias in aliases {
            if let Some(r) = self.registered_with(alias) {
                return Some(r.call_signal);
            }
        }
        other
    }

    /// The endpoint that is registered with an alias.
    fn registered_with(&self, alias: &Alias) -> Option<&Registration>
        ensures { option_copied result ≡ registered_with self.now.roll.live alias.now }
    {
        self.registrations.get(self.aliases.holder(alias)?)
    }

    /// The table of the registrations.
    pub fn table(&self) -> &Registrations
        ensures live { result.now.live ≡ self.now.roll.live }
        ensures legs { result.now.legs ≡ self.now.legs }
        ensures times { result.now.times ≡ self.now.times }
    {
        &self.registrations
    }

    /// Counts the leg of an endpoint that took part in one call more, or in one fewer.
    pub fn count(&mut self, endpoint: &EndpointId, movement: Move)
        requires { IsMove self.old.roll.live self.old.legs endpoint.now movement }
        ensures { self.new ≡ record self.old {
          legs = legs_after_move endpoint.now movement self.old.legs;
        } }
    {
        match movement {
            Move::Comes => self.registrations.leg_comes(endpoint),
            Move::Goes => self.registrations.leg_goes(endpoint),
            Move::Stays => {}
        }
    }

    /// Notes that an endpoint takes part in no call, if it is registered.
    pub fn no_legs(&mut self, id: &EndpointId)
        ensures { self.new ≡ record self.old {
          legs = update self.old.legs id.now (λ legs. 0);
        } }
    {
        if self.registrations.legs(id).is_some() {
            self.registrations.no_legs(id);
        }
    }

    /// Notes that an endpoint was heard, if it is registered.
    pub fn hear(&mut self, now: Moment, id: &EndpointId)
        ensures live { self.new.roll.live ≡ heard_now now id.now self.old.roll.live }
        ensures most { self.new.roll.most ≡ self.old.roll.most }
        ensures legs { self.new.legs ≡ self.old.legs }
        ensures times { self.new.times ≡ self.old.times }
        ensures sound { IsSoundRoll self.new.roll }
    {
        self.registrations.hear(id, now.milliseconds());
    }

    /// Notes that an endpoint is asked for a sign of life now.
    pub fn interrogated(&mut self, now: Moment, id: &EndpointId)
        requires { IsSomeAnd (map.get self.old.roll.live id.now) (λ r. r.tries < 16) }
        ensures live { self.new.roll.live ≡ update self.old.roll.live id.now (after_ask now) }
        ensures most { self.new.roll.most ≡ self.old.roll.most }
        ensures legs { self.new.legs ≡ self.old.legs }
        ensures times { self.new.times ≡ self.old.times }
        ensures sound { IsSoundRoll self.new.roll }
    {
        self.registrations.asked(id, now.milliseconds());
    }

    /// Counts an endpoint's tries from 0 again, if it is registered.
    pub fn calm(&mut self, id: &EndpointId)
        ensures live { self.new.roll.live ≡ update self.old.roll.live id.now after_calm }
        ensures most { self.new.roll.most ≡ self.old.roll.most }
        ensures legs { self.new.legs ≡ self.old.legs }
        ensures times { self.new.times ≡ self.old.times }
        ensures sound { IsSoundRoll self.new.roll }
    {
        if self.registrations.get(id).is_some() {
            self.registrations.calm(id);
        }
    }

    /// The identifier of the endpoint at this call signal address.
    fn identifier_at(&self, address: Address) -> EndpointId
        requires { IsSome (at_address self.now.roll.live address) }
        ensures id { result ≡ identifier_at self.now.roll.live address }
        ensures live { IsSome (map.get self.now.roll.live result) }
    {
        self.registrations.by_address(address).unwrap().identifier
    }

    /// Makes a change of a request that names this endpoint, if it names one. Memory is asked for
    /// only if an endpoint registers in full, and before anything changes.
    pub fn apply(
        &mut self,
        now: Moment,
        who: Option<&EndpointId>,
        change: EndpointChange,
    ) -> Result<(), AllocError>
        requires { IsEndpointChange self.old.roll (option_copied who) change }
        ensures live { OnOk result (self.new.roll.live
            ≡ after_endpoint_change now (option_copied who.entry) change self.old.roll.live) }
        ensures most { self.new.roll.most ≡ self.old.roll.most }
        ensures legs { OnOk result
            (self.new.legs ≡ legs_after_change self.old.roll.live change self.old.legs) }
        ensures times { self.new.times ≡ self.old.times }
        ensures sound { OnOk result (IsSoundRoll self.new.roll) }
        ensures err { OnErr result (self.new ≡ self.old) }
        ensures memory { OnErr result (RegistersInFull change) }
    {
        match change {
            EndpointChange::Renewal(deadline) => self.renew(who.unwrap(), deadline),
            EndpointChange::Rewriting(entry, deadline) => {
                let id = self.identifier_at(entry.call_signal);
                self.rewrite(now, &id, entry, deadline)?;
            }
            EndpointChange::Addition(registration) => self.add(registration.into_inner())?,
            EndpointChange::Removal(address) => {
                let id = self.identifier_at(address);
                self.remove(&id);
            }
        }
        let _ = &self.registrations;
        Ok(())
    }

    fn renew(&mut self, id: &EndpointId, deadline: u64)
        requires { IsSome (map.get self.old.roll.live id.now) }
        ensures live { self.new.roll.live
            ≡ update self.old.roll.live id.now (with_deadline deadline) }
        ensures most { self.new.roll.most ≡ self.old.roll.most }
        ensures legs { self.new.legs ≡ self.old.legs }
        ensures times { self.new.times ≡ self.old.times }
    {
        self.registrations.renew(id, deadline);
    }

    fn rewrite(
        &mut self,
        now: Moment,
        endpoint: &EndpointId,
        entry: Entry,
        deadline: u64,
    ) -> Result<(), AllocError>
        requires { IsRewritable self.old.roll endpoint.now entry }
        ensures live { OnOk result (self.new.roll.live
            ≡ heard_now now endpoint.now (update self.old.roll.live endpoint.now
            (after_rewrite entry.ras entry.aliases deadline))) }
        ensures most { self.new.roll.most ≡ self.old.roll.most }
        ensures legs { self.new.legs ≡ self.old.legs }
        ensures times { self.new.times ≡ self.old.times }
        ensures err { OnErr result (self.new ≡ self.old) }
    {
        let Entry {
            call_signal,
            ras,
            aliases,
        } = entry;
        self.aliases.reserve(aliases.as_slice().len())?;
        drop_aliases(&self.registrations, &mut self.aliases, endpoint);
        self.aliases
            .set_all(aliases.as_slice(), *endpoint, call_signal);
        self.registrations.rewrite(endpoint, ras, aliases, deadline);
        self.registrations.hear(endpoint, now.milliseconds());
        Ok(())
    }

    fn add(&mut self, registration: Registration) -> Result<(), AllocError>
        requires { IsAddable self.old.roll registration }
        ensures live { OnOk result (self.new.roll.live
            ≡ map.insert self.old.roll.live registration.identifier registration) }
        ensures most { self.new.roll.most ≡ self.old.roll.most }
        ensures legs { OnOk result
            (self.new.legs ≡ map.insert self.old.legs registration.identifier 0) }
        ensures times { self.new.times ≡ self.old.times }
        ensures err { OnErr result (self.new ≡ self.old) }
    {
        let aliases = registration.aliases.as_slice();
        self.registrations.reserve(1)?;
        self.aliases.reserve(aliases.len())?;
        self.aliases
            .set_all(aliases, registration.identifier, registration.call_signal);
        self.registrations.insert(registration).unwrap();
        Ok(())
    }

    /// Takes an endpoint out, if it is registered.
    pub fn remove(&mut self, id: &EndpointId)
        ensures live { self.new.roll.live ≡ map.remove self.old.roll.live id.now }
        ensures most { self.new.roll.most ≡ self.old.roll.most }
        ensures legs { self.new.legs ≡ map.remove self.old.legs id.now }
        ensures times { self.new.times ≡ self.old.times }
        ensures sound { IsSoundRoll self.new.roll }
    {
        drop_aliases(&self.registrations, &mut self.aliases, id);
        self.registrations.remove(id);
    }
}

/// Takes out all aliases of an endpoint, if it is registered. The time grows only with the number
/// of its aliases.
fn drop_aliases(registrations: &Registrations, aliases: &mut AliasTable, id: &EndpointId)
    requires { Agree registrations.now.live aliases.old.held }
    ensures { Becomes aliases.old aliases.new (without_holder aliases.old.held id.now) }
{
    if let Some(registration) = registrations.get(id) {
        aliases.drop_all(registration.aliases.as_slice(), id);
    }
}
