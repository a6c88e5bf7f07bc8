//! What may change in the tables.

ghost use Rattle.std.specs.Prelude.{◌≡◌};
ghost use Rattle.zone_tables.specs.Changes.{may_return_units, may_return_units_of_call};
ghost use Rattle.zone_tables.specs.inside.Counted.{move_of};

use crate::entry::Entry;
use ras_module::{Address, Boxed, CallKey};
use registrations::Registration;

/// What a request changes among the endpoints. An endpoint that the request doesn't name is told by
/// its call signal address, as no two share one. Moments are in milliseconds.
#[derive(Drop)]
pub enum EndpointChange {
    /// The time to live of the endpoint that the request names ends at this moment.
    Renewal(u64),
    /// The endpoint at the entry's call signal address registers the entry, until this moment.
    Rewriting(Entry, u64),
    /// An endpoint registers for the first time.
    Addition(Boxed<Registration>),
    /// The endpoint at this address goes.
    Removal(Address),
}

/// What a request changes among the calls, for the endpoint that it names, without asking a pool.
/// Units are of 100 bit/s.
#[derive(Clone, Copy)]
pub enum CallChange {
    /// The endpoint opens a call of this pool without units, and is told this address.
    Opening(CallKey, usize, Address),
    /// It joins a call as the second one, and is told this address.
    Joining(CallKey, Address),
    /// The units that a call keeps, its pool, and the units that the pool gets back.
    Lowering(CallKey, u32, usize, u32),
    /// It leaves a call.
    Leaving(CallKey),
}

impl CallChange {
    /// Whether the endpoint has one leg more after it, or one leg fewer.
    pub(crate) fn movement(&self) -> Move
        ensures { result ≡ move_of self.now }
    {
        match self {
            CallChange::Opening(_, _, _) => Move::Comes,
            CallChange::Joining(_, _) => Move::Comes,
            CallChange::Lowering(_, _, _, _) => Move::Stays,
            CallChange::Leaving(_) => Move::Goes,
        }
    }

    /// Whether units may come back to the pool of the call.
    pub fn may_return_units(&self) -> bool
        ensures { result ≡ may_return_units_of_call self.now }
    {
        match self {
            CallChange::Opening(_, _, _) => false,
            CallChange::Joining(_, _) => false,
            CallChange::Lowering(_, _, _, _) => true,
            CallChange::Leaving(_) => true,
        }
    }
}

/// Whether an endpoint takes part in one call more, or in one fewer.
#[derive(Clone, Copy)]
pub(crate) enum Move {
    Comes,
    Goes,
    Stays,
}

/// What a request changes.
#[derive(Drop)]
pub enum Change {
    Nothing,
    Endpoint(EndpointChange),
    Calls(CallChange),
}

impl Change {
    /// Whether units may come back to a pool.
    pub fn may_return_units(&self) -> bool
        ensures { result ≡ may_return_units self.now }
    {
        match self {
            Change::Nothing | Change::Endpoint(_) => false,
            Change::Calls(change) => change.may_return_units(),
        }
    }
}
