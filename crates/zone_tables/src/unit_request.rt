//! What a pool is asked for.

ghost use Rattle.std.specs.Prelude.{◌≡◌};
ghost use Rattle.zone_tables.specs.inside.Counted.{move_of_answer};
ghost use Rattle.zone_tables.specs.Pools.{grant_of};

use crate::change::Move;
use pools::Lend;
use ras_module::{Address, CallKey};

/// What the units of a request to a pool are for.
#[derive(Clone, Copy)]
pub enum Purpose {
    /// The endpoint that asks opens a call, and is told this address.
    Opening(Address),
    /// A call that has these units gets more.
    Raising(u32),
}

/// A request about a call for which a pool is asked for units, on behalf of the endpoint that makes
/// it.
#[derive(Clone, Copy)]
pub struct UnitRequest {
    pub call: CallKey,
    pub pool: usize,
    pub units: u32,
    /// The least units that are of use: a loan of fewer goes back.
    pub least: u32,
    pub purpose: Purpose,
}

impl UnitRequest {
    /// The units that the request gets by a pool's answer: those that were lent, unless they are
    /// fewer than the least.
    pub fn grant(&self, answer: Lend) -> Option<u64>
        ensures { result ≡ grant_of self.now.least answer }
    {
        match answer {
            Lend::Lent(units) if units < u64::from(self.least) => None,
            Lend::Lent(units) => Some(units),
            Lend::Refused | Lend::Wait => None,
        }
    }

    /// Whether the endpoint has one leg more after this answer of the pool.
    pub(crate) fn movement(&self, answer: Lend) -> Move
        ensures { result ≡ move_of_answer self.now answer }
    {
        if self.grant(answer).is_none() {
            return Move::Stays;
        }
        match self.purpose {
            Purpose::Opening(_) => Move::Comes,
            Purpose::Raising(_) => Move::Stays,
        }
    }
}
