//! What changes a zone: an event, or a pool that takes the place of another one.

ghost use Rattle.std.specs.Prelude.{◌≡◌, IfOk};
ghost use Rattle.zone_events.specs.Events.{moment_of_change};

use crate::event::Event;
use pools::Figures;
use std::alloc::AllocError;
use zone_config::Moment;

/// At this moment, a fresh pool takes the place of the pool with this number, and takes over its
/// loans. The fresh pool is offered with these figures.
#[derive(Clone, Copy, PartialEq, Eq)]
pub struct PoolChange {
    pub pool: usize,
    pub offered: Figures,
    pub moment: Moment,
}

/// What a step of the zone is made of.
#[derive(Drop)]
pub enum Change {
    /// This came to the gatekeeper.
    Event(Event),
    /// The program replaced a pool.
    PoolChange(PoolChange),
}

impl Change {
    /// The moment of the change.
    pub fn moment(&self) -> Moment
        ensures { result ≡ moment_of_change self.now }
    {
        match self {
            Change::Event(event) => event.moment(),
            Change::PoolChange(change) => change.moment,
        }
    }

    /// An equal change.
    pub fn copy(&self) -> Result<Self, AllocError>
        ensures { IfOk result (λ copy. copy ≡ self.now) }
    {
        match self {
            Change::Event(event) => Ok(Change::Event(event.copy()?)),
            Change::PoolChange(change) => Ok(Change::PoolChange(*change)),
        }
    }
}
