//! What comes to the gatekeeper.

ghost use Rattle.std.specs.Prelude.{◌≡◌, IfOk};
ghost use Rattle.zone_events.specs.Events.{moment_in};

use ras_module::{Octets, Source};
use std::alloc::AllocError;
use zone_config::Moment;

/// One event: a step of the zone is made of it.
#[derive(Drop)]
pub enum Event {
    /// A datagram came from this address, with these octets, at this moment.
    Datagram(Source, Octets, Moment),
    /// At this moment, something may be done that is due.
    Turn(Moment),
}

impl Event {
    /// The moment of the event.
    ///
    /// promise event-has-its-moment: An event has its moment, as a change of a pool has
    /// (`moment_in`, `moment_of_change`).
    pub fn moment(&self) -> Moment
        ensures { result ≡ moment_in self.now }
    {
        match self {
            Event::Datagram(_, _, moment) => *moment,
            Event::Turn(moment) => *moment,
        }
    }

    /// An equal event.
    pub fn copy(&self) -> Result<Self, AllocError>
        ensures { IfOk result (λ copy. copy ≡ self.now) }
    {
        match self {
            Event::Datagram(source, bytes, moment) => {
                Ok(Event::Datagram(*source, bytes.copy()?, *moment))
            }
            Event::Turn(moment) => Ok(Event::Turn(*moment)),
        }
    }
}
