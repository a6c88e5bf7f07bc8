//! Why something isn't done.

ghost use Rattle.std.specs.Prelude.{◌≡◌};
ghost use Rattle.history.specs.Faults.{world_fault_number};

use std::alloc::AllocError;
use thiserror::Error;

/// Why a world isn't made, or a step of a world isn't done. The world is then as it was.
#[derive(Clone, Copy, Debug, PartialEq, Eq, Error)]
pub enum WorldFault {
    #[error("out of memory")]
    Memory,
    /// The zone made 2^62 steps, and makes no more.
    #[error("closed")]
    Closed,
    #[error("no such worker")]
    NoWorker,
    /// The worker that is to receive holds something.
    #[error("the worker is not idle")]
    NotIdle,
    /// The worker that is to apply holds no event.
    #[error("the worker holds no event")]
    NoEvent,
    /// The worker that is to post holds no outcome.
    #[error("the worker holds no outcome")]
    NoOutcome,
    #[error("the ring is empty")]
    RingEmpty,
    /// There are to be 1 to 16 workers, and 1 to 4,096 places in a ring.
    #[error("the number of workers or the capacity is out of range")]
    OutOfRange,
}

impl WorldFault {
    /// The number of the fault.
    pub fn number(&self) -> u8
        ensures { result ≡ world_fault_number self.now }
    {
        match self {
            WorldFault::Memory => 1,
            WorldFault::Closed => 2,
            WorldFault::NoWorker => 3,
            WorldFault::NotIdle => 4,
            WorldFault::NoEvent => 5,
            WorldFault::NoOutcome => 6,
            WorldFault::RingEmpty => 7,
            WorldFault::OutOfRange => 8,
        }
    }
}

impl From<AllocError> for WorldFault {
    ghost use Rattle.std.specs.Prelude.{◌≡◌};
    ghost use Rattle.history.specs.declared.fault.WorldFault.TheVariants.{Memory};

    ghost from_gives = { λ _ fault. fault ≡ Memory };

    fn from(_: AllocError) -> WorldFault {
        WorldFault::Memory
    }
}
