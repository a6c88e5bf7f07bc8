//! Why nothing more can be kept.

ghost use Rattle.std.specs.Prelude.{◌≡◌};
ghost use Rattle.kept_replies.specs.Faults.{reserve_fault_number};

use thiserror::Error;

/// Why no room is made for one more reply.
#[derive(Clone, Copy, Debug, PartialEq, Eq, Error)]
pub enum ReserveFault {
    /// The limit of kept replies is reached, and none of them is over.
    #[error("as many replies are kept as may be")]
    Busy,
    /// Memory was refused.
    #[error("out of memory")]
    Memory,
}

impl ReserveFault {
    /// The number of the fault.
    pub fn number(&self) -> u8
        ensures { result ≡ reserve_fault_number self.now }
    {
        match self {
            ReserveFault::Busy => 1,
            ReserveFault::Memory => 2,
        }
    }
}
