//! Why something isn't done.

ghost use Rattle.std.specs.Prelude.{◌≡◌};
ghost use Rattle.ras_core.specs.Faults.{new_fault_number, step_fault_number};

use std::alloc::AllocError;
use thiserror::Error;

/// Why a zone isn't made.
#[derive(Clone, Copy, Debug, PartialEq, Eq, Error)]
pub enum NewFault {
    /// The number of pools is not the number of networks.
    #[error("there have to be as many pools as networks")]
    WrongPools,
    /// There is no memory. Today a zone is made without any, so that this is never returned.
    #[error("out of memory")]
    Memory,
}

impl NewFault {
    /// The number of the fault.
    pub fn number(&self) -> u8
        ensures { result ≡ new_fault_number self.now }
    {
        match self {
            NewFault::WrongPools => 1,
            NewFault::Memory => 2,
        }
    }
}

/// Why a step isn't made. The zone is then as it was.
#[derive(Clone, Copy, Debug, PartialEq, Eq, Error)]
pub enum StepFault {
    #[error("out of memory")]
    Memory,
    /// The zone made 2^62 steps, and makes no more.
    #[error("closed")]
    Closed,
}

impl StepFault {
    /// The number of the fault.
    pub fn number(&self) -> u8
        ensures { result ≡ step_fault_number self.now }
    {
        match self {
            StepFault::Memory => 1,
            StepFault::Closed => 2,
        }
    }
}

impl From<AllocError> for StepFault {
    ghost use Rattle.std.specs.Prelude.{◌≡◌};
    ghost use Rattle.ras_core.specs.declared.fault.StepFault.TheVariants.{Memory};

    ghost from_gives = { λ _ fault. fault ≡ Memory };

    fn from(_: AllocError) -> StepFault {
        StepFault::Memory
    }
}
