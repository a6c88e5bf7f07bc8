//! Why a registration isn't added.

ghost use Rattle.std.specs.Prelude.{◌≡◌};
ghost use Rattle.registrations.specs.Faults.{add_fault_number};

use thiserror::Error;

/// Why a registration isn't added to the table.
#[derive(Clone, Copy, Debug, PartialEq, Eq, Error)]
pub enum AddFault {
    #[error("as many endpoints are registered as may be")]
    Full,
    #[error("out of memory")]
    Memory,
}

impl AddFault {
    /// The number of the fault.
    pub fn number(&self) -> u8
        ensures { result ≡ add_fault_number self.now }
    {
        match self {
            AddFault::Full => 1,
            AddFault::Memory => 2,
        }
    }
}
