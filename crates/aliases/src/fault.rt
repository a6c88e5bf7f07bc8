//! Why an alias isn't entered.

ghost use Rattle.std.specs.Prelude.{◌≡◌};
ghost use Rattle.aliases.specs.Faults.{set_fault_number};

use thiserror::Error;

/// Why an alias isn't entered into the table.
#[derive(Clone, Copy, Debug, PartialEq, Eq, Error)]
pub enum SetFault {
    #[error("another endpoint holds the alias")]
    Duplicate,
    #[error("out of memory")]
    Memory,
}

impl SetFault {
    /// The number of the fault.
    pub fn number(&self) -> u8
        ensures { result ≡ set_fault_number self.now }
    {
        match self {
            SetFault::Duplicate => 1,
            SetFault::Memory => 2,
        }
    }
}
