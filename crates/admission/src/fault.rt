//! Why the calls aren't changed.

ghost use Rattle.std.specs.Prelude.{◌≡◌};
ghost use Rattle.admission.specs.Faults.{call_fault_number};

use thiserror::Error;

/// Why the table of the calls isn't changed, or not copied.
#[derive(Clone, Copy, Debug, PartialEq, Eq, Error)]
pub enum CallFault {
    /// The limit of open calls is reached.
    #[error("as many calls are open as may be")]
    Full,
    /// Two endpoints take part already.
    #[error("the call has two legs")]
    TwoLegs,
    /// No call has that key.
    #[error("no call has that key")]
    NoCall,
    /// The endpoint takes no part in the call.
    #[error("the endpoint has no leg in the call")]
    NoLeg,
    /// Memory was refused.
    #[error("out of memory")]
    Memory,
}

impl CallFault {
    /// The number of the fault.
    pub fn number(&self) -> u8
        ensures { result ≡ call_fault_number self.now }
    {
        match self {
            CallFault::Full => 1,
            CallFault::TwoLegs => 2,
            CallFault::NoCall => 3,
            CallFault::NoLeg => 4,
            CallFault::Memory => 5,
        }
    }
}
