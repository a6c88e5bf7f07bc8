//! Why a script isn't read, or isn't run to its end.

ghost use Rattle.std.specs.Prelude.{◌≡◌};
ghost use Rattle.script.specs.Faults.{script_fault_number, run_fault_number};

use std::alloc::AllocError;
use std::fmt;
use thiserror::Error;

/// Why a script isn't read. Of the first four, the first that applies to the whole script
/// is returned.
#[derive(Clone, Copy, Debug, PartialEq, Eq, Error)]
pub enum ScriptFault {
    /// It has more octets than `Script::MOST`.
    #[error("input too long")]
    TooLong,
    /// This line, counted from 1, is the first that isn't understood.
    #[error("line {0}: not understood")]
    BadLine(usize),
    /// Each line is understood, and none names the zone.
    #[error("no zone")]
    NoZone,
    /// The zone is named, and the last pool has a network, so that some calls have no pool.
    #[error("no default pool")]
    NoDefaultPool,
    /// A read failed.
    #[error("stream failed")]
    Stream,
    #[error("out of memory")]
    Memory,
}

impl ScriptFault {
    /// The number of the fault.
    pub fn number(&self) -> u8
        ensures { result ≡ script_fault_number self.now }
    {
        match self {
            ScriptFault::TooLong => 1,
            ScriptFault::BadLine(_) => 2,
            ScriptFault::NoZone => 3,
            ScriptFault::NoDefaultPool => 4,
            ScriptFault::Stream => 5,
            ScriptFault::Memory => 6,
        }
    }
}

impl From<AllocError> for ScriptFault {
    ghost use Rattle.std.specs.Prelude.{◌≡◌};
    ghost use Rattle.script.specs.declared.fault.ScriptFault.TheVariants.{Memory};

    ghost from_gives = { λ _ fault. fault ≡ Memory };

    fn from(_: AllocError) -> ScriptFault {
        ScriptFault::Memory
    }
}

/// Why a run stopped. Events are counted from 1; the lines of the events before the one that is
/// named were written.
#[derive(Clone, Copy, Debug, PartialEq, Eq, Error)]
pub enum RunFault {
    /// There is no memory for the step of this event; 0: for the zone, before the first event.
    #[error("{}out of memory", AtStep(*.0))]
    Memory(usize),
    /// The zone makes no further step, and so none for this event.
    #[error("{}closed", AtStep(*.0))]
    Closed(usize),
    /// A write failed.
    #[error("stream failed")]
    Stream,
    /// The pools are not as many as the script's, or one of them is not idle, or the fresh pools
    /// are not as many as its events name; nothing was written.
    #[error("wrong pools")]
    WrongPools,
}

impl RunFault {
    /// The number of the fault.
    pub fn number(&self) -> u8
        ensures { result ≡ run_fault_number self.now }
    {
        match self {
            RunFault::Memory(_) => 1,
            RunFault::Closed(_) => 2,
            RunFault::Stream => 3,
            RunFault::WrongPools => 4,
        }
    }
}

/// Says at which step something happened; nothing of a time before the first step.
#[derive(Clone, Copy)]
struct AtStep(usize);

impl fmt::Display for AtStep {
    fn fmt<W: fmt::Write>(&self, f: &mut fmt::Formatter<W>) -> fmt::Result {
        match self.0 {
            0 => Ok(()),
            step => write!(f, "step {step}: "),
        }
    }
}
