//! Why serving ended without a report.

ghost use Rattle.std.specs.Prelude.{◌≡◌};
ghost use Rattle.surroundings.specs.Faults.{running_status, serve_status};

use commands::InputFault;
use std::alloc::AllocError;
use thiserror::Error;

/// Why there is no report though the settings were read. What a person has to know besides it, as
/// why an address can't be bound, a line of the log tells before.
#[derive(Clone, Copy, Debug, PartialEq, Eq, Error)]
pub enum RunningFault {
    /// The address of the zone isn't bound.
    #[error("bind failed")]
    Bind,
    /// The address of the status page isn't bound.
    #[error("bind failed")]
    BindPage,
    /// The record of the zone isn't begun.
    #[error("record failed")]
    Record,
    /// Memory is refused.
    #[error("out of memory")]
    Memory,
    /// The pools aren't those of the settings.
    #[error("wrong pools")]
    WrongPools,
    /// The server didn't give its zone back.
    #[error("not finished")]
    NotFinished,
    /// Standard output failed.
    #[error("stream failed")]
    Stream,
}

impl RunningFault {
    /// The exit status: 3 if there is no memory, 4 if an address isn't bound, a record isn't begun
    /// or a stream failed, and 1 if the zone can't be made or didn't come back.
    pub fn status(&self) -> u8
        ensures { result ≡ running_status self.now }
    {
        match self {
            RunningFault::Bind | RunningFault::BindPage => 4,
            RunningFault::Record | RunningFault::Stream => 4,
            RunningFault::Memory => 3,
            RunningFault::WrongPools | RunningFault::NotFinished => 1,
        }
    }
}

impl From<AllocError> for RunningFault {
    ghost use Rattle.std.specs.Prelude.{◌≡◌};
    ghost use Rattle.surroundings.specs.declared.serving_fault.RunningFault.TheVariants.{Memory};

    ghost from_gives = { λ _ fault. fault ≡ Memory };

    fn from(_: AllocError) -> RunningFault {
        RunningFault::Memory
    }
}

/// Why there is no report.
#[derive(Clone, Copy, Debug, PartialEq, Eq, Error)]
pub enum ServingFault {
    /// The settings aren't read.
    #[error(transparent)]
    Settings(InputFault),
    /// What was set didn't run to its end.
    #[error(transparent)]
    Running(RunningFault),
}

impl ServingFault {
    /// The exit status, which is that of the fault within.
    ///
    /// promise serving-faults-have-a-status: Each fault has its exit status.
    pub fn status(&self) -> u8
        ensures { result ≡ serve_status self.now }
    {
        match self {
            ServingFault::Settings(fault) => fault.status(),
            ServingFault::Running(fault) => fault.status(),
        }
    }
}
