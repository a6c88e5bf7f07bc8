//! Replaying a script.

ghost use Rattle.std.specs.Prelude.{◌≡◌};
ghost use Rattle.commands.specs.Replays.{status_of, Replays};

use crate::boxed_pools::run_with_pools;
use script::{Input, Output, RunFault, ScriptFault, read_script};
use std::alloc::{AllocError, Global};
use std::io::{Read, Write};
use thiserror::Error;

/// Why a replay stopped.
#[derive(Clone, Copy, Debug, PartialEq, Eq, Error)]
pub enum ReplayFault {
    /// The script isn't read; nothing was written.
    #[error(transparent)]
    Script(ScriptFault),
    /// The script isn't run to its end.
    #[error(transparent)]
    Run(RunFault),
}

impl ReplayFault {
    /// The exit status: 1 if the input is refused, 3 if there is no memory, and 4 if a
    /// stream failed.
    ///
    /// promise replay-faults-have-a-status: Each fault has its exit status; likewise `InputFault`.
    pub fn status(&self) -> u8
        ensures { result ≡ status_of self.now }
    {
        match self {
            ReplayFault::Script(fault) => match fault {
                ScriptFault::TooLong
                | ScriptFault::BadLine(_)
                | ScriptFault::NoZone
                | ScriptFault::NoDefaultPool => 1,
                ScriptFault::Stream => 4,
                ScriptFault::Memory => 3,
            },
            ReplayFault::Run(fault) => match fault {
                RunFault::Memory(_) => 3,
                RunFault::Closed(_) | RunFault::WrongPools => 1,
                RunFault::Stream => 4,
            },
        }
    }
}

/// Reads a script whole, and then runs it and writes its lines. Of a script that isn't read nothing
/// is written.
///
/// promise refused-script-prints-nothing: A script is run with its pools; of a refused one nothing
/// is written.
pub fn replay<R: Read + Drop, W: Write + Drop>(
    alloc: Global,
    input: &mut Input<R>,
    out: &mut Output<W>,
) -> Result<(), ReplayFault>
    ensures { Replays input.old input.new out.old out.new result }
{
    match read_script(alloc, input) {
        Ok(script) => match run_with_pools(alloc, script, out) {
            Ok(Ok(())) => Ok(()),
            Ok(Err(fault)) => Err(ReplayFault::Run(fault)),
            Err(AllocError) => Err(ReplayFault::Run(RunFault::Memory(0))),
        },
        Err(fault) => Err(ReplayFault::Script(fault)),
    }
}
