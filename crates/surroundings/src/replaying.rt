//! Replaying a script.

ghost use Rattle.std.specs.Prelude.{◌≡◌};
ghost use Rattle.commands.specs.Replays.{status_of};
ghost use Rattle.surroundings.specs.Endings.{IsReplayed, ended_status};

use crate::last_line::out_of_memory;
use commands::{ReplayFault, replay};
use script::Output;
use std::alloc::Global;
use std::io::{self, BufWriter, Read, Write};

/// Replays the script on standard input to standard output.
pub fn replay_input<R: Input + Print + Eprint>(rt: &R, alloc: Global) -> u8 {
    let mut input = script::Input::new(rt.reader());
    let Ok(buffer) = BufWriter::new(alloc, io::writer(rt)) else {
        return out_of_memory(rt);
    };
    replay_script(rt, alloc, &mut input, &mut Output::new(buffer))
}

/// Replays the script that an input is. Returns the exit status.
fn replay_script<E: Eprint, R: Read + Drop, W: Write + Drop>(
    rt: &E,
    alloc: Global,
    input: &mut script::Input<R>,
    out: &mut Output<W>,
) -> u8
    ensures { IsReplayed input.old input.new out.old out.new result }
{
    let answer = replay(alloc, input, out);
    tell_replay(rt, answer)
}

/// Tells in one line on standard error why a script isn't replayed to its end, if it isn't.
fn tell_replay(rt: &impl Eprint, answer: Result<(), ReplayFault>) -> u8
    ensures { result ≡ ended_status status_of answer }
{
    match answer {
        Ok(()) => 0,
        Err(fault) => {
            let _ = eprintln!(rt; "{fault}");
            fault.status()
        }
    }
}
