//! Asking a gatekeeper, and telling what datagrams are.

ghost use Rattle.std.specs.Prelude.{◌≡◌};
ghost use Rattle.commands.specs.Inputs.{input_status};
ghost use Rattle.probing.specs.Statuses.{probe_status};
ghost use Rattle.surroundings.specs.Endings.{AreExplained, ended_status};
ghost use Rattle.surroundings.specs.Probes.{IsProbed, IsProbeStatus};

use crate::last_line::{out_of_memory, stream_failed};
use commands::{InputFault, explain};
use probing::{Probe, ProbeFault, ask_gatekeeper};
use script::Output;
use std::alloc::Global;
use std::io::{self, BufWriter, Read, Write};
use std::net::Net;
use std::rt::Clock;

/// Tells what the datagrams on standard input are.
pub fn explain_input<R: Input + Print + Eprint>(rt: &R, alloc: Global) -> u8 {
    let Ok(buffer) = BufWriter::new(alloc, io::writer(rt)) else {
        return out_of_memory(rt);
    };
    explain_datagrams(rt, alloc, rt.reader(), &mut Output::new(buffer))
}

/// Writes what the datagrams of an input are. Returns the exit status.
fn explain_datagrams<E: Eprint, I: Read + Drop, W: Write + Drop>(
    rt: &E,
    alloc: Global,
    input: I,
    out: &mut Output<W>,
) -> u8
    ensures { AreExplained (I.remaining input) out.old out.new result }
{
    let answer = explain(alloc, input, out);
    tell_explanation(rt, answer)
}

/// Tells in one line on standard error why datagrams aren't explained, if they aren't.
fn tell_explanation(rt: &impl Eprint, answer: Result<(), InputFault>) -> u8
    ensures { result ≡ ended_status input_status answer }
{
    match answer {
        Ok(()) => 0,
        Err(fault) => {
            let _ = eprintln!(rt; "{fault}");
            fault.status()
        }
    }
}

/// Asks a gatekeeper whether it is there. That it is is told on standard output, else why not on
/// standard error. The exit status is 0 only if the answer confirms it.
pub fn probe_gatekeeper<R: Net + Clock + Print + Eprint>(rt: &R, alloc: Global, probe: Probe) -> u8
    ensures { IsProbed result }
{
    let mut words = String::new(alloc);
    let answer = ask_gatekeeper(rt, alloc, probe, &mut words);
    tell_answer(rt, words.as_str(), answer)
}

/// Tells the words of an answer, or why there is none. Returns the exit status.
fn tell_answer<R: Print + Eprint>(rt: &R, words: &str, answer: Result<bool, ProbeFault>) -> u8
    ensures { IsProbeStatus answer result }
{
    match answer {
        Ok(true) => match print!(rt; "{words}") {
            Ok(()) => 0,
            Err(_) => stream_failed(rt),
        },
        Ok(false) => {
            let _ = eprint!(rt; "{words}");
            1
        }
        Err(fault) => refuse_probe(rt, &fault),
    }
}

fn refuse_probe(rt: &impl Eprint, fault: &ProbeFault) -> u8
    ensures { result ≡ probe_status fault.now }
{
    let _ = eprintln!(rt; "{fault}");
    fault.status()
}
