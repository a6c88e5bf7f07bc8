//! The zone, its tables and the values of messages under refusals of memory. The program prints
//! the same, whichever one of its requests for memory is refused: a step or a run that was refused
//! leaves the zone as it was, a call of a table its table, and the same call with memory then
//! returns what it would have returned.
//!
//! Its input is a script, whose lines it prints. It runs it step by step; behind a line `run`, at
//! once; behind a line `world`, by the workers of a world; behind a line `book`, step by step and
//! recorded in a book, which is then run again; behind a line `lock`, by the seats of a lock, whose
//! history is then audited; behind a line `serve`, by a server, of which it prints one line. Behind
//! a line `settings` come settings, which it reads and prints. If there is nothing, the tables and
//! the values have their turn.
//!
//! `tools/try-memory` runs it once for each of its requests for memory, and has that one refused.
#![tactic(auto)]

ghost use Rattle.std.specs.Prelude.{◌≤◌, IfOk};

mod copies;
mod ends;
mod locks;
mod meter;
mod readings;
mod records;
mod rehearsal;
mod seats;
mod serving;
mod sights;
mod tables;
mod worlds;

use readings::read_again;
use rehearsal::{Way, rehearse};
use std::alloc::Global;
use std::io::Read;
use std::process::ExitCode;
use std::rt::Clock;
use std::sync::Wait;
use std::thread::Threads;

/// The octets that the input has at most.
const MOST: usize = 32_768;

/// Reads the input, octet by octet, and returns how many it has. This takes no memory.
fn read_input(reader: &mut impl Read, text: &mut [u8; MOST]) -> Result<usize, &'static str>
    ensures { IfOk result (λ length. length ≤ 32768) }
{
    let mut octet = [0; 1];
    for i in 0..MOST {
        match reader.read(&mut octet) {
            Ok(0) => return Ok(i),
            Ok(_) => text[i] = octet[0],
            Err(_) => return Err("standard input failed"),
        }
    }
    Err("the input is too long")
}

/// The calls of the tables, and the copies of values.
fn try_parts(alloc: Global) -> Result<(), &'static str> {
    tables::aliases(alloc)?;
    tables::registrations(alloc)?;
    tables::calls(alloc)?;
    copies::copies(alloc)
}

/// The script without its first line, if that names the way in which it is run.
fn way_of(script: &[u8]) -> (&[u8], Way) {
    let ways: [(&[u8], Way); 5] = [
        (b"run\n", Way::Run),
        (b"world\n", Way::World),
        (b"book\n", Way::Book),
        (b"lock\n", Way::Lock),
        (b"serve\n", Way::Serve),
    ];
    for (line, way) in ways {
        if let Some(script) = script.strip_prefix(line) {
            return (script, way);
        }
    }
    (script, Way::Steps)
}

fn run<R: Input + Print + Threads + Wait + Clock + Sync>(
    rt: &R,
    alloc: Global,
) -> Result<(), &'static str> {
    let mut text = [0; MOST];
    let length = read_input(&mut rt.reader(), &mut text)?;
    let script = &text[..length];
    if script.is_empty() {
        return try_parts(alloc);
    }
    if let Some(settings) = script.strip_prefix(b"settings\n") {
        return read_again(rt, alloc, settings);
    }
    let (script, way) = way_of(script);
    rehearse(rt, alloc, script, way)
}

fn main(rt: HostRuntime) -> ExitCode {
    match run(&rt, rt.alloc()) {
        Ok(()) => ExitCode::SUCCESS,
        Err(trouble) => {
            let _ = eprintln!(&rt; "{trouble}");
            ExitCode::FAILURE
        }
    }
}
