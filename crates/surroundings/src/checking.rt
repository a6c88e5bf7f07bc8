//! Checking settings.

ghost use Rattle.std.specs.Prelude.{◌≡◌};
ghost use Rattle.commands.specs.Inputs.{input_status};
ghost use Rattle.surroundings.specs.Endings.{AreSettingsChecked, ended_status};

use crate::last_line::{out_of_memory, stream_failed};
use crate::notices::tell_place;
use crate::source::{SETTINGS, Source, open_file};
use commands::{InputFault, PassedOver, check_settings};
use log::Log;
use script::Output;
use std::alloc::Global;
use std::io::{self, BufWriter, Read, Write};
use std::rt::Files;

/// Checks the settings of a file, or those on standard input.
pub fn check_source<R: Input + Files + Print + Eprint + Log>(
    rt: &R,
    alloc: Global,
    file: Option<&str>,
) -> u8 {
    let source = Source { file };
    let Ok(buffer) = BufWriter::new(alloc, io::writer(rt)) else {
        return out_of_memory(rt);
    };
    let mut out = Output::new(buffer);
    let Some(name) = file else {
        return check_input(rt, alloc, rt.reader(), source, &mut out);
    };
    match open_file(rt, SETTINGS, name) {
        Some(input) => check_input(rt, alloc, input, source, &mut out),
        None => stream_failed(rt),
    }
}

/// Checks the settings that an input is, and writes them, with a warning for each key that is
/// passed over. Returns the exit status.
fn check_input<E: Eprint + Log, I: Read + Drop, W: Write + Drop>(
    rt: &E,
    alloc: Global,
    input: I,
    source: Source<'_>,
    out: &mut Output<W>,
) -> u8
    ensures { AreSettingsChecked (I.remaining input) out.old out.new result }
{
    match check_settings(alloc, input, out) {
        Ok(passed_over) => {
            warn_of_keys(rt, source, &passed_over);
            tell_check(rt, source, Ok(()))
        }
        Err(fault) => tell_check(rt, source, Err(fault)),
    }
}

/// Warns on standard error of each key that is passed over.
fn warn_of_keys(rt: &impl Eprint, source: Source<'_>, passed_over: &[PassedOver]) {
    for key in passed_over {
        let _ = eprintln!(rt; "warning: {source}{key}");
    }
}

/// Tells in one line on standard error why settings aren't read, if they aren't, behind what the
/// log tells of it.
fn tell_check<E: Eprint + Log>(rt: &E, source: Source<'_>, answer: Result<(), InputFault>) -> u8
    ensures { result ≡ ended_status input_status answer }
{
    match answer {
        Ok(()) => 0,
        Err(fault) => {
            tell_place(rt, source, &fault);
            let _ = eprintln!(rt; "{fault}");
            fault.status()
        }
    }
}
