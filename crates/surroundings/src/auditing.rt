//! Auditing a record.

ghost use Rattle.std.specs.Prelude.{◌≡◌};
ghost use Rattle.commands.specs.Audits.{record_status};
ghost use Rattle.surroundings.specs.Endings.{IsAudited, ended_status};

use crate::last_line::{out_of_memory, stream_failed};
use crate::notices::tell_unreadable;
use crate::source::open_file;
use commands::{RecordFault, audit};
use log::Log;
use record_audit::AuditFault;
use script::Output;
use std::alloc::Global;
use std::io::{self, BufWriter, Read, Write};
use std::rt::Files;

/// Under which name the log tells of records.
const TARGET: &str = "audit";

/// Audits the record in a file, or that on standard input.
pub fn audit_source<R: Input + Files + Print + Eprint + Log>(
    rt: &R,
    alloc: Global,
    file: Option<&str>,
) -> u8 {
    let Ok(buffer) = BufWriter::new(alloc, io::writer(rt)) else {
        return out_of_memory(rt);
    };
    let mut out = Output::new(buffer);
    let Some(name) = file else {
        return audit_input(
            rt,
            alloc,
            &mut script::Input::new(rt.reader()),
            file,
            &mut out,
        );
    };
    match open_file(rt, TARGET, name) {
        Some(input) => audit_input(rt, alloc, &mut script::Input::new(input), file, &mut out),
        None => stream_failed(rt),
    }
}

/// Audits the record that an input is, and writes what that comes to. Returns the exit status.
fn audit_input<E: Eprint + Log, R: Read + Drop, W: Write + Drop>(
    rt: &E,
    alloc: Global,
    input: &mut script::Input<R>,
    file: Option<&str>,
    out: &mut Output<W>,
) -> u8
    ensures { IsAudited input.old out.old out.new result }
{
    let answer = audit(alloc, input, out);
    tell_audit(rt, file, answer)
}

/// Tells in one line on standard error why the audit of a record isn't told, if it isn't; before it
/// the log says which file can't be read, if that is the cause.
fn tell_audit<E: Eprint + Log>(rt: &E, file: Option<&str>, answer: Result<(), RecordFault>) -> u8
    ensures { result ≡ ended_status record_status answer }
{
    match answer {
        Ok(()) => 0,
        Err(fault) => {
            if let (Some(name), RecordFault::Audit(AuditFault::Stream)) = (file, fault) {
                tell_unreadable(rt, TARGET, name, "a read of it failed");
            }
            let _ = eprintln!(rt; "{fault}");
            fault.status()
        }
    }
}
