//! Auditing the record that an input is.

ghost use Rattle.std.specs.Prelude.{◌≡◌, ◌↔◌, Err, IsTrue, OnOk, false};
ghost use Rattle.std.specs.Io.KnownBytes.{Appends};
ghost use Rattle.commands.specs.Audits.{TellsAudit, audited_text, cut_line, record_status};
ghost use Rattle.commands.specs.Audits.{steps_line};

use record_audit::{AuditFault, Audited, LineFault, audit_record};
use script::{Input, Output};
use std::alloc::Global;
use std::io::{self, Read, Write};
use thiserror::Error;

/// Why the audit of a record isn't told.
#[derive(Clone, Copy, Debug, PartialEq, Eq, Error)]
pub enum RecordFault {
    /// It doesn't come to the record's end; nothing was written.
    #[error(transparent)]
    Audit(AuditFault),
    /// A write failed.
    #[error("stream failed")]
    Output,
}

impl RecordFault {
    /// The exit status: 1 if the record is refused, 3 if there is no memory, and 4 if a stream
    /// failed.
    pub fn status(&self) -> u8
        ensures { result ≡ record_status self.now }
    {
        match self {
            RecordFault::Audit(fault) => match fault {
                AuditFault::Line(_, LineFault::Memory) => 3,
                AuditFault::Line(_, _) | AuditFault::TooLong => 1,
                AuditFault::Stream => 4,
            },
            RecordFault::Output => 4,
        }
    }
}

/// Audits the record that an input is, and writes how many steps it has, which are a run of its
/// zone, and behind which line it is cut off, if it is. Of a record that doesn't pass nothing is
/// written.
///
/// promise audit-is-told: Exactly the text of the input's audit is written, and nothing of a record
/// that doesn't pass (`TellsAudit`).
pub fn audit<R: Read + Drop, W: Write + Drop>(
    alloc: Global,
    input: &mut Input<R>,
    out: &mut Output<W>,
) -> Result<(), RecordFault>
    ensures told { TellsAudit input.old.left out.old out.new result }
    ensures stream { input.old.failed ≡ false
        → ((result ≡ Err (RecordFault.Audit AuditFault.Stream)) ↔ IsTrue input.new.failed) }
{
    let audited = match audit_record(alloc, input) {
        Ok(audited) => audited,
        Err(fault) => return Err(RecordFault::Audit(fault)),
    };
    match write_audited(&audited, out) {
        Ok(()) => Ok(()),
        Err(_) => Err(RecordFault::Output),
    }
}

/// Writes what an audit came to.
fn write_audited<W: Write + Drop>(audited: &Audited, out: &mut Output<W>) -> io::Result<()>
    ensures written { OnOk result (Appends out.old.contents out.new.contents
        (audited_text audited.now)) }
    ensures flushed { OnOk result (IsTrue out.new.flushed) }
{
    write_steps(audited.steps, out)?;
    write_cut(audited, out)?;
    out.flush()
}

/// Writes how many steps there are.
fn write_steps<W: Write + Drop>(steps: u64, out: &mut Output<W>) -> io::Result<()>
    ensures { OnOk result (Appends out.old.contents out.new.contents (steps_line steps)) }
{
    if steps == 1 {
        writeln!(out, "1 step is a run of the zone")
    } else {
        writeln!(out, "{steps} steps are a run of the zone")
    }
}

/// Writes behind which line a record is cut off, if it is.
fn write_cut<W: Write + Drop>(audited: &Audited, out: &mut Output<W>) -> io::Result<()>
    ensures { OnOk result (Appends out.old.contents out.new.contents
        (cut_line audited.now.is_cut_off audited.now.lines)) }
{
    if !audited.is_cut_off {
        return Ok(());
    }
    writeln!(out, "the record is cut off behind line {}", audited.lines)
}
