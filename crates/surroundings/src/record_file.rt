//! The file of a record, and what stands in it before the first step.

ghost use Rattle.std.specs.Prelude.{◌≡◌, Err, IfErr, IfOk, IsTrue, OnErr, OnOk, length, nat_le};
ghost use Rattle.std.specs.Prelude.{◌==◌, string_bytes};
ghost use Rattle.std.specs.List.{list_any};
ghost use Rattle.recording.specs.Zones.{zone_lines};
ghost use Rattle.surroundings.specs.Beginnings.{IsBegunBehind, IsOneLine, WritesBeginning};
ghost use Rattle.surroundings.specs.Causes.{making_cause};
ghost use Rattle.surroundings.specs.Faults.{IsBeginFault, begin_fault};

use crate::notices::{tell_no_record, tell_record, warn_of_end};
use crate::record_plan::PlannedRecord;
use crate::serving_fault::RunningFault;
use jiff::Timestamp;
use log::Log;
use recording::{End, RecordWriter, RecordedZone};
use script::Output;
use std::alloc::{AllocError, Global};
use std::fs::File;
use std::io::{self, BufWriter, ErrorKind, Write};
use std::rt::{Clock, Files};

/// How many octets are held before the system gets them.
const BUFFER: usize = 65_536;

/// What a record is written into.
pub type RecordFile = BufWriter<File>;

/// Why no file is made, as a person is told it.
fn cause_of(kind: ErrorKind) -> &'static str
    ensures { result.now ≡ making_cause kind }
{
    match kind {
        ErrorKind::AlreadyExists => "there is such a file",
        ErrorKind::NotFound => "there is no such folder",
        ErrorKind::PermissionDenied => "not permitted",
        _ => "the system refuses it",
    }
}

/// Makes a file for a record. If that fails, the log tells why.
fn new_file<R: Files<File = File> + Log>(rt: &R, name: &str) -> Result<File, RunningFault>
    ensures { OnErr result (result ≡ Err RunningFault.Record) }
{
    match File::create_new(rt, name) {
        Ok(file) => Ok(file),
        Err(error) => {
            tell_no_record(rt, name, cause_of(error.kind()));
            Err(RunningFault::Record)
        }
    }
}

/// When it is now, by the system's clock, to a millisecond.
fn time_now<R: Clock>(rt: &R) -> Result<Timestamp, jiff::Error> {
    Timestamp::from_millisecond(Timestamp::now(rt)?.as_millisecond())
}

/// Whether a text has a line end.
fn has_line_end(text: &[u8]) -> bool
    ensures { result ≡ list_any (λ octet. octet == 10) text.now }
{
    text.iter().any(|octet| *octet == b'\n')
}

/// When a record begins, in words of one line.
fn beginning_text<R: Clock>(rt: &R, alloc: Global) -> Result<String, AllocError>
    ensures { IfOk result (λ text. IsOneLine (string_bytes text)) }
{
    if let Ok(now) = time_now(rt) {
        let text = format!(in alloc; "from {now}")?;
        if !has_line_end(text.as_bytes()) {
            return Ok(text);
        }
    }
    String::from_str(alloc, "without a clock")
}

/// Writes the first line of a record, which an audit passes over: when it begins.
fn write_time<R: Clock, W: Write + Drop>(
    rt: &R,
    alloc: Global,
    out: &mut Output<W>,
) -> io::Result<()>
    ensures { OnOk result (WritesBeginning out.old.contents out.new.contents) }
{
    let beginning = beginning_text(rt, alloc)?;
    let beginning = beginning.as_str();
    writeln!(out, "# recorded {beginning}")
}

/// Begins a record of a zone. What is told of the zone is flushed then.
fn begun<R: Clock, W: Write + Drop>(
    rt: &R,
    alloc: Global,
    mut out: Output<W>,
    zone: &RecordedZone,
    most: u64,
) -> io::Result<RecordWriter<W>>
    ensures bound { IfOk result (λ writer. writer.most ≡ most) }
    ensures open { IfOk result (λ writer. writer.is_open
        ≡ nat_le (length (zone_lines zone.now)) most) }
    ensures text { IfOk result (IsBegunBehind out.contents zone.now most) }
    ensures flushed { IfOk result (λ writer. IsTrue writer.output.flushed) }
{
    write_time(rt, alloc, &mut out)?;
    let mut record = RecordWriter::begin(alloc, out, zone, most)?;
    record.flush()?;
    Ok(record)
}

/// Why a record isn't begun in the file that was made for it. The log tells it, too.
fn refused<R: Log>(rt: &R, name: &str, kind: ErrorKind) -> RunningFault
    ensures { result ≡ begin_fault kind }
{
    match kind {
        ErrorKind::OutOfMemory => RunningFault::Memory,
        _ => {
            tell_no_record(rt, name, "a write failed");
            RunningFault::Record
        }
    }
}

/// Makes the file of a record and begins it: what is told of the zone is flushed. If that fails,
/// the log tells why.
pub fn begin_record<R: Files<File = File> + Clock + Log>(
    rt: &R,
    alloc: Global,
    planned: &PlannedRecord<'_>,
) -> Result<RecordWriter<RecordFile>, RunningFault>
    ensures bound { IfOk result (λ writer. writer.most ≡ planned.now.recording.most) }
    ensures open { IfOk result (λ writer. writer.is_open
        ≡ nat_le (length (zone_lines planned.now.zone)) planned.now.recording.most) }
    ensures flushed { IfOk result (λ writer. IsTrue writer.output.flushed) }
    ensures fault { IfErr result IsBeginFault }
{
    let name = planned.recording.file;
    let file = new_file(rt, name)?;
    let Ok(buffer) = BufWriter::with_capacity(alloc, BUFFER, file) else {
        return Err(RunningFault::Memory);
    };
    let most = planned.recording.most;
    match begun(rt, alloc, Output::new(buffer), &planned.zone, most) {
        Ok(record) => {
            if record.is_open() {
                tell_record(rt, name);
            } else {
                warn_of_end(rt, name, End::Full, 0);
            }
            Ok(record)
        }
        Err(error) => Err(refused(rt, name, error.kind())),
    }
}
