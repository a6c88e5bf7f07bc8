//! Records whose stream fails.

use crate::writing::fixtures::{
    Call, LINES_OF_THE_ZONE, STEPS, audited, empty_record, record_call, record_within,
    recorded_zone,
};
use facts::{all_hold, ensure};
use record_audit::Audited;
use recording::{RecordWriter, Recorded};
use script::Output;
use std::alloc::Global;
use std::io;
use std::test::Fail;

/// How many octets it is from one place at which a stream fails to the next.
const STRIDE: usize = 83;

/// Takes octets up to this count, and fails from there on.
#[derive(Drop)]
pub struct Short {
    text: Vec<u8>,
    most: usize,
}

impl Short {
    pub fn new(alloc: Global, most: usize) -> Self {
        Short {
            text: Vec::new(alloc),
            most,
        }
    }

    /// What it took.
    pub fn into_text(self) -> Vec<u8> {
        let Short { text, .. } = self;
        text
    }
}

impl io::Write for Short {
    fn write(&mut self, buf: &[u8]) -> io::Result<usize> {
        let room = self.most.saturating_sub(self.text.len());
        if room == 0 {
            return Err(io::Error::from(io::ErrorKind::StorageFull));
        }
        let count = room.min(buf.len());
        self.text.extend_from_slice(&buf[..count])?;
        Ok(count)
    }

    fn flush(&mut self) -> io::Result<()> {
        Ok(())
    }
}

/// What the audit of the front of a record comes to.
fn of_front(front: &[u8]) -> Audited {
    let lines = front.iter().filter(|c| **c == b'\n').count() as u64;
    let behind = lines.saturating_sub(LINES_OF_THE_ZONE);
    Audited {
        steps: behind / 2,
        lines,
        is_cut_off: behind % 2 == 1 || (!front.is_empty() && !front.ends_with(b"\n")),
    }
}

/// How many steps of a call were recorded, how many came behind the record's end, and how many
/// writes failed.
#[derive(Clone, Copy)]
struct Counts {
    written: usize,
    closed: usize,
    failed: usize,
}

impl Counts {
    fn of(call: &Call) -> Self {
        Counts {
            written: call.count(Some(Recorded::Written)),
            closed: call.count(Some(Recorded::Closed)),
            failed: call.count(None),
        }
    }
}

/// A record whose stream failed.
#[derive(Drop)]
struct CutOff {
    counts: Counts,
    steps: u64,
    is_open: bool,
    text: Vec<u8>,
}

/// Records a call on a stream that fails behind this count of octets.
fn cut_off(alloc: Global, most: usize) -> Result<CutOff, Fail> {
    let mut record = empty_record(alloc, Short::new(alloc, most), u64::MAX)?;
    let counts = Counts::of(&record_call(alloc, &mut record)?);
    let (steps, is_open) = (record.steps(), record.is_open());
    let text = record.into_output().into_writer().into_text();
    Ok(CutOff {
        counts,
        steps,
        is_open,
        text,
    })
}

/// A write failed behind this count of octets, which closed the record. What is there is the front
/// of the whole record, and passes its audit.
fn compare(alloc: Global, cut: &CutOff, whole: &[u8], most: usize) -> Result<(), Fail> {
    let Counts {
        written,
        closed,
        failed,
    } = cut.counts;
    all_hold(&[
        (
            failed == 1 && !cut.is_open,
            "one write fails, which closes the record",
        ),
        (
            written as u64 == cut.steps,
            "each step that was written is counted",
        ),
        (
            written.saturating_add(closed).saturating_add(1) == STEPS,
            "nothing is written behind the step that failed",
        ),
        (
            cut.text.len() == most && whole.starts_with(&cut.text),
            "the front of the whole record is there",
        ),
    ])?;
    let report = audited(alloc, &cut.text)?;
    ensure(
        report == of_front(&cut.text) && report.steps >= cut.steps,
        "the audit finds as many steps as are there",
    )
}

/// Records a call on such a stream, and looks at what is there.
fn fails_behind(alloc: Global, whole: &[u8], most: usize) -> Result<(), Fail> {
    let cut = cut_off(alloc, most)?;
    compare(alloc, &cut, whole, most)
}

/// How many octets the lines of the zone have.
fn octets_of_the_zone(alloc: Global) -> Result<usize, Fail> {
    let record = empty_record(alloc, Vec::new(alloc), u64::MAX)?;
    Ok(record.into_output().into_writer().len())
}

#[test]
fn a_stream_fails_in_midway(rt: HostRuntime) -> Result<(), Fail> {
    let (whole, _) = record_within(rt.alloc(), u64::MAX)?;
    let head = octets_of_the_zone(rt.alloc())?;
    for most in (head..whole.len()).step_by(STRIDE) {
        fails_behind(rt.alloc(), &whole, most)?;
    }
    fails_behind(rt.alloc(), &whole, whole.len().saturating_sub(1))
}

#[test]
fn the_zone_has_no_room(rt: HostRuntime) -> Result<(), Fail> {
    let zone = recorded_zone(rt.alloc())?;
    let out = Short::new(rt.alloc(), 30);
    let record = RecordWriter::begin(rt.alloc(), Output::new(out), &zone, u64::MAX);
    assert!(rt; record.is_err());
    Ok(())
}
