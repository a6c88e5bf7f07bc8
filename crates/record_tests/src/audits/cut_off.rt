//! Records that are cut off, that come in pieces, and whose lines are too long.

use crate::audits::fixtures::{LINES_OF_THE_ZONE, record};
use record_audit::{AuditFault, Audited, LineFault, MOST_OCTETS, audit_record};
use script::Input;
use std::alloc::Global;
use std::io;
use std::test::Fail;

/// What the audit of the front of a record comes to.
fn of_front(front: &[u8]) -> Audited {
    let lines = front.iter().filter(|c| **c == b'\n').count() as u64;
    let behind = lines.saturating_sub(LINES_OF_THE_ZONE);
    Audited {
        steps: behind / 2,
        lines,
        is_cut_off: behind % 2 == 1 || (!front.is_empty() && !front.ends_with(b"\n")),
    }
}

#[test]
fn a_record_is_audited_up_to_where_it_is_cut_off(rt: HostRuntime) -> Result<(), Fail> {
    let text = record(rt.alloc())?;
    for length in 0..text.len() + 1 {
        let front = &text[..length];
        let report = audit_record(rt.alloc(), &mut Input::new(front));
        assert!(rt; report == Ok(of_front(front)), "{length}");
    }
    Ok(())
}

/// Gives at most these octets at a time; the read of this number fails, if it comes to that.
#[derive(Drop)]
struct Pieces<'a> {
    text: &'a [u8],
    most: usize,
    reads: usize,
    failing: usize,
}

impl io::Read for Pieces<'_> {
    fn read(&mut self, buf: &mut [u8]) -> io::Result<usize> {
        self.reads = self.reads.saturating_add(1);
        if self.reads == self.failing {
            return Err(io::Error::from(io::ErrorKind::TimedOut));
        }
        let count = self.text.len().min(buf.len()).min(self.most);
        buf[..count].copy_from_slice(&self.text[..count]);
        self.text = &self.text[count..];
        Ok(count)
    }
}

/// What the audit of a text comes to that is given so.
fn audited_in_pieces(
    alloc: Global,
    text: &[u8],
    most: usize,
    failing: usize,
) -> Result<Audited, AuditFault> {
    let pieces = Pieces {
        text,
        most,
        reads: 0,
        failing,
    };
    audit_record(alloc, &mut Input::new(pieces))
}

#[test]
fn a_record_comes_in_pieces(rt: HostRuntime) -> Result<(), Fail> {
    let text = record(rt.alloc())?;
    for most in [1, 2, 7, 100, 5_000] {
        let report = audited_in_pieces(rt.alloc(), &text, most, 0);
        assert!(rt; report == Ok(of_front(&text)), "{most}");
    }
    Ok(())
}

#[test]
fn a_read_fails_in_midway(rt: HostRuntime) -> Result<(), Fail> {
    let text = record(rt.alloc())?;
    for failing in [1, 2, 5, 9] {
        let report = audited_in_pieces(rt.alloc(), &text, 100, failing);
        assert!(rt; report == Err(AuditFault::Stream), "{failing}");
    }
    Ok(())
}

/// A line of this length, a remark, behind the record of a call.
fn with_remark(alloc: Global, octets: usize) -> Result<Vec<u8>, Fail> {
    let mut text = record(alloc)?;
    let length = text.len().saturating_add(octets);
    text.resize(length, b'#')?;
    Ok(text)
}

#[test]
fn a_line_has_so_many_octets_at_most(rt: HostRuntime) -> Result<(), Fail> {
    let mut text = with_remark(rt.alloc(), MOST_OCTETS)?;
    let report = audit_record(rt.alloc(), &mut Input::new(text.as_slice()));
    let mut audited = Audited {
        steps: 7,
        lines: 19,
        is_cut_off: true,
    };
    assert!(rt; report == Ok(audited));
    text.push(b'\n')?;
    let report = audit_record(rt.alloc(), &mut Input::new(text.as_slice()));
    audited.lines = 20;
    audited.is_cut_off = false;
    assert!(rt; report == Ok(audited));
    // (it is told before its end comes)
    let mut text = with_remark(rt.alloc(), MOST_OCTETS + 1)?;
    let too_long = Err(AuditFault::Line(20, LineFault::NotUnderstood));
    let report = audit_record(rt.alloc(), &mut Input::new(text.as_slice()));
    assert!(rt; report == too_long);
    text.push(b'\n')?;
    let report = audit_record(rt.alloc(), &mut Input::new(text.as_slice()));
    assert!(rt; report == too_long);
    Ok(())
}

#[test]
fn faults_have_texts(rt: HostRuntime) -> Result<(), Fail> {
    for (fault, text) in [
        (
            AuditFault::Line(7, LineFault::NotUnderstood),
            "line 7: not understood",
        ),
        (
            AuditFault::Line(8, LineFault::NotAStep),
            "line 8: not a step",
        ),
        (AuditFault::Line(1, LineFault::NoZone), "line 1: no zone"),
        (
            AuditFault::Line(2, LineFault::NoDefaultPool),
            "line 2: no default pool",
        ),
        (
            AuditFault::Line(9, LineFault::Memory),
            "line 9: out of memory",
        ),
        (AuditFault::TooLong, "input too long"),
        (AuditFault::Stream, "stream failed"),
    ] {
        assert!(rt; format!(in rt.alloc(); "{fault}")?.as_str() == text);
    }
    Ok(())
}
