//! The audit of a record, which is read piece by piece.

ghost use Rattle.std.specs.Prelude.{ℕ, ◌≡◌, ◌≢◌, ◌↔◌, ◌+◌, ◌++◌, ◌<◌, ◌≤◌, ◌^◌, ◌||◌, [], Err, false};
ghost use Rattle.std.specs.Prelude.{IfErr, IfOk, IfSome, IsTrue, MatchResult, OnErr, OnOk, is_some};
ghost use Rattle.std.specs.Prelude.{length, nat_lt};
ghost use Rattle.record_audit.specs.Audits.{Follows, IsAuditOf, IsStopped, first_reading};
ghost use Rattle.record_audit.specs.Records.{CannotGo, Goes, fault_at, most_octets, steps_of};

use crate::audit::{Audit, MOST_OCTETS};
use crate::fault::{AuditFault, LineFault};
use crate::first_line::first_line;
use script::Input;
use std::alloc::{AllocError, Global};
use std::io::Read;
use std::marker::Model;

/// The octets that are asked for at a time.
const PIECE: usize = 4096;

/// How often octets are asked for at most, so that lines can be counted.
const MOST_PIECES: u64 = 1 << 51;

/// What the audit of a record came to.
#[derive(Clone, Copy, Debug, PartialEq, Eq)]
pub struct Audited {
    /// How many steps were recorded, which are a run of the zone.
    pub steps: u64,
    /// How many lines ended.
    pub lines: u64,
    /// Whether the record is cut off: the last line has no end, and wasn't read, or it is an event
    /// without its outcome.
    pub is_cut_off: bool,
}

/// The audit of a record that comes piece by piece: where it stands, the octets of the line that
/// was begun, and how many lines ended.
#[derive(Drop)]
struct RecordAudit {
    audit: Audit,
    begun: Vec<u8>,
    lines: u64,
}

impl Model for RecordAudit {
    ghost use Rattle.std.specs.Coded.{codes};
    ghost use Rattle.std.specs.FinMap as map;
    ghost use Rattle.record_audit.specs.Audits.{Reading};

    ghost Value = { Reading };

    ghost coded = { Prim.hlevel (codes, map.code) };

    ghost view = { λ a. record {
      standing = a.audit;
      begun = a.begun.items;
      lines = a.lines;
    } };
}

impl RecordAudit {
    fn new(alloc: Global) -> Result<Self, AllocError>
        ensures { IfOk result (λ audit. audit ≡ first_reading) }
    {
        Ok(RecordAudit {
            audit: Audit::new(alloc)?,
            begun: Vec::new(alloc),
            lines: 0,
        })
    }

    /// Goes on with the line that was begun.
    fn begin(&mut self, octets: &[u8]) -> Result<(), LineFault>
        ensures begun { OnOk result
            (self.new ≡ record self.old { begun = self.old.begun ++ octets.now }) }
        ensures few { OnOk result (length self.new.begun ≤ most_octets) }
        ensures long { IfErr result (λ fault. fault ≢ LineFault.Memory
            → (fault ≡ LineFault.NotUnderstood)
            × (most_octets < length (self.old.begun ++ octets.now))) }
        ensures lines { self.new.lines ≡ self.old.lines }
    {
        if self.begun.len() + octets.len() > MOST_OCTETS {
            return Err(LineFault::NotUnderstood);
        }
        self.begun.extend_from_slice(octets)?;
        Ok(())
    }

    /// Reads the line that was begun and ends here.
    fn end(&mut self) -> Result<(), LineFault>
        requires { self.old.lines + 1 < 2 ^ 64 }
        ensures goes { OnOk result (Goes self.old.standing self.old.begun self.new.standing) }
        ensures begun { OnOk result (self.new.begun ≡ []) }
        ensures lines { OnOk result (self.new.lines ≡ self.old.lines + 1) }
        ensures stops { IfErr result (λ fault. fault ≢ LineFault.Memory
            → CannotGo self.old.standing self.old.begun) }
        ensures why { IfErr result (λ fault. fault ≢ LineFault.Memory
            → fault ≡ fault_at self.old.standing self.old.begun) }
        ensures same { OnErr result (self.new.lines ≡ self.old.lines) }
    {
        self.audit.read_line(&self.begun)?;
        self.begun.clear();
        self.lines += 1;
        Ok(())
    }

    /// Reads the line that was begun and ends behind these octets.
    fn read_line(&mut self, octets: &[u8]) -> Result<(), LineFault>
        requires { self.old.lines + 1 < 2 ^ 64 }
        ensures goes { OnOk result
            (Goes self.old.standing (self.old.begun ++ octets.now) self.new.standing) }
        ensures begun { OnOk result (self.new.begun ≡ []) }
        ensures lines { OnOk result (self.new.lines ≡ self.old.lines + 1) }
        ensures stops { IfErr result (λ fault. fault ≢ LineFault.Memory
            → CannotGo self.old.standing (self.old.begun ++ octets.now)) }
        ensures why { IfErr result (λ fault. fault ≢ LineFault.Memory
            → fault ≡ fault_at self.old.standing (self.old.begun ++ octets.now)) }
        ensures same { OnErr result (self.new.lines ≡ self.old.lines) }
    {
        self.begin(octets)?;
        self.end()
    }

    /// Reads octets: each line that ends in them.
    fn read(&mut self, octets: &[u8]) -> Result<(), AuditFault>
        requires { self.old.lines + length octets.now + 1 < 2 ^ 64 }
        ensures follows { OnOk result (Follows self.old octets.now self.new) }
        ensures few { OnOk result (length self.new.begun ≤ most_octets) }
        ensures lines { OnOk result (self.new.lines ≤ self.old.lines + length octets.now) }
        ensures stops { IfErr result (IsStopped self.old octets.now) }
    {
        let mut rest = octets;
        while let Some((front, behind)) = first_line(rest) {
            match self.read_line(front) {
                Ok(()) => rest = behind,
                Err(fault) => return Err(AuditFault::Line(self.lines + 1, fault)),
            }
        }
        match self.begin(rest) {
            Ok(()) => Ok(()),
            Err(fault) => Err(AuditFault::Line(self.lines + 1, fault)),
        }
    }

    /// What it came to, at the end of the record.
    fn audited(&self) -> Audited
        ensures steps { result.steps ≡ steps_of self.now.standing.zone }
        ensures lines { result.lines ≡ self.now.lines }
        ensures cut { result.is_cut_off
            ≡ (nat_lt 0 (length self.now.begun) || is_some self.now.standing.awaited) }
    {
        Audited {
            steps: self.audit.steps(),
            lines: self.lines,
            is_cut_off: !self.begun.is_empty() || self.audit.awaits_outcome(),
        }
    }
}

/// Reads an input to its end, or up to the first line behind which the audit doesn't go on.
fn read_input<R: Read + Drop>(
    audit: &mut RecordAudit,
    input: &mut Input<R>,
) -> Result<(), AuditFault>
    requires { audit.old ≡ first_reading }
    ensures follows { OnOk result (IfSome input.old.left
        (λ octets. Follows first_reading octets audit.new)) }
    ensures few { OnOk result (length audit.new.begun ≤ most_octets) }
    ensures stops { IfErr result (λ fault. IfSome input.old.left
        (λ octets. IsAuditOf octets (Err fault))) }
    ensures stream { MatchResult result (λ _. input.new.failed ≡ false)
        (λ fault. (fault ≡ AuditFault.Stream) ↔ IsTrue input.new.failed) }
{
    let mut piece = [0u8; PIECE];
    for _ in 0..MOST_PIECES {
        match input.read(&mut piece) {
            Ok(0) => return Ok(()),
            Ok(count) => match audit.read(&piece[..count]) {
                Ok(()) => {}
                Err(fault) => return Err(fault),
            },
            Err(_) => return Err(AuditFault::Stream),
        }
    }
    Err(AuditFault::TooLong)
}

/// Audits the record that an input is, line by line, to its end. A line has at most 131,072 octets,
/// and no more than that and a piece of the input is held of it. What stands behind the last end of
/// a line was cut off, and isn't read.
///
/// promise audited-record-is-a-run: Failed reads and want of memory aside, a record of fewer than
/// 2^51 octets passes if and only if its lines are a run of the zone that they describe; else the
/// first line that isn't is told (`IsAuditOf`).
pub fn audit_record<R: Read + Drop>(
    alloc: Global,
    input: &mut Input<R>,
) -> Result<Audited, AuditFault>
    ensures audit { IfSome input.old.left (λ octets. IsAuditOf octets result) }
    ensures stream { input.old.failed ≡ false
        → ((result ≡ Err AuditFault.Stream) ↔ IsTrue input.new.failed) }
{
    let Ok(mut audit) = RecordAudit::new(alloc) else {
        return Err(AuditFault::Line(1, LineFault::Memory));
    };
    match read_input(&mut audit, input) {
        Ok(()) => Ok(audit.audited()),
        Err(fault) => Err(fault),
    }
}
