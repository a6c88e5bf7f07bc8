//! Why an audit doesn't go on.

use std::alloc::AllocError;
use thiserror::Error;

/// Why an audit doesn't go on behind a line.
#[derive(Clone, Copy, Debug, PartialEq, Eq, Error)]
pub enum LineFault {
    /// The line isn't understood where it stands.
    #[error("not understood")]
    NotUnderstood,
    /// The line shows an outcome, and no step of the zone has it.
    #[error("not a step")]
    NotAStep,
    /// It is the first event, and no line before it names the zone.
    #[error("no zone")]
    NoZone,
    /// It is the first event, and the last pool has a network.
    #[error("no default pool")]
    NoDefaultPool,
    #[error("out of memory")]
    Memory,
}

impl From<AllocError> for LineFault {
    ghost use Rattle.std.specs.Prelude.{◌≡◌};
    ghost use Rattle.record_audit.specs.declared.fault.LineFault.TheVariants.{Memory};

    ghost from_gives = { λ _ fault. fault ≡ Memory };

    fn from(_: AllocError) -> LineFault {
        LineFault::Memory
    }
}

/// Why the audit of a record doesn't come to its end.
#[derive(Clone, Copy, Debug, PartialEq, Eq, Error)]
pub enum AuditFault {
    /// This line, counted from 1, is the first behind which it doesn't go on, for this reason.
    #[error("line {0}: {1}")]
    Line(u64, LineFault),
    /// It has more octets than are read.
    #[error("input too long")]
    TooLong,
    /// A read failed.
    #[error("stream failed")]
    Stream,
}
