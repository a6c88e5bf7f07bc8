//! Why a history and receipts don't belong together.

ghost use Rattle.std.specs.Prelude.{◌≡◌};
ghost use Rattle.book_audit.specs.Audits.{audit_fault_number};

use thiserror::Error;

/// What an audit finds to be wrong.
#[derive(Clone, Copy, Debug, PartialEq, Eq, Error)]
pub enum AuditFault {
    /// The history has no entry at the receipt's place.
    #[error("a receipt's place isn't in the history")]
    WrongPlace,
    /// The entry there has another seat, call, event or outcome.
    #[error("a receipt isn't that of the entry at its place")]
    WrongEntry,
    /// An earlier receipt has the same place.
    #[error("two receipts have the same place")]
    Twice,
    /// An earlier receipt of the same seat has a higher place.
    #[error("a seat's receipts are out of order")]
    OutOfOrder,
    /// A chapter, or what is left, doesn't begin where the one before it ended, or the totals that
    /// were carried aren't those of the chapters.
    #[error("the history isn't joined")]
    NotJoined,
}

impl AuditFault {
    /// The number of the fault.
    pub fn number(&self) -> u8
        ensures { result ≡ audit_fault_number self.now }
    {
        match self {
            AuditFault::WrongPlace => 1,
            AuditFault::WrongEntry => 2,
            AuditFault::Twice => 3,
            AuditFault::OutOfOrder => 4,
            AuditFault::NotJoined => 6,
        }
    }
}
