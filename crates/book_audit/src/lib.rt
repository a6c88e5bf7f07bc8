//! The checks of what was recorded in books, chapters and receipts. Do the steps of a book lead
//! from its base to a zone? Do the chapters of a history, what is left of it, and the receipts
//! that callers were given belong together? Nothing here makes a step of the zone itself.
//!
//! proved: a book replays if and only if it is a run (`replays`); a history passes if and only if
//! it fits together (`audit`)
//! tested: altered histories
#![tactic(auto)]

mod auditing;
mod fault;
mod joined;
mod receipts;
mod replay;
mod sums;

pub use auditing::audit;
pub use fault::AuditFault;
pub use replay::replays;
