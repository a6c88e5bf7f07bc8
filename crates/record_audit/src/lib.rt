//! The audit of a record: what a gatekeeper did, step after step, as lines of a text. Each step is
//! done again with what its outcome shows to have been chosen.
//!
//! proved: a record of fewer than 2^51 octets passes if and only if it is a run of the zone that it
//! describes; else the first line that isn't is told (`audit_record`)
//! tested: altered records, failing streams
#![tactic(auto)]

mod audit;
mod fault;
mod first_line;
mod laws;
mod opening;
mod steps;
mod told;
mod whole_record;

pub use audit::{Audit, MOST_OCTETS};
pub use fault::{AuditFault, LineFault};
pub use laws::{recorded_steps_are_a_run, written_events_are_read_again};
pub use whole_record::{Audited, audit_record};
