//! What is read of the lines of a record: what was written.
//!
//! proved: an audit of the record of a run of events finds that run, if the record's lines can tell
//! zone and steps (`recorded_run_is_found_again`)
//! tested: that those of a running zone can
#![tactic(auto)]

mod laws;

pub use laws::{recorded_run_is_found_again, written_outcomes_are_read_again};
