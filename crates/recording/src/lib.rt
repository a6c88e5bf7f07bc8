//! Records of what a gatekeeper does, as text: step after step, within a bound.
//!
//! proved: a record is its zone's lines and then its steps', in order, each once, within its bound
//! (`RecordWriter::write`); read again, the zone's lines are that zone
//! tested: audits, failing streams
#![tactic(auto)]

mod entries;
mod laws;
mod recorded_zone;
mod writer;
mod zone_lines;

pub use laws::{
    written_entries_are_the_record, written_steps_are_the_record, zone_lines_are_read_again,
};
pub use recorded_zone::{RecordedZone, ZoneFault};
pub use writer::{End, RecordWriter, Recorded};
pub use zone_lines::write_zone_lines;
