//! What the program has around its server: files, streams, the log, signals. What needs no server
//! is done here, and what has to be there before one serves is made.
//!
//! proved: the zone is the set one (`set_zone`); a failed start is told as what failed
//! (`bind_page`, `planned_record`); a command ends with the status of what it came to
//! (`replay_script`); a signal is told if the system told of it (`StopSignal::has_come`)
//! tested: the built program, what the system tells of signals
#![tactic(auto)]

mod asking;
mod auditing;
mod checking;
mod elapsed;
mod last_line;
mod notices;
mod page_address;
mod program;
mod record_file;
mod record_plan;
mod replaying;
mod serving_fault;
mod settings_zone;
mod source;
mod stop_signal;

pub use asking::{explain_input, probe_gatekeeper};
pub use auditing::audit_source;
pub use checking::check_source;
pub use elapsed::milliseconds_since;
pub use last_line::{end_status, out_of_memory, stream_failed};
pub use notices::{tell_cause, tell_place, tell_zone, warn_of, warn_of_end, warn_of_lost_record};
pub use page_address::bind_page;
pub use program::ThisProgram;
pub use record_file::{RecordFile, begin_record};
pub use record_plan::{PlannedRecord, planned_record};
pub use replaying::replay_input;
pub use serving_fault::{RunningFault, ServingFault};
pub use settings_zone::set_zone;
pub use source::{SETTINGS, Source, open_file};
pub use stop_signal::{Signals, StopSignal};
