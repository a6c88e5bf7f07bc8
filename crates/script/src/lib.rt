//! Scripts of events for one zone: read whole, run, and their outcomes printed.
//!
//! proved: what a text says (`read_script`); exactly a run's lines are printed (`run_script`)
//! tested: streams that fail
#![tactic(auto)]

mod draft;
mod draft_config;
mod event;
mod event_line;
mod fault;
mod hex_digits;
mod input;
mod line;
mod long_parts;
mod outcome;
mod output;
mod pool;
mod print;
mod read;
mod run;
mod setting;
mod short_text;
mod words;

pub use draft::Draft;
pub use event::{Events, Replacement, ScriptEvent};
pub use event_line::write_event;
pub use fault::{RunFault, ScriptFault};
pub use input::Input;
pub use line::{Line, line_of};
pub use outcome::{ShownOutcome, outcome_of};
pub use output::Output;
pub use print::write_outcome;
pub use read::{Script, read_script};
pub use run::{run_script, zone_of};
