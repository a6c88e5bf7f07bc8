//! What the program does without a server: the words of its command line; settings and scripts from
//! an input; a check of settings, a replay, an explanation, an audit; the boxes of the pools.
//!
//! proved: nothing is written of refused input (`replay`, `check_settings`); settings are listed
//! once (`check_settings`); a record's audit is told (`audit`); each fault has its status
//! tested: texts of faults
#![tactic(auto)]

mod asking;
mod auditing;
mod auditing_input;
mod boxed_pools;
mod cli;
mod explaining_input;
mod key_lines;
mod replaying;
mod serving;
mod settings_check;
mod settings_input;

pub use auditing_input::{RecordFault, audit};
pub use boxed_pools::{are_new, pools_of};
pub use cli::{Choice, chosen};
pub use explaining_input::explain;
pub use replaying::{ReplayFault, replay};
pub use serving::{Recording, Serving};
pub use settings_check::check_settings;
pub use settings_input::{InputFault, PassedOver, ReadInput, read_input};
