//! The check of a recorded step. The machine's own deed is done again with what the outcome shows
//! to have been chosen, and with pools that repeat the recorded answer. There is no second
//! machine.
//!
//! proved: a recorded step is accepted if and only if the machine has it (`redo`)
//! tested: altered books
#![tactic(auto)]

mod course;
mod recorded;
mod step;

pub use recorded::Recorded;
pub use step::{accepts, redo, same};
