//! The machine: what an event calls for, as a value, and the deed that it comes to. It has the
//! duties of a gatekeeper (ITU-T H.323; ITU-T H.225.0, RAS). What may be chosen is handed in: the
//! kept entry that is dropped, the item that is done of those that are due, the identifier that is
//! handed out. The pools choose their answers.
//!
//! All that a machine can do:
//!
//! | file | calls | what for |
//! |---|---|---|
//! | prepared.rt | `prepare` | reads the datagram of an event before the machine is needed |
//! | datagram_in.rt | `entry_to_drop`, `datagram_course` | what a datagram calls for |
//! | turn.rt | `due`, `turn_course` | what a turn calls for |
//! | machine.rt | `identify`, `perform` | the identifier that is handed out; the deed of one step |
//! | course.rt | `Course::may_return_units` | whether units may come back to a pool in the deed |
//! | readiness.rt | `is_ready`, `is_over`, `is_due`, `may_be_named` | whether choices fit |
//! | replacing.rt | `replace_pool` | a fresh pool takes the place of one |
//! | machine.rt | `new`, `copy`, `is_same` | a machine in which no step was made; copies |
//! | machine.rt | `clock`, `steps`, `is_closed`, `tables`, `kept_len`, `pools` | what it has |
//! | machine.rt | `allocator` | where its memory comes from |
//!
//! The words are those of the definitions (specs/Machine.antt): an event calls for a `Course`; a
//! request that is served is a `Task`, which has a `Job` and a `Plan`.
//!
//! proved: a step does what its event calls for, as chosen, or changes nothing (`Machine::perform`)
#![tactic(auto)]

mod course;
mod datagram_in;
mod job;
mod kept_entry;
mod machine;
mod noted;
mod prepared;
mod readiness;
mod replacing;
mod served_request;
mod turn;

pub use course::{Course, Task};
pub use job::{Job, Occasion};
pub use machine::Machine;
pub use prepared::{Arrival, Message, Prepared, prepare};
