//! Events, changes of pools, outcomes, and what can be due, as values. Code that only carries
//! them, such as a script or a queue of replies, need not know the machine.
//!
//! proved: each event has its moment (`Event::moment`)
#![tactic(auto)]

mod change;
mod due_item;
mod event;
mod outcome;

pub use change::{Change, PoolChange};
pub use due_item::DueItem;
pub use event::Event;
pub use outcome::{Datagram, IgnoredCause, Note, Outcome};
