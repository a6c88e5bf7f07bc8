//! A zone behind a lock, with the history of its steps: whoever has a seat may make a step. The
//! book under the lock is a run of the machine at any time, and the shares that the seats have of
//! the ledgers add up to what the history has. What was done can be taken out in chapters, or let
//! go.
//!
//! proved: all steps under it are a run to the zone (`Locked`, `ZoneLock::finish`); figures and
//! rows are of one moment (`figures`)
//! tested: threads, fresh lists
#![tactic(auto)]

mod cutting;
mod ending;
mod handing;
mod ledgers;
mod listing;
mod lock;
mod locked;
mod looking;
mod order;
mod replacing;
mod seat;
mod stepping;
mod turns;

pub use cutting::{CutFault, Discarded, cut_locked, discard_locked};
pub use ending::finish_locked;
pub use handing::{HandedOut, hand_out_locked};
pub use listing::Listing;
pub use lock::{Blanks, OpenFault, ZoneLock};
pub use locked::{Locked, apply_locked, list_locked};
pub use looking::{calls_locked, endpoints_locked, figures_locked};
pub use replacing::replace_locked;
pub use seat::{Hall, Seat};
pub use stepping::step_locked;
pub use turns::{TurnsEnd, turns_locked};
