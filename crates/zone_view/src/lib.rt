//! What a running zone tells to those who look at it: its figures, the rows of its endpoints and of
//! its calls, and counts of what it did.
//!
//! proved: what is counted of a step is as defined (`StepCounts::of`); the figures and
//! rows that a running zone tells are its own (`RunningZone`)
#![tactic(auto)]

mod count;
mod counts;
mod figures;
mod kinds;
mod reject;
mod rows;
mod running_zone;
mod step_counts;

pub use count::{Count, PLACES};
pub use counts::Counts;
pub use figures::{ServerFigures, ZoneFigures};
pub use kinds::{Answer, ReplyKind, RequestKind, TurnDeed};
pub use reject::Reject;
pub use rows::{CallRow, EndpointRow, ShownAliases};
pub use running_zone::RunningZone;
pub use step_counts::StepCounts;
