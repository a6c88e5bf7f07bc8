//! What is due at a moment. That may be registrations that are over, endpoints in calls that are
//! silent, requests that wait, kept replies that are over, and the pools' turn.
//!
//! proved: something due is told; None if and only if nothing is (`due_beside`)
#![tactic(auto)]

mod due_item;
mod due_search;

pub use due_item::is_due;
pub use due_search::{due, due_beside};
pub use registrations::Times;
pub use zone_events::DueItem;
