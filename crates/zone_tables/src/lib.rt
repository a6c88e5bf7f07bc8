//! The tables of a zone, changed as a whole or not at all. They have its endpoints with their
//! aliases, its calls with the pools that lend them their bandwidth, and its settings (ITU-T
//! H.323).
//!
//! proved: a change, and a pool's answer, leave the tables as defined, or as they were
//! (`ZoneTables::apply`, `request_units`)
#![tactic(auto)]

mod bandwidth;
mod change;
mod endpoints;
mod endpoints_due;
mod entry;
mod lender;
mod pool_figures;
mod tables;
mod unit_request;

pub use change::{CallChange, Change, EndpointChange};
pub use endpoints_due::item_in_call;
pub use entry::Entry;
pub use lender::Lender;
pub use pool_figures::PoolFigures;
pub use tables::ZoneTables;
pub use unit_request::{Purpose, UnitRequest};
