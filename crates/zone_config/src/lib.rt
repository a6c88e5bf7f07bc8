//! What is set for a zone, and moments. A zone has a name and an address, limits and times, and
//! the networks of its pools. Nothing here reads a clock: moments are numbers that are handed in.
//!
//! proved: settings are in their ranges, with a default pool (`Config::new`)
#![tactic(auto)]

mod config;
mod key;
mod moment;
mod network;
mod term;

pub use config::{Config, ConfigFault, ConfigParts};
pub use key::Key;
pub use moment::Moment;
pub use network::{Network, Networks};
pub use term::Term;
