//! Octets to a request. The requests of endpoints (ITU-T H.225.0) come in BASIC-PER, ALIGNED
//! (ITU-T X.691).
//!
//! proved: octets are a request, a message not served, or a fault, exactly by the grammar (`read`)
//! tested: that this is H.225.0
#![tactic(auto)]

mod additions;
mod address;
mod alias;
mod call;
mod endpoint_type;
mod message;
mod request;
mod sequence;

pub use message::read;
