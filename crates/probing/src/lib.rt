//! Asking a gatekeeper whether it is there.
//!
//! proved: an answer is told as it reads (`push_told`); over whatever link is asked, the octets that
//! came are told (`ask_over`)
//! tested: the built program
#![tactic(auto)]

mod ask;
mod link;
mod reply;
mod request;
mod told;

pub use ask::{Probe, ProbeFault, ask_gatekeeper};
pub use reply::{Confirm, DiscoveryReply, Reject, RejectReason, read_reply};
pub use request::{SEQ, discovery_request};
pub use told::push_told;
