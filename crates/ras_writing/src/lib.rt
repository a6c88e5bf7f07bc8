//! A reply to octets, and the grammar by which they are read again. The replies of the gatekeeper
//! (ITU-T H.225.0) go out in BASIC-PER, ALIGNED (ITU-T X.691).
//!
//! proved: a reply has one encoding, within its room, which reads back (`write_reserved`)
//! tested: that this is H.225.0
#![tactic(auto)]

mod confirm;
mod encoded;
mod encoder;
mod reply;

pub use confirm::LentConfirm;
pub use encoded::EncodedReply;
pub use reply::{write_confirm, write_into, write_reserved};
