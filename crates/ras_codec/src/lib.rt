//! What other crates call to read requests and write replies. The messages of RAS (ITU-T H.225.0)
//! are octets in BASIC-PER, ALIGNED (ITU-T X.691). A request is read from octets. A reply is
//! written as octets, from which it is read again.
//!
//! proved: two replies with one encoding are one (`one_reply`)
//! tested: that this is H.225.0
#![tactic(auto)]

mod laws;

pub use laws::{one_reply, room_is_enough, written_reads_back};
pub use ras_grammar::ReadFault;
pub use ras_reading::read;
pub use ras_writing::{LentConfirm, write_confirm, write_into, write_reserved};
