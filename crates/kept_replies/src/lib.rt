//! The replies that are kept for repeats, and the requests that wait. A request that is sent again
//! gets the same reply (H.225.0, RAS timers and request in progress).
//!
//! proved: a finite map; a reply that is over is told if and only if there is one (`Kept::over`)
#![tactic(auto)]

mod birth_places;
mod copies;
mod due;
mod due_moments;
mod entry;
mod fault;
mod in_progress;
mod kept_reply;
mod key;
mod list;
mod request_octets;
mod rows;
mod searches;
mod table;
mod told_counts;
mod told_id;

pub use entry::{KeptEntry, KeptState};
pub use fault::ReserveFault;
pub use in_progress::InProgress;
pub use kept_reply::KeptReply;
pub use key::KeptKey;
pub use list::KeptList;
pub use request_octets::RequestOctets;
pub use table::Kept;
pub use told_id::ToldId;
