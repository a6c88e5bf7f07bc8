//! The calls that the gatekeeper has admitted (H.323, 7.2): who takes part in each, and the
//! bandwidth that they use.
//!
//! proved: a finite map with exact refusals; bandwidth in use is the sum over it (`Calls`)
#![tactic(auto)]

mod call;
mod call_list;
mod copies;
mod fault;
mod in_use;
mod leg;
mod legs;
mod sums;
mod table;

pub use call::Call;
pub use call_list::CallList;
pub use fault::CallFault;
pub use leg::Leg;
pub use legs::Legs;
pub use table::{Calls, Left};
