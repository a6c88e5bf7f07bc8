//! The rings by which the workers of a server hand replies to its sender. Each has one end that
//! puts datagrams and one that takes them, which may stand in two threads. No call waits, and none
//! but `rings` takes memory.
//!
//! proved: if a ring is found to be whole at its end, what was taken is what was put
//! (`Inlet::settle`)
//! tested: that there is a mark
#![tactic(auto)]

mod inlet;
mod laws;
mod outlet;
mod ring_set;

pub use inlet::{Inlet, Settled};
pub use laws::{ends_stay_together, whole_ring};
pub use outlet::{Ended, Outlet};
pub use ring_set::{MAX_CAPACITY, MAX_RINGS, rings};
