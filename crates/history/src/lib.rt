//! A model of workers over one zone with its book, in every order in which they act. It says what
//! holds of the replies, of the zone and of the book. Nothing here waits.
//!
//! proved: in any order of acts the book is a run, and replies are taken in order (`World::act`)
#![tactic(auto)]

mod fault;
mod laws;
mod replacing;
mod worker;
mod world;

pub use fault::WorldFault;
pub use laws::{
    a_reply_is_dropped_only_by_a_full_ring, every_interleaving_is_in_order,
    replies_are_served_in_order, the_next_reply_is_taken,
};
pub use worker::{Hand, Mark};
pub use world::{Acted, World, WorldStep};
