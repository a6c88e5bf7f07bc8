//! Texts of whole numbers, names, addresses, networks and the kinds of pools.
//!
//! proved: exactly what a text says, or None (`number_of`)
#![tactic(auto)]

mod address;
mod name;
mod network;
mod number;
mod parts;
mod pool_kind;

pub use address::address_of;
pub use name::name_of;
pub use network::network_of;
pub use number::number_of;
pub use parts::{is_word, parted};
pub use pool_kind::PoolKind;
