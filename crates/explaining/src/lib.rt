//! Datagrams in words: what a message is, with its fields, or why it isn't read.
//!
//! proved: the words follow from the reading (`explained`)
//! tested: names
#![tactic(auto)]

mod lines;
mod message;
mod names;
mod octets;
mod parts;
mod place;
mod request;

pub use lines::explained;
pub use message::push_message;
pub use octets::octets_in;
