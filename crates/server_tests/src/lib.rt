//! Tests of what a running server stands on, and of the server: what a zone tells, the rings, the
//! lock, and the server over ends in memory and over a UDP socket of this machine.
#![tactic(auto)]

#[cfg(test)]
mod lock;
#[cfg(test)]
mod rings;
#[cfg(test)]
mod server;
#[cfg(test)]
mod shared;
#[cfg(test)]
mod view;
