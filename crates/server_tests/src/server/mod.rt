//! Tests of the server, over ends in memory and over a UDP socket of this machine.

mod audits;
mod clocks;
mod counts;
mod ends;
mod failing;
mod fixtures;
mod handing;
mod loopback;
mod meeting;
mod replacing;
mod timers;
mod two_at_once;
