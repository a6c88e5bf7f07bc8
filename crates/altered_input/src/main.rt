//! What the gatekeeper makes of input that is almost right. Each octet of each worked message is
//! replaced by each of its other values, and a zone takes what comes of that as a datagram; a
//! script is cut at each of its octets, and read. The program prints how often each answer came,
//! and a checksum over the answers to datagrams, so that a change of any of them shows.
#![tactic(auto)]

mod checksum;
mod counts;
mod datagrams;
mod fronts;
mod messages;
mod zones;

use anyhow::Result;

fn main(rt: HostRuntime) -> Result<()> {
    let alloc = rt.alloc();
    datagrams::try_all(&rt, alloc)?;
    fronts::try_all(&rt, alloc)
}
