//! How long it takes until all endpoints are registered that come at once, as after a power cut,
//! while the kept replies take all places that there are.

use crate::requests::{discovery, registration_with};
use crate::zones::{MOST_KEPT, datagram, zone_of};
use anyhow::{Context, Result, bail, ensure};
use pools::FixedPool;
use ras_core::{Event, Moment, Note, Outcome, Zone};
use ras_module::Octets;
use std::alloc::Global;
use std::time::{Clock, Instant};

/// How many discoveries each of two senders makes: as many replies as may be kept.
const DISCOVERIES: u16 = 32_768;

/// How long it is from one storm to the next, in milliseconds. The replies to the one before are
/// over then, and make room.
const BETWEEN: u64 = 60_000;

/// The replies to `DISCOVERIES` discoveries of this sender are kept.
fn discover(alloc: Global, zone: &mut Zone<FixedPool>, sender: u16) -> Result<()> {
    for seq in 0..DISCOVERIES {
        let octets = Octets::from_vec(Vec::from_slice(alloc, &discovery(seq))?);
        let outcome = zone.step(datagram(sender, octets, Moment::START))?;
        ensure!(outcome.note == Note::Served, "a discovery isn't served");
    }
    Ok(())
}

/// A registration of each endpoint, whose requestSeqNum tells the storms apart.
fn events_of(alloc: Global, endpoints: u16, storm: u16) -> Result<Vec<Event>> {
    let moment = Moment::new(u64::from(storm) * BETWEEN).context("a moment")?;
    let mut events = Vec::new(alloc);
    for number in 0..endpoints {
        let octets = registration_with(alloc, number, storm)?;
        events.push(datagram(number, octets, moment))?;
    }
    Ok(events)
}

fn are_served(outcomes: &[Outcome]) -> bool {
    outcomes.iter().all(|outcome| outcome.note == Note::Served)
}

/// All endpoints register. Prints how long it takes.
fn storm(
    rt: &(impl Clock + Print),
    alloc: Global,
    zone: &mut Zone<FixedPool>,
    endpoints: u16,
    storm: u16,
) -> Result<()> {
    let events = events_of(alloc, endpoints, storm)?;
    let mut outcomes = Vec::with_capacity(alloc, events.len())?;
    let start = Instant::now(rt)?;
    if zone.run(&events, &mut outcomes).is_err() {
        bail!("a registration was refused");
    }
    let time = start.elapsed(rt)?.as_millis();
    println!(rt; "storm {storm}: {endpoints} endpoints in {time} ms")?;
    ensure!(are_served(&outcomes), "not all registrations were served");
    Ok(())
}

fn storms(
    rt: &(impl Clock + Print),
    alloc: Global,
    zone: &mut Zone<FixedPool>,
    endpoints: u16,
) -> Result<()> {
    discover(alloc, zone, 0)?;
    discover(alloc, zone, 1)?;
    for number in 1..4 {
        storm(rt, alloc, zone, endpoints, number)?;
    }
    Ok(())
}

/// This many endpoints register in a zone without any, and then twice anew by other datagrams.
pub fn measure(rt: &(impl Clock + Print), alloc: Global, endpoints: u64) -> Result<()> {
    ensure!(endpoints <= 20_000, "ENDPOINTS is 20000 at most");
    let endpoints = endpoints as u16;
    let mut zone = zone_of(alloc, MOST_KEPT)?;
    let measured = storms(rt, alloc, &mut zone, endpoints);
    drop(zone);
    measured
}
