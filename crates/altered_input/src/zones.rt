//! Zones of the worked examples.

use anyhow::{Context, Result, bail, ensure};
use pools::{FixedPool, PoolSet};
use ras_core::{Config, ConfigParts, Event, Moment, Networks, Note, Outcome, Zone};
use ras_module::{Address, Name, Octets, Source};
use std::alloc::Global;
use vectors::requests::{ARQ, RRQ_101, RRQ_102};

/// From where all datagrams come.
const SENDER: Source = Address {
    ip: [10, 0, 0, 5],
    port: 1719,
};

/// How far a zone has come before a datagram that is tried.
#[derive(Clone, Copy, PartialEq, Eq)]
pub enum Stage {
    /// Two endpoints are registered: 0001 with the alias 101, 0002 with the alias 102.
    Registered,
    /// Besides, 0001 has called 102.
    Calling,
}

/// A zone to which nothing came, of 3,000 units, of which a call may have 2,000, over a pool of
/// 2,500.
fn new_zone(alloc: Global) -> Result<Zone<FixedPool>> {
    let identifier = Name::new(&[103, 107]).context("a name")?;
    let address = Address {
        ip: [10, 0, 0, 1],
        port: 1719,
    };
    let mut networks = Vec::new(alloc);
    networks.push(None)?;
    let mut parts = ConfigParts::new(identifier, address, Networks::from_vec(networks));
    parts.limit = 3_000;
    parts.call_limit = 2_000;
    let config = Config::new(parts)?;
    let mut pools = Vec::new(alloc);
    pools.push(FixedPool::new(2_500))?;
    let Ok(set) = PoolSet::new(pools) else {
        bail!("the pool isn't idle");
    };
    match Zone::new(alloc, config, set) {
        Ok(zone) => Ok(zone),
        Err(_) => bail!("no zone was made"),
    }
}

/// One step of the zone: it takes a datagram.
fn take(zone: &mut Zone<FixedPool>, octets: Octets) -> Result<Outcome> {
    Ok(zone.step(Event::Datagram(SENDER, octets, Moment::START))?)
}

/// The zone takes a datagram that has to be served.
fn serve(alloc: Global, zone: &mut Zone<FixedPool>, octets: &[u8]) -> Result<()> {
    let outcome = take(zone, Octets::from_vec(octets.to_vec(alloc)?))?;
    ensure!(
        outcome.note == Note::Served,
        "a worked message isn't served"
    );
    Ok(())
}

// A zone that is dropped at each of many exits makes a function costly to prove, so what is done
// with it stands in functions that borrow it.

/// Brings a new zone to its stage, and has it take a datagram.
fn bring_and_take(
    alloc: Global,
    zone: &mut Zone<FixedPool>,
    stage: Stage,
    octets: Octets,
) -> Result<Outcome> {
    serve(alloc, zone, &RRQ_101)?;
    serve(alloc, zone, &RRQ_102)?;
    if stage == Stage::Calling {
        serve(alloc, zone, &ARQ)?;
    }
    take(zone, octets)
}

/// What a zone of its own, at that stage, makes of a datagram.
pub fn outcome_of(alloc: Global, stage: Stage, octets: Octets) -> Result<Outcome> {
    let mut zone = new_zone(alloc)?;
    let outcome = bring_and_take(alloc, &mut zone, stage, octets);
    drop(zone);
    outcome
}
