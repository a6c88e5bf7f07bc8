//! A zone in which endpoints are registered.

use crate::requests::{Endpoint, address_of, registration};
use anyhow::{Context, Result, bail, ensure};
use pools::{FixedPool, PoolSet};
use ras_core::{Config, ConfigParts, Event, Moment, Networks, Zone};
use ras_module::{Address, Name, Octets, Source};
use std::alloc::Global;

/// A datagram of the endpoint with this number.
pub fn datagram(number: u16, octets: Octets, moment: Moment) -> Event {
    let from: Source = Address {
        ip: address_of(number),
        port: 1719,
    };
    Event::Datagram(from, octets, moment)
}

/// How many replies a zone may keep at most.
pub const MOST_KEPT: u64 = 65_536;

/// A zone without endpoints over one pool. It keeps `kept` replies, and its other tables are as
/// large as they may be. Registrations live for an hour.
pub fn zone_of(alloc: Global, kept: u64) -> Result<Zone<FixedPool>> {
    zone_with(alloc, kept, 3_600)
}

/// The same, but registrations live for `time_to_live` seconds.
pub fn zone_with(alloc: Global, kept: u64, time_to_live: u64) -> Result<Zone<FixedPool>> {
    let identifier = Name::new(&[103, 107]).context("a name")?;
    let address = Address {
        ip: [10, 0, 0, 1],
        port: 1719,
    };
    let mut networks = Vec::new(alloc);
    networks.push(None)?;
    let mut parts = ConfigParts::new(identifier, address, Networks::from_vec(networks));
    parts.limit = 1_000_000_000;
    parts.time_to_live = time_to_live;
    parts.endpoints = 20_000;
    parts.calls = 20_000;
    parts.kept = kept;
    let config = Config::new(parts)?;
    let mut pools = Vec::new(alloc);
    pools.push(FixedPool::new(1_000_000_000))?;
    let Ok(set) = PoolSet::new(pools) else {
        bail!("the pool isn't idle");
    };
    match Zone::new(alloc, config, set) {
        Ok(zone) => Ok(zone),
        Err(_) => bail!("no zone was made"),
    }
}

/// The endpoint with this number registers.
pub fn register(
    alloc: Global,
    zone: &mut Zone<FixedPool>,
    number: u16,
    moment: Moment,
) -> Result<Endpoint> {
    let octets = registration(alloc, number)?;
    let outcome = zone.step(datagram(number, octets, moment))?;
    let identifier = outcome.given.context("an endpoint isn't registered")?;
    Ok(Endpoint { number, identifier })
}

/// This many endpoints register.
pub fn register_all(
    alloc: Global,
    zone: &mut Zone<FixedPool>,
    count: usize,
) -> Result<Vec<Endpoint>> {
    ensure!(0 < count && count <= 20_000, "ENDPOINTS is 1 to 20000");
    let mut endpoints = Vec::new(alloc);
    for number in 0..count as u16 {
        endpoints.push(register(alloc, zone, number, Moment::START)?)?;
    }
    Ok(endpoints)
}
