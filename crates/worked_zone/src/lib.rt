//! The zone of the worked examples, which tests share. It is named gk, at 10.0.0.1, port 1719. It
//! has 3,000 units, of which a call may have 2,000, over one pool of 2,500 units, which serves all
//! addresses.
#![tactic(auto)]

use pools::{FixedPool, Pool, PoolSet};
use ras_core::{Config, ConfigParts, Networks, Zone};
use ras_module::{Address, Name, Source};
use std::alloc::Global;

/// The address of the gatekeeper.
pub const GATEKEEPER: Address = Address {
    ip: [10, 0, 0, 1],
    port: 1719,
};

/// The endpoint that sends what is sent from nowhere else.
pub const ENDPOINT: Source = Address {
    ip: [10, 0, 0, 5],
    port: 1719,
};

/// The units of the zone.
pub const LIMIT: u64 = 3_000;

/// The most units that a call may have.
pub const CALL_LIMIT: u64 = 2_000;

/// The units of the pool.
pub const POOL: u64 = 2_500;

/// The settings of the zone. None for want of memory.
pub fn parts(alloc: Global) -> Option<ConfigParts> {
    let identifier = Name::new(&[103, 107])?;
    let mut networks = Vec::new(alloc);
    networks.push(None).ok()?;
    let mut parts = ConfigParts::new(identifier, GATEKEEPER, Networks::from_vec(networks));
    parts.limit = LIMIT;
    parts.call_limit = CALL_LIMIT;
    Some(parts)
}

/// The zone. None for want of memory.
pub fn zone(alloc: Global) -> Option<Zone<FixedPool>> {
    zone_of(alloc, LIMIT, 0)
}

/// A zone with this limit and this least grant. None for want of memory.
pub fn zone_of(alloc: Global, limit: u64, least_grant: u64) -> Option<Zone<FixedPool>> {
    let mut parts = parts(alloc)?;
    parts.limit = limit;
    parts.least_grant = least_grant;
    let mut pools = Vec::new(alloc);
    pools.push(FixedPool::new(POOL)).ok()?;
    zone_over(alloc, parts, pools)
}

/// A zone with these settings over these pools. None for want of memory, if a number is out of its
/// range, and if there aren't as many pools as networks.
pub fn zone_over<P: Pool>(alloc: Global, parts: ConfigParts, pools: Vec<P>) -> Option<Zone<P>> {
    let Ok(config) = Config::new(parts) else {
        return None;
    };
    let Ok(set) = PoolSet::new(pools) else {
        return None;
    };
    match Zone::new(alloc, config, set) {
        Ok(zone) => Some(zone),
        Err(_) => None,
    }
}
