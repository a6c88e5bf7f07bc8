//! The settings of a zone, and its pools' networks.

use crate::fixtures::{DAY, POOL, parts};
use facts::{all_hold, ensure};
use pools::{FixedPool, PoolSet};
use ras_core::{Config, ConfigFault, ConfigParts, Network, Networks, NewFault, Zone};
use std::alloc::Global;
use std::test::Fail;

/// Whether these settings are refused for this key; with no key, whether they are taken.
fn is_judged(parts: ConfigParts, key: &str) -> bool {
    match Config::new(parts) {
        Ok(_) => key.is_empty(),
        Err(ConfigFault::OutOfRange(named)) => named == key,
        Err(ConfigFault::NoDefaultPool) => false,
    }
}

/// The most units that a zone may have, the most calls, and the greatest least grant.
const LIMIT_MOST: u64 = 1_000_000_000_000;

const CALLS_MOST: u64 = 20_000;

const GRANT: u64 = 4_294_967_295;

/// A limit, how many calls, how often an endpoint is asked, the pools' turn, a least grant, and the
/// first key of them that is out of its range, if one is.
const CASES: [(u64, u64, u64, u64, u64, &str); 8] = [
    (1, 1, 1, 1, 0, ""),
    (LIMIT_MOST, CALLS_MOST, 16, DAY, GRANT, ""),
    (LIMIT_MOST + 1, CALLS_MOST + 1, 17, DAY + 1, 0, "zone.limit"),
    (0, 1, 1, 1, 0, "zone.limit"),
    (1, CALLS_MOST + 1, 17, DAY + 1, 0, "zone.calls"),
    (1, 1, 17, 0, 0, "zone.asks"),
    (1, 1, 1, 0, GRANT + 1, "zone.pool_turn"),
    (1, 1, 1, 1, GRANT + 1, "zone.least_grant"),
];

#[test]
fn a_key_out_of_its_range_is_named(rt: HostRuntime) -> Result<(), Fail> {
    for (limit, calls, asks, pool_turn, least_grant, key) in CASES {
        let mut parts = parts(rt.alloc())?;
        parts.limit = limit;
        parts.calls = calls;
        parts.asks = asks;
        parts.pool_turn = pool_turn;
        parts.least_grant = least_grant;
        assert!(rt;
            is_judged(parts, key),
            "{limit} {calls} {asks} {pool_turn} {least_grant}"
        );
    }
    Ok(())
}

/// Makes a zone over one pool with these networks, which is refused unless they are one. The pool
/// comes back then.
fn make(alloc: Global, networks: &[Option<Network>]) -> Result<(), Fail> {
    let mut parts = parts(alloc)?;
    parts.networks = Networks::from_vec(networks.to_vec(alloc)?);
    let Ok(config) = Config::new(parts) else {
        return Err(Fail::from("the settings are in their ranges"));
    };
    let mut pools = Vec::new(alloc);
    pools.push(FixedPool::new(POOL))?;
    let Ok(set) = PoolSet::new(pools) else {
        return Err(Fail::from("one idle pool"));
    };
    match Zone::new(alloc, config, set) {
        Ok(_) => ensure(networks.len() == 1, "a zone over one pool has one network"),
        Err((set, fault)) => {
            let is_back = set.len() == 1 && set.figures(0).limit == POOL;
            drop(set);
            all_hold(&[
                (is_back, "the pool comes back"),
                (
                    fault == NewFault::WrongPools,
                    "the pools are named as the fault",
                ),
                (
                    networks.len() != 1,
                    "a zone with one network is made over one pool",
                ),
            ])
        }
    }
}

#[test]
fn a_zone_has_a_pool_for_each_network(rt: HostRuntime) -> Result<(), Fail> {
    let alloc = rt.alloc();
    let office = Network {
        ip: [10, 1, 0, 0],
        bits: 16,
    };
    make(alloc, &[None])?;
    make(alloc, &[Some(office), None])?;
    let mut parts = parts(alloc)?;
    parts.networks = Networks::from_vec([Some(office)].to_vec(alloc)?);
    let refused = Config::new(parts);
    all_hold(&[
        (
            office.holds([10, 1, 255, 1]),
            "the network holds its last address",
        ),
        (
            !office.holds([10, 2, 0, 1]),
            "it holds none of the next one",
        ),
        (
            matches!(refused, Err(ConfigFault::NoDefaultPool)),
            "settings with no pool for all other addresses are refused",
        ),
    ])
}
