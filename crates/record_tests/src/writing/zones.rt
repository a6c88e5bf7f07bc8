//! The lines of zones.

use facts::ensure;
use pools::{NonZeroUnits, PoolSpec, PoolSpecs};
use ras_core::{Config, ConfigParts, Network, Networks};
use ras_module::Name;
use recording::{RecordedZone, ZoneFault, write_zone_lines};
use script::{Input, Script, read_script};
use std::alloc::Global;
use std::test::Fail;
use worked_zone::GATEKEEPER;

/// A network, with its pool behind it: a paced one, and one of steps for all others.
fn two_pools(alloc: Global) -> Result<(Networks, PoolSpecs), Fail> {
    let mut networks = Vec::new(alloc);
    networks.push(Some(Network {
        ip: [10, 1, 0, 0],
        bits: 16,
    }))?;
    networks.push(None)?;
    let mut pools = Vec::new(alloc);
    pools.push(PoolSpec::Paced {
        limit: 1_000,
        burst: NonZeroUnits::new(30).ok_or("units")?,
    })?;
    pools.push(PoolSpec::Step {
        limit: 2_000,
        step: NonZeroUnits::new(64).ok_or("units")?,
    })?;
    Ok((Networks::from_vec(networks), PoolSpecs::from_vec(pools)))
}

/// A zone of this name over two pools.
fn zone_named(alloc: Global, name: &[u16]) -> Result<Result<RecordedZone, ZoneFault>, Fail> {
    let (networks, pools) = two_pools(alloc)?;
    let name = Name::new(name).ok_or("a name")?;
    let mut parts = ConfigParts::new(name, GATEKEEPER, networks);
    parts.least_grant = 640;
    let Ok(config) = Config::new(parts) else {
        return Err("settings in their ranges".into());
    };
    Ok(RecordedZone::new(config, pools))
}

/// The lines of a zone whose name is gk, a letter of two octets in UTF-8, and one of three.
const LINES: &str = "zone gk\u{E9}\u{4E2D} 10.0.0.1:1719\nset limit 100000\nset call_limit 20000\n\
    set time_to_live 60\nset endpoints 1000\nset calls 1000\nset kept 4096\n\
    set window 10000\nset silence 30000\nset delay 500\nset retries 3\nset asks 3\n\
    set ask_wait 5000\nset pool_turn 1000\nset least_grant 640\n\
    pool paced 1000 30 for 10.1.0.0/16\npool step 2000 64\n";

fn lines_of(alloc: Global, zone: &RecordedZone) -> Result<Vec<u8>, Fail> {
    let mut text = Vec::new(alloc);
    write_zone_lines(zone, &mut text)?;
    Ok(text)
}

/// Whether a script has the settings of this zone, as many pools, and no events.
fn is_of_zone(script: &Script, zone: &RecordedZone) -> bool {
    script.config.is_same(zone.config())
        && script.pools.as_slice().len() == zone.pools().len()
        && script.events.as_slice().is_empty()
}

#[test]
fn a_zone_has_its_lines(rt: HostRuntime) -> Result<(), Fail> {
    let zone = zone_named(rt.alloc(), &[103, 107, 0xE9, 0x4E2D])??;
    let text = lines_of(rt.alloc(), &zone)?;
    ensure(text.as_slice() == LINES.as_bytes(), "these are its lines")?;
    let script = read_script(rt.alloc(), &mut Input::new(text.as_slice()))?;
    ensure(is_of_zone(&script, &zone), "they are read as the zone")
}

#[test]
fn a_name_is_one_word(rt: HostRuntime) -> Result<(), Fail> {
    for name in [&[103u16, 32][..], &[10], &[103, 0xD800], &[0xDFFF, 103]] {
        assert!(rt; zone_named(rt.alloc(), name)?.err() == Some(ZoneFault::Name));
    }
    for name in [&[9u16][..], &[0xD7FF], &[0xE000], &[0xFFFF], &[35]] {
        assert!(rt; zone_named(rt.alloc(), name)?.is_ok());
    }
    Ok(())
}

/// This many fixed pools of this limit.
fn fixed_pools(alloc: Global, count: usize, limit: u64) -> Result<PoolSpecs, Fail> {
    let mut pools = Vec::new(alloc);
    for _ in 0..count {
        pools.push(PoolSpec::Fixed { limit })?;
    }
    Ok(PoolSpecs::from_vec(pools))
}

/// The settings of a zone with one pool, for all addresses.
fn config_of_one_pool(alloc: Global) -> Result<Config, Fail> {
    let mut networks = Vec::new(alloc);
    networks.push(None)?;
    let name = Name::new(&[103, 107]).ok_or("a name")?;
    let parts = ConfigParts::new(name, GATEKEEPER, Networks::from_vec(networks));
    Ok(Config::new(parts)?)
}

/// Why a zone with settings for one pool, and with these pools, can't be recorded, if it can't.
fn fault_of_pools(alloc: Global, count: usize, limit: u64) -> Result<Option<ZoneFault>, Fail> {
    let config = config_of_one_pool(alloc)?;
    let pools = fixed_pools(alloc, count, limit)?;
    Ok(RecordedZone::new(config, pools).err())
}

#[test]
fn a_zone_has_the_pools_of_a_script(rt: HostRuntime) -> Result<(), Fail> {
    for (count, limit, fault) in [
        (1usize, 1_000_000_000_000u64, None),
        (1, 1_000_000_000_001, Some(ZoneFault::Pools)),
        (2, 1_000, Some(ZoneFault::Pools)),
        (0, 1_000, Some(ZoneFault::Pools)),
    ] {
        let told = fault_of_pools(rt.alloc(), count, limit)?;
        assert!(rt; told == fault, "{count} {limit}");
    }
    Ok(())
}

#[test]
fn faults_of_zones_have_texts(rt: HostRuntime) -> Result<(), Fail> {
    let text = format!(in rt.alloc(); "{}; {}", ZoneFault::Name, ZoneFault::Pools)?;
    let texts = "the zone's name is not one word; the zone's pools are not those of a script";
    ensure(text.as_str() == texts, "faults have these texts")
}
