//! Making the zone of a script of what its lines say.

ghost use Rattle.std.specs.Prelude.{◌≡◌, IfOk, false, fold, None, Some, if◌then◌else◌};
ghost use Rattle.std.specs.List.{list_any};
ghost use Rattle.zone_config.specs.Defaults.{default_parts};
ghost use Rattle.zone_config.specs.Networks.{has_default, is_too_long};
ghost use Rattle.script.specs.Pools.{networks_of, specs_of};
ghost use Rattle.script.specs.Scripts.{with_setting};

use crate::pool::PoolLine;
use crate::setting::Setting;
use pools::{PoolSpec, PoolSpecs};
use ras_core::{Config, ConfigFault, ConfigParts, Networks};
use ras_module::{Address, Name};
use std::alloc::{AllocError, Global};

/// The networks of the pools, and of the one pool that there is without a pool line.
pub fn networks_of(alloc: Global, lines: &[PoolLine]) -> Result<Networks, AllocError>
    ensures value { IfOk result (λ networks. networks ≡ networks_of lines.now) }
    ensures bits { IfOk result (λ networks. list_any is_too_long networks ≡ false) }
{
    let mut networks = Vec::new(alloc);
    if lines.is_empty() {
        networks.push(None).map_err(AllocError::from)?;
    }
    for line in lines {
        networks.push(line.network()).map_err(AllocError::from)?;
    }
    Ok(Networks::from_vec(networks))
}

/// The pools, and the one of this limit that there is without a pool line.
pub fn specs_of(alloc: Global, limit: u64, lines: &[PoolLine]) -> Result<PoolSpecs, AllocError>
    ensures { IfOk result (λ specs. specs ≡ specs_of limit lines.now) }
{
    let mut specs = Vec::new(alloc);
    if lines.is_empty() {
        specs
            .push(PoolSpec::Fixed { limit })
            .map_err(AllocError::from)?;
    }
    for line in lines {
        specs.push(line.spec()).map_err(AllocError::from)?;
    }
    Ok(PoolSpecs::from_vec(specs))
}

/// The configuration of a zone in which nothing is set; None if its last pool has a network.
pub fn config_of(name: Name, address: Address, networks: Networks) -> Option<Config>
    requires bits { list_any is_too_long networks ≡ false }
    ensures { result
        ≡ if has_default networks then Some (default_parts name address networks) else None }
{
    match Config::new(ConfigParts::new(name, address, networks)) {
        Ok(config) => Some(config),
        Err(ConfigFault::NoDefaultPool) => None,
        Err(ConfigFault::OutOfRange(_)) => unreachable!(),
    }
}

/// The configuration in which these settings are made, in order.
pub fn with_settings(mut config: Config, settings: &[Setting]) -> Config
    ensures { result ≡ fold with_setting config settings.now }
{
    for setting in settings {
        config = setting.apply(config);
    }
    config
}
