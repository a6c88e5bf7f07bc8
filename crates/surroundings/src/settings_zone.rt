//! The zone of settings.

ghost use Rattle.std.specs.Prelude.{◌≡◌, IfErr, IfOk, map};
ghost use Rattle.script.specs.Runs.{are_pools_of, start_of};
ghost use Rattle.surroundings.specs.Faults.{IsZoneFault, zone_fault};
ghost use Rattle.surroundings.specs.Zones.{zone_set};

use crate::serving_fault::RunningFault;
use commands::are_new;
use pools::Pool;
use ras_core::{Config, Zone};
use script::{RunFault, zone_of};
use settings::Settings;
use std::alloc::Global;

/// The zone that is set, with these pools, before its first event.
fn opened<P: Pool>(alloc: Global, config: Config, pools: Vec<P>) -> Result<Zone<P>, RunningFault>
    ensures start { IfOk result
        (λ zone. zone ≡ start_of config (map P.account pools.items)) }
    ensures fault { IfErr result
        (λ fault. fault ≡ zone_fault (are_pools_of config (map P.account pools.items))) }
{
    match zone_of(alloc, config, pools) {
        Ok(zone) => Ok(zone),
        Err(RunFault::Memory(_)) => Err(RunningFault::Memory),
        Err(_) => Err(RunningFault::WrongPools),
    }
}

/// The zone that is set, before its first event, once it is seen that these pools are its pools.
pub fn set_zone<P: Pool>(
    alloc: Global,
    settings: &Settings,
    pools: Vec<P>,
) -> Result<Zone<P>, RunningFault>
    ensures start { IfOk result (λ zone. zone ≡ zone_set settings.now) }
    ensures fault { IfErr result IsZoneFault }
{
    if !are_new(&pools, settings.pools.as_slice()) {
        return Err(RunningFault::WrongPools);
    }
    let config = settings.config.copy()?;
    opened(alloc, config, pools)
}
