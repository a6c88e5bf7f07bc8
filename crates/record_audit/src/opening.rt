//! The zone of a record before its first step.

ghost use Rattle.std.specs.Prelude.{◌≡◌, IfOk, IfSome, MatchOption, map, true, false};
ghost use Rattle.pools.specs.Specs.{account_of, pool_of};
ghost use Rattle.zone_tables.specs.Pools.{figures_of};
ghost use Rattle.ras_machine.specs.Soundness.{Sound};
ghost use Rattle.ras_machine.specs.State.{opening};
ghost use Rattle.script.specs.Runs.{are_pools_of};
ghost use Rattle.record_audit.specs.Records.{IsOpened};

use pools::{PoolSpec, StandardPool};
use ras_machine::Machine;
use script::{RunFault, Script, zone_of};
use std::alloc::{AllocError, Global};

/// The pools that are described, in order, each of its kind and with nothing lent.
fn pools_of(alloc: Global, specs: &[PoolSpec]) -> Result<Vec<StandardPool>, AllocError>
    ensures { IfOk result (λ pools. pools.items ≡ map pool_of specs.now) }
{
    let mut pools = Vec::new(alloc);
    for spec in specs {
        pools.push(StandardPool::new(*spec))?;
    }
    Ok(pools)
}

/// The machine of the zone that a script describes; None if the script's pools make no set.
pub(crate) fn machine_of(alloc: Global, script: Script) -> Result<Option<Machine>, AllocError>
    ensures opened { IfOk result (IsOpened script) }
    ensures sound { IfOk result (λ machine. IfSome machine Sound) }
{
    let pools = pools_of(alloc, script.pools.as_slice())?;
    match zone_of(alloc, script.config, pools) {
        Ok(zone) => Ok(Some(zone.snapshot()?.into_machine())),
        Err(RunFault::WrongPools) => Ok(None),
        Err(_) => Err(AllocError),
    }
}
