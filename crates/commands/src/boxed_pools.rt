//! Making the pools of a script, and running it with them.

ghost use Rattle.std.specs.Prelude.{◌≡◌, map, IfOk, IsTrue, OnErr};
ghost use Rattle.pools.specs.Account.{opening_account};
ghost use Rattle.pools.specs.Specs.{account_of, pool_of};
ghost use Rattle.script.specs.Events.{fresh_pools};
ghost use Rattle.commands.specs.Replays.{RunsScript};

use pools::{Pool, PoolSpec, StandardPool};
use script::{Output, RunFault, Script, run_script};
use std::alloc::{AllocError, Global};
use std::io::Write;

fn limit_of(spec: &PoolSpec) -> u64
    ensures { account_of spec.now ≡ opening_account result }
{
    match spec {
        PoolSpec::Fixed { limit } => *limit,
        PoolSpec::Step { limit, step: _ } => *limit,
        PoolSpec::Paced { limit, burst: _ } => *limit,
    }
}

/// Whether a pool has the limit of its description, and was asked nothing yet.
fn is_new<P: Pool>(pool: &P, spec: &PoolSpec) -> bool
    ensures { IsTrue result → P.account pool.now ≡ account_of spec.now }
{
    pool.limit() == limit_of(spec)
        && pool.lent() == 0
        && pool.refusals() == 0
        && pool.waits() == 0
        && pool.last().is_none()
}

/// Whether these are the pools that are described, in order, and were asked nothing yet.
pub fn are_new<P: Pool>(pools: &[P], specs: &[PoolSpec]) -> bool
    ensures { IsTrue result → map P.account pools.now ≡ map account_of specs.now }
{
    if pools.len() != specs.len() {
        return false;
    }
    for (i, spec) in specs.iter().enumerate() {
        if !is_new(&pools[i], spec) {
            return false;
        }
    }
    true
}

/// Runs a script with the pools that were made for it, and those that are to take the places of
/// others, as they are described. Before that, it is seen that they are its pools.
fn run_made<P: Pool, W: Write + Drop>(
    alloc: Global,
    script: Script,
    pools: Vec<P>,
    fresh: Vec<P>,
    fresh_specs: &[PoolSpec],
    out: &mut Output<W>,
) -> Result<(), RunFault>
    requires { fresh_specs.now ≡ fresh_pools script.events }
    ensures { RunsScript script out.old out.new result }
{
    if !are_new(&pools, script.pools.as_slice()) || !are_new(&fresh, fresh_specs) {
        return Err(RunFault::WrongPools);
    }
    run_script(alloc, script, pools, fresh, out)
}

/// The pools that are described, in order, each of its kind and with nothing lent.
///
/// promise script-pools-are-of-their-kinds: Pools are made of the kinds that are described, in
/// order (`pool_of`).
pub fn pools_of(alloc: Global, specs: &[PoolSpec]) -> Result<Vec<StandardPool>, AllocError>
    ensures { IfOk result (λ pools. pools.items ≡ map pool_of specs.now) }
{
    let mut pools = Vec::new(alloc);
    for spec in specs {
        pools.push(StandardPool::new(*spec))?;
    }
    Ok(pools)
}

/// Makes the pools of a script, and those that are to take the places of others, each in a box, and
/// runs it; nothing is written if there is no memory for the pools.
pub(crate) fn run_with_pools<W: Write + Drop>(
    alloc: Global,
    script: Script,
    out: &mut Output<W>,
) -> Result<Result<(), RunFault>, AllocError>
    ensures run { IfOk result (RunsScript script out.old out.new) }
    ensures err { OnErr result (out.new ≡ out.old) }
{
    let mut boxes: Vec<Box<dyn Pool + Send>> = Vec::new(alloc);
    for pool in pools_of(alloc, script.pools.as_slice())? {
        boxes.push(Box::new(alloc, pool)?)?;
    }
    let specs = script.events.fresh_pools(alloc)?;
    let mut fresh: Vec<Box<dyn Pool + Send>> = Vec::new(alloc);
    for pool in pools_of(alloc, specs.as_slice())? {
        fresh.push(Box::new(alloc, pool)?)?;
    }
    Ok(run_made(alloc, script, boxes, fresh, specs.as_slice(), out))
}
