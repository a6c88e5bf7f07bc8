//! Scripts whose fresh pools aren't fresh, or are too many or too few.

use crate::scripts::fixtures::{Answer, Ran, run_with, script_of};
use facts::all_hold;
use pools::{Lend, Pool, PoolSpec, StandardPool};
use script::{RunFault, Script};
use std::alloc::{AllocError, Global};
use std::test::Fail;

/// Two endpoints register, and the first one calls the second one with 1,280 units. Two fresh pools
/// are offered, and then the call asks for 2,000 units.
const TWO_REPLACED: &[u8] = b"zone gk 10.0.0.1:1719
set limit 3000
set call_limit 2000
set pool_turn 86400000
pool fixed 2500
at 0 from 10.0.0.5:1719 0C800001060008914A00020001000A00000506B801000A00000506B7\
    02000101004340B5000000
at 0 from 10.0.0.6:1719 0C800001060008914A00020001000A00000606B801000A00000606B7\
    02000101004350B5000000
at 0 from 10.0.0.5:1719 2680000200C0003000300030003101010043500101004344050000011\
    111111111111111111111111111111100E00100110011111111111111111111111111111111
replace 0 0 fixed 2000
replace 0 0 fixed 2500
at 0 from 10.0.0.5:1719 32000006060030003000300031111111111111111111111111\
    1111111100014007D001110011111111111111111111111111111111
";

/// What is printed if both pools are refused, since they have lent something.
const PRINTED: &[u8] =
    b"1 served > 10.0.0.5:1719 12C00001060008914A000201000A00000506B8010100434020006700\
    6B0600300030003000310A8802003B0100
2 served > 10.0.0.6:1719 12C00001060008914A000201000A00000606B801010043502000670\
    06B0600300030003000320A8802003B0100
3 served lent 1280 > 10.0.0.5:1719 2A000002400500000A00000606B81400C00100020000
4 not replaced 3
5 not replaced 3
6 served lent 720 > 10.0.0.5:1719 3400064007D0
";

/// The pool that is described, which has lent this much.
fn pool_of(spec: PoolSpec, lent: u32) -> StandardPool {
    let mut pool = StandardPool::new(spec);
    if lent > 0 {
        let _: Lend = pool.lend(u64::from(lent));
    }
    pool
}

/// The pools that are described, of which each has lent this much.
fn pools_of(alloc: Global, specs: &[PoolSpec], lent: u32) -> Result<Vec<StandardPool>, AllocError> {
    let mut pools = Vec::new(alloc);
    for spec in specs {
        pools.push(pool_of(*spec, lent))?;
    }
    Ok(pools)
}

/// The fresh pools that a script names, of which each has lent this much.
fn fresh_pools(alloc: Global, script: &Script, lent: u32) -> Result<Vec<StandardPool>, AllocError> {
    let specs = script.events.fresh_pools(alloc)?;
    pools_of(alloc, specs.as_slice(), lent)
}

/// Runs that script, each of whose fresh pools has lent one unit.
fn run_with_used_pools(alloc: Global) -> Result<Ran, Fail> {
    let script = script_of(alloc, TWO_REPLACED)?;
    let pools = pools_of(alloc, script.pools.as_slice(), 0)?;
    let fresh = fresh_pools(alloc, &script, 1)?;
    Ok(run_with(alloc, script, pools, fresh))
}

/// A run came to its end, and printed that both pools are refused.
fn compare(ran: &Ran) -> Result<(), Fail> {
    all_hold(&[
        (ran.answer == Ok(()), "the script is run to its end"),
        (ran.text.as_slice() == PRINTED, "both pools are refused"),
    ])
}

#[test]
fn a_fresh_pool_that_has_lent_something_is_refused(rt: HostRuntime) -> Result<(), Fail> {
    let ran = run_with_used_pools(rt.alloc())?;
    compare(&ran)
}

/// A script that replaces one pool.
const ONE_REPLACED: &[u8] = b"zone gk 10.0.0.1:1719\nturn 0\nreplace 0 0 fixed 1\n";

/// This many fixed pools of one unit.
fn fixed_pools(alloc: Global, count: usize) -> Result<Vec<StandardPool>, AllocError> {
    let mut pools = Vec::new(alloc);
    for _ in 0..count {
        pools.push(StandardPool::new(PoolSpec::Fixed { limit: 1 }))?;
    }
    Ok(pools)
}

/// What a run that is to replace one pool returns with this count of fresh pools.
fn answer_with(alloc: Global, count: usize) -> Result<Answer, Fail> {
    let script = script_of(alloc, ONE_REPLACED)?;
    let pools = pools_of(alloc, script.pools.as_slice(), 0)?;
    let fresh = fixed_pools(alloc, count)?;
    Ok(run_with(alloc, script, pools, fresh).counted())
}

/// A count of fresh pools, and what the run then returns.
const ANSWERS: [(usize, Answer); 3] = [
    (0, (Err(RunFault::WrongPools), 0)),
    (2, (Err(RunFault::WrongPools), 0)),
    (1, (Ok(()), 20)),
];

#[test]
fn another_number_of_fresh_pools_is_refused_before_anything_is_written(
    rt: HostRuntime,
) -> Result<(), Fail> {
    for (count, expected) in ANSWERS {
        let answer = answer_with(rt.alloc(), count)?;
        assert!(rt; answer == expected, "{count}");
    }
    Ok(())
}
