//! A pool that is replaced in a world.

use crate::fixtures::{CALL, POOL, open_call, zone};
use crate::worlds::acts::{Act, Comes, Row, find_run, try_acts};
use facts::all_hold;
use history::World;
use pools::{FixedPool, Pool, ReplaceFault};
use ras_core::{Change, Moment, Note, Zone};
use std::alloc::Global;
use std::test::Fail;
use vectors::requests::GRQ;

/// The units of the fresh pools.
const FRESH: u64 = 2_000;

/// A pool of this limit is offered in the place of that one, and refused for this reason. It comes
/// back with nothing lent.
fn offer_in_vain(
    world: &mut World<FixedPool>,
    pool: usize,
    limit: u64,
    fault: ReplaceFault,
) -> Result<(), Fail> {
    let fresh = FixedPool::new(limit);
    let Err((back, found)) = world.replace(pool, fresh, Moment::START) else {
        return Err(Fail::from("the pool is refused"));
    };
    let is_back = back.limit() == limit && back.lent() == 0;
    drop(back);
    all_hold(&[
        (found == fault, "a pool is refused for its reason"),
        (is_back, "it comes back with nothing lent"),
    ])
}

/// The last entry of the book tells that the first pool was replaced by an idle one of 2,000 units.
fn find_replacement(world: &World<FixedPool>) -> Result<(), Fail> {
    let entry = world.book().entries.last().ok_or("an entry")?;
    let is_change = match &entry.event {
        Change::PoolChange(change) => {
            change.pool == 0 && change.offered.limit == FRESH && change.offered.lent == 0
        }
        Change::Event(_) => false,
    };
    all_hold(&[
        (is_change, "the entry tells which pool was offered"),
        (
            entry.outcome.note == Note::Replaced(0),
            "the pool was replaced",
        ),
        (entry.outcome.output.is_none(), "nothing is sent"),
    ])
}

/// The first pool is replaced, and the old one, of this limit, comes back with nothing lent.
fn exchange(world: &mut World<FixedPool>, limit: u64) -> Result<(), Fail> {
    let fresh = FixedPool::new(FRESH);
    let Ok(old) = world.replace(0, fresh, Moment::START) else {
        return Err(Fail::from("a pool that can carry the loans is taken"));
    };
    let is_back = old.limit() == limit && old.lent() == 0;
    drop(old);
    all_hold(&[(is_back, "the old pool comes back with nothing lent")])?;
    find_replacement(world)
}

/// A worker is served.
const SERVED: [Row; 2] = [
    ("a datagram", 0, Act::Hear(1, 5, &GRQ), Comes::Received),
    (
        "its step",
        0,
        Act::Apply,
        Comes::Applied(Note::Served, None),
    ),
];

/// Pools that can't take over the call's units are refused, and the world stays as it was. Then the
/// pool is replaced over the call, by the seat behind the workers'; then a worker goes on, and it
/// is replaced once more.
fn replace_over_a_call(alloc: Global, world: &mut World<FixedPool>) -> Result<(), Fail> {
    offer_in_vain(world, 0, CALL - 1, ReplaceFault::NotLent)?;
    offer_in_vain(world, 1, FRESH, ReplaceFault::NoPool)?;
    find_run(world, &[], CALL)?;
    exchange(world, POOL)?;
    find_run(world, &[(2, 0)], CALL)?;
    try_acts(alloc, world, &SERVED)?;
    exchange(world, FRESH)?;
    find_run(world, &[(2, 0), (0, 0), (2, 1)], CALL)
}

/// A world of two workers over this zone.
fn replace_over(alloc: Global, zone: Zone<FixedPool>) -> Result<(), Fail> {
    let Ok(mut world) = World::new(alloc, zone, 2, 1) else {
        return Err(Fail::from("there is a world"));
    };
    let ended = replace_over_a_call(alloc, &mut world);
    drop(world);
    ended
}

#[test]
fn a_pool_is_replaced_between_the_steps_of_workers(rt: HostRuntime) -> Result<(), Fail> {
    let mut zone = zone(rt.alloc())?;
    match open_call(rt.alloc(), &mut zone) {
        Ok(()) => replace_over(rt.alloc(), zone),
        Err(fail) => {
            drop(zone);
            Err(fail)
        }
    }
}
