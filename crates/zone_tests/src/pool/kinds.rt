//! Worked examples of the three kinds of pool, as they are made of their descriptions, in a set and
//! behind a box.

use crate::fixtures::{all_hold_of, pool_of};
use crate::pool::deeds::Deed::{Ask, AskLeast, TakeBack, Turn};
use crate::pool::deeds::{Boxed, Row, figures, shown, try_deeds};
use facts::{all_hold, ensure};
use pools::Lend::{Lent, Refused, Wait};
use pools::{NonZeroUnits, Pool, PoolSet, PoolSpec, PoolSpecs, StandardPool};
use std::alloc::Global;
use std::test::Fail;

/// All or nothing.
const FIXED: [Row; 5] = [
    (0, Ask(1_280, Lent(1_280)), 1_280, 0),
    (0, Ask(1_221, Refused), 1_280, 1),
    (0, Ask(1_220, Lent(1_220)), 2_500, 1),
    (0, TakeBack(1_280), 1_220, 1),
    (0, Turn, 1_220, 1),
];

/// Whole steps of 64.
const STEPS: [Row; 4] = [
    (0, Ask(100, Lent(64)), 64, 0),
    (0, Ask(63, Refused), 64, 1),
    (0, TakeBack(64), 0, 1),
    (0, Turn, 0, 1),
];

/// A burst of 1,280 between two turns.
const PACED: [Row; 6] = [
    (0, Ask(1_000, Lent(1_000)), 1_000, 0),
    (0, Ask(1_000, Lent(280)), 1_280, 0),
    (0, Ask(1, Wait), 1_280, 0),
    (0, Turn, 1_280, 0),
    (0, Ask(2_000, Lent(1_220)), 2_500, 0),
    (0, TakeBack(1_280), 1_220, 0),
];

/// The next burst.
const TURNED: [Row; 4] = [
    (0, Ask(2_000, Lent(1_280)), 1_280, 0),
    (0, Ask(2_000, Wait), 1_280, 0),
    (0, Turn, 1_280, 0),
    (0, Ask(2_000, Lent(1_280)), 2_560, 0),
];

/// A loan of fewer units than the least goes back.
const LEAST: [Row; 3] = [
    (0, AskLeast(50, 50, Lent(50), true), 50, 0),
    (0, AskLeast(50, 51, Lent(50), false), 50, 0),
    (0, AskLeast(60, 1, Refused, true), 50, 1),
];

/// A loan that went back counts against the burst.
const BURST: [Row; 2] = [
    (0, AskLeast(1_000, 1_001, Lent(1_000), false), 0, 0),
    (0, Ask(1_000, Lent(280)), 280, 0),
];

/// Does these deeds with the one pool of a set. How often it told to wait then, how often the set
/// asked it, and how often it had its turn.
fn counts_behind<P: Pool>(
    set: &mut PoolSet<P>,
    row: &str,
    limit: u64,
    deeds: &[Row],
) -> Result<(u64, u64, u64), Fail> {
    let is_fresh = shown(set, 0) == Some(((figures(limit, 0, 0), None), 0, 0));
    try_deeds(set, row, deeds)?;
    match shown(set, 0) {
        Some(((figures, _), requests, turns)) if is_fresh && figures.limit == limit => {
            Ok((figures.waits, requests, turns))
        }
        _ => Err(Fail::from("a pool of its limit, of which nothing is lent")),
    }
}

/// Does so in a set of its own.
fn counts_of_set<P: Pool>(
    pools: Vec<P>,
    row: &str,
    limit: u64,
    deeds: &[Row],
) -> Result<(u64, u64, u64), Fail> {
    let Ok(mut set) = PoolSet::new(pools) else {
        return Err(Fail::from("one idle pool makes a set"));
    };
    let ended = counts_behind(&mut set, row, limit, deeds);
    drop(set);
    ended
}

/// Does these deeds with a pool of this limit, which then has counted these waits, requests and
/// turns.
fn try_pool(
    alloc: Global,
    pool: StandardPool,
    row: &str,
    limit: u64,
    deeds: &[Row],
    counts: (u64, u64, u64),
) -> Result<(), Fail> {
    let mut pools: Vec<Boxed> = Vec::new(alloc);
    pools.push(Box::new(alloc, pool)?)?;
    let is_counted = counts_of_set(pools, row, limit, deeds)? == counts;
    all_hold_of(row, &[(is_counted, "its requests and turns are counted")])
}

#[test]
fn pools_lend_as_their_kind_does(rt: HostRuntime) -> Result<(), Fail> {
    let cases: [(&str, u64, u32, u32, &[Row], (u64, u64, u64)); 6] = [
        ("fixed", 2_500, 0, 0, &FIXED, (0, 3, 1)),
        ("steps", 2_500, 64, 0, &STEPS, (0, 2, 1)),
        ("paced", 2_500, 0, 1_280, &PACED, (1, 4, 1)),
        ("turned", 5_000, 0, 1_280, &TURNED, (1, 3, 1)),
        ("least", 100, 0, 0, &LEAST, (0, 3, 0)),
        ("burst", 2_500, 0, 1_280, &BURST, (0, 2, 0)),
    ];
    for (row, limit, step, burst, deeds, counts) in cases {
        let pool = pool_of(limit, step, burst);
        try_pool(rt.alloc(), pool, row, limit, deeds, counts)?;
    }
    Ok(())
}

fn units(units: u32) -> Result<NonZeroUnits, Fail> {
    Ok(NonZeroUnits::new(units).ok_or("at least 1 unit")?)
}

/// A pool of each kind, the greatest limit that a zone has, and one that lends nothing.
fn specs(alloc: Global) -> Result<PoolSpecs, Fail> {
    let mut specs = Vec::new(alloc);
    specs.push(PoolSpec::Paced {
        limit: 2_500,
        burst: units(1_280)?,
    })?;
    specs.push(PoolSpec::Step {
        limit: 2_500,
        step: units(64)?,
    })?;
    specs.push(PoolSpec::Fixed {
        limit: 1_000_000_000_000,
    })?;
    specs.push(PoolSpec::Fixed { limit: 0 })?;
    Ok(PoolSpecs::from_vec(specs))
}

// 2,000 units are asked for: the burst, 31 steps of 64, all of it, nothing.
#[test]
fn pools_to_be_made_keep_their_order_kinds_and_numbers(rt: HostRuntime) -> Result<(), Fail> {
    let specs = specs(rt.alloc())?;
    let answers = [
        (2_500, (0, Ask(2_000, Lent(1_280)), 1_280, 0)),
        (2_500, (0, Ask(2_000, Lent(1_984)), 1_984, 0)),
        (1_000_000_000_000, (0, Ask(2_000, Lent(2_000)), 2_000, 0)),
        (0, (0, Ask(2_000, Refused), 0, 1)),
    ];
    ensure(
        specs.as_slice().len() == answers.len(),
        "there are four pools",
    )?;
    for (spec, (limit, deed)) in specs.as_slice().iter().zip(answers) {
        let pool = StandardPool::new(*spec);
        try_pool(
            rt.alloc(),
            pool,
            "a pool to be made",
            limit,
            &[deed],
            (0, 1, 0),
        )?;
    }
    Ok(())
}

#[test]
fn units_are_a_bandwidth_of_at_least_one(rt: HostRuntime) -> Result<(), Fail> {
    let none = PoolSpecs::from_vec(Vec::new(rt.alloc()));
    all_hold(&[
        (NonZeroUnits::new(0).is_none(), "no bandwidth is no units"),
        (
            none.as_slice().is_empty(),
            "there may be no pools to be made",
        ),
    ])?;
    for number in [1, 2, 64, 65_535, 65_536, 4_294_967_295] {
        let some = units(number)?;
        ensure(some.get() == number, "units are what they were made of")?;
    }
    Ok(())
}
