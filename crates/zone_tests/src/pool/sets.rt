//! Sets of pools behind boxes, which count for themselves what is called of them.

use crate::counting::{Counts, Met};
use crate::pool::deeds::Deed::{Ask, TakeBack, Turn};
use crate::pool::deeds::{
    Boxed, Row, counting, counts_of, figures, have_met, lending, shown, try_deeds,
};
use facts::all_hold;
use pools::Lend::{Lent, Refused};
use pools::{FixedPool, Pool, PoolFault, PoolSet};
use std::alloc::Global;
use std::sync::Arc;
use std::test::Fail;

/// The fault of a list of pools, with how many pools came back and what they have lent.
fn fault_of<P: Pool>(pools: Vec<P>) -> Option<(PoolFault, usize, u64)> {
    match PoolSet::new(pools) {
        Ok(_) => None,
        Err((pools, fault)) => {
            let mut lent: u64 = 0;
            for pool in &pools {
                lent = lent.saturating_add(pool.lent());
            }
            Some((fault, pools.len(), lent))
        }
    }
}

/// `idle` pools that have lent nothing, and behind them `lending` ones that have lent one unit.
fn list_of(alloc: Global, idle: u64, lending_ones: u64) -> Result<Vec<Boxed>, Fail> {
    let mut pools: Vec<Boxed> = Vec::new(alloc);
    for _ in 0..idle {
        pools.push(Box::new(alloc, FixedPool::new(10))?)?;
    }
    for _ in 0..lending_ones {
        pools.push(Box::new(alloc, lending()?)?)?;
    }
    Ok(pools)
}

#[test]
fn lists_that_make_no_set_come_back(rt: HostRuntime) -> Result<(), Fail> {
    for (idle, lending, count, fault) in [
        (0, 0, 0, PoolFault::Empty),
        (17, 0, 17, PoolFault::TooMany),
        (16, 1, 17, PoolFault::TooMany),
        (1, 1, 2, PoolFault::NotIdle),
    ] {
        let pools = list_of(rt.alloc(), idle, lending)?;
        assert!(rt; fault_of(pools) == Some((fault, count, lending)), "{fault}");
    }
    Ok(())
}

/// What is called of three pools, of which the third one isn't asked.
const DEEDS: [Row; 7] = [
    (0, Ask(70, Lent(70)), 70, 0),
    (0, Ask(70, Refused), 70, 1),
    (0, Turn, 70, 1),
    (0, Ask(10, Lent(10)), 80, 1),
    (1, Ask(50, Lent(50)), 50, 0),
    (1, TakeBack(20), 30, 0),
    (1, Turn, 30, 0),
];

/// Does these deeds with a set of three pools, which counts what it calls.
fn do_deeds<P: Pool>(set: &mut PoolSet<P>) -> Result<(), Fail> {
    try_deeds(set, "three pools", &DEEDS)?;
    let first = (figures(100, 80, 1), Some((10, Lent(10))));
    let second = (figures(100, 30, 0), Some((50, Lent(50))));
    let third = (figures(100, 0, 0), None);
    all_hold(&[
        (
            shown(set, 0) == Some((first, 3, 2)),
            "the first pool was asked three times, and had two turns",
        ),
        (
            shown(set, 1) == Some((second, 1, 2)),
            "the second one was asked once",
        ),
        (
            shown(set, 2) == Some((third, 0, 2)),
            "the third one wasn't asked",
        ),
    ])
}

/// What the pools have met once their set has ended: what a pool has lent goes back in one call of
/// it, and a pool that has nothing lent isn't called.
const ENDED: [Counts; 3] = [
    Counts {
        lends: 3,
        asked: 150,
        asked_last: 10,
        returns: 1,
        lent: 0,
        turns: 2,
        drops: 1,
        lent_at_drop: 0,
    },
    Counts {
        lends: 1,
        asked: 50,
        asked_last: 50,
        returns: 2,
        lent: 0,
        turns: 2,
        drops: 1,
        lent_at_drop: 0,
    },
    Counts {
        lends: 0,
        asked: 0,
        asked_last: 0,
        returns: 0,
        lent: 0,
        turns: 2,
        drops: 1,
        lent_at_drop: 0,
    },
];

/// Gives each pool a turn. Whether each comes back in its place.
fn are_in_place<P: Pool>(back: &mut [P], mets: &[Arc<Met>]) -> bool {
    for (pool, met) in back.iter_mut().zip(mets) {
        let before = met.counts().turns;
        pool.turn();
        if before != 2 || met.counts().turns != 3 {
            return false;
        }
    }
    true
}

/// Whether these are three pools with nothing lent, of which the first one has refused once.
fn are_idle<P: Pool>(back: &[P]) -> bool {
    match back {
        [first, second, third] => {
            first.limit() == 100
                && first.refusals() == 1
                && first.lent() == 0
                && second.lent() == 0
                && third.lent() == 0
        }
        _ => false,
    }
}

/// Closes the set, which hands back its pools and drops none.
fn close<P: Pool>(set: PoolSet<P>, mets: &[Arc<Met>]) -> Result<(), Fail> {
    let mut back = set.close();
    let are_idle = are_idle(&back);
    let are_in_place = are_in_place(&mut back, mets);
    let mut drops: u64 = 0;
    for met in mets {
        drops = drops.saturating_add(met.counts().drops);
    }
    drop(back);
    all_hold(&[
        (are_idle, "three pools come back with nothing lent"),
        (are_in_place, "each comes back in its place"),
        (drops == 0, "no pool is dropped by the set"),
    ])
}

/// Does the deeds with a set of three pools that count there, and closes it or drops it.
fn end_set<P: Pool>(pools: Vec<P>, mets: &[Arc<Met>], is_closed: bool) -> Result<(), Fail> {
    let Ok(mut set) = PoolSet::new(pools) else {
        return Err(Fail::from("three idle pools make a set"));
    };
    match do_deeds(&mut set) {
        Ok(()) if is_closed => close(set, mets),
        ended => {
            drop(set);
            ended
        }
    }
}

/// Does so with pools of its own. They have met what they should, and a turn more each if they came
/// back.
fn end_counted(alloc: Global, is_closed: bool) -> Result<(), Fail> {
    let mets = counts_of(alloc, 3)?;
    let ended = end_set(counting(alloc, &mets)?, &mets, is_closed);
    let [first, second, third] = ENDED;
    let turns = if is_closed { 3 } else { 2 };
    let expected = [
        Counts { turns, ..first },
        Counts { turns, ..second },
        Counts { turns, ..third },
    ];
    let have_met = have_met(&mets, &expected);
    drop(mets);
    ended?;
    all_hold(&[(have_met, "each pool was called as it should be")])
}

#[test]
fn a_set_counts_what_it_calls_and_ends_with_nothing_lent(rt: HostRuntime) -> Result<(), Fail> {
    end_counted(rt.alloc(), true)?;
    end_counted(rt.alloc(), false)
}
