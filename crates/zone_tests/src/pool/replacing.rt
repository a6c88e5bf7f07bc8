//! Pools that give way to others while they have something lent.

use crate::counting::{CountingPool, Counts, Met, NOTHING};
use crate::fixtures::{all_hold_of, pool_of};
use crate::pool::deeds::Deed::Ask;
use crate::pool::deeds::{
    Boxed, Row, Shown, counting, counts_of, figures, have_met, lending, shown, try_deeds,
};
use facts::all_hold;
use pools::Lend::{Lent, Refused, Wait};
use pools::{Figures, FixedPool, Pool, PoolSet, StandardPool};
use ras_core::figures_of;
use std::alloc::Global;
use std::sync::Arc;
use std::test::Fail;

/// Replaces a pool of a set: the number of the fault, or 0, and the pool that comes back.
fn replace<P: Pool>(set: &mut PoolSet<P>, i: usize, fresh: P) -> (u8, P) {
    match set.replace(i, fresh) {
        Ok(old) => (0, old),
        Err((fresh, fault)) => (fault.number(), fresh),
    }
}

/// A pool that is offered in the place of that one, and the number of its fault, or 0. What comes
/// back, what stands there then and how often the set asked it, and what becomes of the next
/// requests.
#[derive(Clone, Copy)]
struct Offer {
    row: &'static str,
    place: usize,
    fault: u8,
    back: Shown,
    stands: Shown,
    requests: u64,
    next: [Row; 2],
}

/// A fresh pool of this limit takes over the loans of the one of 2,500 units.
fn taken(row: &'static str, limit: u64, next: [Row; 2]) -> Offer {
    Offer {
        row,
        place: 0,
        fault: 0,
        back: (figures(2_500, 0, 1), Some((1_300, Refused))),
        stands: (figures(limit, 1_280, 0), Some((1_280, Lent(1_280)))),
        requests: 1,
        next,
    }
}

/// A fresh pool is refused. The one of 2,500 units stands and wasn't called.
fn refused(row: &'static str, place: usize, fault: u8, back: Shown) -> Offer {
    Offer {
        row,
        place,
        fault,
        back,
        stands: (figures(2_500, 1_280, 1), Some((1_300, Refused))),
        requests: 2,
        next: [
            (0, Ask(1_220, Lent(1_220)), 2_500, 1),
            (0, Ask(1, Refused), 2_500, 2),
        ],
    }
}

/// A pool lends 1,280 units, and refuses 1,300.
const LENT: [Row; 2] = [
    (0, Ask(1_280, Lent(1_280)), 1_280, 0),
    (0, Ask(1_300, Refused), 1_280, 1),
];

/// Lends from the one pool of a set, and offers it the fresh one.
fn offer_to(
    set: &mut PoolSet<StandardPool>,
    fresh: StandardPool,
    offer: &Offer,
) -> Result<(), Fail> {
    try_deeds(set, offer.row, &LENT)?;
    let (fault, back) = replace(set, offer.place, fresh);
    let is_back = (figures_of(&back), back.last()) == offer.back;
    drop(back);
    let stands = shown(set, 0) == Some((offer.stands, offer.requests, 0));
    all_hold_of(
        offer.row,
        &[
            (
                fault == offer.fault,
                "it is taken, or refused for its fault",
            ),
            (is_back, "the pool that doesn't stand there comes back"),
            (stands, "the other one stands there"),
        ],
    )?;
    try_deeds(set, offer.row, &offer.next)
}

/// Offers the pool to a set of one pool of 2,500 units.
fn try_offer(alloc: Global, fresh: StandardPool, offer: &Offer) -> Result<(), Fail> {
    let mut pools = Vec::new(alloc);
    pools.push(pool_of(2_500, 0, 0))?;
    let Ok(mut set) = PoolSet::new(pools) else {
        return Err(Fail::from("one idle pool makes a set"));
    };
    let ended = offer_to(&mut set, fresh, offer);
    drop(set);
    ended
}

#[test]
fn a_fresh_pool_takes_over_the_loans(rt: HostRuntime) -> Result<(), Fail> {
    let rest = [
        (0, Ask(720, Lent(720)), 2_000, 0),
        (0, Ask(1, Refused), 2_000, 1),
    ];
    let none = [
        (0, Ask(1, Refused), 1_280, 1),
        (0, Ask(1, Refused), 1_280, 2),
    ];
    let wait = [(0, Ask(1, Wait), 1_280, 0), (0, Ask(1, Wait), 1_280, 0)];
    for (offer, burst) in [
        (taken("a smaller pool", 2_000, rest), 0),
        (taken("a pool of just enough", 1_280, none), 0),
        (taken("a burst of just enough", 2_500, wait), 1_280),
    ] {
        let (Figures { limit, .. }, _) = offer.stands;
        try_offer(rt.alloc(), pool_of(limit, 0, burst), &offer)?;
    }
    Ok(())
}

#[test]
fn a_refused_pool_comes_back_with_what_it_had_lent(rt: HostRuntime) -> Result<(), Fail> {
    let short = (figures(1_279, 0, 1), Some((1_280, Refused)));
    let steps = (figures(2_500, 0, 0), Some((1_280, Lent(1_000))));
    let whole = (figures(2_000, 0, 0), None);
    for (offer, step) in [
        (refused("a unit too small", 0, 4, short), 0),
        (refused("steps", 0, 4, steps), 1_000),
        (refused("no such pool", 1, 2, whole), 0),
    ] {
        let (Figures { limit, .. }, _) = offer.back;
        try_offer(rt.alloc(), pool_of(limit, step, 0), &offer)?;
    }
    let one = (figures(10, 1, 0), Some((1, Lent(1))));
    for offer in [
        refused("a loan", 0, 3, one),
        refused("a loan, no such pool", 1, 2, one),
    ] {
        try_offer(rt.alloc(), StandardPool::Fixed(lending()?), &offer)?;
    }
    Ok(())
}

/// A pool lends more units than a request can name.
const MUCH: [Row; 3] = [
    (0, Ask(3_000_000_000, Lent(3_000_000_000)), 3_000_000_000, 0),
    (0, Ask(3_000_000_000, Lent(3_000_000_000)), 6_000_000_000, 0),
    (0, Ask(3_000_000_000, Lent(3_000_000_000)), 9_000_000_000, 0),
];

/// Replaces a pool that has lent so much.
fn replace_much<P: Pool>(set: &mut PoolSet<P>, fresh: P) -> Result<(), Fail> {
    try_deeds(set, "much is lent", &MUCH)?;
    let (fault, old) = replace(set, 0, fresh);
    drop(old);
    let last = Some((410_065_410, Lent(410_065_410)));
    let stands = (figures(10_000_000_000, 9_000_000_000, 0), last);
    all_hold(&[
        (fault == 0, "the pool is replaced"),
        (
            shown(set, 0) == Some((stands, 3, 0)),
            "the fresh pool has lent it in three loans",
        ),
    ])
}

/// Does so in a set of these pools.
fn replace_much_in<P: Pool>(pools: Vec<P>, fresh: P) -> Result<(), Fail> {
    let Ok(mut set) = PoolSet::new(pools) else {
        return Err(Fail::from("one idle pool makes a set"));
    };
    let ended = replace_much(&mut set, fresh);
    drop(set);
    ended
}

/// Does so in a set of one pool, with one that counts there.
fn lend_in_parts(alloc: Global, met: &Arc<Met>) -> Result<(), Fail> {
    let fresh = CountingPool::new(FixedPool::new(10_000_000_000), met)?;
    let fresh: Boxed = Box::new(alloc, fresh)?;
    let mut pools: Vec<Boxed> = Vec::new(alloc);
    pools.push(Box::new(alloc, FixedPool::new(10_000_000_000))?)?;
    replace_much_in(pools, fresh)
}

// 9,000,000,000 units take two loans of the most that a request names, and one of the rest.
#[test]
fn many_units_are_lent_in_parts(rt: HostRuntime) -> Result<(), Fail> {
    let met = Arc::new(rt.alloc(), Met::new())?;
    let ended = lend_in_parts(rt.alloc(), &met);
    let counts = met.counts();
    drop(met);
    ended?;
    let expected = Counts {
        lends: 3,
        asked: 9_000_000_000,
        asked_last: 410_065_410,
        returns: 1,
        drops: 1,
        ..NOTHING
    };
    all_hold(&[(
        counts == expected,
        "the fresh pool was asked for all units, and for the rest at last",
    )])
}

/// Of four pools, the third one takes the place of the first one in a set of two, of which nothing
/// is lent. Then the second one lends, and the fourth one takes its place. The first pool that
/// comes back is given one turn, and the second one two.
fn replace_both<P: Pool>(set: &mut PoolSet<P>, third: P, fourth: P) -> Result<(), Fail> {
    let (fault, mut first) = replace(set, 0, third);
    first.turn();
    drop(first);
    let is_unasked = shown(set, 0) == Some(((figures(100, 0, 0), None), 0, 0));
    let lent = try_deeds(set, "the second pool", &[(1, Ask(70, Lent(70)), 70, 0)]);
    let (second_fault, mut second) = replace(set, 1, fourth);
    let is_idle = second.lent() == 0;
    second.turn();
    second.turn();
    drop(second);
    lent?;
    all_hold(&[
        (fault == 0 && second_fault == 0, "both pools are replaced"),
        (is_unasked, "a pool isn't asked if nothing is lent"),
        (is_idle, "the second pool comes back with nothing lent"),
    ])
}

/// Does so with four pools that count there, and closes the set.
fn replace_counted<P: Pool>(pools: Vec<P>, mets: &[Arc<Met>]) -> Result<(), Fail> {
    let mut pools = pools;
    let (Some(fourth), Some(third)) = (pools.pop(), pools.pop()) else {
        return Err(Fail::from("there are four pools"));
    };
    let Ok(mut set) = PoolSet::new(pools) else {
        return Err(Fail::from("two idle pools make a set"));
    };
    let ended = replace_both(&mut set, third, fourth);
    let back = set.close();
    let mut drops: u64 = 0;
    for met in mets {
        drops = drops.saturating_add(met.counts().drops);
    }
    drop(back);
    ended?;
    all_hold(&[(drops == 2, "no pool is dropped by the set")])
}

#[test]
fn the_same_boxes_come_back(rt: HostRuntime) -> Result<(), Fail> {
    let mets = counts_of(rt.alloc(), 4)?;
    let ended = replace_counted(counting(rt.alloc(), &mets)?, &mets);
    let idle = Counts {
        drops: 1,
        ..NOTHING
    };
    let lent = Counts {
        lends: 1,
        asked: 70,
        asked_last: 70,
        returns: 1,
        ..idle
    };
    let expected = [
        Counts { turns: 1, ..idle },
        Counts { turns: 2, ..lent },
        idle,
        lent,
    ];
    let have_met = have_met(&mets, &expected);
    drop(mets);
    ended?;
    all_hold(&[(have_met, "each pool was called as it should be")])
}
