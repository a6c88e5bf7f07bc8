//! A pool of a zone is replaced while a call lives. The requests before and behind it, and their
//! replies, stand in the scripts of replaced pools.

use crate::fixtures::{CALL, CALL_LIMIT, POOL, REST, all_hold_of, event, open_call, zone};
use facts::all_hold;
use pools::{FixedPool, Lend, Pool, ReplaceFault};
use ras_core::{Moment, Note, Outcome, Zone};
use std::alloc::Global;
use std::test::Fail;
use vectors::requests::{ARQ_OF_A_SECOND_CALL, BRQ};

/// The units of the fresh pool.
const FRESH: u64 = CALL_LIMIT;

/// A pool with this limit, of which a unit is lent or none, is offered in the place of that one. It
/// is refused for this reason, which is told beforehand unless the pool has to be asked, and shows
/// its last request with the answer.
type Offer = (
    &'static str,
    usize,
    u64,
    bool,
    ReplaceFault,
    Option<(u64, Lend)>,
);

const OFFERS: [Offer; 3] = [
    (
        "a unit too small",
        0,
        CALL - 1,
        false,
        ReplaceFault::NotLent,
        Some((CALL, Lend::Refused)),
    ),
    ("no such pool", 1, FRESH, false, ReplaceFault::NoPool, None),
    (
        "a loan",
        0,
        FRESH,
        true,
        ReplaceFault::NotIdle,
        Some((1, Lend::Lent(1))),
    ),
];

/// Offers a pool, which is refused. It comes back with what it had lent.
fn offer_in_vain(zone: &mut Zone<FixedPool>, offer: &Offer) -> Result<(), Fail> {
    let (row, pool, limit, has_lent, fault, last) = *offer;
    let mut fresh = FixedPool::new(limit);
    if has_lent {
        let _ = fresh.lend(1);
    }
    let lent = fresh.lent();
    let told = zone.fault_unasked(pool, &fresh);
    let Err((back, found)) = zone.replace(pool, fresh, Moment::START) else {
        return Err(Fail::from("the pool is refused"));
    };
    let is_back = back.limit() == limit && back.lent() == lent && back.last() == last;
    drop(back);
    let is_told = match told {
        Some(told) => told == fault,
        None => fault == ReplaceFault::NotLent,
    };
    all_hold_of(
        row,
        &[
            (found == fault, "it is refused for this reason"),
            (is_told, "the reason is told beforehand"),
            (is_back, "it comes back with what it had lent"),
            (zone.in_use() == CALL, "the call keeps its units"),
            (zone.steps() == 3, "what is refused is no step"),
        ],
    )
}

/// Compares an outcome with that of a replacement of the first pool, which tells nothing else.
fn compare_replacement(outcome: &Outcome) -> Result<(), Fail> {
    all_hold(&[
        (
            outcome.note == Note::Replaced(0),
            "the replacement is noted",
        ),
        (outcome.answer.is_none(), "no pool is asked in it"),
        (outcome.output.is_none(), "nothing is sent for it"),
        (outcome.dropped.is_none(), "nothing is dropped for it"),
        (outcome.given.is_none(), "no identifier is given in it"),
    ])
}

/// Puts a fresh pool in the place of the zone's, which comes back with nothing lent. The call keeps
/// its units.
fn replace(zone: &mut Zone<FixedPool>) -> Result<(), Fail> {
    let Ok((outcome, old)) = zone.replace(0, FixedPool::new(FRESH), Moment::START) else {
        return Err(Fail::from("the pool is replaced"));
    };
    let is_back = old.limit() == POOL && old.lent() == 0 && old.refusals() == 0;
    drop(old);
    compare_replacement(&outcome)?;
    all_hold(&[
        (is_back, "the pool of before comes back with nothing lent"),
        (zone.in_use() == CALL, "the call keeps its units"),
        (zone.steps() == 4, "the replacement was a step"),
    ])
}

/// Sends a request, which the fresh pool answers so. So many units are in use then.
fn ask(
    alloc: Global,
    zone: &mut Zone<FixedPool>,
    row: &str,
    request: &[u8],
    answer: Lend,
    in_use: u64,
) -> Result<(), Fail> {
    let outcome = zone.step(event(alloc, request, 0)?)?;
    let is_answered = outcome.answer == Some(answer);
    drop(outcome);
    all_hold_of(
        row,
        &[
            (is_answered, "the pool answers so"),
            (zone.in_use() == in_use, "so many units are in use"),
        ],
    )
}

/// Offers pools in vain while a call lives, and replaces its pool. The fresh one then lends it the
/// units that are left, and refuses a second call.
fn go_on_over_a_fresh_pool(alloc: Global, zone: &mut Zone<FixedPool>) -> Result<(), Fail> {
    open_call(alloc, zone)?;
    for offer in &OFFERS {
        offer_in_vain(zone, offer)?;
    }
    replace(zone)?;
    let second = &ARQ_OF_A_SECOND_CALL;
    ask(alloc, zone, "more", &BRQ, Lend::Lent(REST), CALL_LIMIT)?;
    ask(
        alloc,
        zone,
        "second call",
        second,
        Lend::Refused,
        CALL_LIMIT,
    )
}

#[test]
fn a_call_goes_on_over_a_fresh_pool(rt: HostRuntime) -> Result<(), Fail> {
    let mut zone = zone(rt.alloc())?;
    let ended = go_on_over_a_fresh_pool(rt.alloc(), &mut zone);
    drop(zone);
    ended
}
