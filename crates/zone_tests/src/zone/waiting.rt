//! Requests that wait: their pool is asked once each time that they are served again.

use crate::fixtures::{CALL, POOL};
use crate::zone::runs::Kind::{Idle, Kept, PoolTurn, Retry, Served};
use crate::zone::runs::{Line, Run, behind_a_call, try_runs};
use crate::zone::standing::{AS_THEY_CAME, FIRST, Holder, Leg, ONE, SECOND, TWO};
use pools::Lend;
use std::test::Fail;
use vectors::requests::ARQ_OF_A_SECOND_CALL as SECOND_ARQ;
use zone_config::Key;

const WAIT: Option<(u64, Lend)> = Some((CALL, Lend::Wait));

/// A second call is lent what is left of the pool.
const REST: Option<(u64, Lend)> = Some((CALL, Lend::Lent(POOL - CALL)));

/// A second call waits for the pools' turn. A repeat is told the same, and asks no pool.
const ONCE: [Line<'static>; 4] = [
    ("waits", 1_000, 5, &SECOND_ARQ, Served, WAIT, CALL, 2),
    ("repeat", 1_100, 5, &SECOND_ARQ, Kept, None, CALL, 2),
    ("pools", 1_400, 0, &[], PoolTurn, None, CALL, 2),
    ("retry", 1_500, 0, &[], Retry, REST, POOL, 2),
];

/// A second call waits and is served again after each 500 milliseconds, the third time behind the
/// pools' turn.
const THRICE: [Line<'static>; 9] = [
    ("waits", 0, 5, &SECOND_ARQ, Served, WAIT, CALL, 2),
    ("before the first", 499, 0, &[], Idle, None, CALL, 2),
    ("first retry", 500, 0, &[], Retry, WAIT, CALL, 2),
    ("before the second", 999, 0, &[], Idle, None, CALL, 2),
    ("second retry", 1_000, 0, &[], Retry, WAIT, CALL, 2),
    ("pools", 1_200, 0, &[], PoolTurn, None, CALL, 2),
    ("before the third", 1_499, 0, &[], Idle, None, CALL, 2),
    ("third retry", 1_500, 0, &[], Retry, REST, POOL, 2),
    ("behind it", 2_000, 0, &[], Idle, None, POOL, 2),
];

/// When the pools have their turn.
const LATE: [(Key, u64); 1] = [(Key::PoolTurn, 1_400)];

const EARLY: [(Key, u64); 1] = [(Key::PoolTurn, 1_200)];

/// The endpoints, of which the first one was heard as it asked for a second call.
const HEARD: [Holder; 2] = [(FIRST, 5, ONE, 60_000, 1_000), (SECOND, 6, TWO, 60_000, 0)];

const LEGS: [Leg; 2] = [(0x11, CALL, FIRST, 6), (0x22, POOL - CALL, FIRST, 6)];

// The pools lend 1,280 units between two turns.
#[test]
fn a_request_that_waits_asks_its_pool_once_each_time(rt: HostRuntime) -> Result<(), Fail> {
    let once = behind_a_call("once", &LATE, &ONCE, &HEARD, &LEGS);
    let thrice = behind_a_call("three times", &EARLY, &THRICE, &AS_THEY_CAME, &LEGS);
    let runs = [
        Run {
            burst: 1_280,
            ..once
        },
        Run {
            burst: 1_280,
            ..thrice
        },
    ];
    try_runs(rt.alloc(), &runs)
}
