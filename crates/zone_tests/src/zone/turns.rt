//! Turns: each pool has its own when that is due and at no other, and units come back in one call.

use crate::fixtures::{CALL, POOL};
use crate::zone::runs::Kind::{
    Idle, Interrogate, KeptOver, PoolTurn, RegistrationOver, Served, Silent,
};
use crate::zone::runs::{LENT, Line, Run, behind_a_call, try_runs};
use crate::zone::standing::AS_THEY_CAME;
use std::test::Fail;
use vectors::requests::ARQ_OF_A_SECOND_CALL as SECOND_ARQ;
use zone_config::Key;

/// Turns of the pools are due each 1,000 milliseconds, and counted from a late one.
const OF_THE_POOLS: [Line<'static>; 7] = [
    ("before the first turn", 999, 0, &[], Idle, None, 0, 0),
    ("first turn", 1_000, 0, &[], PoolTurn, None, 0, 0),
    ("at once behind it", 1_000, 0, &[], Idle, None, 0, 0),
    ("before the second turn", 1_999, 0, &[], Idle, None, 0, 0),
    ("second turn, late", 2_500, 0, &[], PoolTurn, None, 0, 0),
    ("before the third turn", 3_499, 0, &[], Idle, None, 0, 0),
    ("third turn", 3_500, 0, &[], PoolTurn, None, 0, 0),
];

// Three replies are kept for 10,000 milliseconds, and two registrations live for 60 seconds.
/// An endpoint is asked and loses its legs, what is kept goes, and registrations end.
const OF_ALL_ELSE: [Line<'static>; 14] = [
    ("before the question", 999, 0, &[], Idle, None, CALL, 2),
    ("question", 1_000, 0, &[], Interrogate, None, CALL, 2),
    ("within the wait", 1_499, 0, &[], Idle, None, CALL, 2),
    ("end of the wait", 1_500, 0, &[], Silent, None, 0, 2),
    ("before the replies", 9_999, 0, &[], Idle, None, 0, 2),
    ("first reply", 10_000, 0, &[], KeptOver, None, 0, 2),
    ("second reply", 10_000, 0, &[], KeptOver, None, 0, 2),
    ("third reply", 10_000, 0, &[], KeptOver, None, 0, 2),
    ("before the ends", 59_999, 0, &[], Idle, None, 0, 2),
    ("one end", 60_000, 0, &[], RegistrationOver, None, 0, 1),
    ("the other", 60_000, 0, &[], RegistrationOver, None, 0, 0),
    ("before the turn", 99_999, 0, &[], Idle, None, 0, 0),
    ("turn of the pools", 100_000, 0, &[], PoolTurn, None, 0, 0),
    ("at once behind it", 100_000, 0, &[], Idle, None, 0, 0),
];

/// Two calls end in one turn.
const OF_TWO_CALLS: [Line<'static>; 4] = [
    ("second", 0, 5, &SECOND_ARQ, Served, LENT, 2 * CALL, 2),
    ("question", 1_000, 0, &[], Interrogate, None, 2 * CALL, 2),
    ("within the wait", 1_499, 0, &[], Idle, None, 2 * CALL, 2),
    ("end of the wait", 1_500, 0, &[], Silent, None, 0, 2),
];

/// A zone asks an endpoint that is silent in a call for 1,000 milliseconds once, and waits 500 for
/// its answer.
const IMPATIENT: [(Key, u64); 4] = [
    (Key::Silence, 1_000),
    (Key::Asks, 1),
    (Key::AskWait, 500),
    (Key::PoolTurn, 100_000),
];

#[test]
fn pools_have_their_turn_when_that_is_due_alone(rt: HostRuntime) -> Result<(), Fail> {
    let pools = behind_a_call("the pools", &[], &OF_THE_POOLS, &[], &[]);
    let calls = behind_a_call("two calls", &IMPATIENT, &OF_TWO_CALLS, &AS_THEY_CAME, &[]);
    let runs = [
        Run {
            opening: &[],
            ..pools
        },
        behind_a_call("all else", &IMPATIENT, &OF_ALL_ELSE, &[], &[]),
        Run {
            pool: 2 * POOL,
            ..calls
        },
    ];
    try_runs(rt.alloc(), &runs)
}
