//! Calls of a zone, from admission to disengaging: the bandwidth in use behind each step.

use crate::fixtures::{CALL, CALL_LIMIT, REST};
use crate::messages::{DRQ_AGAIN, DRQ_OF_0002};
use crate::zone::runs::Kind::{Kept, Served};
use crate::zone::runs::{LENT, Line, Run, behind_a_call, try_runs};
use crate::zone::standing::{AS_THEY_CAME, FIRST, Holder, Leg, ONE, SECOND, TWO};
use pools::Lend;
use std::test::Fail;
use vectors::requests::{
    ARQ, ARQ_ANSWER, ARQ_OF_A_SECOND_CALL as SECOND_ARQ, BRQ, DRQ, RRQ_101, RRQ_102, URQ,
};
use zone_config::Key;

/// What the pool answers if it has too little left for a second call.
const REFUSED: Option<(u64, Lend)> = Some((CALL, Lend::Refused));

/// What is left until the first call has all that a call may have.
const RAISED: Option<(u64, Lend)> = Some((REST, Lend::Lent(REST)));

/// A call opens with its units, which is told again, is joined, grows to the most that a call may
/// have, keeps its first endpoint in the zone, and goes on when it leaves.
const GROWS: [Line<'static>; 8] = [
    ("0001", 1_000, 5, &RRQ_101, Served, None, 0, 1),
    ("0002", 1_000, 6, &RRQ_102, Served, None, 0, 2),
    ("call", 2_000, 5, &ARQ, Served, LENT, CALL, 2),
    ("repeat", 2_000, 5, &ARQ, Kept, None, CALL, 2),
    ("second leg", 2_000, 6, &ARQ_ANSWER, Served, None, CALL, 2),
    ("more", 2_000, 5, &BRQ, Served, RAISED, CALL_LIMIT, 2),
    ("stays", 2_000, 5, &URQ, Served, None, CALL_LIMIT, 2),
    ("leg ends", 2_000, 5, &DRQ, Served, None, CALL_LIMIT, 2),
];

/// A second call is refused, for which the pool has too little left.
const REFUSES: [Line<'static>; 1] = [("refused", 0, 5, &SECOND_ARQ, Served, REFUSED, CALL, 2)];

/// A request comes again, while its reply is kept and afterwards: it uses nothing more.
const COMES_AGAIN: [Line<'static>; 2] = [
    ("repeat", 9_999, 5, &ARQ, Kept, None, CALL, 2),
    ("again", 10_000, 5, &ARQ, Served, None, CALL, 2),
];

/// Both legs of a call end, which keeps its bandwidth while it has one.
const ENDS: [Line<'static>; 4] = [
    ("second leg", 0, 6, &ARQ_ANSWER, Served, None, CALL, 2),
    ("one leg ends", 0, 5, &DRQ, Served, None, CALL, 2),
    ("both end", 0, 6, &DRQ_OF_0002, Served, None, 0, 2),
    ("none ends", 0, 5, &DRQ_AGAIN, Served, None, 0, 2),
];

/// A second call is lent what the zone has left. The first one then gets no more: its pool isn't
/// asked.
const USES_UP: [Line<'static>; 2] = [
    ("rest", 0, 5, &SECOND_ARQ, Served, RAISED, CALL_LIMIT, 2),
    ("more", 0, 5, &BRQ, Served, None, CALL_LIMIT, 2),
];

/// The endpoints as they were heard at last, and as they came.
const HEARD: [Holder; 2] = [
    (FIRST, 5, ONE, 61_000, 2_000),
    (SECOND, 6, TWO, 61_000, 2_000),
];

const AGAIN: [Holder; 2] = [(FIRST, 5, ONE, 60_000, 10_000), (SECOND, 6, TWO, 60_000, 0)];

/// The legs that are left.
const LEFT: [Leg; 1] = [(0x11, CALL_LIMIT, SECOND, 6)];

const ONE_CALL: [Leg; 1] = [(0x11, CALL, FIRST, 6)];

const TWO_CALLS: [Leg; 2] = [(0x11, CALL, FIRST, 6), (0x22, REST, FIRST, 6)];

/// A zone that has no more than one call may have.
const TIGHT: [(Key, u64); 1] = [(Key::Limit, CALL_LIMIT)];

#[test]
fn calls_use_what_they_are_lent_until_their_last_leg_goes(rt: HostRuntime) -> Result<(), Fail> {
    let grows = behind_a_call("a call grows", &[], &GROWS, &HEARD, &LEFT);
    let runs = [
        Run {
            opening: &[],
            ..grows
        },
        behind_a_call("a call is refused", &[], &REFUSES, &AS_THEY_CAME, &ONE_CALL),
        behind_a_call("a request again", &[], &COMES_AGAIN, &AGAIN, &ONE_CALL),
        behind_a_call("a call ends", &[], &ENDS, &AS_THEY_CAME, &[]),
        behind_a_call("a full zone", &TIGHT, &USES_UP, &AS_THEY_CAME, &TWO_CALLS),
    ];
    try_runs(rt.alloc(), &runs)
}
