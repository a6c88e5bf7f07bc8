//! Which requests ask a pool: a call that opens, more bandwidth, and a call that is refused; and
//! neither discovery, registration, a sign of life and a repeat, nor a leg in an open call, less
//! bandwidth, an end, and what is ignored.

use crate::fixtures::{CALL, CALL_LIMIT, REST};
use crate::messages::{KEEP_ALIVE_0001, LESS_BRQ, SAME_CALL_ARQ};
use crate::zone::runs::Kind::{Ignored, Kept, Served};
use crate::zone::runs::{LENT, Line, Run, behind_a_call, try_runs};
use crate::zone::standing::{FIRST, Holder, Leg, ONE, SECOND, TWO};
use pools::Lend;
use std::test::Fail;
use vectors::requests::{
    ARQ, ARQ_ANSWER, ARQ_OF_A_SECOND_CALL as SECOND_ARQ, BRQ, DRQ, GRQ, IRR, RRQ_101, RRQ_102, URQ,
};
use zone_config::Key;

const RAISED: Option<(u64, Lend)> = Some((REST, Lend::Lent(REST)));

const REFUSED: Option<(u64, Lend)> = Some((CALL, Lend::Refused));

/// Each request. Units come back for less bandwidth alone, since the call has a leg left.
const EACH: [Line<'static>; 14] = [
    ("discovery", 0, 5, &GRQ, Served, None, 0, 0),
    ("first one", 0, 5, &RRQ_101, Served, None, 0, 1),
    ("second one", 0, 6, &RRQ_102, Served, None, 0, 2),
    ("renewal", 0, 5, &KEEP_ALIVE_0001, Served, None, 0, 2),
    ("sign of life", 0, 5, &IRR, Served, None, 0, 2),
    ("call", 0, 5, &ARQ, Served, LENT, CALL, 2),
    ("repeat", 0, 5, &ARQ, Kept, None, CALL, 2),
    ("again", 0, 5, &SAME_CALL_ARQ, Served, None, CALL, 2),
    ("second leg", 0, 6, &ARQ_ANSWER, Served, None, CALL, 2),
    ("more", 0, 5, &BRQ, Served, RAISED, CALL_LIMIT, 2),
    ("less", 0, 5, &LESS_BRQ, Served, None, CALL, 2),
    ("refused", 0, 5, &SECOND_ARQ, Served, REFUSED, CALL, 2),
    ("end of a leg", 0, 5, &DRQ, Served, None, CALL, 2),
    ("end of all", 0, 5, &URQ, Served, None, CALL, 1),
];

/// A zone that keeps one reply has that of a registration. A request for bandwidth then finds it
/// busy.
const BUSY: [Line<'static>; 2] = [
    ("registration", 0, 5, &RRQ_101, Served, None, 0, 1),
    ("admission", 0, 5, &ARQ, Ignored, None, 0, 1),
];

const SECOND_ALONE: [Holder; 1] = [(SECOND, 6, TWO, 60_000, 0)];

const FIRST_ALONE: [Holder; 1] = [(FIRST, 5, ONE, 60_000, 0)];

const LEG: [Leg; 1] = [(0x11, CALL, SECOND, 6)];

#[test]
fn a_request_for_bandwidth_asks_its_pool_once(rt: HostRuntime) -> Result<(), Fail> {
    let each = behind_a_call("each request", &[], &EACH, &SECOND_ALONE, &LEG);
    let busy = behind_a_call("busy", &[(Key::Kept, 1)], &BUSY, &FIRST_ALONE, &[]);
    let runs = [
        Run {
            opening: &[],
            ..each
        },
        Run {
            opening: &[],
            ..busy
        },
    ];
    try_runs(rt.alloc(), &runs)
}

#[test]
fn what_is_ignored_asks_no_pool(rt: HostRuntime) -> Result<(), Fail> {
    let lines: [Line<'_>; 4] = [
        ("too long", 0, 5, &[0; 4_097], Ignored, None, 0, 0),
        ("unreadable", 0, 5, &GRQ[..19], Ignored, None, 0, 0),
        ("not served", 0, 5, &[0x48], Ignored, None, 0, 0),
        ("a sign of nobody", 0, 5, &IRR, Ignored, None, 0, 0),
    ];
    let run = behind_a_call("what is ignored", &[], &lines, &[], &[]);
    let alone = Run {
        opening: &[],
        ..run
    };
    try_runs(rt.alloc(), &[alone])
}
