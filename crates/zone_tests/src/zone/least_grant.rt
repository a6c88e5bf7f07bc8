//! The least grant: a loan that leaves a call with less than that, and with less than it wants,
//! goes back in the step that took it, and the request is rejected.

use crate::fixtures::{CALL, LIMIT};
use crate::messages::{ARQ_OF_100, ARQ_OF_900};
use crate::zone::runs::Kind::Served;
use crate::zone::runs::{Line, REGISTERED, Run, behind_a_call, try_runs};
use crate::zone::standing::{AS_THEY_CAME, FIRST, Leg};
use pools::Lend;
use std::test::Fail;
use vectors::requests::{ARQ_OF_A_SECOND_CALL as SECOND_ARQ, BRQ};
use zone_config::Key;

/// The units of a zone that has this left behind the first call, in which a second one wants more.
const TIGHT: u64 = CALL + LEFT;

const LEFT: u64 = 720;

/// The units of a zone in which the first call can be raised to these, and wants more.
const RAISED: u64 = 1_900;

/// The units of a smaller call, and what is left of the burst behind it.
const SMALL: u64 = 900;

const BURST_LEFT: u64 = 380;

/// The units of a third call.
const THIRD: u64 = 100;

const REST: Option<(u64, Lend)> = Some((LEFT, Lend::Lent(LEFT)));

const MORE: Option<(u64, Lend)> = Some((RAISED - CALL, Lend::Lent(RAISED - CALL)));

const LESS: Option<(u64, Lend)> = Some((SMALL, Lend::Lent(SMALL)));

const PART: Option<(u64, Lend)> = Some((CALL, Lend::Lent(BURST_LEFT)));

const WAIT: Option<(u64, Lend)> = Some((THIRD, Lend::Wait));

/// A second call behind the first one is denied, or admitted.
const DENIED: [Line<'static>; 1] = [("second", 0, 5, &SECOND_ARQ, Served, REST, CALL, 2)];

const ADMITTED: [Line<'static>; 1] = [("second", 0, 5, &SECOND_ARQ, Served, REST, TIGHT, 2)];

/// The first call isn't raised, or is.
const STAYS: [Line<'static>; 1] = [("more", 0, 5, &BRQ, Served, MORE, CALL, 2)];

const GROWS: [Line<'static>; 1] = [("more", 0, 5, &BRQ, Served, MORE, RAISED, 2)];

/// A pool lends as many units between two turns as one call wants: a part to the first call, and
/// the rest to the second one, from which they go back. A third call has to wait then.
const BURST: [Line<'static>; 3] = [
    ("first call", 0, 5, &ARQ_OF_900, Served, LESS, SMALL, 2),
    ("second call", 0, 5, &SECOND_ARQ, Served, PART, SMALL, 2),
    ("third call", 0, 5, &ARQ_OF_100, Served, WAIT, SMALL, 2),
];

/// The limit of each zone, and its least grant.
const DENYING: [(Key, u64); 2] = [(Key::Limit, TIGHT), (Key::LeastGrant, LEFT + 280)];

const ADMITTING: [(Key, u64); 2] = [(Key::Limit, TIGHT), (Key::LeastGrant, LEFT)];

const KEEPING: [(Key, u64); 2] = [(Key::Limit, RAISED), (Key::LeastGrant, RAISED + 100)];

const RAISING: [(Key, u64); 2] = [(Key::Limit, RAISED), (Key::LeastGrant, RAISED)];

const PACING: [(Key, u64); 2] = [(Key::Limit, LIMIT), (Key::LeastGrant, 1_000)];

/// The legs that stand at the end.
const ONE_CALL: [Leg; 1] = [(0x11, CALL, FIRST, 6)];

const TWO_CALLS: [Leg; 2] = [(0x11, CALL, FIRST, 6), (0x22, LEFT, FIRST, 6)];

const RAISED_CALL: [Leg; 1] = [(0x11, RAISED, FIRST, 6)];

const SMALL_CALL: [Leg; 1] = [(0x11, SMALL, FIRST, 6)];

/// A run of a zone whose endpoints stay as they came.
fn run<'a>(
    name: &'a str,
    set: &'a [(Key, u64)],
    lines: &'a [Line<'a>],
    legs: &'a [Leg],
) -> Run<'a> {
    behind_a_call(name, set, lines, &AS_THEY_CAME, legs)
}

#[test]
fn a_loan_of_less_than_the_least_grant_goes_back(rt: HostRuntime) -> Result<(), Fail> {
    let used_up = run("a burst is used up", &PACING, &BURST, &SMALL_CALL);
    let runs = [
        run("a call is denied", &DENYING, &DENIED, &ONE_CALL),
        run("a call is admitted", &ADMITTING, &ADMITTED, &TWO_CALLS),
        run("a call isn't raised", &KEEPING, &STAYS, &ONE_CALL),
        run("a call is raised", &RAISING, &GROWS, &RAISED_CALL),
        Run {
            burst: 1_280,
            opening: &REGISTERED,
            ..used_up
        },
    ];
    try_runs(rt.alloc(), &runs)
}
