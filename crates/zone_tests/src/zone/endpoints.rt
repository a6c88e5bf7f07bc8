//! Endpoints that come, stay and go, and what they have in use.

use crate::fixtures::{CALL, DAY};
use crate::zone::runs::Kind::{Idle, Interrogate, Kept, RegistrationOver, Served, Silent};
use crate::zone::runs::{LENT, Line, Run, behind_a_call, try_runs};
use crate::zone::standing::{FIRST, Holder, NINE, ONE, SECOND, THIRD, TWO};
use std::test::Fail;
use vectors::requests::{ARQ, KEEP_ALIVE, RRQ_101, RRQ_102, RRQ_109_101, URQ};
use zone_config::Key;

/// An hour, in milliseconds.
const HOUR: u64 = 3_600_000;

/// Endpoints register, a duplicate is told, and an endpoint leaves and comes again.
const COME_AND_GO: [Line<'static>; 7] = [
    ("nobody", 1_000, 9, &KEEP_ALIVE, Served, None, 0, 0),
    ("101", 1_000, 5, &RRQ_101, Served, None, 0, 1),
    ("102", 1_000, 6, &RRQ_102, Served, None, 0, 2),
    ("duplicate", 1_000, 7, &RRQ_109_101, Served, None, 0, 2),
    ("101 again", 1_000, 5, &RRQ_101, Kept, None, 0, 2),
    ("end of 101", 1_000, 5, &URQ, Served, None, 0, 1),
    ("101 anew", 1_000, 5, &RRQ_101, Served, None, 0, 2),
];

/// The time to live of an endpoint ends, whose call goes along and whose alias is free then.
const OVER: [Line<'static>; 7] = [
    ("0001", 0, 5, &RRQ_101, Served, None, 0, 1),
    ("0002", 10_000, 6, &RRQ_102, Served, None, 0, 2),
    ("call", 20_000, 5, &ARQ, Served, LENT, CALL, 2),
    ("before", 59_999, 0, &[], Idle, None, CALL, 2),
    ("over", 60_000, 0, &[], RegistrationOver, None, 0, 1),
    ("behind", 60_000, 0, &[], Idle, None, 0, 1),
    ("its alias", 60_000, 7, &RRQ_109_101, Served, None, 0, 2),
];

/// An endpoint in a call is asked three times for a sign of life. Then its call ends, and its
/// registration stays.
const SILENT: [Line<'static>; 5] = [
    ("before", 29_999, 0, &[], Idle, None, CALL, 2),
    ("asked", 30_000, 0, &[], Interrogate, None, CALL, 2),
    ("again", 35_000, 0, &[], Interrogate, None, CALL, 2),
    ("a third time", 40_000, 0, &[], Interrogate, None, CALL, 2),
    ("silent", 45_000, 0, &[], Silent, None, 0, 2),
];

/// 0002 and 0003, which came last.
const ANEW: [Holder; 2] = [
    (SECOND, 6, TWO, 61_000, 1_000),
    (THIRD, 5, ONE, 61_000, 1_000),
];

/// 0002 and an endpoint that has the alias 101 beside another one.
const WITH_THE_FREE_ALIAS: [Holder; 3] = [
    (SECOND, 6, TWO, 70_000, 10_000),
    (THIRD, 7, NINE, 120_000, 60_000),
    (THIRD, 7, ONE, 120_000, 60_000),
];

/// Both endpoints, registered for an hour.
const STAY: [Holder; 2] = [(FIRST, 5, ONE, HOUR, 0), (SECOND, 6, TWO, HOUR, 0)];

/// A zone that keeps replies for an hour, and asks nobody in that time; and one that asks, and
/// registers for an hour.
const LONG: [(Key, u64); 3] = [
    (Key::PoolTurn, DAY),
    (Key::Window, HOUR),
    (Key::Silence, HOUR),
];

const ASKING: [(Key, u64); 3] = [
    (Key::PoolTurn, DAY),
    (Key::Window, HOUR),
    (Key::TimeToLive, 3_600),
];

#[test]
fn nothing_is_in_use_behind_endpoints_that_went_or_are_silent(rt: HostRuntime) -> Result<(), Fail> {
    let come_and_go = behind_a_call("they come and go", &[], &COME_AND_GO, &ANEW, &[]);
    let over = behind_a_call("one is over", &LONG, &OVER, &WITH_THE_FREE_ALIAS, &[]);
    let runs = [
        Run {
            opening: &[],
            ..come_and_go
        },
        Run {
            opening: &[],
            ..over
        },
        behind_a_call("one is silent", &ASKING, &SILENT, &STAY, &[]),
    ];
    try_runs(rt.alloc(), &runs)
}
