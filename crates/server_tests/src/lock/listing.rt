//! Lists, figures and rows.

ghost use Rattle.std.specs.Prelude.{◌≡◌};

use crate::lock::acts::{Act, Row};
use crate::lock::fixtures::{CALL, LIMIT, Looked, Request, all_hold, zone};
use crate::lock::locks::{Left, NOTHING, try_acts};
use facts::expect;
use pools::{Figures, FixedPool};
use std::alloc::Global;
use std::sync::Wait;
use std::sync::ledger::Ledger;
use zone_lock::{Hall, Listing, ZoneLock};
use zone_view::{CallRow, EndpointRow, ZoneFigures};

/// Compares a list with so many endpoints and worked calls.
pub fn compare_listing(listing: &Listing, endpoints: usize, calls: usize) -> Looked {
    let listed = listing.calls.as_slice();
    let mut units = 0u64;
    for (_, call) in listed {
        units = units.saturating_add(u64::from(call.units));
    }
    all_hold(&[
        (
            listing.endpoints.as_slice().len() == endpoints,
            "the endpoints are listed",
        ),
        (listed.len() == calls, "the calls are listed"),
        (
            units == listing.in_use,
            "the calls are listed with their units",
        ),
        (
            listing.in_use == CALL.saturating_mul(calls as u64),
            "they are listed as in use",
        ),
        (listing.limit == LIMIT, "the zone's limit is listed"),
    ])
}

/// Compares figures and rows with those of two endpoints and of one call between them; each row
/// comes once, whatever there is room for.
pub fn look<D: Hall, T: Ledger, U: Ledger, V: Ledger>(
    rt: &impl Wait,
    alloc: Global,
    lock: &ZoneLock<FixedPool, D, T, U, V>,
) -> Looked {
    look_at_figures(rt, alloc, lock)?;
    look_at_endpoints(rt, alloc, lock)?;
    look_at_calls(rt, alloc, lock)
}

const MEMORY: &str = "memory for rows";

/// Compares figures with those of two endpoints and of one call.
fn look_at_figures<D: Hall, T: Ledger, U: Ledger, V: Ledger>(
    rt: &impl Wait,
    alloc: Global,
    lock: &ZoneLock<FixedPool, D, T, U, V>,
) -> Looked {
    let mut pools = Vec::with_capacity(alloc, 16).ok().ok_or(MEMORY)?;
    let figures = lock.figures(rt, &mut pools);
    compare_figures(&figures, &pools)
}

/// Compares the rows of two endpoints, of which each comes where there is room for one.
fn look_at_endpoints<D: Hall, T: Ledger, U: Ledger, V: Ledger>(
    rt: &impl Wait,
    alloc: Global,
    lock: &ZoneLock<FixedPool, D, T, U, V>,
) -> Looked {
    let mut upper = Vec::with_capacity(alloc, 1).ok().ok_or(MEMORY)?;
    let mut lower = Vec::with_capacity(alloc, 1).ok().ok_or(MEMORY)?;
    let place = lock.endpoints_below(rt, usize::MAX, &mut upper);
    let end = lock.endpoints_below(rt, place, &mut lower);
    expect((place, end) == (1, 0), "each endpoint's row comes once")?;
    compare_endpoints(&lower, &upper)
}

/// Compares the rows of calls with that of one call.
fn look_at_calls<D: Hall, T: Ledger, U: Ledger, V: Ledger>(
    rt: &impl Wait,
    alloc: Global,
    lock: &ZoneLock<FixedPool, D, T, U, V>,
) -> Looked {
    let mut calls = Vec::with_capacity(alloc, 64).ok().ok_or(MEMORY)?;
    let end = lock.calls_below(rt, usize::MAX, &mut calls);
    expect(end == 0, "the call's row comes once")?;
    compare_calls(&calls)
}

/// Compares figures with those of two endpoints and of one call.
fn compare_figures(figures: &ZoneFigures, pools: &[Figures]) -> Looked {
    let [pool] = pools else {
        return Err("one pool has figures");
    };
    all_hold(&[
        (figures.endpoints == 2, "two endpoints are told"),
        (figures.calls == 1, "one call is told"),
        (figures.kept == 3, "three kept replies are told"),
        (
            figures.in_use == CALL,
            "the call's units are told as in use",
        ),
        (figures.limit == LIMIT, "the zone's limit is told"),
        (pool.lent == CALL, "the pool's loan is told"),
    ])
}

/// The identifiers 0001 and 0002.
const FIRST: [u16; 4] = [48, 48, 48, 49];

const LAST: [u16; 4] = [48, 48, 48, 50];

/// Compares rows with those of 101, who called, and of 102.
fn compare_endpoints(lower: &[EndpointRow], upper: &[EndpointRow]) -> Looked {
    let ([first], [last]) = (lower, upper) else {
        return Err("there is a row of 101, and one of 102");
    };
    let is_first = first.identifier.as_slice() == FIRST.as_slice();
    let is_last = last.identifier.as_slice() == LAST.as_slice();
    all_hold(&[
        (is_first, "the first row is that of 0001"),
        (first.alias_count == 1, "0001 has one alias"),
        (first.aliases.as_slice().len() == 1, "it is in its row"),
        (first.legs == 1, "0001 has one leg"),
        (is_last, "the last row is that of 0002"),
        (last.legs == 0, "0002 has no leg"),
    ])
}

/// Compares rows with that of the call of 101.
fn compare_calls(calls: &[CallRow]) -> Looked {
    let [call] = calls else {
        return Err("there is a row of the call");
    };
    let takes_part = call.first.as_slice() == FIRST.as_slice();
    all_hold(&[
        (u64::from(call.units) == CALL, "the call has its units"),
        (takes_part, "0001 takes part in the call"),
        (call.second.is_none(), "nobody else takes part in it"),
    ])
}

/// One seat registers two endpoints, and the other one admits their call. Both are listed.
const OPEN_CALL: [Row; 5] = [
    ("0001 registers", 0, Act::Apply(Request::First, 0, 0)),
    ("0002 registers", 0, Act::Apply(Request::Second, 1, 1)),
    ("the call opens", 1, Act::Apply(Request::Call, 0, 2)),
    ("all is listed", 0, Act::List(2, 1)),
    ("figures and rows", 0, Act::Look),
];

const CALL_LEFT: Left = Left {
    entries: 3,
    datagrams: 3,
    lent: CALL,
    in_use: CALL,
    ..NOTHING
};

#[test]
fn endpoints_and_calls_are_listed(rt: HostRuntime) -> Looked {
    let alloc = rt.alloc();
    try_acts(&rt, alloc, zone(alloc), 2, &OPEN_CALL, &CALL_LEFT)
}

/// Lists between steps leave the history as it is: a chapter has what was done before.
const LISTS_BETWEEN: [Row; 5] = [
    ("the first step", 0, Act::Apply(Request::Discovery, 0, 0)),
    ("a list behind it", 0, Act::List(0, 0)),
    ("the second step", 0, Act::Apply(Request::Rejected, 1, 1)),
    ("a list behind both", 0, Act::List(0, 0)),
    ("a chapter of both", 0, Act::Cut(0, 2)),
];

const CHAPTER_LEFT: Left = Left {
    first: 2,
    datagrams: 2,
    ..NOTHING
};

#[test]
fn a_list_changes_nothing(rt: HostRuntime) -> Looked {
    let alloc = rt.alloc();
    try_acts(&rt, alloc, zone(alloc), 1, &LISTS_BETWEEN, &CHAPTER_LEFT)
}
