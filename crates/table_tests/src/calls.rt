//! Calls, their legs, and the bandwidth that they use.

use crate::fixtures::{all_hold_of, endpoint, leg, open};
use admission::{Call, CallFault, CallList, Calls, Left, Leg, Legs};
use facts::{all_hold, ensure};
use ras_module::CallKey;
use std::alloc::AllocError;
use std::test::Fail;

// Endpoints, by the last characters of their identifiers.
const FIRST: u8 = b'1';

const SECOND: u8 = b'2';

const THIRD: u8 = b'3';

/// The units of a call, half of them, and what is left to 2,000.
const UNITS: u32 = 1_280;

const HALF: u32 = 640;

const REST: u32 = 720;

/// How many calls are opened where memory is refused, and with how many units each.
const MANY: u8 = 20;

const FEW_UNITS: u32 = 10;

/// Joins a call; None if the endpoint has a leg there.
fn join(calls: &mut Calls, key: CallKey, leg: Leg) -> Option<Result<(), CallFault>> {
    if calls.leg(&key, &leg.endpoint).is_some() {
        return None;
    }
    Some(calls.join(key, leg))
}

const fn key(octet: u8) -> CallKey {
    CallKey {
        octets: [octet; 16],
    }
}

/// What is done with the call of that octet.
#[derive(Clone, Copy)]
enum Deed {
    /// It is opened with a pool and units, by an endpoint.
    Open(u8, usize, u32, u8),
    /// An endpoint joins it.
    Join(u8, u8),
    /// It gets these units.
    SetUnits(u8, u32),
    /// An endpoint leaves it.
    Leave(u8, u8),
}

/// What is answered to it.
type Answer = Result<Left, CallFault>;

/// It is done, and no call ends.
const GOES_ON: Answer = Ok(Left { ended: None });

/// A deed by its name, its answer, and then how many calls are open, and how many units in use.
type Row = (&'static str, Deed, Answer, usize, u32);

/// Does a deed; None if the call is open already, or the endpoint takes part already.
fn answer_of(calls: &mut Calls, deed: Deed) -> Option<Answer> {
    let done = match deed {
        Deed::Open(octet, pool, units, last) => open(
            calls,
            key(octet),
            pool,
            units,
            leg(last, last),
        )?,
        Deed::Join(octet, last) => join(calls, key(octet), leg(last, last))?,
        Deed::SetUnits(octet, units) => calls.set_units(&key(octet), units),
        Deed::Leave(octet, last) => return Some(calls.leave(&key(octet), &endpoint(last))),
    };
    match done {
        Ok(()) => Some(GOES_ON),
        Err(fault) => Some(Err(fault)),
    }
}

/// Does a deed, which is answered so.
fn try_row(calls: &mut Calls, row: &Row) -> Result<(), Fail> {
    let (name, deed, answer, len, units) = *row;
    let found = answer_of(calls, deed);
    all_hold_of(
        name,
        &[
            (found == Some(answer), "it is answered so"),
            (calls.len() == len, "so many calls are open then"),
            (
                calls.total() == u64::from(units),
                "so many units are in use then",
            ),
        ],
    )
}

/// Does these deeds, one after the other.
fn try_rows(calls: &mut Calls, rows: &[Row]) -> Result<(), Fail> {
    for row in rows {
        try_row(calls, row)?;
    }
    Ok(())
}

/// A call of pool 2 is opened and joined, gets other units, and is left by both endpoints.
const LIVES: [Row; 7] = [
    ("a call", Deed::Open(1, 2, UNITS, FIRST), GOES_ON, 1, UNITS),
    (
        "a second endpoint",
        Deed::Join(1, SECOND),
        GOES_ON,
        1,
        UNITS,
    ),
    (
        "half of its units",
        Deed::SetUnits(1, HALF),
        GOES_ON,
        1,
        HALF,
    ),
    (
        "the first one leaves",
        Deed::Leave(1, FIRST),
        GOES_ON,
        1,
        HALF,
    ),
    (
        "it leaves once",
        Deed::Leave(1, FIRST),
        Err(CallFault::NoLeg),
        1,
        HALF,
    ),
    (
        "the second one leaves",
        Deed::Leave(1, SECOND),
        Ok(Left {
            ended: Some((2, HALF)),
        }),
        0,
        0,
    ),
    (
        "the call ends once",
        Deed::Leave(1, SECOND),
        Err(CallFault::NoCall),
        0,
        0,
    ),
];

/// Lets a call live, for which there is room.
fn live(calls: &mut Calls) -> Result<(), Fail> {
    calls.reserve(1)?;
    try_rows(calls, &LIVES)
}

#[test]
fn a_call_from_admission_to_disengage(rt: HostRuntime) -> Result<(), Fail> {
    live(&mut Calls::new(rt.alloc(), 10))
}

/// Two endpoints, and no third one, take part in a call, and none in one that isn't there.
const JOINED: [Row; 4] = [
    ("a call", Deed::Open(1, 0, UNITS, FIRST), GOES_ON, 1, UNITS),
    (
        "no call",
        Deed::Join(2, SECOND),
        Err(CallFault::NoCall),
        1,
        UNITS,
    ),
    (
        "a second endpoint",
        Deed::Join(1, SECOND),
        GOES_ON,
        1,
        UNITS,
    ),
    (
        "a third endpoint",
        Deed::Join(1, THIRD),
        Err(CallFault::TwoLegs),
        1,
        UNITS,
    ),
];

/// Compares a call with that of the two endpoints.
fn compare_call_of_two(call: &Call) -> Result<(), Fail> {
    let legs = call.copy().legs;
    let both = [leg(FIRST, FIRST), leg(SECOND, SECOND)];
    all_hold(&[
        (call.units == UNITS, "it has its units"),
        (call.legs.are_two(), "it has two legs"),
        (
            call.legs.has_other(&endpoint(SECOND)),
            "the second endpoint isn't alone",
        ),
        (
            legs.as_slice() == both.as_slice(),
            "its copy has the legs of both",
        ),
    ])
}

/// The address that an endpoint of the call was told, if it has a leg there.
fn told(calls: &Calls, last: u8) -> Option<[u8; 4]> {
    match calls.leg(&key(1), &endpoint(last)) {
        Some(leg) => Some(leg.told.ip),
        None => None,
    }
}

/// Finds the second endpoint's leg, and no leg of the third.
fn find_legs(calls: &Calls) -> Result<(), Fail> {
    let second = calls.call_of(&endpoint(SECOND));
    let third = calls.call_of(&endpoint(THIRD));
    all_hold(&[
        (
            told(calls, SECOND) == Some([10, 0, 0, SECOND]),
            "the second endpoint has a leg, and was told so",
        ),
        (
            told(calls, THIRD).is_none(),
            "the third endpoint has no leg",
        ),
        (second == Some(key(1)), "the second endpoint is in the call"),
        (third.is_none(), "the third endpoint is in no call"),
    ])
}

/// Lets two endpoints take part in a call, which is found with their legs.
fn call_of_two(calls: &mut Calls) -> Result<(), Fail> {
    try_rows(calls, &JOINED)?;
    match calls.get(&key(1)) {
        Some(call) => compare_call_of_two(call)?,
        None => return Err(Fail::from("the call is found")),
    }
    find_legs(calls)
}

#[test]
fn two_endpoints_take_part_at_most(rt: HostRuntime) -> Result<(), Fail> {
    call_of_two(&mut Calls::new(rt.alloc(), 10))
}

/// A table of two is filled with a call of each of two pools.
const FILLED: [Row; 4] = [
    (
        "a first call",
        Deed::Open(1, 0, UNITS, FIRST),
        GOES_ON,
        1,
        UNITS,
    ),
    (
        "a second call",
        Deed::Open(2, 1, REST, FIRST),
        GOES_ON,
        2,
        UNITS + REST,
    ),
    (
        "no place",
        Deed::Open(3, 1, 1, FIRST),
        Err(CallFault::Full),
        2,
        UNITS + REST,
    ),
    (
        "no call",
        Deed::SetUnits(3, 1),
        Err(CallFault::NoCall),
        2,
        UNITS + REST,
    ),
];

/// Fills the table, in which each pool has its part of the sum then, and the first endpoint all
/// legs.
fn fill_and_sum(calls: &mut Calls) -> Result<(), Fail> {
    try_rows(calls, &FILLED)?;
    all_hold(&[
        (
            calls.total_of(0) == u64::from(UNITS),
            "the first call's units are of the first pool",
        ),
        (
            calls.total_of(1) == u64::from(REST),
            "the second call's are of the second pool",
        ),
        (calls.total_of(2) == 0, "none are of a third pool"),
        (
            calls.legs_of(&endpoint(FIRST)) == 2,
            "the first endpoint has two legs",
        ),
        (
            calls.legs_of(&endpoint(SECOND)) == 0,
            "the second endpoint has none",
        ),
    ])
}

#[test]
fn each_pool_has_its_part_of_the_sum(rt: HostRuntime) -> Result<(), Fail> {
    fill_and_sum(&mut Calls::new(rt.alloc(), 2))
}

/// Calls are opened in any order of their keys, each with as many units as its key's octets say.
const IN_ANY_ORDER: [Row; 5] = [
    ("7", Deed::Open(7, 0, 7, FIRST), GOES_ON, 1, 7),
    ("3", Deed::Open(3, 0, 3, FIRST), GOES_ON, 2, 10),
    ("200", Deed::Open(200, 0, 200, FIRST), GOES_ON, 3, 210),
    ("1", Deed::Open(1, 0, 1, FIRST), GOES_ON, 4, 211),
    ("9", Deed::Open(9, 0, 9, FIRST), GOES_ON, 5, 220),
];

/// Whether these are calls of these keys, in this order, each with as many units as its key's octets
/// say.
fn are_calls(calls: &[(CallKey, Call)], octets: &[u8]) -> bool {
    for ((found, call), octet) in calls.iter().zip(octets) {
        if *found != key(*octet) || call.units != u32::from(*octet) {
            return false;
        }
    }
    calls.len() == octets.len()
}

/// Opens calls in any order, and lists them.
fn open_and_list(calls: &mut Calls) -> Result<(), Fail> {
    try_rows(calls, &IN_ANY_ORDER)?;
    let list = CallList::from_vec(calls.list()?.into_vec());
    ensure(
        are_calls(list.as_slice(), &[1, 3, 7, 9, 200]),
        "each call comes once, with its units, and the keys rise",
    )
}

#[test]
fn a_list_is_by_rising_key(rt: HostRuntime) -> Result<(), Fail> {
    open_and_list(&mut Calls::new(rt.alloc(), 20_000))
}

fn call(pool: usize, units: u32, last: u8) -> Call {
    Call {
        pool,
        units,
        legs: Legs::one(leg(last, last)),
    }
}

#[test]
fn calls_are_equal_by_all_that_they_have() -> Result<(), Fail> {
    let one = call(1, UNITS, FIRST);
    all_hold(&[
        (one == one.copy(), "a call equals its copy"),
        (
            one != call(2, UNITS, FIRST),
            "it equals none of another pool",
        ),
        (
            one != call(1, UNITS + 1, FIRST),
            "it equals none of other units",
        ),
        (
            one != call(1, UNITS, SECOND),
            "it equals none with another endpoint's leg",
        ),
    ])
}

#[test]
fn legs_are_equal_by_endpoint_and_address() -> Result<(), Fail> {
    let one = Legs::one(leg(FIRST, FIRST));
    all_hold(&[
        (
            one == Legs::one(leg(FIRST, FIRST)),
            "legs of one endpoint at one address are equal",
        ),
        (
            one != Legs::one(leg(FIRST, SECOND)),
            "those at another address are others",
        ),
    ])
}

/// A call of pool 1 is opened.
const ONE_CALL: [Row; 1] = [("a call", Deed::Open(1, 1, UNITS, FIRST), GOES_ON, 1, UNITS)];

/// Opens a call, whose list equals itself read again, and no list of no call.
fn compare_lists(calls: &mut Calls, none: &CallList) -> Result<(), Fail> {
    try_rows(calls, &ONE_CALL)?;
    let one = calls.list()?;
    let again = calls.list()?;
    all_hold(&[
        (one == again, "a list equals itself read again"),
        (one != *none, "it equals no list of no call"),
    ])
}

#[test]
fn lists_are_equal_by_their_calls(rt: HostRuntime) -> Result<(), Fail> {
    let none = CallList::from_vec(Vec::new(rt.alloc()));
    compare_lists(&mut Calls::new(rt.alloc(), 10), &none)
}

/// Opens a call at last: if a request for memory is refused, nothing has changed, and the same call
/// is opened with memory.
fn open_at_last(calls: &mut Calls, octet: u8) -> Result<(), Fail> {
    let deed = Deed::Open(octet, 0, FEW_UNITS, FIRST);
    let before = calls.len();
    let answer = answer_of(calls, deed);
    if answer == Some(GOES_ON) {
        return Ok(());
    }
    all_hold(&[
        (
            answer == Some(Err(CallFault::Memory)),
            "memory alone is wanting",
        ),
        (calls.len() == before, "a refused call changes nothing"),
    ])?;
    let again = answer_of(calls, deed);
    ensure(
        again == Some(GOES_ON),
        "the same call is opened with memory",
    )
}

/// Makes room for further calls at last.
fn reserve_at_last(calls: &mut Calls) -> Result<(), Fail> {
    if calls.reserve(50).is_err() {
        ensure(
            calls.len() == usize::from(MANY),
            "room that is refused changes nothing",
        )?;
        calls.reserve(50)?;
    }
    Ok(())
}

/// How many calls are listed at last.
fn listed_at_last(calls: &Calls) -> Result<usize, AllocError> {
    let list = match calls.list() {
        Ok(list) => list,
        Err(_) => calls.list()?,
    };
    Ok(list.as_slice().len())
}

/// Opens calls, makes room and lists the calls, each at last.
fn fill_at_last(calls: &mut Calls) -> Result<(), Fail> {
    for octet in 0..MANY {
        open_at_last(calls, octet)?;
    }
    reserve_at_last(calls)?;
    let listed = listed_at_last(calls)?;
    let units = u64::from(FEW_UNITS) * u64::from(MANY);
    all_hold(&[
        (listed == usize::from(MANY), "each call is listed"),
        (calls.total() == units, "the units of each call are in use"),
    ])
}

#[test]
fn a_refusal_of_memory_changes_nothing(rt: HostRuntime) -> Result<(), Fail> {
    fill_at_last(&mut Calls::new(rt.alloc(), 100))
}
