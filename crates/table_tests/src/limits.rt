//! Tables that are filled to their limits.

use crate::fixtures::{add, endpoint, keep_confirm, open, registration};
use admission::{CallFault, Calls, Leg};
use facts::{all_hold, ensure};
use kept_replies::{Kept, ReserveFault};
use ras_module::{Address, CallKey, EndpointId};
use registrations::{AddFault, Registrations};
use std::alloc::Global;
use std::test::Fail;

/// The most endpoints, and the most calls, that a zone may have.
const MOST: u32 = 20_000;

/// The units of each call.
const UNITS: u32 = 1_280;

/// When the first kept reply is over.
const OVER: u64 = 10_000;

/// The most replies that may be kept.
const MOST_KEPT: u32 = 65_536;

/// An address for each number below 2 to the 24.
fn numbered_address(number: u32) -> Address {
    let [_, high, middle, low] = number.to_be_bytes();
    Address {
        ip: [10, high, middle, low],
        port: 1720,
    }
}

/// Registers an endpoint at the address of this number; None if somebody is there.
fn register(
    table: &mut Registrations,
    alloc: Global,
    number: u32,
) -> Result<Option<Result<EndpointId, AddFault>>, Fail> {
    let at = numbered_address(number);
    let new = registration(alloc, endpoint(b'1'), at, u64::from(number))?;
    Ok(add(table, new, &[]))
}

/// Registers as many endpoints as there may be, one after the other, and one more in vain.
fn register_all(table: &mut Registrations, alloc: Global) -> Result<(), Fail> {
    for number in 0..MOST {
        let is_added = matches!(register(table, alloc, number)?, Some(Ok(_)));
        ensure(is_added, "each endpoint is registered")?;
    }
    let one_more = register(table, alloc, MOST)?;
    all_hold(&[
        (
            one_more == Some(Err(AddFault::Full)),
            "there is no place for one more",
        ),
        (
            table.len() == MOST as usize,
            "as many endpoints are registered as there may be",
        ),
    ])
}

#[test]
fn a_zone_has_20_000_endpoints_and_no_more(rt: HostRuntime) -> Result<(), Fail> {
    register_all(
        &mut Registrations::new(rt.alloc(), MOST as usize),
        rt.alloc(),
    )
}

/// Opens a call with the key of this number; None if one has it.
fn open_numbered(calls: &mut Calls, number: u32) -> Option<Result<(), CallFault>> {
    let [first, second, third, fourth] = number.to_be_bytes();
    let key = CallKey {
        octets: [
            first, second, third, fourth, 0, 0, 0, 0, 0, 0, 0, 0, 0, 0, 0, 0,
        ],
    };
    let leg = Leg {
        endpoint: endpoint(b'1'),
        told: numbered_address(number),
    };
    open(calls, key, 0, UNITS, leg)
}

/// Opens as many calls as there may be, one after the other, and one more in vain.
fn open_all(calls: &mut Calls) -> Result<(), Fail> {
    for number in 0..MOST {
        let opened = open_numbered(calls, number);
        ensure(opened == Some(Ok(())), "each call is opened")?;
    }
    let one_more = open_numbered(calls, MOST);
    let units = u64::from(MOST) * u64::from(UNITS);
    all_hold(&[
        (
            one_more == Some(Err(CallFault::Full)),
            "there is no place for one more",
        ),
        (
            calls.len() == MOST as usize,
            "as many calls are open as there may be",
        ),
        (calls.total() == units, "the units of each call are in use"),
    ])
}

#[test]
fn a_zone_has_20_000_calls_and_no_more(rt: HostRuntime) -> Result<(), Fail> {
    open_all(&mut Calls::new(rt.alloc(), MOST as usize))
}

/// Keeps a reply to the datagram of this number until a moment.
fn keep(alloc: Global, kept: &mut Kept, number: u32, until: u64) -> Result<(), Fail> {
    let octets = number.to_be_bytes();
    keep_confirm(alloc, kept, &octets, 1, u64::from(number), until)
}

/// Keeps this many replies, each for a millisecond more than the one before.
fn keep_all(alloc: Global, kept: &mut Kept, most: u32) -> Result<(), Fail> {
    for number in 0..most {
        keep(alloc, kept, number, OVER + u64::from(number))?;
    }
    Ok(())
}

/// Finds no place until the first reply is over, which is dropped then.
fn make_place(kept: &mut Kept) -> Result<(), Fail> {
    let is_busy = kept.is_busy(OVER - 1);
    let reserved = kept.reserve(OVER - 1);
    let dropped = kept.drop_one_expired(OVER);
    all_hold(&[
        (is_busy, "nothing is over a moment before"),
        (
            reserved == Err(ReserveFault::Busy),
            "there is no room a moment before",
        ),
        (dropped == Some(0), "the first reply is dropped"),
        (!kept.is_full(), "a place is free"),
    ])
}

/// Keeps one more reply in the place of the first one.
fn keep_one_more(alloc: Global, kept: &mut Kept) -> Result<(), Fail> {
    keep(alloc, kept, MOST_KEPT, 2 * OVER)?;
    all_hold(&[
        (kept.is_full(), "the place is taken"),
        (kept.is_busy(OVER), "no other reply is over"),
    ])
}

/// Fills the table, in which one reply takes the place of another then.
fn fill(alloc: Global, kept: &mut Kept) -> Result<(), Fail> {
    keep_all(alloc, kept, MOST_KEPT)?;
    all_hold(&[
        (kept.is_full(), "the table is full"),
        (
            kept.len() == MOST_KEPT as usize,
            "as many replies are kept as there may be",
        ),
    ])?;
    make_place(kept)?;
    keep_one_more(alloc, kept)
}

#[test]
fn as_many_as_65_536_replies_are_kept(rt: HostRuntime) -> Result<(), Fail> {
    fill(rt.alloc(), &mut Kept::new(rt.alloc(), MOST_KEPT as usize))
}
