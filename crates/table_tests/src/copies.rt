//! Copies of the tables: equal to what was copied, and apart from it. A copy for which memory is
//! refused leaves its table as it was, and is made with memory.

use crate::fixtures::{
    address, endpoint, enter, is_confirmed, keep_confirm, leg, open, registration,
};
use admission::Calls;
use facts::{all_hold, ensure};
use kept_replies::Kept;
use ras_module::CallKey;
use registrations::Registrations;
use std::alloc::{AllocError, Global};
use std::test::Fail;

const ENDPOINTS: [u8; 3] = [b'1', b'2', b'3'];

/// Registers three endpoints, with room that is made at last.
fn register(table: &mut Registrations, alloc: Global) -> Result<(), Fail> {
    if table.reserve(3).is_err() {
        table.reserve(3)?;
    }
    for last in ENDPOINTS {
        let new = registration(alloc, endpoint(last), address(last), u64::from(last))?;
        enter(table, new)?;
    }
    Ok(())
}

/// Whether exactly the three endpoints are registered.
fn are_registered(table: &Registrations) -> bool {
    for last in ENDPOINTS {
        match table.get(&endpoint(last)) {
            Some(row) if row.ras == address(last) && row.deadline == u64::from(last) => {}
            _ => return false,
        }
    }
    table.len() == 3
}

fn registrations_at_last(table: &Registrations) -> Result<Registrations, AllocError> {
    match table.copy() {
        Err(_) if are_registered(table) => table.copy(),
        answer => answer,
    }
}

/// Removes an endpoint from a copy of the table, which had the three.
fn change_registrations(copy: &mut Registrations) -> Result<(), Fail> {
    let is_same = are_registered(copy);
    let is_removed = copy.remove(&endpoint(b'2')).is_some();
    all_hold(&[
        (is_same, "the copy has the three endpoints"),
        (is_removed, "an endpoint is removed from the copy"),
        (copy.len() == 2, "the copy has two endpoints then"),
    ])
}

/// Registers endpoints, and copies their table. A change of the copy leaves the table.
fn copy_registrations(table: &mut Registrations, alloc: Global) -> Result<(), Fail> {
    register(table, alloc)?;
    let mut copy = registrations_at_last(table)?;
    change_registrations(&mut copy)?;
    ensure(
        are_registered(table),
        "the table has the three endpoints still",
    )
}

#[test]
fn a_copy_of_registrations_is_apart(rt: HostRuntime) -> Result<(), Fail> {
    copy_registrations(&mut Registrations::new(rt.alloc(), 3), rt.alloc())
}

/// The units of each call.
const UNITS: u32 = 640;

const fn call_key(octet: u8) -> CallKey {
    CallKey {
        octets: [octet; 16],
    }
}

/// Opens two calls, of pools 1 and 2, with room that is made at last.
fn open_two(calls: &mut Calls) -> Result<(), Fail> {
    if calls.reserve(2).is_err() {
        calls.reserve(2)?;
    }
    for octet in [1u8, 2] {
        let opened = open(
            calls,
            call_key(octet),
            usize::from(octet),
            UNITS,
            leg(b'1', octet),
        );
        ensure(opened == Some(Ok(())), "the call is opened")?;
    }
    Ok(())
}

/// Whether the call of that pool is open with its bandwidth.
fn is_open(calls: &Calls, octet: u8) -> bool {
    calls.total_of(usize::from(octet)) == u64::from(UNITS)
        && calls.leg(&call_key(octet), &endpoint(b'1')).is_some()
}

/// Whether exactly the two calls are open, each with its bandwidth.
fn are_open(calls: &Calls) -> bool {
    is_open(calls, 1)
        && is_open(calls, 2)
        && calls.total() == 2 * u64::from(UNITS)
        && calls.len() == 2
}

fn calls_at_last(calls: &Calls) -> Result<Calls, AllocError> {
    match calls.copy() {
        Err(_) if are_open(calls) => calls.copy(),
        answer => answer,
    }
}

/// Lets the endpoint leave a call of a copy of the table, which had both.
fn change_calls(copy: &mut Calls) -> Result<(), Fail> {
    let is_same = are_open(copy);
    let has_left = copy.leave(&call_key(1), &endpoint(b'1')).is_ok();
    all_hold(&[
        (is_same, "the copy has the two calls"),
        (has_left, "the endpoint leaves a call of the copy"),
        (
            copy.total() == u64::from(UNITS),
            "the copy has the units of the other call then",
        ),
    ])
}

/// Opens calls, and copies their table. A change of the copy leaves the table.
fn copy_calls(calls: &mut Calls) -> Result<(), Fail> {
    open_two(calls)?;
    let mut copy = calls_at_last(calls)?;
    change_calls(&mut copy)?;
    ensure(are_open(calls), "the table has the two calls still")
}

#[test]
fn a_copy_of_calls_is_apart(rt: HostRuntime) -> Result<(), Fail> {
    copy_calls(&mut Calls::new(rt.alloc(), 2))
}

/// Keeps the reply with this number, born in the step of that number, with room that is made at
/// last.
fn keep(kept: &mut Kept, alloc: Global, number: u8) -> Result<(), Fail> {
    if kept.reserve(0).is_err() {
        kept.reserve(0)?;
    }
    let born = u64::from(number);
    keep_confirm(alloc, kept, &[number], u16::from(number), born, 1000)
}

/// Whether the reply with this number is kept, born in the step of that number.
fn is_kept(kept: &Kept, number: u8) -> bool {
    match kept.by_born(u64::from(number)) {
        Some((_datagram, entry)) => is_confirmed(entry, u16::from(number)),
        None => false,
    }
}

/// Whether exactly the two replies are kept.
fn are_kept(kept: &Kept) -> bool {
    is_kept(kept, 1) && is_kept(kept, 2) && kept.len() == 2
}

fn kept_at_last(kept: &Kept) -> Result<Kept, AllocError> {
    match kept.copy() {
        Err(_) if are_kept(kept) => kept.copy(),
        answer => answer,
    }
}

/// Drops a reply from a copy of the table, which had both.
fn change_replies(copy: &mut Kept) -> Result<(), Fail> {
    let is_same = are_kept(copy);
    copy.drop_born(1);
    all_hold(&[
        (is_same, "the copy has the two replies"),
        (
            copy.len() == 1 && copy.by_born(1).is_none(),
            "the copy has the second reply alone then",
        ),
    ])
}

/// Keeps replies, and copies their table. A change of the copy leaves the table.
fn copy_replies(kept: &mut Kept, alloc: Global) -> Result<(), Fail> {
    keep(kept, alloc, 1)?;
    keep(kept, alloc, 2)?;
    let mut copy = kept_at_last(kept)?;
    change_replies(&mut copy)?;
    ensure(are_kept(kept), "the table has the two replies still")
}

#[test]
fn a_copy_of_kept_replies_is_apart(rt: HostRuntime) -> Result<(), Fail> {
    copy_replies(&mut Kept::new(rt.alloc(), 2), rt.alloc())
}
