//! Changes of the tables that ask for no memory. Each test sets two marks, and `tools/try-memory`
//! counts what is asked for between them.

use crate::fixtures::{
    Change, add, address, alter, confirm, datagram, endpoint, has_leg_come, has_leg_gone, keep,
    kept_reply, leg, open, registration,
};
use admission::Calls;
use deadlines::Deadlines;
use facts::ensure;
use kept_replies::{Kept, KeptKey, KeptReply};
use ras_module::{CallKey, EndpointId};
use registrations::Registrations;
use std::alloc::{AllocError, Global};
use std::test::Fail;

/// How often each change is made.
const TIMES: u64 = 1_000;

/// Sets a mark: asks for as many octets as nothing else asks for. How many it gets.
fn mark(alloc: Global) -> Result<usize, AllocError> {
    let octets: Vec<u8> = Vec::with_capacity(alloc, 77_777)?;
    Ok(octets.capacity())
}

/// Both marks were set.
fn compare_marks(first: usize, second: usize) -> Result<(), Fail> {
    ensure(first == second, "there are two marks")
}

/// How many places have moments.
const PLACES: u64 = 64;

/// Moments with room for all places.
fn moments(alloc: Global) -> Result<Deadlines, AllocError> {
    let mut deadlines = Deadlines::new(alloc);
    deadlines.reserve(PLACES as usize)?;
    Ok(deadlines)
}

/// Changes, clears and moves the moments of all places.
fn change_moments(deadlines: &mut Deadlines) -> Result<(), Fail> {
    for time in 0..TIMES {
        let place = (time % PLACES) as usize;
        let other = (time * 7 % PLACES) as usize;
        if place >= deadlines.room() || other >= deadlines.room() {
            return Err(Fail::from("there is room for each place"));
        }
        deadlines.set(place, time * 31 % 1_009);
        deadlines.clear(other);
        deadlines.rename(place, other);
    }
    Ok(())
}

/// Changes moments between two marks.
fn change_between_marks(deadlines: &mut Deadlines, alloc: Global) -> Result<(), Fail> {
    let first = mark(alloc)?;
    change_moments(deadlines)?;
    let second = mark(alloc)?;
    compare_marks(first, second)
}

#[test]
fn changes_of_moments_ask_for_no_memory(rt: HostRuntime) -> Result<(), Fail> {
    let mut deadlines = moments(rt.alloc())?;
    change_between_marks(&mut deadlines, rt.alloc())
}

/// Registers an endpoint at the address that ends so.
fn register(table: &mut Registrations, alloc: Global, last: u8) -> Result<EndpointId, Fail> {
    let new = registration(alloc, endpoint(last), address(last), 10_000)?;
    match add(table, new, &[]) {
        Some(Ok(id)) => Ok(id),
        _ => Err(Fail::from("the endpoint is registered")),
    }
}

/// Hears a registered endpoint, asks it for a sign of life and grants it new times to live.
fn live(table: &mut Registrations, id: &EndpointId) -> Result<(), Fail> {
    for time in 0..TIMES {
        for change in [
            Change::Hear(time),
            Change::Renew(10_000 + time),
            Change::Calm,
            Change::Ask(time),
        ] {
            alter(table, id, change)?;
        }
    }
    Ok(())
}

/// Lets a registered endpoint take part in calls and leave them.
fn take_part(table: &mut Registrations, id: &EndpointId) -> Result<(), Fail> {
    for _time in 0..TIMES {
        let is_done = has_leg_come(table, id) && has_leg_gone(table, id);
        ensure(is_done, "the endpoint takes part in a call and leaves it")?;
    }
    Ok(())
}

/// Changes two registered endpoints, of which the second one goes.
fn change_two(
    table: &mut Registrations,
    first: &EndpointId,
    second: &EndpointId,
) -> Result<(), Fail> {
    live(table, first)?;
    take_part(table, second)?;
    ensure(table.remove(second).is_some(), "the second endpoint goes")
}

/// Registers two endpoints, and changes them between two marks.
fn register_and_change(table: &mut Registrations, alloc: Global) -> Result<(), Fail> {
    let one = register(table, alloc, b'1')?;
    let other = register(table, alloc, b'2')?;
    let first = mark(alloc)?;
    change_two(table, &one, &other)?;
    let second = mark(alloc)?;
    compare_marks(first, second)
}

#[test]
fn changes_of_an_endpoint_ask_for_no_memory(rt: HostRuntime) -> Result<(), Fail> {
    register_and_change(&mut Registrations::new(rt.alloc(), 10), rt.alloc())
}

/// Lets a second endpoint join a call, which gets other units, and leave it.
fn change_once(calls: &mut Calls, key: &CallKey, units: u32) -> Result<(), Fail> {
    let second = leg(b'2', b'1');
    if calls.leg(key, &second.endpoint).is_some() {
        return Err(Fail::from("the second endpoint isn't in the call"));
    }
    calls.join(*key, second)?;
    calls.set_units(key, units)?;
    let left = calls.leave(key, &endpoint(b'2'))?;
    ensure(
        left.ended.is_none(),
        "the call goes on without the second endpoint",
    )
}

fn change_call(calls: &mut Calls, key: &CallKey) -> Result<(), Fail> {
    for time in 0..TIMES {
        change_once(calls, key, time as u32)?;
    }
    Ok(())
}

/// Opens a call, and changes it between two marks.
fn open_and_change(calls: &mut Calls, alloc: Global) -> Result<(), Fail> {
    let key = CallKey { octets: [7; 16] };
    let opened = open(calls, key, 0, 640, leg(b'1', b'2'));
    ensure(opened == Some(Ok(())), "the call is opened")?;
    let first = mark(alloc)?;
    change_call(calls, &key)?;
    let second = mark(alloc)?;
    compare_marks(first, second)
}

#[test]
fn changes_of_a_call_ask_for_no_memory(rt: HostRuntime) -> Result<(), Fail> {
    open_and_change(&mut Calls::new(rt.alloc(), 10), rt.alloc())
}

/// Keeps this reply in an entry of its own, which goes again when it is over.
fn keep_and_drop(kept: &mut Kept, key: KeptKey, reply: KeptReply, until: u64) -> Result<(), Fail> {
    keep(kept, key, 1, reply, until)?;
    let dropped = kept.drop_one_expired(until);
    ensure(dropped == Some(1), "the reply goes when it is over")
}

/// Keeps a first reply, for which the table makes room.
fn keep_first(alloc: Global, kept: &mut Kept) -> Result<(), Fail> {
    let reply = kept_reply(alloc, &confirm(1))?;
    keep_and_drop(kept, datagram(alloc, &[1])?, reply, 10)
}

/// Keeps a second reply between two marks.
fn keep_second(alloc: Global, kept: &mut Kept) -> Result<(), Fail> {
    let reply = kept_reply(alloc, &confirm(2))?;
    let key = datagram(alloc, &[2])?;
    let first = mark(alloc)?;
    keep_and_drop(kept, key, reply, 20)?;
    let second = mark(alloc)?;
    compare_marks(first, second)
}

/// Keeps one reply after the other.
fn keep_both(alloc: Global, kept: &mut Kept) -> Result<(), Fail> {
    keep_first(alloc, kept)?;
    keep_second(alloc, kept)
}

#[test]
fn a_reply_is_kept_and_goes_without_memory(rt: HostRuntime) -> Result<(), Fail> {
    keep_both(rt.alloc(), &mut Kept::new(rt.alloc(), 10))
}
