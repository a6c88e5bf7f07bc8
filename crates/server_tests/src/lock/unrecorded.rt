//! Steps of which nothing is recorded but what they add to the totals.

ghost use Rattle.std.specs.Prelude.{◌≡◌};

use crate::lock::acts::{Act, Row, step};
use crate::lock::fixtures::{CALL, Looked, REST, Request, scarce_zone, zone};
use crate::lock::locks::{Deed, Left, NOTHING, compare, make, try_acts};
use book_audit::AuditFault;
use facts::expect;
use pools::FixedPool;
use std::alloc::Global;
use std::sync::Wait;
use std::sync::ledger::Ledger;
use std::thread::{Threads, for_each_mut};
use zone_lock::{Hall, Seat, ZoneLock};

/// Each of two seats registers an endpoint where a chapter could be cut, so that both steps are
/// recorded. They are let go. Where no chapter can be cut, three more steps are made, of which none
/// is left: one that need not be recorded, one that need be, and one that need not be.
const ROWS: [Row; 8] = [
    ("0001 registers", 0, Act::Step(Request::First, 1)),
    ("0002 registers", 1, Act::Step(Request::Second, 1)),
    ("both were recorded", 0, Act::Discard(2, true)),
    ("no chapter without a base", 0, Act::CutInVain),
    ("the first call opens", 0, Act::Step(Request::Call, 1)),
    ("a step between", 1, Act::Apply(Request::Discovery, 1, 3)),
    ("the second is denied", 0, Act::Step(Request::Denied, 1)),
    ("none of three is left", 0, Act::Discard(0, false)),
];

/// The units of both calls were lent, and those of the second one came back.
const LEFT: Left = Left {
    first: 5,
    datagrams: 5,
    lent: CALL + REST,
    returned: REST,
    fault: Some(AuditFault::NotJoined),
    in_use: CALL,
    ..NOTHING
};

#[test]
fn steps_are_made_without_a_record(rt: HostRuntime) -> Looked {
    let alloc = rt.alloc();
    try_acts(&rt, alloc, scarce_zone(alloc), 2, &ROWS, &LEFT)
}

/// How many steps each thread makes.
const STEPS: usize = 1_000;

/// Each of two seats makes steps in a thread of its own, where no chapter can be cut.
pub fn step_together<
    D: Hall + Send + Sync,
    T: Ledger + Send + Sync,
    U: Ledger + Send + Sync,
    V: Ledger + Send + Sync,
    R: Threads + Wait + Sync,
>(
    rt: &R,
    alloc: Global,
    lock: &ZoneLock<FixedPool, D, T, U, V>,
    seats: &mut [Seat<D, T, U, V>],
) -> Looked {
    let gone = lock.discard(rt, Vec::new(alloc));
    let has_base = gone.base.is_some() && gone.entries.is_empty();
    drop(gone);
    for_each_mut(
        rt,
        seats,
        2,
        &|_, seat| {
            let _: bool = step(rt, alloc, lock, seat, Request::Discovery, STEPS);
        },
    );
    expect(has_base, "the state in which a chapter begins is let go")
}

/// Each datagram is carried.
const COUNTED: Left = Left {
    first: 2 * STEPS,
    datagrams: 2 * STEPS as u64,
    fault: Some(AuditFault::NotJoined),
    ..NOTHING
};

#[test]
fn each_unrecorded_step_of_two_threads_is_counted(rt: HostRuntime) -> Looked {
    let alloc = rt.alloc();
    let made = make(&rt, alloc, zone(alloc), 2, Deed::UnrecordedThreads)?;
    let looked = compare(&made, &COUNTED);
    drop(made);
    looked
}
