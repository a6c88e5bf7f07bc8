//! Seats of a lock.

ghost use Rattle.std.specs.Prelude.{◌≡◌};

use crate::lock::acts::{Act, Row};
use crate::lock::audits::find_altered_receipts;
use crate::lock::fixtures::{Looked, Request, zone};
use crate::lock::locks::{BAD_SEATS, Deed, Left, NOTHING, compare, make, try_acts};
use books::Finished;
use pools::FixedPool;
use std::sync::ledger::Ledger;
use zone_lock::{Hall, Seat, ZoneLock};

/// Each of two seats makes a step.
const ROWS: [Row; 2] = [
    ("the first step", 0, Act::Apply(Request::Discovery, 0, 0)),
    ("the second step", 1, Act::Apply(Request::Rejected, 0, 1)),
];

/// Both are the entries of the history when the lock is gone.
const LEFT: Left = Left {
    entries: 2,
    datagrams: 2,
    ..NOTHING
};

#[test]
fn two_seats_make_a_step_each(rt: HostRuntime) -> Looked {
    let alloc = rt.alloc();
    let mut made = make(&rt, alloc, zone(alloc), 2, Deed::Acts(&ROWS))?;
    let looked = compare(&made, &LEFT).and(find_altered_receipts(alloc, &mut made));
    drop(made);
    looked
}

/// Finishes a lock without its last seat in vain, and then with it.
pub fn finish_without_a_seat<D: Hall, T: Ledger, U: Ledger, V: Ledger>(
    lock: ZoneLock<FixedPool, D, T, U, V>,
    seats: Vec<Seat<D, T, U, V>>,
) -> Option<Finished<FixedPool>> {
    let mut seats = seats;
    let last = seats.pop()?;
    match lock.finish(seats) {
        Ok(_) => None,
        Err((lock, seats)) => {
            let mut seats = seats;
            seats.push(last).ok()?;
            lock.finish(seats).ok()
        }
    }
}

#[test]
fn no_lock_is_finished_without_a_seat(rt: HostRuntime) -> Looked {
    let alloc = rt.alloc();
    let made = make(&rt, alloc, zone(alloc), 2, Deed::SeatMissing)?;
    let looked = compare(&made, &NOTHING);
    drop(made);
    looked
}

#[test]
fn a_lock_has_one_to_sixteen_seats(rt: HostRuntime) {
    let alloc = rt.alloc();
    for (seats, expected) in [
        (0, Err(BAD_SEATS)),
        (1, Ok(())),
        (16, Ok(())),
        (17, Err(BAD_SEATS)),
    ] {
        assert!(rt;
            try_acts(&rt, alloc, zone(alloc), seats, &[], &NOTHING) == expected,
            "{seats}"
        );
    }
}
