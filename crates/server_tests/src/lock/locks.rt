//! Locks over the zone of the worked examples, and the histories that they leave.

ghost use Rattle.std.specs.Prelude.{◌≡◌};

use crate::lock::acts::{Gathered, Row, act_in_turn};
use crate::lock::fixtures::{Looked, all_hold};
use crate::lock::seats::finish_without_a_seat;
use crate::lock::threads::enter_all;
use crate::lock::unrecorded::step_together;
use book_audit::{AuditFault, audit};
use books::{Finished, Totals};
use pools::FixedPool;
use ras_core::Zone;
use std::alloc::Global;
use std::marker::Brand;
use std::sync::Wait;
use std::sync::ledger::Ledger;
use std::thread::Threads;
use zone_lock::{Blanks, Hall, OpenFault, Seat, ZoneLock};

/// What is done with a lock.
#[derive(Clone, Copy)]
pub enum Deed<'a> {
    /// All this, in turn.
    Acts(&'a [Row]),
    /// It is finished without its last seat in vain.
    SeatMissing,
    /// Each seat makes steps in a thread of its own, while chapters are cut.
    Threads,
    /// The same, where nothing is recorded.
    UnrecordedThreads,
}

/// The history that a lock leaves, and what was gathered.
#[derive(Drop)]
pub struct Made {
    pub finished: Finished<FixedPool>,
    pub gathered: Gathered,
}

/// The fault of a lock that isn't made because of the number of its seats.
pub const BAD_SEATS: &str = "a lock has 1 to 16 seats";

/// Makes a lock of this many seats over this zone, does this with it, and finishes it.
pub fn make<R: Threads + Wait + Sync>(
    rt: &R,
    alloc: Global,
    zone: Option<Zone<FixedPool>>,
    seats: usize,
    deed: Deed<'_>,
) -> Result<Made, &'static str> {
    let zone = zone.ok_or("memory for a zone")?;
    let blanks = Blanks::new(seats);
    open_and_do::<Brand, Brand, Brand, Brand, R>(rt, alloc, zone, seats, blanks, deed)
}

/// The ledgers are the caller's to pick.
fn open_and_do<
    D: Hall + Send + Sync,
    T: Ledger + Send + Sync,
    U: Ledger + Send + Sync,
    V: Ledger + Send + Sync,
    R: Threads + Wait + Sync,
>(
    rt: &R,
    alloc: Global,
    zone: Zone<FixedPool>,
    seats: usize,
    blanks: Blanks,
    deed: Deed<'_>,
) -> Result<Made, &'static str>
    requires datagrams { (blanks.datagrams.name ≡ D.name)
        × (blanks.datagrams.parts ≡ D.parts) × (D.parts ≡ seats) }
    requires turns { (blanks.turns.name ≡ T.name)
        × (blanks.turns.parts ≡ T.parts) × (T.parts ≡ seats) }
    requires lent { (blanks.lent.name ≡ U.name)
        × (blanks.lent.parts ≡ U.parts) × (U.parts ≡ seats) }
    requires changes { (blanks.changes.name ≡ V.name)
        × (blanks.changes.parts ≡ V.parts) × (V.parts ≡ seats) }
    requires opened { (D.all ≡ seats) × (D.opened ≡ zone.state) }
{
    match ZoneLock::<FixedPool, D, T, U, V>::open(alloc, zone, seats, blanks) {
        Ok((lock, seats)) => do_and_finish(rt, alloc, lock, seats, deed),
        Err((_, OpenFault::BadSeats)) => Err(BAD_SEATS),
        Err((_, OpenFault::Memory)) => Err("memory for a lock"),
    }
}

/// Does this with a lock, and finishes it with its seats.
fn do_and_finish<
    D: Hall + Send + Sync,
    T: Ledger + Send + Sync,
    U: Ledger + Send + Sync,
    V: Ledger + Send + Sync,
    R: Threads + Wait + Sync,
>(
    rt: &R,
    alloc: Global,
    lock: ZoneLock<FixedPool, D, T, U, V>,
    seats: Vec<Seat<D, T, U, V>>,
    deed: Deed<'_>,
) -> Result<Made, &'static str> {
    let (mut seats, mut gathered) = (seats, Gathered::new(alloc));
    let done = match deed {
        Deed::Acts(rows) => act_in_turn(rt, alloc, &lock, &mut seats, &mut gathered, rows),
        Deed::Threads => enter_all(rt, alloc, &lock, &mut seats, &mut gathered),
        Deed::UnrecordedThreads => step_together(rt, alloc, &lock, &mut seats),
        Deed::SeatMissing => Ok(()),
    };
    let finished = match deed {
        Deed::SeatMissing => finish_without_a_seat(lock, seats),
        _ => lock.finish(seats).ok(),
    };
    match (done, finished) {
        (Ok(()), Some(finished)) => Ok(Made { finished, gathered }),
        (Ok(()), None) => Err("the lock is finished"),
        (Err(fact), _) => Err(fact),
    }
}

/// What is left of a history.
#[derive(Clone, Copy)]
pub struct Left {
    /// The place of the first entry that is left, and how many are left.
    pub first: usize,
    pub entries: usize,
    /// What all its steps add up to.
    pub datagrams: u64,
    pub turns: u64,
    pub lent: u64,
    pub returned: u64,
    pub changes: u64,
    /// What an audit with the chapters and the receipts finds, if it finds a fault.
    pub fault: Option<AuditFault>,
    /// How many units are in use.
    pub in_use: u64,
}

/// What is left if nothing was done.
pub const NOTHING: Left = Left {
    first: 0,
    entries: 0,
    datagrams: 0,
    turns: 0,
    lent: 0,
    returned: 0,
    changes: 0,
    fault: None,
    in_use: 0,
};

/// Compares what is left of a history, all of whose steps are left, or none.
pub fn compare(made: &Made, left: &Left) -> Looked {
    let finished = &made.finished;
    let entries = finished.entries().len();
    let is_same = finished.base().is_same(finished.zone().machine());
    let audited = audit(&made.gathered.chapters, finished, &made.gathered.receipts);
    let all = Totals {
        datagrams: left.datagrams,
        turns: left.turns,
        lent: u128::from(left.lent),
        returned: u128::from(left.returned),
        changes: left.changes,
    };
    let carried = if entries == 0 { all } else { Totals::none() };
    let told = match left.fault {
        Some(fault) => Err(fault),
        None => Ok(all),
    };
    all_hold(&[
        (
            finished.first() == left.first,
            "what is left begins behind the steps that are gone",
        ),
        (entries == left.entries, "it has its entries"),
        (
            is_same == (entries == 0),
            "it begins with the state of the zone if it has none",
        ),
        (
            finished.carried() == carried,
            "the totals of the steps that are gone are carried",
        ),
        (
            audited == told,
            "an audit counts all steps, or finds a fault",
        ),
        (
            finished.zone().in_use() == left.in_use,
            "the units of the open calls are in use",
        ),
    ])
}

/// Does all this with a lock of this many seats over this zone, and compares what is left.
pub fn try_acts<R: Threads + Wait + Sync>(
    rt: &R,
    alloc: Global,
    zone: Option<Zone<FixedPool>>,
    seats: usize,
    rows: &[Row],
    left: &Left,
) -> Looked {
    let made = make(rt, alloc, zone, seats, Deed::Acts(rows))?;
    let compared = compare(&made, left);
    drop(made);
    compared
}
