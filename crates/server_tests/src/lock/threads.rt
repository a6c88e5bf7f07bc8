//! Threads that make steps through one lock, while chapters are cut.

ghost use Rattle.std.specs.Prelude.{◌≡◌};

use crate::lock::acts::Gathered;
use crate::lock::fixtures::{Looked, all_hold, datagram, zone};
use crate::lock::locks::{Deed, Made, make};
use book_audit::audit;
use books::Totals;
use pools::FixedPool;
use std::alloc::Global;
use std::mem;
use std::sync::Wait;
use std::sync::ledger::Ledger;
use std::thread::{Threads, for_each_mut};
use vectors::requests::GRQ;
use zone_lock::{Hall, Seat, ZoneLock};

/// How many steps each thread makes, and after how many of them the first thread cuts a chapter.
const STEPS: usize = 1_000;

const CHAPTER: usize = 100;

/// A seat that makes steps in a thread of its own, and what it gathers.
#[derive(Drop)]
struct Place<D: Hall, T: Ledger, U: Ledger, V: Ledger> {
    seat: Seat<D, T, U, V>,
    gathered: Gathered,
}

/// A discovery whose number is told by these two.
fn discovery(thread: usize, step: usize) -> [u8; 20] {
    let mut bytes = GRQ;
    bytes[2] = ((thread % 4) * 8 + step / 256 % 8) as u8;
    bytes[3] = (step % 256) as u8;
    bytes
}

/// One step. None if memory was refused.
fn step<D: Hall, T: Ledger, U: Ledger, V: Ledger>(
    rt: &impl Wait,
    alloc: Global,
    lock: &ZoneLock<FixedPool, D, T, U, V>,
    place: &mut Place<D, T, U, V>,
    discovery: &[u8],
) -> Option<()> {
    let prepared = datagram(alloc, discovery)?;
    let receipt = lock.apply(rt, &mut place.seat, prepared).ok()?;
    place.gathered.receipts.push(receipt).ok()
}

/// One step, and a chapter if one is due.
fn go_on<D: Hall, T: Ledger, U: Ledger, V: Ledger>(
    rt: &impl Wait,
    alloc: Global,
    lock: &ZoneLock<FixedPool, D, T, U, V>,
    place: &mut Place<D, T, U, V>,
    thread: usize,
    step: usize,
) -> Option<()> {
    self::step(rt, alloc, lock, place, &discovery(thread, step))?;
    if thread == 0 && step % CHAPTER == CHAPTER - 1 {
        let chapter = lock.cut(rt).ok()?;
        place.gathered.chapters.push(chapter).ok()?;
    }
    Some(())
}

/// Makes the steps of a thread, or as many as there is memory for.
fn work<D: Hall, T: Ledger, U: Ledger, V: Ledger>(
    rt: &impl Wait,
    alloc: Global,
    lock: &ZoneLock<FixedPool, D, T, U, V>,
    place: &mut Place<D, T, U, V>,
    thread: usize,
) {
    for step in 0..STEPS {
        if go_on(rt, alloc, lock, place, thread, step).is_none() {
            return;
        }
    }
}

/// Gives each seat a place.
fn places_of<D: Hall, T: Ledger, U: Ledger, V: Ledger>(
    alloc: Global,
    seats: Vec<Seat<D, T, U, V>>,
) -> Option<Vec<Place<D, T, U, V>>> {
    let mut places = Vec::new(alloc);
    for seat in seats {
        let gathered = Gathered::new(alloc);
        places.push(Place { seat, gathered }).ok()?;
    }
    Some(places)
}

/// Gathers what the threads did, and their seats.
fn gather<D: Hall, T: Ledger, U: Ledger, V: Ledger>(
    places: Vec<Place<D, T, U, V>>,
    seats: &mut Vec<Seat<D, T, U, V>>,
    gathered: &mut Gathered,
) -> Option<()> {
    for place in places {
        let Place {
            seat,
            gathered: mut more,
        } = place;
        seats.push(seat).ok()?;
        gathered.receipts.append(&mut more.receipts).ok()?;
        gathered.chapters.append(&mut more.chapters).ok()?;
    }
    Some(())
}

/// Each of four seats makes steps in a thread of its own. The first one cuts chapters.
pub fn enter_all<
    D: Hall + Send + Sync,
    T: Ledger + Send + Sync,
    U: Ledger + Send + Sync,
    V: Ledger + Send + Sync,
    R: Threads + Wait + Sync,
>(
    rt: &R,
    alloc: Global,
    lock: &ZoneLock<FixedPool, D, T, U, V>,
    seats: &mut Vec<Seat<D, T, U, V>>,
    gathered: &mut Gathered,
) -> Looked {
    let all = mem::replace(seats, Vec::new(alloc));
    let mut places = places_of(alloc, all).ok_or("memory for four places")?;
    for_each_mut(
        rt,
        &mut places,
        4,
        &|thread, place| { work(rt, alloc, lock, place, thread) },
    );
    gather(places, seats, gathered).ok_or("memory for all receipts")
}

/// Compares a history with as many receipts as it has entries, and ten chapters, which agree.
fn compare_all(made: &Made) -> Looked {
    let finished = &made.finished;
    let entries = finished.first().saturating_add(finished.entries().len());
    let chapters = &made.gathered.chapters;
    let receipts = &made.gathered.receipts;
    let all = Totals {
        datagrams: 4 * STEPS as u64,
        ..Totals::none()
    };
    all_hold(&[
        (
            entries == receipts.len(),
            "there are as many entries as receipts",
        ),
        (chapters.len() == STEPS / CHAPTER, "there are ten chapters"),
        (
            audit(chapters, finished, receipts) == Ok(all),
            "an audit counts each step of four threads",
        ),
    ])
}

#[test]
fn each_step_of_four_threads_is_an_entry(rt: HostRuntime) -> Looked {
    let alloc = rt.alloc();
    let made = make(&rt, alloc, zone(alloc), 4, Deed::Threads)?;
    let looked = compare_all(&made);
    drop(made);
    looked
}
