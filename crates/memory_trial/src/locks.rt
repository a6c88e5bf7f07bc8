//! Scripts whose zone is locked, while memory is refused: two seats make the steps in turn,
//! chapters end meanwhile, and at last the history is audited. If a call is refused, the zone and
//! its history are as they were, and the same call with memory is done.

ghost use Rattle.std.specs.Prelude.{◌≡◌};

use crate::rehearsal::Stage;
use crate::seats::{Hold, apply, cut, listing_of};
use crate::sights::{is_listed, sight_of};
use book_audit::audit;
use books::{Chapter, Finished, Receipt};
use pools::Pool;
use ras_core::{Event, Note, Outcome, Zone};
use std::alloc::Global;
use std::marker::Brand;
use std::mem;
use std::sync::Wait;
use std::sync::atomic::AtomicU64;
use std::sync::ledger::Ledger;
use step_check::{accepts, same};
use zone_lock::{Blanks, Hall, Listing, OpenFault, Seat, ZoneLock};

const SEATS: usize = 2;

/// After how many steps a chapter ends.
const STEPS: usize = 4;

const OTHERWISE: &str = "a lock answered otherwise";

const TWICE: &str = "a lock was refused twice";

const NO_PLACE: &str = "no place for what a lock tells";

const CHANGED: &str = "a refused step changed the locked zone";

/// The receipts of the steps, in their order, and the chapters that ended. There is room for all.
#[derive(Drop)]
struct Record {
    receipts: Vec<Receipt>,
    chapters: Vec<Chapter>,
}

/// A list with this many places.
fn room_of<T: Drop>(alloc: Global, places: usize) -> Result<Vec<T>, &'static str> {
    match Vec::with_capacity(alloc, places) {
        Ok(room) => Ok(room),
        Err(_) => Vec::with_capacity(alloc, places).map_err(|_| TWICE),
    }
}

impl Record {
    fn new(alloc: Global, steps: usize) -> Result<Record, &'static str> {
        Ok(Record {
            receipts: room_of(alloc, steps)?,
            chapters: room_of(alloc, steps)?,
        })
    }

    /// Adds the receipt of the next step, which is that of this seat.
    fn add_receipt(&mut self, receipt: Receipt) -> Result<(), &'static str> {
        let place = self.receipts.len();
        let is_next = receipt.place == place
            && receipt.seat == place % SEATS
            && receipt.call == place / SEATS;
        if !is_next {
            return Err(OTHERWISE);
        }
        self.receipts.push(receipt).map_err(|_| NO_PLACE)
    }

    /// Adds a chapter, which has the steps since the one before.
    fn add_chapter(&mut self, chapter: Chapter) -> Result<(), &'static str> {
        let first = match self.chapters.last() {
            Some(last) => last.first().saturating_add(last.entries().len()),
            None => 0,
        };
        let behind = first.saturating_add(chapter.entries().len());
        if chapter.first() != first || behind != self.receipts.len() {
            return Err(OTHERWISE);
        }
        self.chapters.push(chapter).map_err(|_| NO_PLACE)
    }

    /// Whether this is the history of this many steps, with which the receipts agree.
    fn is_of<P: Pool>(&self, finished: &Finished<P>, steps: usize) -> bool {
        match audit(&self.chapters, finished, &self.receipts) {
            Ok(totals) => {
                self.receipts.len() == steps
                    && totals.datagrams.saturating_add(totals.turns) == steps as u64
            }
            Err(_) => false,
        }
    }
}

/// Whether the steps of a chapter, made again from the state in which it begins, lead to the whole
/// state in which it ends.
fn is_led(chapter: &Chapter) -> Result<bool, &'static str> {
    let base = chapter.base();
    let mut state = base.copy().or_else(|_| base.copy()).map_err(|_| TWICE)?;
    for entry in chapter.entries() {
        match accepts(&mut state, &entry.event, &entry.outcome) {
            Ok(true) => {}
            Ok(false) => return Ok(false),
            Err(_) => return Err(TWICE),
        }
    }
    Ok(state.machine().is_same(chapter.end().machine()))
}

/// The seat makes a step of the event. If it is refused, a chapter ends there, and shows that the
/// locked zone stands where the steps so far have led it; then the step is made.
fn make_step<P: Pool, D: Hall, T: Ledger, U: Ledger, V: Ledger, R: Wait>(
    hold: &Hold<'_, P, D, T, U, V, R>,
    seat: &mut Seat<D, T, U, V>,
    event: &Event,
    record: &mut Record,
) -> Result<(), &'static str> {
    let receipt = match apply(hold, seat, event)? {
        Some(receipt) => receipt,
        None => {
            let chapter = cut(hold)?;
            if !is_led(&chapter)? {
                return Err(CHANGED);
            }
            record.add_chapter(chapter)?;
            apply(hold, seat, event)?.ok_or(TWICE)?
        }
    };
    record.add_receipt(receipt)
}

/// The seats make a step for each event in turn. The last listing is what the zone has then.
fn make_steps<P: Pool, D: Hall, T: Ledger, U: Ledger, V: Ledger, R: Wait>(
    hold: &Hold<'_, P, D, T, U, V, R>,
    seats: &mut [Seat<D, T, U, V>],
    events: &[Event],
    record: &mut Record,
) -> Result<Listing, &'static str> {
    for (i, event) in events.iter().enumerate() {
        let Some(seat) = seats.get_mut(i % SEATS) else {
            return Err(OTHERWISE);
        };
        make_step(hold, seat, event, record)?;
        if i % STEPS == STEPS - 1 {
            record.add_chapter(cut(hold)?)?;
        }
    }
    listing_of(hold)
}

/// Whether the history of this many steps is audited, and its zone has what was listed.
fn is_right<P: Pool>(
    finished: &Finished<P>,
    record: &Record,
    listing: &Listing,
    steps: usize,
) -> Result<bool, &'static str> {
    Ok(record.is_of(finished, steps) && is_listed(finished.zone(), listing)?)
}

/// The seats make their steps, and the history that the lock leaves is audited.
fn make_history<P: Pool, D: Hall, T: Ledger, U: Ledger, V: Ledger, R: Wait>(
    rt: &R,
    alloc: Global,
    lock: ZoneLock<P, D, T, U, V>,
    seats: Vec<Seat<D, T, U, V>>,
    meter: &AtomicU64,
    events: &[Event],
    record: &mut Record,
) -> Result<(), &'static str> {
    let mut seats = seats;
    let hold = Hold {
        rt,
        alloc,
        lock: &lock,
        meter,
    };
    let made = make_steps(&hold, &mut seats, events, record);
    let Ok(finished) = lock.finish(seats) else {
        return Err(OTHERWISE);
    };
    let judged = match &made {
        Ok(listing) => is_right(&finished, record, listing, events.len()),
        Err(told) => Err(*told),
    };
    drop(finished);
    drop(made);
    if judged? { Ok(()) } else { Err(OTHERWISE) }
}

/// What came of a lock.
#[derive(Drop)]
enum Locked<P: Pool> {
    /// It was refused for want of memory, and its zone came back.
    Refused(Zone<P>),
    /// It was made, and this came of it.
    Made(Result<(), &'static str>),
}

/// The ledgers are the caller's to pick.
fn open_and_make<P: Pool, D: Hall, T: Ledger, U: Ledger, V: Ledger, R: Wait>(
    rt: &R,
    alloc: Global,
    zone: Zone<P>,
    seats: usize,
    blanks: Blanks,
    meter: &AtomicU64,
    events: &[Event],
    record: &mut Record,
) -> Locked<P>
    requires datagrams { (blanks.datagrams.name ≡ D.name)
        × (blanks.datagrams.parts ≡ D.parts) × (D.parts ≡ seats) }
    requires turns { (blanks.turns.name ≡ T.name)
        × (blanks.turns.parts ≡ T.parts) × (T.parts ≡ seats) }
    requires lent { (blanks.lent.name ≡ U.name)
        × (blanks.lent.parts ≡ U.parts) × (U.parts ≡ seats) }
    requires changes { (blanks.changes.name ≡ V.name)
        × (blanks.changes.parts ≡ V.parts) × (V.parts ≡ seats) }
    requires opened { (D.all ≡ seats) × (D.opened ≡ zone.state) }
{
    match ZoneLock::<P, D, T, U, V>::open(alloc, zone, seats, blanks) {
        Ok((lock, seats)) => Locked::Made(make_history(
            rt, alloc, lock, seats, meter, events, record,
        )),
        Err((zone, OpenFault::Memory)) => Locked::Refused(zone),
        Err((_, OpenFault::BadSeats)) => Locked::Made(Err(OTHERWISE)),
    }
}

fn try_lock<P: Pool, R: Wait>(
    rt: &R,
    alloc: Global,
    zone: Zone<P>,
    meter: &AtomicU64,
    events: &[Event],
    record: &mut Record,
) -> Locked<P> {
    let blanks = Blanks::new(SEATS);
    open_and_make::<P, Brand, Brand, Brand, Brand, R>(
        rt, alloc, zone, SEATS, blanks, meter, events, record,
    )
}

/// Locks the zone; if that is refused, the zone comes back as it was, and is locked then.
fn lock_zone<P: Pool, R: Wait>(
    rt: &R,
    alloc: Global,
    zone: Zone<P>,
    meter: &AtomicU64,
    events: &[Event],
    record: &mut Record,
) -> Result<(), &'static str> {
    let before = sight_of(&zone)?;
    let zone = match try_lock(rt, alloc, zone, meter, events, record) {
        Locked::Made(made) => return made,
        Locked::Refused(zone) => zone,
    };
    if !same(&before, &zone) {
        return Err("a refused lock changed its zone");
    }
    match try_lock(rt, alloc, zone, meter, events, record) {
        Locked::Made(made) => made,
        Locked::Refused(_) => Err(TWICE),
    }
}

/// Hands out the outcomes of the steps of the receipts.
fn hand_out(receipts: Vec<Receipt>, outcomes: &mut Vec<Outcome>) -> Result<(), &'static str> {
    for receipt in receipts {
        let mut receipt = receipt;
        let outcome = mem::replace(&mut receipt.outcome, Outcome::noted(Note::Idle, None));
        if outcomes.push(outcome).is_err() {
            return Err(NO_PLACE);
        }
    }
    Ok(())
}

/// The zone is locked, and its seats make a step for each event.
pub fn lock_up<P: Pool, R: Wait>(
    rt: &R,
    alloc: Global,
    stage: Stage<P>,
    events: &[Event],
    outcomes: &mut Vec<Outcome>,
) -> Result<(), &'static str> {
    let mut record = Record::new(alloc, events.len())?;
    let Stage { zone, meter } = stage;
    let made = lock_zone(rt, alloc, zone, &meter, events, &mut record);
    drop(meter);
    let Record { receipts, chapters } = record;
    drop(chapters);
    let handed_out = hand_out(receipts, outcomes);
    made?;
    handed_out
}
