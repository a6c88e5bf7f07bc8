//! What is done at a lock, and what has to come of it.

ghost use Rattle.std.specs.Prelude.{◌≡◌};

use crate::lock::fixtures::{Looked, Request, is_answered, is_sent, prepared};
use crate::lock::listing::{compare_listing, look};
use crate::lock::replacing::offer;
use books::{Chapter, Entry, Receipt};
use facts::expect;
use pools::{FixedPool, ReplaceFault};
use ras_core::{Datagram, Moment, Note, Outcome};
use std::alloc::Global;
use std::mem;
use std::sync::Wait;
use std::sync::ledger::Ledger;
use vectors::replies::IRQ;
use zone_lock::{CutFault, Discarded, Hall, HandedOut, Seat, TurnsEnd, ZoneLock};
use zone_view::{Count, Counts, ReplyKind, TurnDeed};

/// What is done, and what has to come of it.
#[derive(Clone, Copy)]
pub enum Act {
    /// The seat makes a step of this request. The receipt is that of this call of the seat, at this
    /// place of the history, with the request's reply.
    Apply(Request, usize, usize),
    /// The seat makes so many steps of this request, of which nothing need be recorded. Each gets
    /// the request's reply.
    Step(Request, usize),
    /// The seat makes turns, at most so many. They end so, and send so many questions for a sign of
    /// life.
    Turn(usize, TurnsEnd, usize),
    /// So many of all turns so far did this.
    Turned(TurnDeed, u64),
    /// So many such messages were counted of them.
    Sent(ReplyKind, u64),
    /// The seat offers a fresh pool for the one with this number. It has this limit, and is refused
    /// for this fault, or takes the other one's place.
    Offer(usize, u64, Option<ReplaceFault>),
    /// A chapter is cut, which begins at this place, with so many entries.
    Cut(usize, usize),
    /// No chapter can be cut, for want of the state in which it would begin.
    CutInVain,
    /// The entries are let go: so many, with the state in which they begin, or without it.
    Discard(usize, bool),
    /// The entries leave: from this place on so many; and steps are recorded further, or not.
    HandOut(usize, usize, bool),
    /// Of the entries that left last, the one with this number is that of this request and call.
    Entry(usize, Request, usize),
    /// The zone is listed: so many endpoints, and so many worked calls.
    List(usize, usize),
    /// Figures and rows are those of two endpoints and of one call between them.
    Look,
}

/// What is done by its name, and the number of the seat that does it.
pub type Row = (&'static str, usize, Act);

/// What a run gathers: the receipts of its seats, the chapters that were cut, the entries that left
/// last, and what was counted of its turns.
#[derive(Drop)]
pub struct Gathered {
    pub receipts: Vec<Receipt>,
    pub chapters: Vec<Chapter>,
    entries: Vec<Entry>,
    counts: Counts,
}

impl Gathered {
    pub fn new(alloc: Global) -> Self {
        Gathered {
            receipts: Vec::new(alloc),
            chapters: Vec::new(alloc),
            entries: Vec::new(alloc),
            counts: Counts::none(),
        }
    }

    /// Keeps a receipt, if there is one. Whether it is that of this request and call, at this place.
    fn keep(
        &mut self,
        receipt: Option<Receipt>,
        request: Request,
        call: usize,
        place: usize,
    ) -> bool {
        let Some(receipt) = receipt else {
            return false;
        };
        let is_placed = receipt.call == call && receipt.place == place;
        let is_told = is_placed && is_answered(&receipt.outcome, request);
        self.receipts.push(receipt).is_ok() && is_told
    }

    /// Keeps a chapter. Whether it begins at this place, with so many entries.
    fn keep_chapter(&mut self, chapter: Chapter, first: usize, entries: usize) -> bool {
        let is_so = chapter.first() == first && chapter.entries().len() == entries;
        self.chapters.push(chapter).is_ok() && is_so
    }

    /// Whether the entry with this number is that of this request and call.
    fn has_entry(&self, number: usize, request: Request, call: usize) -> bool {
        match self.entries.get(number) {
            Some(entry) => entry.call == call && is_answered(&entry.outcome, request),
            None => false,
        }
    }
}

/// The seat makes a step of this request. Its receipt, if there is memory for it.
fn apply<D: Hall, T: Ledger, U: Ledger, V: Ledger>(
    rt: &impl Wait,
    alloc: Global,
    lock: &ZoneLock<FixedPool, D, T, U, V>,
    seat: &mut Seat<D, T, U, V>,
    request: Request,
) -> Option<Receipt> {
    lock.apply(rt, seat, prepared(alloc, request)?).ok()
}

/// A chapter is cut. Whether it begins at this place, with so many entries.
fn cut<D: Hall, T: Ledger, U: Ledger, V: Ledger>(
    rt: &impl Wait,
    lock: &ZoneLock<FixedPool, D, T, U, V>,
    gathered: &mut Gathered,
    first: usize,
    entries: usize,
) -> bool {
    match lock.cut(rt) {
        Ok(chapter) => gathered.keep_chapter(chapter, first, entries),
        Err(_) => false,
    }
}

/// The seat makes so many steps of this request. Whether each gets its reply.
pub fn step<D: Hall, T: Ledger, U: Ledger, V: Ledger>(
    rt: &impl Wait,
    alloc: Global,
    lock: &ZoneLock<FixedPool, D, T, U, V>,
    seat: &mut Seat<D, T, U, V>,
    request: Request,
    times: usize,
) -> bool {
    let mut outcome = Outcome::noted(Note::Idle, None);
    for _ in 0..times {
        let Some(prepared) = prepared(alloc, request) else {
            return false;
        };
        let is_made = lock.step(rt, seat, prepared, &mut outcome).is_ok();
        if !is_made || !is_answered(&outcome, request) {
            return false;
        }
    }
    true
}

/// In which millisecond turns are made. Five things are due then once a call is open: the three
/// kept replies are over, the endpoint that is in the call was silent for too long, and the pools
/// have their turn.
const LATE: u64 = 40_000;

/// How many questions for a sign of life these are, if they are nothing else.
fn questions(sent: &[Datagram]) -> Option<usize> {
    for datagram in sent {
        if !is_sent(datagram, &IRQ) {
            return None;
        }
    }
    Some(sent.len())
}

/// The seat makes turns, at most so many. Why there were no more, and how many questions for a sign
/// of life they sent, if they sent nothing else.
fn turn<D: Hall, T: Ledger, U: Ledger, V: Ledger>(
    rt: &impl Wait,
    alloc: Global,
    lock: &ZoneLock<FixedPool, D, T, U, V>,
    seat: &mut Seat<D, T, U, V>,
    counts: &mut Counts,
    most: usize,
) -> Option<(TurnsEnd, usize)> {
    let late = Moment::new(LATE)?;
    let mut outcome = Outcome::noted(Note::Idle, None);
    let mut sent = Vec::with_capacity(alloc, most).ok()?;
    let end = lock.turns(rt, seat, late, most, &mut outcome, &mut sent, counts);
    Some((end, questions(&sent)?))
}

/// The entries leave, into whose place the room of those that left before comes. The place of the
/// first one, how many there are, and whether steps are recorded further.
fn hand_out<D: Hall, T: Ledger, U: Ledger, V: Ledger>(
    rt: &impl Wait,
    alloc: Global,
    lock: &ZoneLock<FixedPool, D, T, U, V>,
    gathered: &mut Gathered,
) -> (usize, usize, bool) {
    let mut room = mem::replace(&mut gathered.entries, Vec::new(alloc));
    room.clear();
    let HandedOut {
        first,
        entries,
        is_recorded,
    } = lock.hand_out(rt, room);
    let count = entries.len();
    gathered.entries = entries;
    (first, count, is_recorded)
}

/// The entries are let go. How many there are, and whether the state in which they begin was there.
fn discard<D: Hall, T: Ledger, U: Ledger, V: Ledger>(
    rt: &impl Wait,
    alloc: Global,
    lock: &ZoneLock<FixedPool, D, T, U, V>,
) -> (usize, bool) {
    let Discarded { base, entries } = lock.discard(rt, Vec::new(alloc));
    (entries.len(), base.is_some())
}

/// The zone is listed: so many endpoints, and so many calls.
fn list<D: Hall, T: Ledger, U: Ledger, V: Ledger>(
    rt: &impl Wait,
    lock: &ZoneLock<FixedPool, D, T, U, V>,
    endpoints: usize,
    calls: usize,
) -> Looked {
    match lock.list(rt) {
        Ok(listing) => compare_listing(&listing, endpoints, calls),
        Err(_) => Err("memory for a list"),
    }
}

/// The seat does this. Fails with this name, or with a fact, if something else comes of it.
fn perform<D: Hall, T: Ledger, U: Ledger, V: Ledger>(
    rt: &impl Wait,
    alloc: Global,
    lock: &ZoneLock<FixedPool, D, T, U, V>,
    seat: &mut Seat<D, T, U, V>,
    gathered: &mut Gathered,
    name: &'static str,
    act: Act,
) -> Looked {
    let is_so = match act {
        Act::Apply(request, call, place) => {
            gathered.keep(apply(rt, alloc, lock, seat, request), request, call, place)
        }
        Act::Step(request, times) => step(rt, alloc, lock, seat, request, times),
        Act::Turn(most, end, count) => {
            turn(rt, alloc, lock, seat, &mut gathered.counts, most) == Some((end, count))
        }
        Act::Turned(deed, count) => gathered.counts.get(Count::Turn(deed)) == count,
        Act::Sent(reply, count) => gathered.counts.get(Count::Reply(reply)) == count,
        Act::Offer(pool, limit, fault) => {
            return offer(rt, lock, seat, &mut gathered.receipts, pool, limit, fault);
        }
        Act::Cut(first, count) => cut(rt, lock, gathered, first, count),
        Act::CutInVain => matches!(lock.cut(rt), Err(CutFault::NoBase)),
        Act::Discard(count, has_base) => discard(rt, alloc, lock) == (count, has_base),
        Act::HandOut(first, count, is_recorded) => {
            hand_out(rt, alloc, lock, gathered) == (first, count, is_recorded)
        }
        Act::Entry(number, request, call) => gathered.has_entry(number, request, call),
        Act::List(endpoints, calls) => return list(rt, lock, endpoints, calls),
        Act::Look => return look(rt, alloc, lock),
    };
    expect(is_so, name)
}

/// Does all this in turn. Fails with the name of the first row of which something else comes.
pub fn act_in_turn<D: Hall, T: Ledger, U: Ledger, V: Ledger>(
    rt: &impl Wait,
    alloc: Global,
    lock: &ZoneLock<FixedPool, D, T, U, V>,
    seats: &mut [Seat<D, T, U, V>],
    gathered: &mut Gathered,
    rows: &[Row],
) -> Looked {
    for (name, number, act) in rows {
        let seat = seats.get_mut(*number).ok_or("a seat")?;
        perform(rt, alloc, lock, seat, gathered, name, *act)?;
    }
    Ok(())
}
