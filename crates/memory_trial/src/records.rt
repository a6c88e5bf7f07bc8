//! Steps that are recorded in a book while memory is refused, and the book that is then run
//! again. If a call is refused, the zone and the book are as they were, and the same call with
//! memory is done.

ghost use Rattle.std.specs.Prelude.{◌<◌, OnOk, vec_len, vec_capacity};

use crate::rehearsal::{Stage, step};
use crate::sights::sight_of;
use book_audit::replays;
use books::{Book, Entry};
use pools::Pool;
use ras_core::{Change, Event, Outcome, Snapshot};
use std::alloc::Global;
use std::mem;
use step_check::same;

const CHANGED: &str = "a refused call changed the zone or the book";

const TWICE: &str = "a call for a book was refused twice";

const OTHERWISE: &str = "the book doesn't lead to the zone";

/// Where the zone stands.
fn snapshot_of<P: Pool>(stage: &Stage<P>) -> Result<Snapshot, &'static str> {
    let before = sight_of(&stage.zone)?;
    match stage.zone.snapshot() {
        Ok(snapshot) => Ok(snapshot),
        Err(_) => {
            if !same(&before, &stage.zone) {
                return Err(CHANGED);
            }
            stage.zone.snapshot().map_err(|_| TWICE)
        }
    }
}

/// Makes room for one more entry.
fn reserve(book: &mut Book) -> Result<(), &'static str>
    ensures { OnOk result (vec_len book.new.entries < vec_capacity book.new.entries) }
{
    let entries = book.entries.len();
    match book.reserve_entry() {
        Ok(()) => Ok(()),
        Err(_) => {
            if book.entries.len() != entries {
                return Err(CHANGED);
            }
            match book.reserve_entry() {
                Ok(()) => Ok(()),
                Err(_) => Err(TWICE),
            }
        }
    }
}

/// The zone makes a step of the event, which is added to the book.
fn record<P: Pool>(
    stage: &mut Stage<P>,
    book: &mut Book,
    event: &Event,
) -> Result<(), &'static str> {
    reserve(book)?;
    let kept = event.copy().or_else(|_| event.copy()).map_err(|_| TWICE)?;
    let outcome = step(stage, event)?;
    let call = book.entries.len();
    book.add_reserved(Entry {
        seat: 0,
        call,
        event: Change::Event(kept),
        outcome,
    });
    Ok(())
}

/// The zone makes a step for each event. The book has as many entries as the zone made steps.
fn record_all<P: Pool>(
    stage: &mut Stage<P>,
    book: &mut Book,
    events: &[Event],
) -> Result<(), &'static str> {
    for event in events {
        record(stage, book, event)?;
        if stage.zone.steps() != book.entries.len() as u64 {
            return Err(OTHERWISE);
        }
    }
    Ok(())
}

/// Whether the book leads to the zone.
fn is_run<P: Pool>(stage: &Stage<P>, book: &Book) -> Result<bool, &'static str> {
    let before = sight_of(&stage.zone)?;
    let entries = book.entries.len();
    match replays(book, &stage.zone) {
        Ok(is_run) => Ok(is_run),
        Err(_) => {
            if !same(&before, &stage.zone) || book.entries.len() != entries {
                return Err(CHANGED);
            }
            replays(book, &stage.zone).map_err(|_| TWICE)
        }
    }
}

/// Hands out the outcomes of the steps of a book.
fn hand_out(entries: Vec<Entry>, outcomes: &mut Vec<Outcome>) -> Result<(), &'static str> {
    for entry in entries {
        let (_, outcome) = entry.into_change();
        if outcomes.push(outcome).is_err() {
            return Err("no place for an outcome");
        }
    }
    Ok(())
}

/// The zone makes a step for each event, and the book of these steps leads to it.
pub fn keep_book<P: Pool>(
    alloc: Global,
    stage: &mut Stage<P>,
    events: &[Event],
    outcomes: &mut Vec<Outcome>,
) -> Result<(), &'static str> {
    let mut book = Book::new(alloc, snapshot_of(stage)?);
    let recorded = record_all(stage, &mut book, events);
    let led = is_run(stage, &book);
    let entries = mem::replace(&mut book.entries, Vec::new(alloc));
    drop(book);
    let handed_out = hand_out(entries, outcomes);
    recorded?;
    if !led? {
        return Err(OTHERWISE);
    }
    handed_out
}
