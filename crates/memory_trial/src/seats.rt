//! Calls of a locked zone while memory is refused. If one is refused, the zone is as it was, and
//! the same call with memory is done.

use crate::rehearsal::are_same;
use books::{Chapter, Receipt};
use pools::Pool;
use ras_core::{Event, Prepared, StepFault, prepare};
use std::alloc::{AllocError, Global};
use std::sync::Wait;
use std::sync::atomic::{AtomicU64, Ordering};
use std::sync::ledger::Ledger;
use zone_lock::{CutFault, Hall, Listing, Seat, ZoneLock};

const CHANGED: &str = "a refused call changed the locked zone";

const TWICE: &str = "a call of a lock was refused twice";

/// A lock, and a meter that shows what the pools of its zone have lent.
#[derive(Drop)]
pub struct Hold<'a, P: Pool, D: Hall, T: Ledger, U: Ledger, V: Ledger, R> {
    pub rt: &'a R,
    pub alloc: Global,
    pub lock: &'a ZoneLock<P, D, T, U, V>,
    pub meter: &'a AtomicU64,
}

/// What the zone has; it is listed again if that was refused. Its pools have lent what its
/// calls use.
pub fn listing_of<P: Pool, D: Hall, T: Ledger, U: Ledger, V: Ledger, R: Wait>(
    hold: &Hold<'_, P, D, T, U, V, R>,
) -> Result<Listing, &'static str> {
    let listing = match hold.lock.list(hold.rt) {
        Ok(listing) => listing,
        Err(AllocError) => hold.lock.list(hold.rt).map_err(|_| TWICE)?,
    };
    if hold.meter.load(Ordering::SeqCst) != listing.in_use {
        return Err("a locked zone has a loan that no call uses");
    }
    Ok(listing)
}

fn is_same(one: &Listing, other: &Listing) -> bool {
    are_same(one.endpoints.as_slice(), other.endpoints.as_slice())
        && one.calls == other.calls
        && one.in_use == other.in_use
        && one.limit == other.limit
}

/// Refuses a zone that isn't as it was.
fn expect_unchanged<P: Pool, D: Hall, T: Ledger, U: Ledger, V: Ledger, R: Wait>(
    hold: &Hold<'_, P, D, T, U, V, R>,
    before: &Listing,
) -> Result<(), &'static str> {
    let now = listing_of(hold)?;
    if is_same(&now, before) {
        Ok(())
    } else {
        Err(CHANGED)
    }
}

fn try_prepared(alloc: Global, event: &Event) -> Result<Prepared, AllocError> {
    prepare(alloc, event.copy()?)
}

/// The event, read; it is read again if that was refused.
fn prepared(alloc: Global, event: &Event) -> Result<Prepared, &'static str> {
    try_prepared(alloc, event)
        .or_else(|_| try_prepared(alloc, event))
        .map_err(|_| TWICE)
}

/// The seat makes a step of the event. None if it is refused for want of memory.
fn try_apply<P: Pool, D: Hall, T: Ledger, U: Ledger, V: Ledger, R: Wait>(
    hold: &Hold<'_, P, D, T, U, V, R>,
    seat: &mut Seat<D, T, U, V>,
    event: &Event,
) -> Result<Option<Receipt>, &'static str> {
    let prepared = prepared(hold.alloc, event)?;
    match hold.lock.apply(hold.rt, seat, prepared) {
        Ok(receipt) => Ok(Some(receipt)),
        Err(StepFault::Memory) => Ok(None),
        Err(StepFault::Closed) => Err("the locked zone is closed"),
    }
}

/// The seat makes a step of the event. How many steps were made before it, by all and by this seat,
/// is told by its receipt: a refused step isn't among them. If it is refused, the zone has what it
/// had, and None is returned.
pub fn apply<P: Pool, D: Hall, T: Ledger, U: Ledger, V: Ledger, R: Wait>(
    hold: &Hold<'_, P, D, T, U, V, R>,
    seat: &mut Seat<D, T, U, V>,
    event: &Event,
) -> Result<Option<Receipt>, &'static str> {
    let before = listing_of(hold)?;
    let receipt = try_apply(hold, seat, event)?;
    if receipt.is_none() {
        expect_unchanged(hold, &before)?;
    }
    Ok(receipt)
}

/// Ends a chapter. A refused call leaves its entries where they were: they are in the chapter that
/// ends then.
pub fn cut<P: Pool, D: Hall, T: Ledger, U: Ledger, V: Ledger, R: Wait>(
    hold: &Hold<'_, P, D, T, U, V, R>,
) -> Result<Chapter, &'static str> {
    let before = listing_of(hold)?;
    let chapter = match hold.lock.cut(hold.rt) {
        Ok(chapter) => chapter,
        Err(CutFault::NoBase) => return Err("the state in which the chapter begins is gone"),
        Err(CutFault::Memory) => {
            expect_unchanged(hold, &before)?;
            hold.lock.cut(hold.rt).map_err(|_| TWICE)?
        }
    };
    expect_unchanged(hold, &before)?;
    Ok(chapter)
}
