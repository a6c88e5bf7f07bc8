//! A zone in which two endpoints register, one calls the other, and the pool of that call is
//! replaced, with the book of its steps.

use crate::fixtures::event;
use books::{Book, Entry};
use pools::FixedPool;
use ras_core::{Change, Event, Moment, PoolChange, Zone, figures_of};
use std::alloc::Global;
use std::test::Fail;
use vectors::requests::{ARQ, GRQ, RRQ_101, RRQ_102};

/// The zone makes a step of this event, which is added to the book.
fn record(book: &mut Book, zone: &mut Zone<FixedPool>, event: Event) -> Result<(), Fail> {
    book.reserve_entry()?;
    let kept = event.copy()?;
    let outcome = zone.step(event)?;
    let call = book.entries.len();
    book.add_reserved(Entry {
        seat: 0,
        call,
        event: Change::Event(kept),
        outcome,
    });
    Ok(())
}

/// A pool of 2,000 units takes the place of the one from which the call has its bandwidth, which is
/// added to the book.
fn replace(book: &mut Book, zone: &mut Zone<FixedPool>) -> Result<(), Fail> {
    book.reserve_entry()?;
    let fresh = FixedPool::new(2_000);
    let change = PoolChange {
        pool: 0,
        offered: figures_of(&fresh),
        moment: Moment::new(6).ok_or("a moment")?,
    };
    let Ok((outcome, old)) = zone.replace(0, fresh, change.moment) else {
        return Err(Fail::from("a pool that is replaced"));
    };
    drop(old);
    let call = book.entries.len();
    book.add_reserved(Entry {
        seat: 0,
        call,
        event: Change::PoolChange(change),
        outcome,
    });
    Ok(())
}

/// Two endpoints register, the first one calls the second, its request comes again, a turn finds
/// nothing that is due, and the pool is replaced.
pub fn record_call(alloc: Global, book: &mut Book, zone: &mut Zone<FixedPool>) -> Result<(), Fail> {
    let requests: [(u64, &[u8]); 5] = [
        (0, &GRQ),
        (1, &RRQ_101),
        (2, &RRQ_102),
        (3, &ARQ),
        (4, &ARQ),
    ];
    for (milliseconds, request) in requests {
        record(book, zone, event(alloc, request, milliseconds)?)?;
    }
    record(book, zone, Event::Turn(Moment::new(5).ok_or("a moment")?))?;
    replace(book, zone)
}
