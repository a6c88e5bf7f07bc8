//! Whether a book is a run, and no longer one once an entry of it is changed.

use crate::fixtures::{ENDPOINT, zone};
use crate::replays::recorded::record_call;
use book_audit::replays;
use books::{Book, Entry};
use facts::ensure_of;
use pools::{FixedPool, Lend};
use ras_core::{Change, Datagram, Moment, Note, PoolChange, Zone};
use ras_module::Octets;
use std::alloc::Global;
use std::test::Fail;

/// What is altered in the book of the call.
#[derive(Clone, Copy)]
enum Altered {
    Nothing,
    /// An octet of the first reply.
    Octet,
    /// The repeat is left out.
    LeftOut,
    /// Discovery and the first registration are exchanged.
    Exchanged,
    /// The second endpoint is given the identifier of the first one.
    UsedIdentifier,
    /// The pool lends a unit more to the call.
    UnitMore,
    /// The repeat is noted as served.
    Noted,
    /// A kept reply that is not over is dropped.
    Dropped,
    /// The outcome of the replacement tells of another pool.
    Told,
    /// The fresh pool has a unit lent.
    NotIdle,
    /// The limit of the fresh pool is a unit below the 1,280 units that the call uses.
    TooSmall,
    /// It took the place of a pool that isn't there.
    NoPool,
    /// Its limit was a unit higher.
    Limit,
    /// It was a millisecond later.
    Later,
}

const CHANGES: [(&str, Altered); 14] = [
    ("nothing", Altered::Nothing),
    ("an octet of a reply", Altered::Octet),
    ("an entry is left out", Altered::LeftOut),
    ("two entries are exchanged", Altered::Exchanged),
    ("an identifier is given twice", Altered::UsedIdentifier),
    ("a unit more is lent", Altered::UnitMore),
    ("a repeat is noted as served", Altered::Noted),
    ("a reply is dropped too early", Altered::Dropped),
    ("another pool is told", Altered::Told),
    ("the fresh pool has a loan", Altered::NotIdle),
    ("the fresh pool is too small", Altered::TooSmall),
    ("no pool was there", Altered::NoPool),
    ("the fresh pool has another limit", Altered::Limit),
    ("it was a millisecond later", Altered::Later),
];

fn entry_at(book: &mut Book, place: usize) -> Result<&mut Entry, Fail> {
    Ok(book.entries.get_mut(place).ok_or("an entry")?)
}

/// The first reply with another last octet.
fn change_octet(alloc: Global, book: &mut Book) -> Result<(), Fail> {
    let first = entry_at(book, 0)?;
    let output = first.outcome.output.as_ref().ok_or("a reply")?;
    let mut bytes = output.bytes.as_slice().to_vec(alloc)?;
    let last = bytes.pop().ok_or("an octet")?;
    bytes.push(last ^ 1)?;
    first.outcome.output = Some(Datagram {
        to: ENDPOINT,
        bytes: Octets::from_vec(bytes),
    });
    Ok(())
}

/// The repeat is left out, or the first two entries are exchanged.
fn rearrange(book: &mut Book, leaves_out: bool) -> Result<(), Fail> {
    if book.entries.len() != 7 {
        return Err(Fail::from("seven entries"));
    }
    if leaves_out {
        drop(book.entries.remove(4));
    } else {
        book.entries.swap(0, 1);
    }
    Ok(())
}

/// The change of the last entry, altered so.
fn alter_change(book: &mut Book, what: Altered) -> Result<(), Fail> {
    let entry = entry_at(book, 6)?;
    let Change::PoolChange(change) = &entry.event else {
        return Err(Fail::from("a replacement"));
    };
    let PoolChange {
        mut pool,
        mut offered,
        mut moment,
    } = *change;
    match what {
        Altered::NotIdle => offered.lent = 1,
        Altered::TooSmall => offered.limit = 1_279,
        Altered::NoPool => pool = 1,
        Altered::Limit => offered.limit = 2_001,
        _ => moment = Moment::new(7).ok_or("a moment")?,
    }
    entry.event = Change::PoolChange(PoolChange {
        pool,
        offered,
        moment,
    });
    Ok(())
}

fn alter(alloc: Global, book: &mut Book, what: Altered) -> Result<(), Fail> {
    match what {
        Altered::Nothing => {}
        Altered::Octet => change_octet(alloc, book)?,
        Altered::LeftOut => rearrange(book, true)?,
        Altered::Exchanged => rearrange(book, false)?,
        Altered::UsedIdentifier => {
            let given = entry_at(book, 1)?.outcome.given;
            entry_at(book, 2)?.outcome.given = given;
        }
        Altered::UnitMore => entry_at(book, 3)?.outcome.answer = Some(Lend::Lent(1_281)),
        Altered::Noted => entry_at(book, 4)?.outcome.note = Note::Served,
        Altered::Dropped => entry_at(book, 3)?.outcome.dropped = Some(0),
        Altered::Told => entry_at(book, 6)?.outcome.note = Note::Replaced(1),
        _ => alter_change(book, what)?,
    }
    Ok(())
}

/// Makes the book of a call, and alters it so. Whether it leads to its zone then.
fn alter_and_replay(
    alloc: Global,
    book: &mut Book,
    zone: &mut Zone<FixedPool>,
    what: Altered,
) -> Result<bool, Fail> {
    record_call(alloc, book, zone)?;
    alter(alloc, book, what)?;
    Ok(replays(book, zone)?)
}

// A zone and a book that are dropped at each of many exits make a test costly to prove, so what is
// asked of them stands in functions that borrow them.

/// Does so with a book that begins at this zone.
fn replay_from(alloc: Global, zone: &mut Zone<FixedPool>, what: Altered) -> Result<bool, Fail> {
    let mut book = Book::new(alloc, zone.snapshot()?);
    let replays = alter_and_replay(alloc, &mut book, zone, what);
    drop(book);
    replays
}

/// Whether the book of a call in a zone of its own leads to that, once it was altered so.
fn replays_with(alloc: Global, what: Altered) -> Result<bool, Fail> {
    let mut zone = zone(alloc)?;
    let replays = replay_from(alloc, &mut zone, what);
    drop(zone);
    replays
}

#[test]
fn a_book_of_a_call_is_a_run_and_each_change_is_found(rt: HostRuntime) -> Result<(), Fail> {
    for (name, what) in CHANGES {
        let is_run = replays_with(rt.alloc(), what)?;
        let is_whole = matches!(what, Altered::Nothing);
        ensure_of(
            name,
            is_run == is_whole,
            "a book leads to its zone if it is whole",
        )?;
    }
    Ok(())
}
