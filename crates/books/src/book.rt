//! A book, and what is told of its entries.

ghost use Rattle.std.specs.Prelude.{◌≡◌, ◌<◌, ◌++◌, ◌∷◌, [], OnOk, vec_len, vec_capacity};

use ras_core::Snapshot;
use std::alloc::{AllocError, Global};
use zone_events::{Change, Outcome};

/// One step: which seat made it, the number of that seat's call, counted from 0, and the event with
/// its outcome. Like an event stands here a pool that took the place of another one.
pub struct Entry {
    pub seat: usize,
    pub call: usize,
    pub event: Change,
    pub outcome: Outcome,
}

// By hand, so that it is one call where one is dropped.
impl Drop for Entry {
    fn drop(self) {
        let Entry {
            seat: _,
            call: _,
            event: _,
            outcome: _,
        } = self;
    }
}

impl Entry {
    /// What changed, and what came of that.
    pub fn into_change(self) -> (Change, Outcome)
        ensures event { result.0 ≡ self.event }
        ensures outcome { result.1 ≡ self.outcome }
    {
        let Entry {
            seat: _,
            call: _,
            event,
            outcome,
        } = self;
        (event, outcome)
    }
}

/// What a seat is told of a step that it made: the entry, and the place at which it stands in the
/// book.
pub struct Receipt {
    pub seat: usize,
    pub call: usize,
    pub place: usize,
    pub event: Change,
    pub outcome: Outcome,
}

// By hand, so that it is one call where one is dropped.
impl Drop for Receipt {
    fn drop(self) {
        let Receipt {
            seat: _,
            call: _,
            place: _,
            event: _,
            outcome: _,
        } = self;
    }
}

/// The state in which a history began, and its steps in the order in which they were made.
pub struct Book {
    pub base: Snapshot,
    pub entries: Vec<Entry>,
}

// By hand, so that it is one call where one is dropped.
impl Drop for Book {
    fn drop(self) {
        let Book {
            base: _,
            entries: _,
        } = self;
    }
}

impl Book {
    /// A book without entries. This takes no memory.
    pub fn new(alloc: Global, base: Snapshot) -> Self
        ensures base { result.base ≡ base }
        ensures entries { result.entries.items ≡ [] }
    {
        Book {
            base,
            entries: Vec::new(alloc),
        }
    }

    /// Makes room for one more entry.
    pub fn reserve_entry(&mut self) -> Result<(), AllocError>
        ensures base { self.new.base ≡ self.old.base }
        ensures entries { self.new.entries.items ≡ self.old.entries.items }
        ensures room { OnOk result (vec_len self.new.entries < vec_capacity self.new.entries) }
    {
        self.entries.reserve(1)?;
        Ok(())
    }

    /// Adds an entry, for which there is room, behind the others. This takes no memory.
    pub fn add_reserved(&mut self, entry: Entry)
        requires { vec_len self.old.entries < vec_capacity self.old.entries }
        ensures base { self.new.base ≡ self.old.base }
        ensures entries { self.new.entries.items ≡ self.old.entries.items ++ entry ∷ [] }
    {
        self.entries.push_reserved(entry);
    }
}
