//! Chapters of a history.

ghost use Rattle.std.specs.Prelude.{◌≡◌};
ghost use Rattle.books.specs.Books.{BookRun};
ghost use Rattle.books.specs.Totals.{no_totals, returned_by, totals_with};

use crate::book::Entry;
use crate::shared::SharedSnapshot;
use crate::totals::{Totals, totals_of};
use ras_core::Snapshot;
use std::marker::Model;

/// A chapter of a history: the place of its first entry in the whole history, the state in which it
/// begins, its entries, and the state to which they lead.
pub struct Chapter {
    first: usize,
    base: SharedSnapshot,
    entries: Vec<Entry>,
    end: SharedSnapshot,
}

impl Model for Chapter {
    ghost use Rattle.std.specs.Coded.{codes};
    ghost use Rattle.std.specs.FinMap as map;
    ghost use Rattle.books.specs.Books.{BookRun};
    ghost use Rattle.books.specs.Chapters.{ChapterValue};

    ghost Value = { ChapterValue };

    ghost coded = { Prim.hlevel (codes, map.code) };

    ghost view = { λ c. record {
      first = c.first;
      base = c.base;
      entries = c.entries.items;
      end = c.end;
    } };

    ghost invariant = { λ c. BookRun c.base c.entries.items c.end };
}

// Written by hand, so that whoever owns a chapter makes one call at each exit.
impl Drop for Chapter {
    fn drop(self) {
        let Chapter {
            first: _,
            base: _,
            entries: _,
            end: _,
        } = self;
    }
}

impl Chapter {
    /// A chapter of entries that lead from the one state to the other.
    ///
    /// promise chapter-leads-to-its-end: Entries of a chapter lead from its first state to its last
    /// (`BookRun`).
    pub fn new(first: usize, base: SharedSnapshot, entries: Vec<Entry>, end: SharedSnapshot) -> Self
        requires { BookRun base entries.items end }
        ensures first { result.first ≡ first }
        ensures base { result.base ≡ base }
        ensures entries { result.entries ≡ entries.items }
        ensures end { result.end ≡ end }
    {
        Chapter {
            first,
            base,
            entries,
            end,
        }
    }

    /// The place of its first entry in the whole history.
    pub fn first(&self) -> usize
        ensures { result ≡ self.now.first }
    {
        self.first
    }

    /// The state in which it begins.
    pub fn base(&self) -> &Snapshot
        ensures { result.now ≡ self.now.base }
    {
        self.base.snapshot()
    }

    /// Its entries: they lead from the state in which it begins to that in which it ends.
    pub fn entries(&self) -> &[Entry]
        ensures entries { result.now ≡ self.now.entries }
        ensures run { BookRun self.now.base self.now.entries self.now.end }
    {
        &self.entries
    }

    /// What its steps add up to. What came back is what was in use when the chapter began, plus
    /// what was lent in it, less what was in use at its end.
    pub fn totals(&self) -> Totals
        ensures { result ≡ totals_with no_totals self.now.entries
            (returned_by self.now.base self.now.entries self.now.end) }
    {
        let mut totals = totals_of(&self.entries);
        let before = self.base().machine().tables().calls().total();
        let after = self.end().machine().tables().calls().total();
        totals.returned = before as u128 + totals.lent - after as u128;
        totals
    }

    /// The state in which it ends.
    pub fn end(&self) -> &Snapshot
        ensures { result.now ≡ self.now.end }
    {
        self.end.snapshot()
    }
}
