//! The table of the moments by which things are due.

ghost use Rattle.std.specs.Prelude.{◌≡◌, max, ◌≤◌, ◌<◌, ◌+◌, ◌↔◌, ℕ, Option, None, Some};
ghost use Rattle.std.specs.Prelude.{IsOk, IfOk, IfSome, OnOk, OnErr};
ghost use Rattle.std.specs.FinMap as map;
ghost use Rattle.deadlines.specs.Deadlines.{Moments, renamed, IsLeast};

use crate::due::Due;
use crate::heap::{add, relabel, row_of, settle, take_out};
use std::alloc::{AllocError, Global};
use std::marker::Model;

/// At most one moment for each place. Places are numbers, as those of rows in a `Vec`, and moments
/// are in any unit. Contracts see a finite map from places to moments, the room, and the memory that
/// is held: places below the room can have a moment with no further memory. For n moments, a change
/// takes about log2(n) steps.
#[derive(Drop)]
pub struct Deadlines {
    // a heap: the children of the row at i stand at 2 i + 1 and 2 i + 2, and are due no earlier
    rows: Vec<Due>,
    // where the row of each place stands, if it has one; else this is any number
    at: Vec<usize>,
}

impl Model for Deadlines {
    ghost use Rattle.std.specs.Prelude.{vec_capacity, vec_len};
    ghost use Rattle.std.specs.Coded.{codes};
    ghost use Rattle.std.specs.FinMap as map;
    ghost use Rattle.deadlines.specs.Deadlines.{DeadlineTable};

    ghost Value = { DeadlineTable };

    ghost coded = { Prim.hlevel (codes, map.code) };

    ghost use Rattle.deadlines.specs.inside.Heap.{IsStored, moments_of};

    ghost view = { λ t. record {
      moments = moments_of t.rows.items;
      room = vec_len t.at;
      held = (vec_capacity t.rows, vec_capacity t.at);
    } };

    ghost invariant = { λ t. IsStored t.rows.items t.at.items (vec_capacity t.rows) };
}

impl Deadlines {
    /// No moment. This takes no memory.
    pub fn new(alloc: Global) -> Self
        ensures moments { result.moments ≡ map.empty }
        ensures room { result.room ≡ 0 }
    {
        Deadlines {
            rows: Vec::new(alloc),
            at: Vec::new(alloc),
        }
    }

    /// An equal table. It fails only for want of memory.
    pub fn copy(&self) -> Result<Self, AllocError>
        ensures moments { IfOk result (λ copy. copy.moments ≡ self.now.moments) }
        ensures room { IfOk result (λ copy. copy.room ≡ self.now.room) }
    {
        let mut rows = Vec::new(*self.rows.allocator());
        rows.reserve(self.at.len())?;
        rows.extend_from_slice(&self.rows)?;
        let mut at = Vec::new(*self.at.allocator());
        at.extend_from_slice(&self.at)?;
        Ok(Deadlines { rows, at })
    }

    /// How many places have a moment.
    pub fn len(&self) -> usize
        ensures { result ≡ map.len self.now.moments }
    {
        self.rows.len()
    }

    /// The number below which places can have a moment with no further memory.
    pub fn room(&self) -> usize
        ensures { result ≡ self.now.room }
    {
        self.at.len()
    }

    /// The moment of this place, or None if it has none.
    pub fn get(&self, place: usize) -> Option<u64>
        ensures { result ≡ map.get self.now.moments place }
    {
        let i = row_of(&self.rows, &self.at, place)?;
        Some(self.rows[i].moment)
    }

    /// The least moment, with any one of the places that have it. None if no place has a moment.
    ///
    /// promise earliest-has-none-before: The earliest is an entry that no other is before; None if
    /// and only if there is none (`IsLeast`).
    pub fn earliest(&self) -> Option<(u64, usize)>
        ensures there { IfSome result (λ d. map.get self.now.moments d.1 ≡ Some d.0) }
        ensures least { IfSome result (λ d. IsLeast self.now.moments d.0) }
        ensures none { (result ≡ None) ↔ (self.now.moments ≡ map.empty) }
    {
        let first = self.rows.first()?;
        Some((first.moment, first.place))
    }

    /// Makes room for moments of the places below this number. It fails only for want of memory,
    /// and then nothing is changed.
    pub fn reserve(&mut self, places: usize) -> Result<(), AllocError>
        ensures moments { self.new.moments ≡ self.old.moments }
        ensures ok { OnOk result (self.new.room ≡ max self.old.room places) }
        ensures err { OnErr result (self.new.room ≡ self.old.room) }
        ensures succeeds { places ≤ self.old.room → IsOk result }
    {
        if places <= self.at.len() {
            return Ok(());
        }
        self.rows.reserve(places - self.rows.len())?;
        self.at.resize(places, 0)
    }

    /// Gives this place the moment, whether it had one or not. This takes no memory.
    ///
    /// promise deadlines-are-a-finite-map: Moments are a finite map from places, and each change is
    /// one equation on it; only `reserve` and copies want memory.
    pub fn set(&mut self, place: usize, moment: u64)
        requires { place < self.old.room }
        ensures moments { self.new.moments ≡ map.insert self.old.moments place moment }
        ensures room { self.new.room ≡ self.old.room }
        ensures held { self.new.held ≡ self.old.held }
    {
        match row_of(&self.rows, &self.at, place) {
            Some(i) => {
                self.rows[i].moment = moment;
                settle(&mut self.rows, &mut self.at, i);
            }
            None => add(&mut self.rows, &mut self.at, Due { moment, place }),
        }
    }

    /// Takes the moment of this place away, if there is one. This takes no memory.
    pub fn clear(&mut self, place: usize)
        ensures moments { self.new.moments ≡ map.remove self.old.moments place }
        ensures room { self.new.room ≡ self.old.room }
        ensures held { self.new.held ≡ self.old.held }
    {
        if let Some(i) = row_of(&self.rows, &self.at, place) {
            take_out(&mut self.rows, &mut self.at, i);
        }
    }

    /// Gives the moment of `from` to `to`, in place of what `to` had. If `from` has none, then `to`
    /// has none either. After this `from` has none, unless it is `to`. This takes no memory.
    pub fn rename(&mut self, from: usize, to: usize)
        requires { to < self.old.room }
        ensures moments { self.new.moments ≡ renamed self.old.moments from to }
        ensures room { self.new.room ≡ self.old.room }
        ensures held { self.new.held ≡ self.old.held }
    {
        if from == to {
            return;
        }
        self.clear(to);
        if let Some(i) = row_of(&self.rows, &self.at, from) {
            relabel(&mut self.rows, &mut self.at, i, to);
        }
    }
}
