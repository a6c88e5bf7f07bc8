//! The births of entries by the places of their rows.

ghost use Rattle.std.specs.Prelude.{◌≡◌, ◌<◌, ◌≤◌, [], ◌∷◌, ◌++◌, length, set, slice_get};
ghost use Rattle.std.specs.Prelude.{false, nat_eq, position, swap_remove, IsTrue, IfSome};
ghost use Rattle.std.specs.List.{list_any};
ghost use Rattle.indexmap.specs.IndexMap.{values};
ghost use Rattle.kept_replies.specs.inside.Births.{AreBorn};

use crate::entry::KeptEntry;
use crate::key::KeptKey;
use crate::searches::place_of;
use indexmap::{IndexMap, IndexSet};
use std::alloc::Global;
use std::marker::Model;

/// Births by places, for look-ups by birth. It is whole unless memory was refused: then rows are
/// searched, until there is memory for it again.
#[derive(Drop)]
pub(crate) struct BirthPlaces {
    // the births, in the order of the rows
    births: IndexSet<u64>,
    is_whole: bool,
}

impl Model for BirthPlaces {
    ghost use Rattle.indexmap.specs.IndexSet.{spare};
    ghost use Rattle.kept_replies.specs.inside.Births.{BirthTable};

    ghost Value = { BirthTable };

    ghost view = { λ t. record {
      births = t.births.keys;
      is_whole = t.is_whole;
      room = spare t.births;
    } };
}

impl BirthPlaces {
    /// No birth. This takes no memory.
    pub(crate) fn new(alloc: Global) -> Self
        ensures { AreBorn [] result }
    {
        BirthPlaces {
            births: IndexSet::new(alloc),
            is_whole: true,
        }
    }

    /// The births of these rows.
    pub(crate) fn of(alloc: Global, rows: &IndexMap<KeptKey, KeptEntry>) -> Self
        ensures { AreBorn rows.now.entries result }
    {
        let mut all = BirthPlaces::new(alloc);
        // one more than the rows, since to replace a birth another is added first
        let _room = all.births.reserve(rows.len().saturating_add(1));
        for (_key, entry) in rows.iter() {
            all.add(entry.born);
        }
        all
    }

    /// Makes it whole again, and ready for one more row, if there is memory for it.
    pub(crate) fn prepare(&mut self, rows: &IndexMap<KeptKey, KeptEntry>)
        requires { AreBorn rows.now.entries self.old }
        ensures { AreBorn rows.now.entries self.new }
    {
        if !self.is_whole {
            *self = BirthPlaces::of(*rows.allocator(), rows);
        }
        // for a birth that comes, and for one that replaces another, which is added first
        let _room = self.births.reserve(2);
    }

    /// The place of the row with this birth.
    pub(crate) fn place_of(&self, rows: &IndexMap<KeptKey, KeptEntry>, born: u64) -> Option<usize>
        requires { AreBorn rows.now.entries self.now }
        ensures { result ≡ position (λ entry. nat_eq entry.born born) (values rows.now) }
    {
        if self.is_whole {
            self.births.get_index_of(&born)
        } else {
            place_of(rows, born)
        }
    }

    /// Adds the birth of a row after the others. This takes no memory: it is whole no more if there
    /// is no room, and stays whole if there is.
    pub(crate) fn add(&mut self, born: u64)
        ensures still { IsTrue self.new.is_whole → IsTrue self.old.is_whole }
        ensures births { IsTrue self.new.is_whole
            → self.new.births ≡ self.old.births ++ born ∷ [] }
        ensures full { self.old.room ≡ 0 → self.new.is_whole ≡ false }
        ensures whole { IsTrue self.old.is_whole → 0 < self.old.room
            → list_any (nat_eq born) self.old.births ≡ false → IsTrue self.new.is_whole }
    {
        if self.is_whole && self.births.len() < self.births.capacity() {
            if let Ok(true) = self.births.insert(born) {
                return;
            }
        }
        self.is_whole = false;
    }

    /// Gives the row at this place another birth. This takes no memory.
    pub(crate) fn replace(&mut self, place: usize, born: u64)
        requires { IsTrue self.old.is_whole → place < length self.old.births }
        ensures still { IsTrue self.new.is_whole → IsTrue self.old.is_whole }
        ensures births { IsTrue self.new.is_whole
            → self.new.births ≡ set self.old.births place born }
    {
        if let Some(own) = self.births.get_index(place) {
            if *own == born {
                return;
            }
        }
        self.add(born);
        self.take_out(place);
    }

    /// Takes out the birth at this place, and the last comes in its place.
    pub(crate) fn take_out(&mut self, place: usize)
        ensures still { self.new.is_whole ≡ self.old.is_whole }
        ensures births { IfSome (slice_get self.old.births place)
            (λ born. self.new.births ≡ swap_remove self.old.births place born) }
    {
        self.births.swap_remove_index(place);
    }
}
