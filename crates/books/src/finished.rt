//! How a history ends.

ghost use Rattle.std.specs.Prelude.{◌≡◌};
ghost use Rattle.books.specs.Books.{BookRun};
ghost use Rattle.books.specs.Chapters.{base_or};

use crate::book::Entry;
use crate::shared::SharedSnapshot;
use crate::totals::Totals;
use pools::Pool;
use ras_core::Zone;
use ras_machine::Machine;
use std::marker::Model;

/// A history that goes no further: the zone as it is left; its last entries; the state from which
/// they lead to the zone, or nothing if that is the state of the zone itself; the place of the
/// first of these entries in the whole history; and the totals of the entries before it, which were
/// cut off as chapters or let go.
pub struct Finished<P: Pool> {
    zone: Zone<P>,
    base: Option<SharedSnapshot>,
    entries: Vec<Entry>,
    first: usize,
    carried: Totals,
}

impl<P: Pool> Model for Finished<P> {
    ghost use Rattle.std.specs.Coded.{codes};
    ghost use Rattle.std.specs.FinMap as map;
    ghost use Rattle.books.specs.Books.{BookRun};
    ghost use Rattle.books.specs.Chapters.{FinishedValue, base_or};

    ghost Value = { FinishedValue };

    ghost coded = { Prim.hlevel (codes, map.code) };

    ghost view = { λ f. record {
      zone = f.zone;
      base = base_or f.base f.zone.state;
      entries = f.entries.items;
      first = f.first;
      carried = f.carried;
    } };

    ghost invariant = { λ f. BookRun (base_or f.base f.zone.state) f.entries.items f.zone.state };
}

// Written by hand, so that whoever owns what is left makes one call at each exit.
impl<P: Pool> Drop for Finished<P> {
    fn drop(self) {
        let Finished {
            zone: _,
            base: _,
            entries: _,
            first: _,
            carried: _,
        } = self;
    }
}

impl<P: Pool> Finished<P> {
    /// A history whose last entries lead from this state to the zone. If no state is given, it is
    /// that of the zone.
    ///
    /// promise finished-history-leads-to-its-zone: Entries of a finished history lead to its zone
    /// (`BookRun`).
    pub fn new(
        zone: Zone<P>,
        base: Option<SharedSnapshot>,
        entries: Vec<Entry>,
        first: usize,
        carried: Totals,
    ) -> Self
        requires { BookRun (base_or base zone.state) entries.items zone.state }
        ensures zone { result.zone ≡ zone }
        ensures base { result.base ≡ base_or base zone.state }
        ensures entries { result.entries ≡ entries.items }
        ensures first { result.first ≡ first }
        ensures carried { result.carried ≡ carried }
    {
        Finished {
            zone,
            base,
            entries,
            first,
            carried,
        }
    }

    /// The zone as it is left.
    pub fn zone(&self) -> &Zone<P>
        ensures { result.now ≡ self.now.zone }
    {
        &self.zone
    }

    /// The state from which the entries lead: the one after the last entry that was cut off or let
    /// go, or, if there was none, the one with which the history began.
    pub fn base(&self) -> &Machine
        ensures { result.now ≡ self.now.base }
    {
        match &self.base {
            Some(base) => base.snapshot().machine(),
            None => self.zone.machine(),
        }
    }

    /// The entries that weren't cut off or let go: they lead to the state of the zone.
    pub fn entries(&self) -> &[Entry]
        ensures entries { result.now ≡ self.now.entries }
        ensures run { BookRun self.now.base self.now.entries self.now.zone.state }
    {
        &self.entries
    }

    /// The place of the first of these entries in the whole history.
    pub fn first(&self) -> usize
        ensures { result ≡ self.now.first }
    {
        self.first
    }

    /// The totals of the entries before these, which were cut off as chapters or let go.
    pub fn carried(&self) -> Totals
        ensures { result ≡ self.now.carried }
    {
        self.carried
    }
}
