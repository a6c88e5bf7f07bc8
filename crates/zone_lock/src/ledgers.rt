//! The four ledgers of a lock: datagrams, turns, units lent, and pools that took the place of
//! others.

ghost use Rattle.std.specs.Prelude.{◌≡◌, ◌≤◌, ◌<◌, ◌+◌, ◌^◌};
ghost use Rattle.books.specs.Totals.{changes_of_kind, datagrams_of_kind, turns_of_kind};
ghost use Rattle.books.specs.Totals.{units_lent};
ghost use Rattle.zone_lock.specs.Seats.{seated_by};

use crate::seat::{Hall, Seat};
use books::{StepKind, units_lent};
use pools::Lend;
use std::sync::ledger::{Book, Ledger};

/// The books of the ledgers. Each has the total of what the seats have.
#[derive(Drop)]
pub(crate) struct Ledgers<D: Hall, T: Ledger, U: Ledger, V: Ledger> {
    pub(crate) datagrams: Book<D>,
    pub(crate) turns: Book<T>,
    pub(crate) lent: Book<U>,
    pub(crate) changes: Book<V>,
}

impl<D: Hall, T: Ledger, U: Ledger, V: Ledger> Ledgers<D, T, U, V> {
    /// Changes nothing: a seat made no more steps than all seats together.
    fn audit(&mut self, seat: &mut Seat<D, T, U, V>)
        ensures datagrams { self.new.datagrams.total ≡ self.old.datagrams.total }
        ensures turns { self.new.turns.total ≡ self.old.turns.total }
        ensures lent { self.new.lent.total ≡ self.old.lent.total }
        ensures changes { self.new.changes.total ≡ self.old.changes.total }
        ensures seat { seat.new ≡ seat.old }
        ensures bound { seat.old.calls
            ≤ self.old.datagrams.total + self.old.turns.total + self.old.changes.total }
    {
        self.datagrams.audit(&mut seat.datagrams);
        self.turns.audit(&mut seat.turns);
        self.changes.audit(&mut seat.changes);
    }

    /// Counts a step of a seat, in its shares and in the totals.
    pub(crate) fn count(
        &mut self,
        seat: &mut Seat<D, T, U, V>,
        kind: StepKind,
        answer: Option<Lend>,
    )
        requires { self.old.datagrams.total + self.old.turns.total + self.old.changes.total + 1
            < 2 ^ 64 }
        ensures seat { seat.new ≡ seated_by seat.old kind answer }
        ensures datagrams { self.new.datagrams.total
            ≡ self.old.datagrams.total + datagrams_of_kind kind }
        ensures turns { self.new.turns.total ≡ self.old.turns.total + turns_of_kind kind }
        ensures lent { self.new.lent.total ≡ self.old.lent.total + units_lent answer }
        ensures changes { self.new.changes.total
            ≡ self.old.changes.total + changes_of_kind kind }
    {
        self.audit(seat);
        self.datagrams.add(&mut seat.datagrams, kind.datagrams());
        self.turns.add(&mut seat.turns, kind.turns());
        self.lent.add(&mut seat.lent, units_lent(answer));
        self.changes.add(&mut seat.changes, kind.changes());
        seat.calls += 1;
    }
}
