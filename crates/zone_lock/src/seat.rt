//! Seats: who may make steps of a zone behind a lock.

ghost use Rattle.std.specs.Prelude.{◌≡◌, ◌≤◌, ◌<◌, ◌++◌, ◌∷◌, ℕ, [], None, vec_capacity};
ghost use Rattle.std.specs.Prelude.{vec_len};
ghost use Rattle.ras_machine.specs.Steps.{HasFewOctets};
ghost use Rattle.ras_machine.specs.State.{State};
ghost use Rattle.zone_lock.specs.Held.{entry_by, idle_state, receipt_at};

use books::{Entry, Receipt};
use ras_core::{Change, Outcome, PoolChange};
use ras_module::Reply;
use std::marker::{Brand, Model};
use std::sync::ledger::{Ledger, Share};

/// The first ledger of a lock, which also says how many seats the lock has, and in which state its
/// zone was locked.
pub trait Hall: Ledger {
    ghost all: { ℕ };

    ghost opened: { State };
}

impl Hall for Brand {
    ghost all = { 1 };

    ghost opened = { idle_state };
}

/// One who may make steps: its number, how many steps it made, and its shares of the four ledgers.
/// It may have a buffer with room for what any step sends, of which contracts see nothing.
#[derive(Drop)]
pub struct Seat<D: Hall, T: Ledger, U: Ledger, V: Ledger> {
    pub(crate) number: usize,
    pub(crate) calls: usize,
    pub(crate) datagrams: Share<D>,
    pub(crate) turns: Share<T>,
    pub(crate) lent: Share<U>,
    pub(crate) changes: Share<V>,
    pub(crate) buffer: Vec<u8>,
}

impl<D: Hall, T: Ledger, U: Ledger, V: Ledger> Model for Seat<D, T, U, V> {
    ghost use Rattle.std.specs.Prelude.{◌≡◌, ◌+◌};
    ghost use Rattle.zone_lock.specs.Seats.{Seated, seated};

    ghost Value = { Seated };

    ghost view = { λ s. seated s.number s.calls s.datagrams.amount s.turns.amount s.lent.amount
        s.changes.amount };

    ghost invariant = { λ s. (s.datagrams.parts ≡ 1) × (s.turns.parts ≡ 1) × (s.lent.parts ≡ 1)
        × (s.changes.parts ≡ 1)
        × (s.calls ≡ s.datagrams.amount + s.turns.amount + s.changes.amount) };
}

impl<D: Hall, T: Ledger, U: Ledger, V: Ledger> Seat<D, T, U, V> {
    /// Puts the entry of a step of this seat behind others, for which there is room. What is sent
    /// is copied as `copy_of` does.
    pub(crate) fn enter(
        &mut self,
        entries: &mut Vec<Entry>,
        event: Change,
        outcome: &Outcome,
        buffer: Vec<u8>,
    )
        requires place { vec_len entries.old < vec_capacity entries.old }
        requires empty { buffer.items ≡ [] }
        requires few { HasFewOctets outcome.now.output }
        requires room { Reply.MOST ≤ vec_capacity buffer }
        ensures seat { self.new ≡ self.old }
        ensures entry { entries.new.items ≡ entries.old.items
            ++ entry_by self.old.number self.old.calls event outcome.now ∷ [] }
    {
        let (number, call) = (self.number, self.calls);
        entries.push_reserved(Entry {
            seat: number,
            call,
            event,
            outcome: self.copy_of(outcome, buffer),
        });
    }

    /// Puts the entry of a step of this seat, in which a pool was replaced, behind others, for
    /// which there is room. Returns the receipt, which tells this place. The step sent nothing.
    pub(crate) fn enter_replacement(
        &mut self,
        entries: &mut Vec<Entry>,
        place: usize,
        change: &PoolChange,
        outcome: Outcome,
    ) -> Receipt
        requires place { vec_len entries.old < vec_capacity entries.old }
        requires nothing_sent { outcome.output ≡ None }
        ensures seat { self.new ≡ self.old }
        ensures entry { entries.new.items ≡ entries.old.items ++ entry_by self.old.number
            self.old.calls (Change.PoolChange change.now) outcome ∷ [] }
        ensures receipt { result ≡ receipt_at place (entry_by self.old.number self.old.calls
            (Change.PoolChange change.now) outcome) }
    {
        let room = Vec::new(*entries.allocator());
        let receipt = Receipt {
            seat: self.number,
            call: self.calls,
            place,
            event: Change::PoolChange(*change),
            outcome: outcome.copy_into(room),
        };
        entries.push_reserved(Entry {
            seat: receipt.seat,
            call: receipt.call,
            event: Change::PoolChange(*change),
            outcome,
        });
        receipt
    }

    /// An equal outcome. What is sent stands in memory of its own length, and the seat has the
    /// buffer for its next step. If that memory is refused, what is sent stands in the buffer: a
    /// step that was made is told in any case.
    fn copy_of(&mut self, outcome: &Outcome, buffer: Vec<u8>) -> Outcome
        requires empty { buffer.items ≡ [] }
        requires few { HasFewOctets outcome.now.output }
        requires room { Reply.MOST ≤ vec_capacity buffer }
        ensures seat { self.new ≡ self.old }
        ensures copy { result ≡ outcome.now }
    {
        let Some(output) = &outcome.output else {
            self.buffer = buffer;
            return outcome.copy_into(Vec::new(*self.buffer.allocator()));
        };
        match Vec::with_capacity(*buffer.allocator(), output.bytes.as_slice().len()) {
            Ok(room) => {
                self.buffer = buffer;
                outcome.copy_into(room)
            }
            Err(_) => outcome.copy_into(buffer),
        }
    }
}
