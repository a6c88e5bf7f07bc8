//! Turns of the timers that are made one after the other by whoever holds the lock.

ghost use Rattle.std.specs.Prelude.{◌≡◌, ◌≤◌, ◌<◌, ◌+◌, ◌↔◌, ◌++◌, [], Err, OnErr, OnOk, IsTrue};
ghost use Rattle.std.specs.Prelude.{option_to_list, vec_capacity, vec_len};
ghost use Rattle.ras_machine.specs.Machine.{most_steps};
ghost use Rattle.ras_core.specs.Runs.{RunningStep};
ghost use Rattle.zone_lock.specs.Held.{IsEntered, IsKept, entry_by};
ghost use Rattle.zone_lock.specs.Seats.{seated_after};
ghost use Rattle.zone_lock.specs.Turns.{AreTurnsMade};

use crate::locked::Locked;
use crate::seat::{Hall, Seat};
use crate::stepping::step_locked;
use pools::Pool;
use ras_core::{Change, Datagram, Event, Moment, Note, Outcome, StepFault, prepare};
use std::sync::ledger::Ledger;
use zone_view::{Counts, StepCounts};

/// Why no further turn was made.
#[derive(Clone, Copy, Debug, PartialEq, Eq, Drop)]
pub enum TurnsEnd {
    /// Nothing was due in the last one.
    Idle,
    /// As many were made as were wanted.
    More,
    /// The next one was refused.
    Refused(StepFault),
}

/// Makes turns of the locked zone at this moment, each as `step_locked` makes a step, until nothing
/// is due, until `most` were made, or until one is refused, which changes nothing. What they send
/// is put into `replies` in order, which has none yet, and room for all. What is counted of them is
/// added to the counts. What stands in place of the outcome afterwards means nothing.
///
/// promise turns-follow-one-another: Each turn is one step at one moment; they end when nothing was
/// due, enough were made, or one is refused (`AreTurnsMade`, `IsEndOf`).
pub fn turns_locked<P: Pool, D: Hall, T: Ledger, U: Ledger, V: Ledger>(
    locked: &mut Locked<P, D, T, U, V>,
    seat: &mut Seat<D, T, U, V>,
    moment: Moment,
    most: usize,
    outcome: &mut Outcome,
    replies: &mut Vec<Datagram>,
    counts: &mut Counts,
) -> TurnsEnd
    requires empty { replies.old.items ≡ [] }
    requires room { most ≤ vec_capacity replies.old }
    ensures made { AreTurnsMade D.opened seat.old moment most locked.old replies.new.items result
        locked.new seat.new counts.old counts.new }
    ensures before { IsKept D.opened locked.old }
    ensures kept { IsKept D.opened locked.new }
{
    let _ = &locked.zone;
    for _turn in 0..most {
        if let Err(fault) = turn_locked(locked, seat, moment, outcome) {
            return TurnsEnd::Refused(fault);
        }
        counts.add_step(&StepCounts::of(None, outcome));
        put_reply(outcome, replies);
        if is_idle(outcome.note) {
            return TurnsEnd::Idle;
        }
    }
    TurnsEnd::More
}

/// Takes what a turn sends out of its outcome, and puts it behind the other replies, for which
/// there is room.
fn put_reply(outcome: &mut Outcome, replies: &mut Vec<Datagram>)
    requires { vec_len replies.old < vec_capacity replies.old }
    ensures put { replies.new.items ≡ replies.old.items ++ option_to_list outcome.old.output }
    ensures len { vec_len replies.new ≤ vec_len replies.old + 1 }
    ensures room { vec_capacity replies.new ≡ vec_capacity replies.old }
    ensures note { outcome.new.note ≡ outcome.old.note }
{
    if let Some(reply) = outcome.output.take() {
        replies.push_reserved(reply);
    }
}

/// Whether nothing was due.
fn is_idle(note: Note) -> bool
    ensures { IsTrue result ↔ (note ≡ Note.Idle) }
{
    matches!(note, Note::Idle)
}

/// One turn of the locked zone at this moment.
fn turn_locked<P: Pool, D: Hall, T: Ledger, U: Ledger, V: Ledger>(
    locked: &mut Locked<P, D, T, U, V>,
    seat: &mut Seat<D, T, U, V>,
    moment: Moment,
    outcome: &mut Outcome,
) -> Result<(), StepFault>
    ensures step { OnOk result
        (RunningStep locked.old.zone (Event.Turn moment) outcome.new locked.new.zone) }
    ensures entered { OnOk result (IsEntered D.opened locked.old
        (entry_by seat.old.number seat.old.calls (Change.Event (Event.Turn moment)) outcome.new)
        locked.new) }
    ensures seat { OnOk result
        (seat.new ≡ seated_after seat.old (Change.Event (Event.Turn moment)) outcome.new) }
    ensures closed { (result ≡ Err StepFault.Closed)
        ↔ (locked.old.zone.state.steps ≡ most_steps) }
    ensures err { OnErr result (locked.new ≡ locked.old) }
    ensures err_seat { OnErr result (seat.new ≡ seat.old) }
    ensures kept { IsKept D.opened locked.new }
{
    if locked.zone.is_closed() {
        return Err(StepFault::Closed);
    }
    let prepared = prepare(*locked.entries.allocator(), Event::Turn(moment))?;
    step_locked(locked, seat, prepared, outcome)
}
