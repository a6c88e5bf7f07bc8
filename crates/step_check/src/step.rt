//! Recorded steps, done again.

ghost use Rattle.std.specs.Prelude.{◌≡◌, ◌↔◌, ◌<◌, IfOk, IsTrue, OnErr};
ghost use Rattle.ras_machine.specs.Machine.{most_steps};
ghost use Rattle.ras_machine.specs.Soundness.{Sound};
ghost use Rattle.step_check.specs.Redoing.{Accepts, Redoes};

use crate::course::shown_course;
use crate::recorded::Recorded;
use pools::Pool;
use ras_core::{Snapshot, Zone};
use ras_machine::{Machine, prepare};
use std::alloc::AllocError;
use zone_events::{Change, Event, Note, Outcome, PoolChange};

/// Does a recorded step again. True is returned if and only if the machine has a step of this
/// change with this outcome from where it stands; then the machine stands at the state after that
/// step. If false is returned, the machine may have made another step.
pub fn redo(machine: &mut Machine, change: &Change, outcome: &Outcome) -> Result<bool, AllocError>
    requires { Sound machine.old }
    ensures redoes { IfOk result
        (λ is_step. Redoes machine.old change.now outcome.now is_step machine.new) }
    ensures err { OnErr result (machine.new ≡ machine.old) }
    ensures sound { Sound machine.new }
{
    match change {
        Change::Event(event) => redo_event(machine, event, outcome),
        Change::PoolChange(replacement) => Ok(redo_replacement(machine, replacement, outcome)),
    }
}

/// The same of a step that an event calls for.
fn redo_event(machine: &mut Machine, event: &Event, outcome: &Outcome) -> Result<bool, AllocError>
    requires { Sound machine.old }
    ensures redoes { IfOk result (λ is_step.
        Redoes machine.old (Change.Event event.now) outcome.now is_step machine.new) }
    ensures err { OnErr result (machine.new ≡ machine.old) }
    ensures sound { Sound machine.new }
{
    if machine.is_closed() {
        return Ok(false);
    }
    let prepared = prepare(machine.allocator(), event.copy()?)?;
    let now = machine.clock().later(prepared.moment());
    let Some(course) = shown_course(machine, now, prepared.into_arrival(), outcome)? else {
        return Ok(false);
    };
    if !machine.may_be_named(&course, &outcome.given) {
        return Ok(false);
    }
    let mut lender = Recorded {
        answer: outcome.answer,
    };
    let mut again = Outcome::noted(Note::Idle, None);
    again.given = outcome.given;
    machine.perform(now, course, &mut lender, &mut again)?;
    Ok(again == *outcome)
}

/// The same of a step in which a fresh pool takes the place of another one.
fn redo_replacement(machine: &mut Machine, replacement: &PoolChange, outcome: &Outcome) -> bool
    requires { Sound machine.old }
    ensures redoes { Redoes machine.old (Change.PoolChange replacement.now) outcome.now result
        machine.new }
    ensures sound { Sound machine.new }
{
    if machine.is_closed()
        || !machine
            .pools()
            .may_replace(replacement.pool, replacement.offered)
    {
        return false;
    }
    machine.replace_pool(replacement) == *outcome
}

/// Does a recorded step again, if the machine has one of this change with this outcome from that
/// state: then it returns true, and the snapshot is the state after it. Else it returns false, and
/// the snapshot is as it was.
///
/// promise recorded-step-is-checked: A recorded step is accepted if and only if the machine has it
/// from the snapshot, which then is the state after it, and else stays (`Accepts`).
pub fn accepts(
    snapshot: &mut Snapshot,
    change: &Change,
    outcome: &Outcome,
) -> Result<bool, AllocError>
    ensures accepts { IfOk result
        (λ is_step. Accepts snapshot.old change.now outcome.now is_step snapshot.new) }
    ensures err { OnErr result (snapshot.new ≡ snapshot.old) }
{
    let mut machine = snapshot.copy()?.into_machine();
    if redo(&mut machine, change, outcome)? {
        *snapshot = Snapshot::of(machine);
        Ok(true)
    } else {
        Ok(false)
    }
}

/// Whether the snapshot is the state of the zone: its tables, what it keeps, its clock and
/// counters, and the figures of its pools. This takes no memory.
///
/// promise snapshot-is-compared: Whether a snapshot is the state of a zone is told exactly.
pub fn same<P: Pool>(snapshot: &Snapshot, zone: &Zone<P>) -> bool
    ensures { IsTrue result ↔ (snapshot.now ≡ zone.now.state) }
{
    snapshot.machine().is_same(zone.machine())
}
