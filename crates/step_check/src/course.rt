//! What a recorded event called for.

ghost use Rattle.std.specs.Prelude.{◌≡◌, ◌↔◌, IfOk, IfSome, IsTrue, ℕ};
ghost use Rattle.kept_replies.specs.Kept.{Passes, is_over};
ghost use Rattle.ras_machine.specs.Prepared.{IsRead, event_at};
ghost use Rattle.ras_machine.specs.Machine.{course_at};
ghost use Rattle.ras_machine.specs.Courses.{CallsFor};
ghost use Rattle.ras_machine.specs.Steps.{choices_of, item_of};
ghost use Rattle.step_check.specs.Shown.{IsFound};

use ras_machine::{Arrival, Course, Machine};
use std::alloc::AllocError;
use zone_config::Moment;
use zone_events::{DueItem, IgnoredCause, Note, Outcome};

/// What an event called for by the choices that an outcome shows: the entry that was dropped, and
/// the item that was done. None, if these may not be chosen.
pub fn shown_course(
    machine: &Machine,
    now: Moment,
    arrival: Arrival,
    outcome: &Outcome,
) -> Result<Option<Course>, AllocError>
    requires { IsRead arrival }
    ensures { IfOk result (λ found. (moment : ℕ)
        → IsFound machine.now now (event_at moment arrival) outcome.now found) }
{
    if !may_be_dropped(machine, now, outcome.dropped) {
        return Ok(None);
    }
    let course = called_for(machine, now, arrival, outcome)?;
    if machine.is_ready(now, &course) {
        Ok(Some(course))
    } else {
        Ok(None)
    }
}

/// What an event calls for by the choices that an outcome shows.
fn called_for(
    machine: &Machine,
    now: Moment,
    arrival: Arrival,
    outcome: &Outcome,
) -> Result<Course, AllocError>
    requires read { IsRead arrival }
    requires over { IfSome outcome.now.dropped (Passes (is_over now) machine.now.kept) }
    ensures { IfOk result (λ course. (moment : ℕ) → CallsFor machine.now now
        (course_at machine.now now (event_at moment arrival) (choices_of outcome.now)) course) }
{
    match arrival {
        Arrival::Datagram(key, message) => {
            machine.datagram_course(now, key, message, outcome.dropped)
        }
        Arrival::TooLong(_, _) => Ok(Course::Ignoring(IgnoredCause::TooLong)),
        Arrival::Turn => machine.turn_course(now, item_of(outcome.note)),
    }
}

/// Whether an entry may be dropped: it is over.
fn may_be_dropped(machine: &Machine, now: Moment, dropped: Option<u64>) -> bool
    ensures { IsTrue result ↔ IfSome dropped (Passes (is_over now) machine.now.kept) }
{
    match dropped {
        Some(born) => machine.is_over(now, born),
        None => true,
    }
}

/// The item that was done.
fn item_of(note: Note) -> Option<DueItem>
    ensures { result ≡ item_of note }
{
    match note {
        Note::Done(item) => Some(item),
        Note::Served | Note::Kept | Note::Ignored(_) | Note::Idle | Note::Replaced(_) => None,
    }
}
