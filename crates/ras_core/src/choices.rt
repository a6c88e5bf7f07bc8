//! The choices that the zone makes by itself.

ghost use Rattle.std.specs.Prelude.{◌≡◌, IfOk, ℕ};
ghost use Rattle.ras_machine.specs.Prepared.{IsRead, event_at};
ghost use Rattle.ras_machine.specs.State.{State};
ghost use Rattle.ras_machine.specs.Courses.{IsChosen, course_of};
ghost use Rattle.ras_core.specs.inside.PoolTurns.{is_pool_turn};

use ras_machine::{Arrival, Course, Machine};
use std::alloc::AllocError;
use zone_config::Moment;
use zone_events::{DueItem, IgnoredCause};

/// What an event calls for. A kept entry that is over is dropped if the reply to a datagram finds
/// no other place, and in a turn any one item is done of those that are due.
pub fn chosen_course(machine: &Machine, now: Moment, arrival: Arrival) -> Result<Course, AllocError>
    requires { IsRead arrival }
    ensures { IfOk result (λ course. (moment : ℕ)
        → IsChosen machine.now now (event_at moment arrival) course) }
{
    match arrival {
        Arrival::Datagram(key, message) => {
            let dropped = machine.entry_to_drop(now, &key);
            machine.datagram_course(now, key, message, dropped)
        }
        Arrival::TooLong(_, _) => Ok(Course::Ignoring(IgnoredCause::TooLong)),
        Arrival::Turn => machine.turn_course(now, machine.due(now)),
    }
}

/// Whether the pools make their turn in this course.
pub fn is_pool_turn(course: &Course) -> bool
    ensures { (s : State) (now : ℕ) → result ≡ is_pool_turn (course_of s now course.now) }
{
    matches!(course, Course::Doing(DueItem::PoolTurn))
}
