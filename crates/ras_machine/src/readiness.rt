//! Whether what was chosen may be done.

ghost use Rattle.std.specs.Prelude.{◌↔◌, IsTrue};
ghost use Rattle.kept_replies.specs.Kept.{Passes, is_over};
ghost use Rattle.ras_machine.specs.Machine.{Ignoring};
ghost use Rattle.ras_machine.specs.Courses.{IsReady, MayBeNamed, Stands, course_of};
ghost use Rattle.ras_machine.specs.Steps.{IsTimely, IsUnusedIn};
ghost use Rattle.ras_machine.specs.Turns.{IsDueIn, IsNothingDueIn};

use crate::course::Course;
use crate::job::Occasion;
use crate::machine::Machine;
use expiry::is_due;
use ras_module::EndpointId;
use ras_requests::Plan;
use zone_config::Moment;
use zone_events::{DueItem, IgnoredCause};

impl Machine {
    /// Whether what was chosen so far for a course may be done now: the entry that is dropped, and
    /// the item. This takes no memory.
    ///
    /// promise recorded-choices-are-checked: It is told exactly whether recorded choices may be
    /// made; likewise identifiers, by `may_be_named` (`IsReady`, `MayBeNamed`).
    pub fn is_ready(&self, now: Moment, course: &Course) -> bool
        requires { Stands self.now now course.now }
        ensures { IsTrue result ↔ IsReady self.now now (course_of self.now now course.now) }
    {
        match course {
            Course::Ignoring(cause) => self.may_ignore(now, *cause),
            Course::Serving(task) => self.is_timely(now, task.job.occasion),
            Course::Doing(item) => self.is_due(now, item),
            Course::Idle => self.due(now).is_none(),
            Course::Hearing(_) | Course::Repeating(_) => true,
        }
    }

    /// Whether a datagram may be ignored for this cause now.
    fn may_ignore(&self, now: Moment, cause: IgnoredCause) -> bool
        ensures { IsTrue result ↔ IsReady self.now now (Ignoring cause) }
    {
        match cause {
            IgnoredCause::Busy => self.kept.over(now.milliseconds()).is_none(),
            _ => true,
        }
    }

    /// Whether a request may be served on this occasion now.
    fn is_timely(&self, now: Moment, occasion: Occasion) -> bool
        ensures { IsTrue result ↔ IsTimely self.now now occasion }
    {
        match occasion {
            Occasion::First { dropped: None } | Occasion::Anew => true,
            Occasion::First {
                dropped: Some(born),
            } => self.is_over(now, born),
            Occasion::Again { born, .. } => self.is_due(now, &DueItem::Retry(born)),
        }
    }

    /// Whether the kept reply with this birth is over. This takes no memory.
    pub fn is_over(&self, now: Moment, born: u64) -> bool
        ensures { IsTrue result ↔ Passes (is_over now) self.now.kept born }
    {
        match self.kept.by_born(born) {
            Some((_, entry)) => entry.is_over(now.milliseconds()),
            None => false,
        }
    }

    /// Whether this item is due now. This takes no memory.
    pub fn is_due(&self, now: Moment, item: &DueItem) -> bool
        ensures { IsTrue result ↔ IsDueIn self.now now item.now }
    {
        let times = self.tables.times();
        let moment = now.milliseconds();
        let registrations = self.tables.registrations();
        let calls = self.tables.calls();
        let next = self.next_pool_turn;
        is_due(item, registrations, calls, &self.kept, moment, next, &times)
    }

    /// Whether this identifier may be handed out, if the course calls for one.
    /// This takes no memory.
    pub fn may_be_named(&self, course: &Course, given: &Option<EndpointId>) -> bool
        ensures { IsTrue result ↔ MayBeNamed self.now course.now given.now }
    {
        let Course::Serving(task) = course else {
            return true;
        };
        let Plan::Naming(_) = &task.plan else {
            return true;
        };
        match given {
            Some(id) => self.is_unused(id),
            None => false,
        }
    }

    /// Whether no endpoint has this identifier, and no kept reply tells it.
    pub(crate) fn is_unused(&self, id: &EndpointId) -> bool
        ensures { IsTrue result ↔ IsUnusedIn self.now id.now }
    {
        // by its type it has 1 to 128 characters
        let _ = id.as_slice();
        self.tables.registrations().get(id).is_none() && !self.kept.is_named(id)
    }
}
