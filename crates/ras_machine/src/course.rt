//! What an event calls for.

ghost use Rattle.std.specs.Prelude.{◌≡◌};
ghost use Rattle.ras_machine.specs.Courses.{is_end_of_legs, may_return_units_in};

use crate::job::Job;
use ras_module::{Boxed, InfoRequestResponse, Request};
use ras_requests::Plan;
use zone_events::{Datagram, DueItem, IgnoredCause};

/// What an event calls for, before anything is done.
#[derive(Drop)]
pub enum Course {
    /// Nothing is done for a datagram.
    Ignoring(IgnoredCause),
    /// The endpoint of this response gave a sign of life.
    Hearing(Boxed<InfoRequestResponse>),
    /// A kept reply is sent again.
    Repeating(Datagram),
    /// A request is served.
    Serving(Task),
    /// This is due, and is done. It is no request that is served again.
    Doing(DueItem),
    /// Nothing is due.
    Idle,
}

impl Course {
    /// Whether units may come back to a pool as this is done.
    pub fn may_return_units(&self) -> bool
        ensures { result ≡ may_return_units_in self.now }
    {
        match self {
            Course::Serving(task) => task.plan.may_return_units(),
            Course::Doing(item) => is_end_of_legs(item),
            _ => false,
        }
    }
}

/// Whether an endpoint goes from its calls as this item is done.
fn is_end_of_legs(item: &DueItem) -> bool
    ensures { result ≡ is_end_of_legs item.now }
{
    matches!(item, DueItem::RegistrationOver(_) | DueItem::Silent(_))
}

/// A request that is to be served, with its plan.
#[derive(Drop)]
pub struct Task {
    /// Its datagram, with the occasion on which it is served.
    pub job: Job,
    /// As it was read.
    pub request: Request,
    /// What it comes to, once an identifier is handed out or a pool has answered, if it needs that.
    pub plan: Plan,
}
