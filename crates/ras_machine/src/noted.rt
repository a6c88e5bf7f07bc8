//! The outcomes of steps in which no request is served. A note is large: each of these functions
//! has the place for its own, so that a step that needs none doesn't clear it.

ghost use Rattle.std.specs.Prelude.{◌≡◌, None, Some};
ghost use Rattle.zone_events.specs.Events.{noted_outcome};

use zone_events::{Datagram, IgnoredCause, Note, Outcome};

/// Nothing was done for a datagram.
pub fn ignored(cause: IgnoredCause, outcome: &mut Outcome)
    ensures { outcome.new ≡ noted_outcome (Note.Ignored cause) None }
{
    outcome.be_noted(Note::Ignored(cause), None);
}

/// A kept reply is sent again.
pub fn repeated(output: Datagram, outcome: &mut Outcome)
    ensures { outcome.new ≡ noted_outcome Note.Kept (Some output) }
{
    outcome.be_noted(Note::Kept, Some(output));
}

/// Nothing was due.
pub fn idle(outcome: &mut Outcome)
    ensures { outcome.new ≡ noted_outcome Note.Idle None }
{
    outcome.be_noted(Note::Idle, None);
}
