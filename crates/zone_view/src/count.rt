//! What is counted of the steps of a zone.

ghost use Rattle.std.specs.Prelude.{◌≡◌, ◌<◌};
ghost use Rattle.zone_view.specs.Kinds.{count_place};

use crate::kinds::{Answer, ReplyKind, RequestKind, TurnDeed};
use crate::reject::Reject;
use zone_events::IgnoredCause;

/// How many things are counted.
pub const PLACES: usize = 55;

/// Something that is counted.
#[derive(Clone, Copy, Debug, PartialEq, Eq)]
pub enum Count {
    /// Requests that were read.
    Request(RequestKind),
    /// Messages that were to be sent.
    Reply(ReplyKind),
    /// Replies that rejected a request.
    Reject(Reject),
    /// Datagrams that were ignored.
    Ignored(IgnoredCause),
    /// Turns of the timers.
    Turn(TurnDeed),
    /// Answers of pools.
    Answer(Answer),
    /// Datagrams that came before, so that their kept replies were sent again.
    Repeat,
}

impl Count {
    /// Its place among all that is counted.
    pub fn place(self) -> usize
        ensures place { result ≡ count_place self }
        ensures within { result < 55 }
    {
        match self {
            Count::Request(kind) => kind.place(),
            Count::Reply(kind) => 7 + kind.place(),
            Count::Reject(reject) => 21 + reject.place(),
            Count::Ignored(cause) => 38 + usize::from(cause.number()),
            Count::Turn(deed) => 44 + deed.place(),
            Count::Answer(answer) => 51 + answer.place(),
            Count::Repeat => 54,
        }
    }
}
