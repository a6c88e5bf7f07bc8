//! What is told of the counts, kind by kind, each with its label.

ghost use Rattle.std.specs.Prelude.{◌≡◌};
ghost use Rattle.status_page.specs.Counted.{answers, cause_label, ignored, label_of, replies};
ghost use Rattle.status_page.specs.Counted.{requests, turns};

use zone_events::IgnoredCause;
use zone_view::{Answer, Count, ReplyKind, RequestKind, TurnDeed};

/// A word for a cause.
fn cause_label(cause: IgnoredCause) -> &'static str
    ensures { result.now ≡ cause_label cause }
{
    match cause {
        IgnoredCause::TooLong => "too_long",
        IgnoredCause::Unreadable => "unreadable",
        IgnoredCause::NotServed => "not_served",
        IgnoredCause::Busy => "busy",
        IgnoredCause::UnknownEndpoint => "unknown_endpoint",
    }
}

/// The label of what is counted.
pub(crate) fn label_of(what: Count) -> &'static str
    ensures { result.now ≡ label_of what }
{
    match what {
        Count::Request(kind) => kind.label(),
        Count::Reply(kind) => kind.label(),
        Count::Reject(reject) => reject.label(),
        Count::Ignored(cause) => cause_label(cause),
        Count::Turn(deed) => deed.label(),
        Count::Answer(answer) => answer.label(),
        Count::Repeat => "repeated",
    }
}

/// The requests that were read.
pub(crate) fn requests() -> [Count; 7]
    ensures { result ≡ requests }
{
    [
        Count::Request(RequestKind::Grq),
        Count::Request(RequestKind::Rrq),
        Count::Request(RequestKind::Urq),
        Count::Request(RequestKind::Arq),
        Count::Request(RequestKind::Brq),
        Count::Request(RequestKind::Drq),
        Count::Request(RequestKind::Irr),
    ]
}

/// The messages that were to be sent.
pub(crate) fn replies() -> [Count; 14]
    ensures { result ≡ replies }
{
    [
        Count::Reply(ReplyKind::Gcf),
        Count::Reply(ReplyKind::Grj),
        Count::Reply(ReplyKind::Rcf),
        Count::Reply(ReplyKind::Rrj),
        Count::Reply(ReplyKind::Ucf),
        Count::Reply(ReplyKind::Urj),
        Count::Reply(ReplyKind::Acf),
        Count::Reply(ReplyKind::Arj),
        Count::Reply(ReplyKind::Bcf),
        Count::Reply(ReplyKind::Brj),
        Count::Reply(ReplyKind::Dcf),
        Count::Reply(ReplyKind::Drj),
        Count::Reply(ReplyKind::Irq),
        Count::Reply(ReplyKind::Rip),
    ]
}

/// The datagrams that were ignored.
pub(crate) fn ignored() -> [Count; 5]
    ensures { result ≡ ignored }
{
    [
        Count::Ignored(IgnoredCause::TooLong),
        Count::Ignored(IgnoredCause::Unreadable),
        Count::Ignored(IgnoredCause::NotServed),
        Count::Ignored(IgnoredCause::Busy),
        Count::Ignored(IgnoredCause::UnknownEndpoint),
    ]
}

/// The turns of the timers.
pub(crate) fn turns() -> [Count; 7]
    ensures { result ≡ turns }
{
    [
        Count::Turn(TurnDeed::RegistrationOver),
        Count::Turn(TurnDeed::Interrogation),
        Count::Turn(TurnDeed::Silence),
        Count::Turn(TurnDeed::Retry),
        Count::Turn(TurnDeed::KeptOver),
        Count::Turn(TurnDeed::PoolTurn),
        Count::Turn(TurnDeed::Idle),
    ]
}

/// The answers of pools.
pub(crate) fn answers() -> [Count; 3]
    ensures { result ≡ answers }
{
    [
        Count::Answer(Answer::Lent),
        Count::Answer(Answer::Refused),
        Count::Answer(Answer::Wait),
    ]
}
