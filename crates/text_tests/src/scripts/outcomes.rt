//! Outcomes of datagrams that are ignored.

use zone_events::{IgnoredCause, Note, Outcome};

/// Whether nothing is sent for a datagram that is ignored for this cause, and the outcome has no
/// answer of a pool, no entry that was dropped, and no identifier that was given.
fn is_ignored(cause: IgnoredCause) -> bool {
    let outcome = Outcome::ignored(cause);
    outcome.note == Note::Ignored(cause)
        && outcome.output.is_none()
        && outcome.answer.is_none()
        && outcome.dropped.is_none()
        && outcome.given.is_none()
}

#[test]
fn nothing_is_sent_for_what_is_ignored(rt: HostRuntime) {
    for (cause, number) in [
        (IgnoredCause::TooLong, 1),
        (IgnoredCause::Unreadable, 2),
        (IgnoredCause::NotServed, 3),
        (IgnoredCause::Busy, 4),
        (IgnoredCause::UnknownEndpoint, 5),
    ] {
        assert!(rt; is_ignored(cause), "{cause:?}");
        assert!(rt; cause.number() == number);
    }
}
