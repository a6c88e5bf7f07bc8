//! Two workers are at work at once: one gets on while the other one, or the sender, is held
//! anywhere.

use crate::server::clocks::clocks;
use crate::server::fixtures::{Looked, NOT_SERVED, PLAN, all_hold, served};
use crate::server::meeting::{Guest, Held, Meeting};
use pools::FixedPool;
use std::alloc::Global;
use std::rt::Clock;
use std::sync::Wait;
use std::sync::atomic::{AtomicU64, Ordering};
use std::thread::Threads;
use udp_server::{Report, Stage};

/// Each place where a worker or the sender may be held, by its name.
const PLACES: [(&str, Held); 9] = [
    ("first worker, in its receive", Held::Receive(0)),
    (
        "first worker, before its step",
        Held::Worker(0, Stage::BeforeApply),
    ),
    (
        "first worker, behind its step",
        Held::Worker(0, Stage::AfterApply),
    ),
    (
        "first worker, behind its post",
        Held::Worker(0, Stage::AfterPost),
    ),
    ("second worker, in its receive", Held::Receive(1)),
    (
        "second worker, before its step",
        Held::Worker(1, Stage::BeforeApply),
    ),
    (
        "second worker, behind its step",
        Held::Worker(1, Stage::AfterApply),
    ),
    (
        "second worker, behind its post",
        Held::Worker(1, Stage::AfterPost),
    ),
    ("sender, in its first send", Held::Send),
];

/// Compares a report with that of two datagrams that were answered, while nobody was held for too
/// long.
fn compare(report: Option<&Report<FixedPool>>, impatient: u64) -> Looked {
    let report = report.ok_or(NOT_SERVED)?;
    all_hold(&[
        (report.datagrams == 2, "both datagrams are served"),
        (report.sent == 2, "both are answered"),
        (impatient == 0, "nobody is held for too long"),
    ])
}

/// Serves two datagrams. Both are answered, and who is held isn't held for too long.
fn serve_two<R: Threads + Wait + Clock + Sync>(
    rt: &R,
    alloc: Global,
    meeting: &Meeting<'_, R>,
) -> Looked {
    let reads = AtomicU64::new(0);
    let receivers = vec![in alloc; Guest::new(meeting, 0), Guest::new(meeting, 1)].ok();
    let clocks = clocks(alloc, 2, &reads);
    let sender = Guest::new(meeting, 2);
    let report = served(rt, alloc, receivers, sender, meeting, clocks, PLAN);
    compare(report.as_ref(), meeting.impatient.load(Ordering::SeqCst))
}

/// Does so while one is held at this place.
fn serve_two_though_held<R: Threads + Wait + Clock + Sync>(
    rt: &R,
    alloc: Global,
    held: Held,
) -> Looked {
    let meeting = Meeting::new(rt, held);
    serve_two(rt, alloc, &meeting)
}

#[test]
fn two_at_once(rt: HostRuntime) {
    for (name, held) in PLACES {
        let ended = serve_two_though_held(&rt, rt.alloc(), held);
        assert!(rt; ended == Ok(()), "{name}");
    }
}
