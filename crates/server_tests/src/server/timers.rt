//! What is due at a tick is done at that tick, and what it sends is sent. A datagram has the moment
//! at which it came.

ghost use Rattle.udp_server.specs.Plans.{IsPlan};

use crate::server::clocks::leaps;
use crate::server::ends::{Caller, given};
use crate::server::fixtures::{ENDPOINT, Looked, NOT_SERVED, PLAN, all_hold, served};
use pools::{FixedPool, Pool};
use ras_core::{Change, Event, Moment};
use std::alloc::Global;
use std::rt::Clock;
use std::sync::Wait;
use std::sync::atomic::{AtomicBool, AtomicU64, Ordering};
use std::thread;
use std::thread::Threads;
use std::time::Duration;
use udp_server::{Datagrams, DeviceFault, Gate, Open, Plan, Received, Report, Stage};
use vectors::requests::GRQ;
use zone_events::Datagram;

/// How many requests there are: two registrations and an admission, and then discoveries.
const REQUESTS: u64 = 120;

/// The number of the worker of the timers: the other one is 0.
const TIMERS: usize = 1;

/// How many milliseconds after its start the clock of the timers leaps to: by then each kept reply
/// is over, and the endpoint that is in the call was silent for too long.
const AHEAD: u64 = 40_000;

/// A gate that holds the worker of the timers once for a while, before the first step at which its
/// clock is ahead: the other worker has ended by then, and the sender waits for this one alone.
#[derive(Drop)]
struct Late<'a, R> {
    rt: &'a R,
    sent: &'a AtomicU64,
    was_held: &'a AtomicBool,
}

impl<R: Clock> Gate for Late<'_, R> {
    fn pass(&self, worker: usize, stage: Stage) {
        if worker == TIMERS
            && stage == Stage::BeforeApply
            && self.sent.load(Ordering::SeqCst) >= REQUESTS
            && !self.was_held.swap(true, Ordering::SeqCst)
        {
            thread::sleep(self.rt, Duration::from_millis(100));
        }
    }
}

/// There is room for the replies to all requests.
const ROOMY: Plan = Plan { ring: 256, ..PLAN };

/// The same, and nothing is recorded.
const UNRECORDED: Plan = Plan {
    chapter: 4_096,
    latest: 0,
    receipts: false,
    hands_out: false,
    ..ROOMY
};

/// Serves all requests. At the end nothing is due any more, and all was sent: a reply to each
/// request, and what asks the silent endpoint for its state.
fn do_all<R: Threads + Wait + Clock + Sync>(rt: &R, alloc: Global, plan: Plan) -> Looked
    requires { IsPlan plan }
{
    let (sent, was_held) = (AtomicU64::new(0), AtomicBool::new(false));
    let receivers = vec![in alloc; Caller::new(rt, &sent, REQUESTS, REQUESTS)].ok();
    let clocks = leaps(alloc, &sent, u64::MAX, REQUESTS, AHEAD);
    let sender = Caller::new(rt, &sent, REQUESTS, 0);
    let gate = Late {
        rt,
        sent: &sent,
        was_held: &was_held,
    };
    let report = served(rt, alloc, receivers, sender, &gate, clocks, plan);
    compare_done(report.as_ref())
}

/// Compares a report with that of a server that did all that was due.
fn compare_done(report: Option<&Report<FixedPool>>) -> Looked {
    let report = report.ok_or(NOT_SERVED)?;
    let ahead = Moment::new(AHEAD).ok_or("there is such a moment")?;
    let due = report.finished.zone().machine().due(ahead);
    all_hold(&[
        (due.is_none(), "nothing is due any more"),
        (
            report.sent == REQUESTS + 1,
            "each reply was sent, and one question",
        ),
        (report.dropped == 0, "each found its place"),
        (
            report.turns > REQUESTS,
            "a turn was made for each kept reply, and one more",
        ),
    ])
}

#[test]
fn what_is_due_is_done_at_once(rt: HostRuntime) -> Looked {
    do_all(&rt, rt.alloc(), ROOMY)
}

#[test]
fn what_is_due_is_done_at_once_without_a_record(rt: HostRuntime) -> Looked {
    do_all(&rt, rt.alloc(), UNRECORDED)
}

/// An end that gives one discovery, and lets time pass before.
#[derive(Drop)]
struct Waiting<'a> {
    passed: &'a AtomicU64,
    is_done: bool,
}

impl<'a> Waiting<'a> {
    fn new(passed: &'a AtomicU64, is_done: bool) -> Self {
        Waiting { passed, is_done }
    }
}

impl Datagrams for Waiting<'_> {
    ghost faults = { λ end. 0 };

    fn receive(&mut self, buffer: &mut [u8; 4_097]) -> Result<Received, DeviceFault> {
        if self.is_done {
            return Ok(Received::Stopped);
        }
        self.is_done = true;
        self.passed.store(1, Ordering::SeqCst);
        Ok(given(buffer, ENDPOINT, &GRQ))
    }

    fn send(&mut self, _datagram: &Datagram) -> Result<(), DeviceFault> {
        Ok(())
    }

    fn failures(&self) -> u64 {
        0
    }
}

/// Serves one datagram, whose step has the moment at which it came, and not that at which its end
/// began to wait.
fn serve_one<R: Threads + Wait + Clock + Sync>(rt: &R, alloc: Global) -> Looked {
    let passed = AtomicU64::new(0);
    let receivers = vec![in alloc; Waiting::new(&passed, false)].ok();
    let clocks = leaps(alloc, &passed, 1, 1, AHEAD);
    let sender = Waiting::new(&passed, true);
    let report = served(rt, alloc, receivers, sender, &Open, clocks, PLAN);
    compare_moment(report.as_ref())
}

/// Compares a report with that of one datagram, which came when the clock was ahead.
fn compare_moment(report: Option<&Report<FixedPool>>) -> Looked {
    let report = report.ok_or(NOT_SERVED)?;
    let came = Moment::new(AHEAD).ok_or("there is such a moment")?;
    let mut is_late = true;
    for entry in report.finished.entries() {
        if let Change::Event(Event::Datagram(_, _, moment)) = &entry.event {
            is_late = is_late && *moment == came;
        }
    }
    all_hold(&[
        (is_late, "the datagram has the moment at which it came"),
        (report.datagrams == 1, "one datagram is counted"),
    ])
}

#[test]
fn a_datagram_has_the_moment_at_which_it_came(rt: HostRuntime) -> Looked {
    serve_one(&rt, rt.alloc())
}
