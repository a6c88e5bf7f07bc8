//! Each receive and each send fails once, in turn.

ghost use Rattle.std.specs.Prelude.{◌≡◌};
ghost use Rattle.udp_server.specs.Ends.{fault_count};

use crate::server::clocks::clocks;
use crate::server::fixtures::{ENDPOINT, Looked, NOT_SERVED, PLAN, all_hold, outputs, served};
use book_audit::audit;
use pools::FixedPool;
use ras_core::Note;
use std::alloc::Global;
use std::rt::Clock;
use std::sync::Wait;
use std::sync::atomic::{AtomicBool, AtomicU64, Ordering};
use std::thread;
use std::thread::Threads;
use std::time::Duration;
use udp_server::{Datagrams, DeviceFault, Gate, Open, Received, Report, Stage};
use vectors::replies::GCF;
use vectors::requests::{GRQ, GRQ_OF_XX};
use zone_events::{Change, Datagram, Event};

/// A number of a call that none has.
const NEVER: u64 = u64::MAX;

/// For how many milliseconds a worker is held at most.
const PATIENCE: usize = 10_000;

/// What is known of an end: which of its calls fails, counted from 0, how many it was asked for and
/// how many of them have failed, how many confirms it has sent to the endpoint that discovers, and
/// whether it has told that it stopped.
#[derive(Drop)]
struct Record {
    fails_at: u64,
    calls: AtomicU64,
    failed: AtomicU64,
    confirms: AtomicU64,
    has_stopped: AtomicBool,
}

impl Record {
    fn new(fails_at: u64) -> Self {
        Record {
            fails_at,
            calls: AtomicU64::new(0),
            failed: AtomicU64::new(0),
            confirms: AtomicU64::new(0),
            has_stopped: AtomicBool::new(false),
        }
    }

    /// Counts one call more. Whether it fails.
    fn fails(&self) -> bool {
        self.calls.fetch_add(1, Ordering::SeqCst) == self.fails_at
    }

    fn failed(&self) -> u64 {
        self.failed.load(Ordering::SeqCst)
    }

    /// Counts what is sent, if it is the confirm of a discovery, to the endpoint that asks.
    fn note_sent(&self, datagram: &Datagram) {
        if datagram.to == ENDPOINT && datagram.bytes.as_slice() == GCF.as_slice() {
            self.confirms.fetch_add(1, Ordering::SeqCst);
        }
    }

    fn confirms(&self) -> u64 {
        self.confirms.load(Ordering::SeqCst)
    }
}

/// A discovery that is confirmed, or one that is rejected.
#[derive(Clone, Copy)]
enum Discovery {
    Confirmed,
    Rejected,
}

/// An end that gives these datagrams and then has stopped.
#[derive(Drop)]
struct Failing<'a> {
    record: &'a Record,
    discoveries: &'static [Discovery],
    next: usize,
    faults: u64,
}

impl<'a> Failing<'a> {
    fn new(record: &'a Record, discoveries: &'static [Discovery]) -> Self {
        Failing {
            record,
            discoveries,
            next: 0,
            faults: 0,
        }
    }

    fn fault(&mut self) -> DeviceFault
        ensures { self.new.faults ≡ fault_count self.old.faults }
    {
        self.faults = self.faults.saturating_add(1);
        self.record.failed.fetch_add(1, Ordering::SeqCst);
        DeviceFault
    }
}

impl Datagrams for Failing<'_> {
    ghost faults = { λ end. end.faults };

    fn receive(&mut self, buffer: &mut [u8; 4_097]) -> Result<Received, DeviceFault> {
        if self.record.fails() {
            return Err(self.fault());
        }
        let discovery = self.discoveries.get(self.next).copied();
        self.next = self.next.saturating_add(1);
        let octets = match discovery {
            Some(Discovery::Confirmed) => {
                buffer[..GRQ.len()].copy_from_slice(&GRQ);
                GRQ.len()
            }
            Some(Discovery::Rejected) => {
                buffer[..GRQ_OF_XX.len()].copy_from_slice(&GRQ_OF_XX);
                GRQ_OF_XX.len()
            }
            None => {
                self.record.has_stopped.store(true, Ordering::SeqCst);
                return Ok(Received::Stopped);
            }
        };
        Ok(Received::Datagram(ENDPOINT, octets))
    }

    fn send(&mut self, datagram: &Datagram) -> Result<(), DeviceFault> {
        if self.record.fails() {
            return Err(self.fault());
        }
        self.record.note_sent(datagram);
        Ok(())
    }

    fn failures(&self) -> u64 {
        self.faults
    }
}

/// What a server over one such end leaves.
fn served_failing<'a, R: Threads + Wait + Clock + Sync>(
    rt: &R,
    alloc: Global,
    receiver: &'a Record,
    sender: &'a Record,
    discoveries: &'static [Discovery],
) -> Option<Report<FixedPool>> {
    let reads = AtomicU64::new(0);
    let receivers = vec![in alloc; Failing::new(receiver, discoveries)].ok();
    let clocks = clocks(alloc, 1, &reads);
    let sender = Failing::new(sender, &[]);
    served(rt, alloc, receivers, sender, &Open, clocks, PLAN)
}

/// Compares a report in which this count of calls has failed: each output was sent, dropped or lost
/// by a failed send, and the receipts pass their audit.
fn compare_failed(report: Option<&Report<FixedPool>>, failed: u64) -> Looked {
    let report = report.ok_or(NOT_SERVED)?;
    let tried = report.sent.saturating_add(report.send_faults);
    let became = tried.saturating_add(report.dropped);
    let faults = report.receive_faults.saturating_add(report.send_faults);
    let audited = audit(&report.chapters, &report.finished, &report.receipts).is_ok();
    all_hold(&[
        (
            became == outputs(report),
            "each output was sent, dropped or lost",
        ),
        (faults == failed, "each failed call is counted"),
        (audited, "the receipts agree with the history"),
    ])
}

/// Two requests, the first of them twice: it is answered by its kept reply then.
const REPEATED: [Discovery; 3] = [
    Discovery::Confirmed,
    Discovery::Rejected,
    Discovery::Confirmed,
];

/// Serves while these calls fail. Whether one has failed.
fn serve_failing<R: Threads + Wait + Clock + Sync>(
    rt: &R,
    alloc: Global,
    receive: u64,
    send: u64,
) -> Result<bool, &'static str> {
    let (receiver, sender) = (Record::new(receive), Record::new(send));
    let report = served_failing(rt, alloc, &receiver, &sender, &REPEATED);
    let failed = receiver.failed().saturating_add(sender.failed());
    compare_failed(report.as_ref(), failed).map(|()| failed > 0)
}

/// Which call is tried at most, of those that fail one after the other.
const LAST_CALL: u64 = 100;

/// Which calls fail.
#[derive(Clone, Copy)]
enum Calls {
    Receives,
    Sends,
}

/// Serves while a call fails, each time another one, until none does. In how many runs one did.
fn fail_in_turn<R: Threads + Wait + Clock + Sync>(
    rt: &R,
    alloc: Global,
    calls: Calls,
) -> Result<u64, &'static str> {
    for call in 0..LAST_CALL {
        let (receive, send) = match calls {
            Calls::Receives => (call, NEVER),
            Calls::Sends => (NEVER, call),
        };
        if !serve_failing(rt, alloc, receive, send)? {
            return Ok(call);
        }
    }
    Err("the calls of a run come to an end")
}

#[test]
fn each_receive_fails_in_turn(rt: HostRuntime) {
    // Three give a datagram, and the fourth one tells that the end has stopped.
    assert!(rt; fail_in_turn(&rt, rt.alloc(), Calls::Receives) == Ok(4));
}

#[test]
fn each_send_fails_in_turn(rt: HostRuntime) {
    assert!(rt; fail_in_turn(&rt, rt.alloc(), Calls::Sends) == Ok(3));
}

/// The counts of a report but for its turns.
fn counts(report: &Report<FixedPool>) -> (u64, u64, u64, u64, u64, u64) {
    (
        report.datagrams,
        report.sent,
        report.dropped,
        report.refused,
        report.receive_faults,
        report.send_faults,
    )
}

/// The counts of a run in which the second receive fails, between two datagrams.
fn between<R: Threads + Wait + Clock + Sync>(
    rt: &R,
    alloc: Global,
) -> Option<(u64, u64, u64, u64, u64, u64)> {
    const TWO: [Discovery; 2] = [Discovery::Confirmed, Discovery::Rejected];
    let (receiver, sender) = (Record::new(1), Record::new(NEVER));
    let report = served_failing(rt, alloc, &receiver, &sender, &TWO)?;
    Some(counts(&report))
}

#[test]
fn a_failed_receive_loses_no_datagram(rt: HostRuntime) {
    let counts = between(&rt, rt.alloc());
    assert!(rt; counts == Some((2, 2, 0, 0, 1, 0)));
}

/// The note of the entry of a datagram that has this many before it.
fn note_behind(report: &Report<FixedPool>, before: usize) -> Option<Note> {
    let mut left = before;
    for entry in report.finished.entries() {
        if matches!(&entry.event, Change::Event(Event::Datagram(_, _, _))) {
            if left == 0 {
                return Some(entry.outcome.note);
            }
            left -= 1;
        }
    }
    None
}

/// Serves while the first send fails, and its request comes again: the confirm is sent once, by the
/// reply that was kept.
fn send_again<R: Threads + Wait + Clock + Sync>(rt: &R, alloc: Global) -> Looked {
    const TWICE: [Discovery; 2] = [Discovery::Confirmed, Discovery::Confirmed];
    let (receiver, sender) = (Record::new(NEVER), Record::new(0));
    let report = served_failing(rt, alloc, &receiver, &sender, &TWICE);
    compare_repeat(report.as_ref(), sender.confirms())
}

/// Compares a report and a count of confirms with those of such a server.
fn compare_repeat(report: Option<&Report<FixedPool>>, confirms: u64) -> Looked {
    let report = report.ok_or(NOT_SERVED)?;
    all_hold(&[
        (
            counts(report) == (2, 1, 0, 0, 0, 1),
            "one of two replies is sent, and the other one lost",
        ),
        (
            note_behind(report, 0) == Some(Note::Served),
            "the request is served",
        ),
        (
            note_behind(report, 1) == Some(Note::Kept),
            "its repeat gets the kept reply",
        ),
        (confirms == 1, "the confirm is sent once"),
    ])
}

#[test]
fn a_repeat_is_answered_after_a_failed_send(rt: HostRuntime) -> Looked {
    send_again(&rt, rt.alloc())
}

/// A gate that holds the first worker before its step until an end has stopped.
#[derive(Drop)]
struct UntilStopped<'a, R> {
    rt: &'a R,
    record: &'a Record,
}

impl<R: Clock> Gate for UntilStopped<'_, R> {
    fn pass(&self, worker: usize, stage: Stage) {
        if worker != 0 || stage != Stage::BeforeApply {
            return;
        }
        for _ in 0..PATIENCE {
            if self.record.has_stopped.load(Ordering::SeqCst) {
                return;
            }
            thread::sleep(self.rt, Duration::from_millis(1));
        }
    }
}

/// The counts of a run of two ends, of which the second one stops before the first one's step.
fn outlasting<R: Threads + Wait + Clock + Sync>(
    rt: &R,
    alloc: Global,
) -> Option<(u64, u64, u64, u64, u64, u64)> {
    const ONE: [Discovery; 1] = [Discovery::Confirmed];
    let reads = AtomicU64::new(0);
    let (first, second, sender) = (Record::new(NEVER), Record::new(NEVER), Record::new(NEVER));
    let receivers = vec![in alloc; Failing::new(&first, &ONE), Failing::new(&second, &[])].ok();
    let clocks = clocks(alloc, 2, &reads);
    let gate = UntilStopped {
        rt,
        record: &second,
    };
    let sender = Failing::new(&sender, &[]);
    let report = served(rt, alloc, receivers, sender, &gate, clocks, PLAN)?;
    Some(counts(&report))
}

#[test]
fn a_worker_goes_on_after_another_has_stopped(rt: HostRuntime) {
    let counts = outlasting(&rt, rt.alloc());
    assert!(rt; counts == Some((1, 1, 0, 0, 0, 0)));
}
