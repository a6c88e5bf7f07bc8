//! Scripts whose zone is served while memory is refused. Either the server leaves no report, and
//! another one serves the script, or one step isn't made, which the report counts, and all else is
//! as ever. Which request is refused isn't the same in each run, since threads take turns: what is
//! told here holds in any.

use crate::ends::{End, Still};
use crate::meter::Metered;
use crate::rehearsal::{Stage, Trouble};
use book_audit::audit;
use books::Entry;
use pools::Pool;
use ras_core::{Change, Datagram, Event, Zone};
use std::alloc::{AllocError, Global};
use std::io::{self, Write};
use std::rt::Clock;
use std::sync::atomic::{AtomicU64, Ordering};
use std::sync::{Mutex, Wait};
use std::thread::Threads;
use udp_server::{Open, Plan, Report, ServeFault, serve_zone};

/// Each reply waits in a ring of 64, each step has a receipt, and no chapter ends. The one turn
/// that is made is that after the last datagram: a tick is longer than the server runs.
const PLAN: Plan = Plan {
    ring: 64,
    faults: 16,
    tick: 60_000,
    chapter: 0,
    latest: usize::MAX,
    receipts: true,
    hands_out: false,
};

/// Whether each datagram made a step but for one that was refused, and so did the turn at the end.
fn are_counted<P: Pool>(report: &Report<P>, given: u64) -> bool {
    let lost = given.saturating_sub(report.datagrams);
    report.datagrams <= given
        && lost <= report.refused
        && report.refused <= 1
        && report.turns.saturating_add(report.refused) >= 1
        && report.receive_faults == 0
}

/// Whether a step is of a datagram with the octets of this one, from the same address.
fn is_same(event: &Event, change: &Change) -> bool {
    match (event, change) {
        (Event::Datagram(source, octets, _), Change::Event(Event::Datagram(from, bytes, _))) =>
            source == from && octets == bytes,
        _ => false,
    }
}

/// Whether the entries of datagrams are those of given ones, in order, each at most once.
fn are_given(entries: &[Entry], events: &[Event]) -> bool {
    let mut left = events;
    for entry in entries {
        if matches!(&entry.event, Change::Event(Event::Turn(_))) {
            continue;
        }
        match left.iter().position(|event| is_same(event, &entry.event)) {
            Some(i) => left = left.get(i.saturating_add(1)..).unwrap_or(&[]),
            None => return false,
        }
    }
    true
}

/// Whether what was sent is what the entries put out, in order: none is lost, and none is altered.
fn are_sent(entries: &[Entry], sent: &[Datagram]) -> bool {
    let mut next = 0usize;
    for entry in entries {
        if let Some(output) = &entry.outcome.output {
            if sent.get(next) != Some(output) {
                return false;
            }
            next = next.saturating_add(1);
        }
    }
    next == sent.len()
}

/// Whether the receipts agree with the history.
fn is_audited<P: Pool>(report: &Report<P>) -> bool {
    match audit(&report.chapters, &report.finished, &report.receipts) {
        Ok(totals) => totals.datagrams == report.datagrams && totals.turns == report.turns,
        Err(_) => false,
    }
}

/// What a report tells otherwise than it has to be.
fn judge<P: Pool>(
    report: &Report<P>,
    events: &[Event],
    sent: &[Datagram],
    meter: &AtomicU64,
) -> Result<(), &'static str> {
    let entries = report.finished.entries();
    if !are_counted(report, events.len() as u64) || !are_given(entries, events) {
        return Err("a server's steps aren't those of its datagrams");
    }
    let replies = sent.len() as u64;
    let is_none_lost = report.sent == replies && report.dropped == 0 && report.send_faults == 0;
    if !is_none_lost || !are_sent(entries, sent) {
        return Err("a server sent otherwise than its steps answered");
    }
    if !is_audited(report) {
        return Err("a server's history isn't that of its receipts");
    }
    if meter.load(Ordering::SeqCst) != report.finished.zone().in_use() {
        return Err("a served zone has a loan that no call uses");
    }
    Ok(())
}

/// What one end receives, and the clocks of its worker and of the one that makes the turns.
#[derive(Drop)]
struct Parts<'a, R> {
    receivers: Vec<End<'a, R>>,
    clocks: Vec<Still>,
}

fn parts_of<'a, R>(alloc: Global, end: End<'a, R>) -> Result<Parts<'a, R>, AllocError> {
    let mut receivers = Vec::new(alloc);
    receivers.push(end)?;
    let mut clocks = Vec::new(alloc);
    for _ in 0..2 {
        clocks.push(Still)?;
    }
    Ok(Parts { receivers, clocks })
}

/// What a server of the zone leaves, to which one end gives the datagrams.
fn report_of<P: Pool + Send, R: Threads + Wait + Clock + Sync>(
    rt: &R,
    alloc: Global,
    zone: Zone<Metered<P>>,
    events: &[Event],
    sent: &Mutex<Vec<Datagram>>,
) -> Result<Report<Metered<P>>, Trouble> {
    let end = |events| End {
        rt,
        alloc,
        sent,
        events,
        next: 0,
    };
    let Ok(parts) = parts_of(alloc, end(events)) else {
        return Err(Trouble::Memory);
    };
    let Parts { receivers, clocks } = parts;
    let sender = end(&[]);
    match serve_zone(
        rt,
        alloc,
        zone,
        receivers,
        sender,
        &Open,
        clocks,
        Vec::new(alloc),
        PLAN,
    ) {
        Ok(report) => Ok(report),
        Err(ServeFault::Memory) => Err(Trouble::Memory),
        Err(_) => Err(Trouble::Otherwise("a zone wasn't served")),
    }
}

/// Serves the zone with the events, which are datagrams, and prints that it was served. If there is
/// no report, memory was refused.
pub fn serve_up<P: Pool + Send, R: Print + Threads + Wait + Clock + Sync>(
    rt: &R,
    alloc: Global,
    stage: Stage<P>,
    events: &[Event],
) -> Result<(), Trouble> {
    let Stage { zone, meter } = stage;
    let sent = Mutex::new(Vec::new(alloc));
    let report = report_of(rt, alloc, zone, events, &sent);
    let sent = sent.into_inner();
    let judged = match &report {
        Ok(report) => judge(report, events, &sent, &meter).map_err(Trouble::Otherwise),
        Err(trouble) => Err(*trouble),
    };
    drop(report);
    judged?;
    io::writer(rt)
        .write_all(b"served\n")
        .map_err(|_| Trouble::Otherwise("standard output failed"))
}
