//! Steps of a zone: runs of events, events that are read before, and moments.

use crate::fixtures::{ENDPOINT, event, sent, zone};
use facts::all_hold;
use pools::FixedPool;
use ras_core::{Event, IgnoredCause, Moment, Note, Outcome, Zone, prepare};
use std::alloc::Global;
use std::test::Fail;
use vectors::replies::{GCF, GRJ};
use vectors::requests::{GRQ, GRQ_OF_XX};

/// A GatekeeperRequest, one of another gatekeeper, one that is cut short, a message that isn't
/// served, and one that is too long.
fn five_events(alloc: Global) -> Result<Vec<Event>, Fail> {
    let mut events = Vec::new(alloc);
    events.push(event(alloc, &GRQ, 40)?)?;
    events.push(event(alloc, &GRQ_OF_XX, 40)?)?;
    events.push(event(alloc, &GRQ[..19], 30)?)?;
    events.push(event(alloc, &[0x48], 20)?)?;
    events.push(event(alloc, &[0; 4097], 10)?)?;
    Ok(events)
}

/// Whether the outcome is that the datagram was ignored for this cause.
fn is_ignored(outcome: &Outcome, cause: IgnoredCause) -> bool {
    outcome.output.is_none() && outcome.note == Note::Ignored(cause)
}

/// Compares outcomes with those of the five events.
fn compare_five(alloc: Global, outcomes: &[Outcome]) -> Result<(), Fail> {
    let [first, second, cut, other, long] = outcomes else {
        return Err(Fail::from("there are five outcomes"));
    };
    all_hold(&[
        (
            *first == sent(alloc, &GCF)?,
            "any gatekeeper is confirmed, and nothing else is told",
        ),
        (
            *second == sent(alloc, &GRJ)?,
            "another gatekeeper is rejected, and nothing else is told",
        ),
        (
            is_ignored(cut, IgnoredCause::Unreadable),
            "the third event is unreadable",
        ),
        (
            is_ignored(other, IgnoredCause::NotServed),
            "the fourth one isn't served",
        ),
        (
            is_ignored(long, IgnoredCause::TooLong),
            "the fifth one is too long",
        ),
    ])
}

/// Runs over the five events, which leaves the zone five steps on, at the latest moment.
fn run_on(alloc: Global, zone: &mut Zone<FixedPool>) -> Result<(), Fail> {
    let events = five_events(alloc)?;
    let mut outcomes = Vec::new(alloc);
    let is_run = zone.run(&events, &mut outcomes).is_ok();
    let compared = compare_five(alloc, &outcomes);
    drop(outcomes);
    drop(events);
    compared?;
    all_hold(&[
        (is_run, "the run is whole"),
        (zone.steps() == 5, "it made five steps"),
        (
            Some(zone.clock()) == Moment::new(40),
            "the clock is at the latest moment",
        ),
        (!zone.is_closed(), "the zone takes further events"),
    ])
}

/// Whether this is the GatekeeperRequest of the worked example, from the endpoint, at this moment.
fn is_grq_at(event: &Event, milliseconds: u64) -> bool {
    match event {
        Event::Datagram(source, bytes, moment) => {
            *source == ENDPOINT
                && bytes.as_slice() == GRQ.as_slice()
                && Some(*moment) == Moment::new(milliseconds)
        }
        Event::Turn(_) => false,
    }
}

/// Reads datagrams before their steps: a request gets the reply that it gets otherwise, here once
/// the one of the run is over, and one of one octet too many is read as too long. An event that was
/// read is the same event still.
fn step_what_was_read(alloc: Global, zone: &mut Zone<FixedPool>) -> Result<(), Fail> {
    let request = prepare(alloc, event(alloc, &GRQ, 10_040)?)?;
    let is_same = is_grq_at(&request.event()?, 10_040);
    let outcome = zone.step_prepared(request)?;
    let is_sent = match &outcome.output {
        Some(sent) => sent.to == ENDPOINT && sent.bytes.as_slice() == GCF.as_slice(),
        None => false,
    };
    let is_served = outcome.note == Note::Served;
    drop(outcome);
    let long = zone
        .step_prepared(prepare(alloc, event(alloc, &[0; 4_097], 10_041)?)?)?
        .note;
    all_hold(&[
        (is_same, "what was read is the same event still"),
        (is_sent, "the gatekeeper is told"),
        (is_served, "the request is noted as served"),
        (
            long == Note::Ignored(IgnoredCause::TooLong),
            "the long datagram is too long",
        ),
    ])
}

/// Does both with one zone.
fn run_and_step(alloc: Global, zone: &mut Zone<FixedPool>) -> Result<(), Fail> {
    run_on(alloc, zone)?;
    step_what_was_read(alloc, zone)
}

#[test]
fn events_are_run_and_are_read_before_their_steps(rt: HostRuntime) -> Result<(), Fail> {
    let mut zone = zone(rt.alloc())?;
    let ended = run_and_step(rt.alloc(), &mut zone);
    drop(zone);
    ended
}

#[test]
fn moments_end_below_2_to_the_53(rt: HostRuntime) -> Result<(), Fail> {
    let end = 9_007_199_254_740_992;
    let last = Moment::new(end - 1).ok_or("the last moment")?;
    assert!(rt; last.milliseconds() == end - 1);
    assert!(rt; Moment::new(end).is_none());
    Ok(())
}
