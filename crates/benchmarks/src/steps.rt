//! How long each kind of step takes in a zone whose tables are filled.

use crate::deeds::{Deed, Wanted};
use crate::requests::{Endpoint, keep_alive};
use crate::snapshots::{Sizes, fill};
use crate::zones::{MOST_KEPT, datagram, zone_of};
use anyhow::{Context, Result, bail, ensure};
use pools::FixedPool;
use ras_core::{Event, Moment, Note, Outcome, Zone};
use std::alloc::Global;
use std::time::{Clock, Instant};

/// How many steps of each kind are made at most.
const STEPS: u16 = 500;

/// How many replies are kept while the kinds of `AT_FIRST` are measured: of ten kinds.
const REPLIES: u64 = 5_000;

/// A kind of step: its name, what is done, at which moment in milliseconds, and what it has to come
/// to.
type Kind = (&'static str, Deed, u64, Wanted);

/// In this order: a repeat is of a keep-alive, a call that was opened is joined and left, an
/// endpoint that registered unregisters.
const AT_FIRST: [Kind; 13] = [
    ("discovery", Deed::Discover, 0, Wanted::Reply(1)),
    ("keep-alive", Deed::KeepAlive, 0, Wanted::Reply(4)),
    ("repeat of a keep-alive", Deed::KeepAlive, 0, Wanted::Repeat),
    (
        "admission that opens a call",
        Deed::Open,
        0,
        Wanted::Reply(10),
    ),
    (
        "request for more bandwidth",
        Deed::Raise,
        0,
        Wanted::Reply(13),
    ),
    (
        "admission that joins a call",
        Deed::Join,
        0,
        Wanted::Reply(10),
    ),
    (
        "disengage that leaves a call",
        Deed::Leave,
        0,
        Wanted::Reply(16),
    ),
    (
        "disengage that ends a call",
        Deed::End,
        0,
        Wanted::Reply(16),
    ),
    (
        "registration of a new endpoint",
        Deed::Register,
        0,
        Wanted::Reply(4),
    ),
    ("sign of life", Deed::Respond, 0, Wanted::Heard),
    ("unregistration", Deed::Unregister, 0, Wanted::Reply(7)),
    ("registration once more", Deed::Return, 0, Wanted::Reply(4)),
    ("idle turn", Deed::Turn, 0, Wanted::Idle),
];

/// When the window of what was kept at first is over. The table of kept replies is full.
const SECOND_MOMENT: u64 = 20_001;

/// In this order. At the last moment the registrations of those that returned are over, and of no
/// other endpoint: these send a keep-alive at the second moment.
const LATER: [Kind; 4] = [
    (
        "discovery at a full table",
        Deed::DiscoverLater,
        20_001,
        Wanted::ReplyInPlaceOfAnother(1),
    ),
    (
        "turn that drops a reply",
        Deed::Turn,
        20_001,
        Wanted::KeptOver,
    ),
    (
        "turn that interrogates",
        Deed::Turn,
        60_000,
        Wanted::Interrogation,
    ),
    (
        "turn that ends a registration",
        Deed::Turn,
        3_610_000,
        Wanted::RegistrationOver,
    ),
];

/// How many steps of a kind are made: as many as there are endpoints in calls, if these are asked.
fn steps_of(wanted: Wanted, sizes: Sizes) -> u16 {
    if wanted != Wanted::Interrogation {
        return STEPS;
    }
    u16::try_from(sizes.calls).unwrap_or(STEPS).min(STEPS)
}

fn events_of(
    alloc: Global,
    endpoints: &[Endpoint],
    kind: &Kind,
    sizes: Sizes,
) -> Result<Vec<Event>> {
    let (_, deed, moment, wanted) = *kind;
    let moment = Moment::new(moment).context("a moment")?;
    let mut events = Vec::new(alloc);
    for number in 0..steps_of(wanted, sizes) {
        events.push(deed.event(alloc, endpoints, number, moment)?)?;
    }
    Ok(events)
}

/// Makes the steps of one kind, and prints how long one of them takes.
fn measure_kind(
    rt: &(impl Clock + Print),
    alloc: Global,
    zone: &mut Zone<FixedPool>,
    events: &[Event],
    kind: &Kind,
) -> Result<()> {
    let (name, _, _, wanted) = *kind;
    let mut outcomes = Vec::with_capacity(alloc, events.len())?;
    let start = Instant::now(rt)?;
    if zone.run(events, &mut outcomes).is_err() {
        bail!("a step was refused");
    }
    let time = start.elapsed(rt)?.as_nanos() / events.len().max(1) as u128;
    println!(rt; "{name}: {time} ns")?;
    ensure!(
        outcomes.iter().all(|outcome| wanted.is_met(outcome)),
        "not all steps were as wanted"
    );
    Ok(())
}

fn measure_kinds(
    rt: &(impl Clock + Print),
    alloc: Global,
    zone: &mut Zone<FixedPool>,
    endpoints: &[Endpoint],
    kinds: &[Kind],
    sizes: Sizes,
) -> Result<()> {
    for kind in kinds {
        let events = events_of(alloc, endpoints, kind, sizes)?;
        measure_kind(rt, alloc, zone, &events, kind).context(kind.0)?;
    }
    Ok(())
}

/// Each of these endpoints sends a keep-alive at the second moment.
fn renew_all(alloc: Global, zone: &mut Zone<FixedPool>, endpoints: &[Endpoint]) -> Result<()> {
    let moment = Moment::new(SECOND_MOMENT).context("a moment")?;
    for endpoint in endpoints {
        let octets = keep_alive(alloc, endpoint, u16::MAX - 1)?;
        let outcome = zone.step(datagram(endpoint.number, octets, moment))?;
        ensure!(outcome.note == Note::Served, "a keep-alive isn't served");
    }
    Ok(())
}

fn measure_all(
    rt: &(impl Clock + Print),
    alloc: Global,
    zone: &mut Zone<FixedPool>,
    sizes: Sizes,
) -> Result<()> {
    let endpoints = fill(alloc, zone, sizes)?;
    measure_kinds(rt, alloc, zone, &endpoints, &AT_FIRST, sizes)?;
    renew_all(alloc, zone, &endpoints)?;
    measure_kinds(rt, alloc, zone, &endpoints, &LATER, sizes)
}

/// Fills the tables of a zone, and prints how long a step of each kind takes. There must be a place
/// for 500 endpoints and calls, and for 5,000 replies.
pub fn measure(rt: &(impl Clock + Print), alloc: Global, sizes: Sizes) -> Result<()> {
    let kept = (sizes.replies as u64).saturating_add(REPLIES);
    ensure!(kept <= MOST_KEPT, "REPLIES is 60536 at most");
    let mut zone = zone_of(alloc, kept)?;
    let measured = measure_all(rt, alloc, &mut zone, sizes);
    drop(zone);
    measured
}
