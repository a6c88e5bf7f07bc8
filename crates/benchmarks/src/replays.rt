//! How long it takes to do recorded steps again, beside how long the steps took.

use crate::requests::{Endpoint, admission, disengage, keep_alive};
use crate::zones::{MOST_KEPT, datagram, register_all, zone_of};
use anyhow::{Context, Result, bail, ensure};
use book_audit::replays;
use books::{Book, Entry};
use pools::FixedPool;
use ras_core::{Change, Event, Moment, Note, Outcome, Zone};
use ras_module::Octets;
use std::alloc::Global;
use std::time::{Clock, Duration, Instant};

/// How many milliseconds pass from one step to the next.
const PACE: u64 = 5;

/// How many rounds after it was opened a call ends.
const CALL_ROUNDS: usize = 100;

/// What is done in one step of a round, which has an endpoint of its own.
#[derive(Clone, Copy)]
enum Deed {
    KeepAlive,
    /// The endpoint calls the next one.
    Open,
    /// The request for the call comes again.
    Repeat,
    /// The call of an earlier round ends.
    End,
    Turn,
}

/// The steps of a round: as many replies are kept in it as turns are made.
const ROUND: [Deed; 8] = [
    Deed::KeepAlive,
    Deed::Turn,
    Deed::Open,
    Deed::Repeat,
    Deed::Turn,
    Deed::End,
    Deed::Turn,
    Deed::Turn,
];

/// The endpoint of a round, and the one that it calls.
fn pair_of(endpoints: &[Endpoint], round: usize) -> Result<(&Endpoint, &Endpoint)> {
    let count = endpoints.len();
    ensure!(count > 0, "no endpoints");
    let place = round % count;
    Ok((&endpoints[place], &endpoints[(place + 1) % count]))
}

/// The octets of a request in this round.
fn request_of(
    alloc: Global,
    endpoints: &[Endpoint],
    round: usize,
    deed: Deed,
) -> Result<(u16, Octets)> {
    let (endpoint, called) = pair_of(endpoints, round)?;
    let seq = (round % 65_535) as u16;
    let call = round as u64;
    let octets = match deed {
        Deed::Open | Deed::Repeat => admission(alloc, endpoint, seq, called.number, call)?,
        Deed::End => disengage(alloc, endpoint, seq, call)?,
        Deed::KeepAlive | Deed::Turn => keep_alive(alloc, endpoint, seq)?,
    };
    Ok((endpoint.number, octets))
}

/// The event of a step.
fn event_of(alloc: Global, endpoints: &[Endpoint], step: usize) -> Result<Event> {
    let now = Moment::new((step as u64).saturating_mul(PACE)).context("a moment")?;
    let deed = ROUND[step % ROUND.len()];
    let round = step / ROUND.len();
    let round = match deed {
        Deed::Turn => return Ok(Event::Turn(now)),
        Deed::End => round.saturating_sub(CALL_ROUNDS),
        Deed::KeepAlive | Deed::Open | Deed::Repeat => round,
    };
    let (number, octets) = request_of(alloc, endpoints, round, deed)?;
    Ok(datagram(number, octets, now))
}

fn events_of(alloc: Global, endpoints: &[Endpoint], steps: usize) -> Result<Vec<Event>> {
    let mut events = Vec::new(alloc);
    for step in 0..steps {
        events.push(event_of(alloc, endpoints, step)?)?;
    }
    Ok(events)
}

/// Adds the steps to the book.
fn record(book: &mut Book, events: Vec<Event>, outcomes: Vec<Outcome>) -> Result<()> {
    for (call, (event, outcome)) in events.into_iter().zip(outcomes).enumerate() {
        book.entries.push(Entry {
            seat: 0,
            call,
            event: Change::Event(event),
            outcome,
        })?;
    }
    Ok(())
}

/// What a step was, as a word.
fn kind_of(note: Note) -> &'static str {
    match note {
        Note::Served => "served",
        Note::Kept => "kept",
        Note::Ignored(_) => "ignored",
        Note::Done(_) => "done",
        Note::Idle => "idle",
        Note::Replaced(_) => "replaced",
    }
}

/// Prints how many steps of each kind the book has.
fn print_kinds(rt: &impl Print, book: &Book) -> Result<()> {
    for kind in ["served", "kept", "ignored", "done", "idle", "replaced"] {
        let count = book
            .entries
            .iter()
            .filter(|entry| kind_of(entry.outcome.note) == kind)
            .count();
        println!(rt; "{kind}: {count}")?;
    }
    Ok(())
}

/// Prints the two times, their quotient, and whether the book is a run.
fn print_times(rt: &impl Print, run: Duration, again: Duration, is_run: bool) -> Result<()> {
    let (run, again) = (run.as_micros().max(1), again.as_micros());
    let hundredths = again.saturating_mul(100) / run;
    println!(rt; "the run: {run} us")?;
    println!(rt;
        "replays: {again} us, {}.{:02} times the run",
        hundredths / 100,
        hundredths % 100
    )?;
    println!(rt; "is a run: {is_run}")?;
    Ok(())
}

/// The time that it takes to find whether the book leads to the zone, and what is found.
fn replay(rt: &impl Clock, book: &Book, zone: &Zone<FixedPool>) -> Result<(Duration, bool)> {
    let start = Instant::now(rt)?;
    let is_run = replays(book, zone)?;
    Ok((start.elapsed(rt)?, is_run))
}

/// The time that the zone takes for the events, whose outcomes are added.
fn run(
    rt: &impl Clock,
    zone: &mut Zone<FixedPool>,
    events: &[Event],
    outcomes: &mut Vec<Outcome>,
) -> Result<Duration> {
    let start = Instant::now(rt)?;
    if zone.run(events, outcomes).is_err() {
        bail!("a step was refused");
    }
    Ok(start.elapsed(rt)?)
}

/// The time that the zone takes for the events, whose steps are then added to the book.
fn fill(
    rt: &impl Clock,
    alloc: Global,
    zone: &mut Zone<FixedPool>,
    book: &mut Book,
    events: Vec<Event>,
) -> Result<Duration> {
    let mut outcomes = Vec::with_capacity(alloc, events.len())?;
    let time = run(rt, zone, &events, &mut outcomes)?;
    record(book, events, outcomes)?;
    Ok(time)
}

// A zone and a book that are dropped at each of many exits make a function costly to prove, so what
// is done with them stands in functions that borrow them.

/// Makes the steps of the zone and does them again.
fn measure_steps(
    rt: &(impl Clock + Print),
    alloc: Global,
    zone: &mut Zone<FixedPool>,
    book: &mut Book,
    events: Vec<Event>,
) -> Result<()> {
    let time = fill(rt, alloc, zone, book, events)?;
    let (again, is_run) = replay(rt, book, zone)?;
    print_kinds(rt, book)?;
    println!(rt; "units in use at the end: {}", zone.in_use())?;
    print_times(rt, time, again, is_run)
}

/// Makes `steps` steps of the zone, once `endpoints` endpoints are registered, and does them again.
fn measure_zone(
    rt: &(impl Clock + Print),
    alloc: Global,
    zone: &mut Zone<FixedPool>,
    endpoints: usize,
    steps: usize,
) -> Result<()> {
    let endpoints = register_all(alloc, zone, endpoints)?;
    let events = events_of(alloc, &endpoints, steps)?;
    let mut book = Book::new(alloc, zone.snapshot()?);
    let measured = measure_steps(rt, alloc, zone, &mut book, events);
    drop(book);
    measured
}

/// Makes `steps` steps of a zone with `endpoints` endpoints, does them again, and prints what
/// it finds.
pub fn measure(
    rt: &(impl Clock + Print),
    alloc: Global,
    endpoints: usize,
    steps: usize,
) -> Result<()> {
    let mut zone = zone_of(alloc, MOST_KEPT)?;
    let measured = measure_zone(rt, alloc, &mut zone, endpoints, steps);
    drop(zone);
    measured
}
