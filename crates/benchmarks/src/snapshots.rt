//! How long a copy of a zone's state takes, which is what a cut of its history holds the lock for.

use crate::requests::{Endpoint, admission, keep_alive};
use crate::zones::{MOST_KEPT, datagram, register_all, zone_of};
use anyhow::{Context, Result, ensure};
use pools::FixedPool;
use ras_core::{Moment, Note, Zone};
use ras_module::Octets;
use std::alloc::Global;
use std::time::{Clock, Duration, Instant};

/// How often the state is copied.
const COPIES: u32 = 10;

/// The sizes of a zone's tables: how many endpoints, calls and kept replies they have.
#[derive(Clone, Copy)]
pub struct Sizes {
    pub endpoints: usize,
    pub calls: usize,
    pub replies: usize,
}

/// The zone serves this request of an endpoint, and keeps its reply.
fn serve(zone: &mut Zone<FixedPool>, endpoint: &Endpoint, octets: Octets) -> Result<()> {
    let outcome = zone.step(datagram(endpoint.number, octets, Moment::START))?;
    ensure!(outcome.note == Note::Served, "a request isn't served");
    Ok(())
}

/// This many calls, each of the next endpoint, all to the first one.
fn open_calls(
    alloc: Global,
    zone: &mut Zone<FixedPool>,
    endpoints: &[Endpoint],
    calls: usize,
) -> Result<()> {
    let called = endpoints.first().context("no endpoints")?.number;
    for (call, endpoint) in endpoints.iter().take(calls).enumerate() {
        let octets = admission(alloc, endpoint, 1, called, call as u64)?;
        serve(zone, endpoint, octets)?;
    }
    Ok(())
}

/// The replies of this many keep-alives are kept.
fn keep_replies(
    alloc: Global,
    zone: &mut Zone<FixedPool>,
    endpoints: &[Endpoint],
    replies: usize,
) -> Result<()> {
    ensure!(!endpoints.is_empty(), "no endpoints");
    for number in 0..replies {
        let endpoint = &endpoints[number % endpoints.len()];
        let seq = (number / endpoints.len() % 65_535) as u16;
        let octets = keep_alive(alloc, endpoint, seq)?;
        serve(zone, endpoint, octets)?;
    }
    Ok(())
}

/// Fills the tables of the zone, and returns its endpoints.
pub fn fill(alloc: Global, zone: &mut Zone<FixedPool>, sizes: Sizes) -> Result<Vec<Endpoint>> {
    let endpoints = register_all(alloc, zone, sizes.endpoints)?;
    open_calls(alloc, zone, &endpoints, sizes.calls)?;
    let kept = endpoints.len().saturating_add(sizes.calls);
    keep_replies(alloc, zone, &endpoints, sizes.replies.saturating_sub(kept))?;
    Ok(endpoints)
}

/// The time of one copy, without that of letting it go.
fn copy(rt: &impl Clock, zone: &Zone<FixedPool>) -> Result<Duration> {
    let start = Instant::now(rt)?;
    let snapshot = zone.snapshot()?;
    let time = start.elapsed(rt);
    drop(snapshot);
    Ok(time?)
}

/// Prints the time of each copy.
fn print_copies(rt: &(impl Clock + Print), zone: &Zone<FixedPool>) -> Result<()> {
    for _ in 0..COPIES {
        println!(rt; "a copy: {} us", copy(rt, zone)?.as_micros())?;
    }
    Ok(())
}

fn fill_and_print(
    rt: &(impl Clock + Print),
    alloc: Global,
    zone: &mut Zone<FixedPool>,
    sizes: Sizes,
) -> Result<()> {
    let _endpoints = fill(alloc, zone, sizes)?;
    print_copies(rt, zone)
}

/// Fills the tables of a zone, copies its state, and prints how long each copy takes.
pub fn measure(rt: &(impl Clock + Print), alloc: Global, sizes: Sizes) -> Result<()> {
    let mut zone = zone_of(alloc, MOST_KEPT)?;
    let measured = fill_and_print(rt, alloc, &mut zone, sizes);
    drop(zone);
    measured
}
