//! What workers do in a world over the zone of the worked examples, and what comes of it.

use crate::fixtures::{all_hold_of, event_from, source, zone};
use book_audit::replays;
use facts::all_hold;
use history::{Acted, World, WorldFault, WorldStep};
use pools::{FixedPool, Lend};
use ras_core::{Datagram, Event, Moment, Note};
use std::alloc::Global;
use std::test::Fail;

/// What a worker does.
#[derive(Clone, Copy)]
pub enum Act {
    /// It receives a datagram of 10.0.0.LAST with these octets at this moment.
    Hear(u64, u8, &'static [u8]),
    /// It receives a turn at this moment.
    Turn(u64),
    /// The zone makes a step of what it holds.
    Apply,
    /// It posts the output of that step.
    Post,
    /// The front of its ring is taken.
    Take,
}

/// What comes of it.
#[derive(Clone, Copy)]
pub enum Comes {
    Received,
    /// This was noted of the step, in which the pool answered so, if it was asked.
    Applied(Note, Option<Lend>),
    Posted,
    Dropped,
    Nothing,
    /// What was taken goes to 10.0.0.LAST with these octets.
    Took(u8, &'static [u8]),
    /// It was refused for the fault of this number.
    Refused(u8),
}

/// An act by its name: the worker, what it does, and what comes of it.
pub type Row = (&'static str, usize, Act, Comes);

fn step_of(alloc: Global, w: usize, act: Act) -> Result<WorldStep, Fail> {
    Ok(match act {
        Act::Hear(at, last, octets) => {
            WorldStep::Receive(w, event_from(alloc, source(last), octets, at)?)
        }
        Act::Turn(at) => WorldStep::Receive(w, Event::Turn(Moment::new(at).ok_or("a moment")?)),
        Act::Apply => WorldStep::Apply(w),
        Act::Post => WorldStep::Post(w),
        Act::Take => WorldStep::Take(w),
    })
}

fn is_to(taken: &Datagram, last: u8, octets: &[u8]) -> bool {
    taken.to == source(last) && taken.bytes.as_slice() == octets
}

/// Whether this came of an act.
fn is_so(comes: &Comes, acted: &Result<Acted, WorldFault>) -> bool {
    match (comes, acted) {
        (Comes::Received, Ok(Acted::Received)) => true,
        (Comes::Applied(note, answer), Ok(Acted::Applied(outcome))) => {
            outcome.note == *note && outcome.answer == *answer
        }
        (Comes::Posted, Ok(Acted::Posted)) => true,
        (Comes::Dropped, Ok(Acted::Dropped)) => true,
        (Comes::Nothing, Ok(Acted::Nothing)) => true,
        (Comes::Took(last, octets), Ok(Acted::Took(taken))) => is_to(taken, *last, octets),
        (Comes::Refused(number), Err(fault)) => fault.number() == *number,
        _ => false,
    }
}

/// Does one act. A refusal is told beforehand.
fn try_act(alloc: Global, world: &mut World<FixedPool>, row: &Row) -> Result<(), Fail> {
    let (name, w, act, comes) = row;
    let step = step_of(alloc, *w, *act)?;
    let told = world.refusal(&step).map(|fault| fault.number());
    let acted = world.act(step);
    let is_so = is_so(comes, &acted);
    drop(acted);
    let refused = match comes {
        Comes::Refused(number) => Some(*number),
        _ => None,
    };
    all_hold_of(
        name,
        &[
            (is_so, "this comes of it"),
            (told == refused, "a refusal is told beforehand"),
        ],
    )
}

/// Does these acts.
pub fn try_acts(alloc: Global, world: &mut World<FixedPool>, rows: &[Row]) -> Result<(), Fail> {
    for row in rows {
        try_act(alloc, world, row)?;
    }
    Ok(())
}

/// Whether the entries of the world's book are of these seats, with these calls of theirs.
fn has_entries(world: &World<FixedPool>, entries: &[(usize, usize)]) -> bool {
    let found = &world.book().entries;
    for (entry, (seat, call)) in found.iter().zip(entries) {
        if entry.seat != *seat || entry.call != *call {
            return false;
        }
    }
    found.len() == entries.len()
}

/// The book has entries of these seats, with these calls of theirs, and leads to the zone, of which
/// so many units are in use.
pub fn find_run(
    world: &World<FixedPool>,
    entries: &[(usize, usize)],
    in_use: u64,
) -> Result<(), Fail> {
    let is_run = replays(world.book(), world.zone())?;
    all_hold(&[
        (
            has_entries(world, entries),
            "the book has the steps of the seats in their order",
        ),
        (is_run, "the book leads to the zone"),
        (world.zone().in_use() == in_use, "so many units are in use"),
    ])
}

/// A world of this many workers, with this many places in each ring.
pub fn world(alloc: Global, workers: usize, places: usize) -> Result<World<FixedPool>, Fail> {
    match World::new(alloc, zone(alloc)?, workers, places) {
        Ok(world) => Ok(world),
        Err(_) => Err(Fail::from("there is a world")),
    }
}

/// Does these acts in this world, first those by which it opens. They leave such a run.
fn go_through(
    alloc: Global,
    world: &mut World<FixedPool>,
    opening: &[Row],
    rows: &[Row],
    entries: &[(usize, usize)],
    in_use: u64,
) -> Result<(), Fail> {
    try_acts(alloc, world, opening)?;
    try_acts(alloc, world, rows)?;
    find_run(world, entries, in_use)
}

/// Does so in a world of its own, of two workers.
pub fn try_world(
    alloc: Global,
    places: usize,
    opening: &[Row],
    rows: &[Row],
    entries: &[(usize, usize)],
    in_use: u64,
) -> Result<(), Fail> {
    let mut world = world(alloc, 2, places)?;
    let ended = go_through(alloc, &mut world, opening, rows, entries, in_use);
    drop(world);
    ended
}
