//! Acts of workers of a world while memory is refused. If one is refused, the world is as it was,
//! and the same act with memory is done.

use crate::rehearsal::Stage;
use crate::sights::sight_of;
use book_audit::replays;
use history::{Acted, World, WorldFault, WorldStep};
use pools::Pool;
use ras_core::{Event, Outcome, Zone};
use std::alloc::Global;
use std::sync::atomic::{AtomicU64, Ordering};
use step_check::same;
use zone_events::Datagram;

/// How many workers there are, and how many places each ring has.
const WORKERS: usize = 2;

const CHANGED: &str = "a refused act changed the world";

const TWICE: &str = "an act was refused twice";

const OTHERWISE: &str = "a world answered otherwise";

/// What a worker does with the event that it received.
#[derive(Clone, Copy)]
enum Deed {
    Apply,
    Post,
    Take,
}

fn step_of(deed: Deed, w: usize) -> WorldStep {
    match deed {
        Deed::Apply => WorldStep::Apply(w),
        Deed::Post => WorldStep::Post(w),
        Deed::Take => WorldStep::Take(w),
    }
}

/// A world over the zone. If it is refused, the zone comes back as it was.
fn world_of<P: Pool>(alloc: Global, zone: Zone<P>) -> Result<World<P>, &'static str> {
    let before = sight_of(&zone)?;
    match World::new(alloc, zone, WORKERS, 1) {
        Ok(world) => Ok(world),
        Err((zone, WorldFault::Memory)) => {
            if !same(&before, &zone) {
                return Err(CHANGED);
            }
            World::new(alloc, zone, WORKERS, 1).map_err(|_| TWICE)
        }
        Err(_) => Err(OTHERWISE),
    }
}

/// Whether the book has this many entries, the whole state of the zone is the one to which they
/// lead, and its pools have lent what its calls use.
fn is_led<P: Pool>(
    world: &World<P>,
    meter: &AtomicU64,
    entries: usize,
) -> Result<bool, &'static str> {
    let is_run = replays(world.book(), world.zone()).map_err(|_| TWICE)?;
    let is_even = meter.load(Ordering::SeqCst) == world.zone().in_use();
    Ok(is_run && is_even && world.book().entries.len() == entries)
}

/// One act, which is made again if it was refused. Its zone and its book are then as they were.
fn act<P: Pool>(
    world: &mut World<P>,
    meter: &AtomicU64,
    deed: Deed,
    w: usize,
) -> Result<Acted, &'static str> {
    let entries = world.book().entries.len();
    match world.act(step_of(deed, w)) {
        Ok(acted) => Ok(acted),
        Err(WorldFault::Memory) => {
            if !is_led(world, meter, entries)? {
                return Err(CHANGED);
            }
            world.act(step_of(deed, w)).map_err(|_| TWICE)
        }
        Err(_) => Err(OTHERWISE),
    }
}

/// Whether the worker posts its output, if it has one. If another one waits in its ring, it is
/// dropped, and the one that waits is then taken.
fn is_sent<P: Pool>(
    world: &mut World<P>,
    meter: &AtomicU64,
    w: usize,
    has_output: bool,
    waiting: Option<&Datagram>,
) -> Result<bool, &'static str> {
    let posted = act(world, meter, Deed::Post, w)?;
    if !has_output {
        return Ok(matches!(&posted, Acted::Nothing));
    }
    let Some(waiting) = waiting else {
        return Ok(matches!(&posted, Acted::Posted));
    };
    if !matches!(&posted, Acted::Dropped) {
        return Ok(false);
    }
    match act(world, meter, Deed::Take, w)? {
        Acted::Took(datagram) => Ok(datagram == *waiting),
        _ => Ok(false),
    }
}

/// A worker receives the event, the zone makes a step of it, and what is sent is posted.
fn serve<P: Pool>(
    world: &mut World<P>,
    meter: &AtomicU64,
    w: usize,
    event: &Event,
    waiting: Option<&Datagram>,
) -> Result<Outcome, &'static str> {
    let event = event.copy().or_else(|_| event.copy()).map_err(|_| TWICE)?;
    let received = world.act(WorldStep::Receive(w, event));
    if !matches!(&received, Ok(Acted::Received)) {
        return Err(OTHERWISE);
    }
    let Acted::Applied(outcome) = act(world, meter, Deed::Apply, w)? else {
        return Err(OTHERWISE);
    };
    if is_sent(world, meter, w, outcome.output.is_some(), waiting)? {
        Ok(outcome)
    } else {
        Err(OTHERWISE)
    }
}

/// The output of the outcome at this place, if there is one.
fn output_at(outcomes: &[Outcome], place: Option<usize>) -> Option<&Datagram> {
    outcomes.get(place?)?.output.as_ref()
}

/// The place of the outcome whose output waits in a ring, once the outcome at this place is posted:
/// its output waits if none did before, and is dropped if that of another place did.
fn waiting_then(waited: Option<usize>, place: usize, has_output: bool) -> Option<usize> {
    match waited {
        Some(_) if has_output => None,
        None if has_output => Some(place),
        _ => waited,
    }
}

/// The workers of a world serve the events in turn. Each has a ring of one place, so that every
/// second output of a worker finds it full and is dropped. The book has an entry for each.
pub fn act_out<P: Pool>(
    alloc: Global,
    stage: Stage<P>,
    events: &[Event],
    outcomes: &mut Vec<Outcome>,
) -> Result<(), &'static str> {
    let Stage { zone, meter } = stage;
    let mut world = world_of(alloc, zone)?;
    let mut waiting: [Option<usize>; WORKERS] = [None; WORKERS];
    for (i, event) in events.iter().enumerate() {
        let w = i % WORKERS;
        let before = output_at(outcomes, waiting[w]);
        let outcome = serve(&mut world, &meter, w, event, before)?;
        waiting[w] = waiting_then(waiting[w], i, outcome.output.is_some());
        if world.book().entries.len() != i + 1 {
            return Err(OTHERWISE);
        }
        if outcomes.push(outcome).is_err() {
            return Err("no place for an outcome");
        }
    }
    Ok(())
}
