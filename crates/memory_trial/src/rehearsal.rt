//! Scripts that are run while memory is refused: step by step, as a run, by the workers of a world,
//! recorded in a book, by the seats of a lock, and by a server.

use crate::locks::lock_up;
use crate::meter::Metered;
use crate::records::keep_book;
use crate::serving::serve_up;
use crate::sights::sight_of;
use crate::worlds::act_out;
use pools::{Pool, PoolSet, StandardPool};
use ras_core::{Change, Event, Outcome, Snapshot, StepFault, Zone};
use registrations::Registration;
use script::{Events, Input, Script, ScriptEvent, ScriptFault, read_script, write_outcome};
use std::alloc::{AllocError, AllocFailed, Global};
use std::io;
use std::rt::Clock;
use std::sync::atomic::{AtomicU64, Ordering};
use std::sync::{Arc, Wait};
use std::thread::Threads;
use step_check::{accepts, same};

/// No more than one request for memory is refused, so a second try is enough.
const TRIES: usize = 2;

/// Why a rehearsal ends early.
#[derive(Clone, Copy, Drop)]
pub enum Trouble {
    /// Memory was refused before the first step: it begins again.
    Memory,
    /// Something was otherwise than it has to be.
    Otherwise(&'static str),
}

impl From<AllocError> for Trouble {
    fn from(_: AllocError) -> Trouble {
        Trouble::Memory
    }
}

impl<T: Drop> From<AllocFailed<T>> for Trouble {
    fn from(_: AllocFailed<T>) -> Trouble {
        Trouble::Memory
    }
}

/// How the events of a script are handed to its zone.
#[derive(Clone, Copy)]
pub enum Way {
    /// One by one.
    Steps,
    /// All at once.
    Run,
    /// By the workers of a world in turn.
    World,
    /// One by one, recorded in a book that is then run again.
    Book,
    /// By the seats of a lock in turn.
    Lock,
    /// By a server, which receives the datagrams.
    Serve,
}

/// A zone, and a meter that shows what its pools have lent.
#[derive(Drop)]
pub struct Stage<P: Pool> {
    pub zone: Zone<Metered<P>>,
    pub meter: Arc<AtomicU64>,
}

impl<P: Pool> Stage<P> {
    /// Whether the pools have lent what the calls use.
    fn is_even(&self) -> bool {
        self.meter.load(Ordering::SeqCst) == self.zone.in_use()
    }
}

/// Whether a registration is the same as before.
fn is_same(one: &Registration, other: &Registration) -> bool {
    one.identifier == other.identifier
        && one.call_signal == other.call_signal
        && one.ras == other.ras
        && one.aliases == other.aliases
        && one.deadline == other.deadline
        && one.heard == other.heard
        && one.tries == other.tries
        && one.asked == other.asked
}

pub fn are_same(some: &[Registration], others: &[Registration]) -> bool {
    if some.len() != others.len() {
        return false;
    }
    for (i, one) in some.iter().enumerate() {
        if !is_same(one, &others[i]) {
            return false;
        }
    }
    true
}

/// One step. If it is refused for want of memory, the zone is as it was: its whole state, and what
/// its pools have lent.
fn try_step<P: Pool>(stage: &mut Stage<P>, event: &Event) -> Result<Outcome, Trouble> {
    let event = event.copy()?;
    let before = stage.zone.snapshot()?;
    match stage.zone.step(event) {
        Ok(outcome) => Ok(outcome),
        Err(StepFault::Closed) => Err(Trouble::Otherwise("the zone is closed")),
        Err(StepFault::Memory) => {
            if !same(&before, &stage.zone) {
                return Err(Trouble::Otherwise("a refused step changed the zone"));
            }
            if !stage.is_even() {
                return Err(Trouble::Otherwise("a refused step left a loan"));
            }
            Err(Trouble::Memory)
        }
    }
}

/// One step, which is made again if it was refused.
pub fn step<P: Pool>(stage: &mut Stage<P>, event: &Event) -> Result<Outcome, &'static str> {
    for _ in 0..TRIES {
        match try_step(stage, event) {
            Ok(outcome) => return Ok(outcome),
            Err(Trouble::Memory) => {}
            Err(Trouble::Otherwise(told)) => return Err(told),
        }
    }
    Err("a step was refused twice")
}

/// A step for each event.
fn steps<P: Pool>(
    stage: &mut Stage<P>,
    events: &[Event],
    outcomes: &mut Vec<Outcome>,
) -> Result<(), &'static str> {
    for event in events {
        let outcome = step(stage, event)?;
        if outcomes.push(outcome).is_err() {
            return Err("no place for an outcome");
        }
    }
    Ok(())
}

/// What a step is made of, if it is made of this event.
fn change_of(event: &Event) -> Result<Change, &'static str> {
    match event.copy().or_else(|_| event.copy()) {
        Ok(event) => Ok(Change::Event(event)),
        Err(_) => Err("an event was copied again and refused"),
    }
}

/// Whether the zone stands where these outcomes of the events have led it from that state.
fn is_led<P: Pool>(
    stage: &Stage<P>,
    before: &mut Snapshot,
    events: &[Event],
    outcomes: &[Outcome],
) -> Result<bool, &'static str> {
    for (event, outcome) in events.iter().zip(outcomes.iter()) {
        match accepts(before, &change_of(event)?, outcome) {
            Ok(true) => {}
            Ok(false) => return Ok(false),
            Err(_) => return Err("a step was done again and refused"),
        }
    }
    Ok(same(before, &stage.zone))
}

/// A run over the events. If it is refused, the steps before the event that its fault names stand,
/// and nothing else has changed; it goes on from there.
fn run<P: Pool>(
    stage: &mut Stage<P>,
    events: &[Event],
    outcomes: &mut Vec<Outcome>,
) -> Result<(), &'static str> {
    for _ in 0..TRIES {
        let done = outcomes.len();
        if done > events.len() || stage.zone.steps() != done as u64 {
            return Err("a run left as many outcomes as it made no steps");
        }
        let mut before = sight_of(&stage.zone)?;
        match stage.zone.run(&events[done..], outcomes) {
            Ok(()) => return Ok(()),
            Err((_, StepFault::Closed)) => return Err("the zone is closed"),
            Err((i, StepFault::Memory)) => {
                if outcomes.len() - done != i {
                    return Err("a refused run named another event");
                }
                if !is_led(stage, &mut before, &events[done..], &outcomes[done..])? {
                    return Err("a refused run changed the zone");
                }
                if !stage.is_even() {
                    return Err("a refused run left a loan");
                }
            }
        }
    }
    Err("a run was refused twice")
}

/// The pools, with one meter for all.
fn metered<P: Pool>(
    alloc: Global,
    pools: Vec<P>,
    meter: &Arc<AtomicU64>,
) -> Result<Vec<Metered<P>>, AllocError> {
    let mut metered = Vec::new(alloc);
    for pool in pools {
        metered.push(Metered::new(pool, Arc::clone(meter)?))?;
    }
    Ok(metered)
}

/// The events of a script that replaces no pool.
fn events_of(alloc: Global, events: Events) -> Result<Vec<Event>, Trouble> {
    let mut list = Vec::with_capacity(alloc, events.as_slice().len())?;
    for event in events.into_vec() {
        match event {
            ScriptEvent::Event(event) => list.push(event)?,
            ScriptEvent::Replace(_) => return Err(Trouble::Otherwise("a pool is to be replaced")),
        }
    }
    Ok(list)
}

/// The script's zone over these pools.
fn stage_of<P: Pool>(
    alloc: Global,
    script: Script,
    pools: Vec<P>,
) -> Result<(Stage<P>, Vec<Event>), Trouble> {
    let Script { config, events, .. } = script;
    let events = events_of(alloc, events)?;
    let meter = Arc::new(alloc, AtomicU64::new(0))?;
    let Ok(pools) = PoolSet::new(metered(alloc, pools, &meter)?) else {
        return Err(Trouble::Otherwise("a new pool isn't idle"));
    };
    let Ok(zone) = Zone::new(alloc, config, pools) else {
        return Err(Trouble::Otherwise("no zone was made"));
    };
    Ok((Stage { zone, meter }, events))
}

/// Hands the events to the zone.
fn hand_over<P: Pool + Send, R: Print + Threads + Wait + Clock + Sync>(
    rt: &R,
    alloc: Global,
    stage: Stage<P>,
    events: &[Event],
    outcomes: &mut Vec<Outcome>,
    way: Way,
) -> Result<(), Trouble> {
    let mut stage = stage;
    let handed_over = match way {
        Way::Steps => steps(&mut stage, events, outcomes),
        Way::Run => run(&mut stage, events, outcomes),
        Way::World => act_out(alloc, stage, events, outcomes),
        Way::Book => keep_book(alloc, &mut stage, events, outcomes),
        Way::Lock => lock_up(rt, alloc, stage, events, outcomes),
        Way::Serve => return serve_up(rt, alloc, stage, events),
    };
    handed_over.map_err(Trouble::Otherwise)
}

/// Runs a script over these pools, and prints the lines of its outcomes.
fn perform<P: Pool + Send, R: Print + Threads + Wait + Clock + Sync>(
    rt: &R,
    alloc: Global,
    script: Script,
    pools: Vec<P>,
    way: Way,
) -> Result<(), Trouble> {
    let (stage, events) = stage_of(alloc, script, pools)?;
    let mut outcomes = Vec::with_capacity(alloc, events.len())?;
    hand_over(rt, alloc, stage, &events, &mut outcomes, way)?;
    print_outcomes(rt, &outcomes).map_err(|_| Trouble::Otherwise("standard output failed"))
}

/// Prints a line for each outcome, numbered from 1.
fn print_outcomes<R: Print>(rt: &R, outcomes: &[Outcome]) -> io::Result<()> {
    let mut out = io::writer(rt);
    for (i, outcome) in outcomes.iter().enumerate() {
        write_outcome(i + 1, outcome, &mut out)?;
    }
    Ok(())
}

fn script_of(alloc: Global, text: &[u8]) -> Result<Script, Trouble> {
    match read_script(alloc, &mut Input::new(text)) {
        Ok(script) => Ok(script),
        Err(ScriptFault::Memory) => Err(Trouble::Memory),
        Err(_) => Err(Trouble::Otherwise("the script isn't read")),
    }
}

/// Makes the pools of a script, and runs it over them. The program makes them so too: no library
/// may make a box and hand it out.
fn try_rehearsal<R: Print + Threads + Wait + Clock + Sync>(
    rt: &R,
    alloc: Global,
    text: &[u8],
    way: Way,
) -> Result<(), Trouble> {
    let script = script_of(alloc, text)?;
    let mut pools: Vec<Box<dyn Pool + Send>> = Vec::new(alloc);
    for spec in script.pools.as_slice() {
        pools.push(Box::new(alloc, StandardPool::new(*spec))?)?;
    }
    perform(rt, alloc, script, pools, way)
}

/// Runs a script, whose lines it prints; once more if memory was refused before its first step.
pub fn rehearse<R: Print + Threads + Wait + Clock + Sync>(
    rt: &R,
    alloc: Global,
    text: &[u8],
    way: Way,
) -> Result<(), &'static str> {
    for _ in 0..TRIES {
        match try_rehearsal(rt, alloc, text, way) {
            Ok(()) => return Ok(()),
            Err(Trouble::Memory) => {}
            Err(Trouble::Otherwise(told)) => return Err(told),
        }
    }
    Err("a script was refused twice")
}
