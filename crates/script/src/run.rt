//! Running a script.

ghost use Rattle.std.specs.Prelude.{◌≡◌, ◌≢◌, ◌↔◌, ◌⊎◌, map, Err, IfErr, IfOk, OnErr, true, false};
ghost use Rattle.std.specs.Prelude.{OnOk, length};
ghost use Rattle.ras_machine.specs.Machine.{most_steps};
ghost use Rattle.ras_core.specs.Runs.{RunningStep};
ghost use Rattle.script.specs.Deeds.{Handle, Offer, deeds_of};
ghost use Rattle.script.specs.Events.{fresh_pools};
ghost use Rattle.script.specs.Runs.{IsDeedAnswer, IsRunAnswer, IsRunOf, IsFlushedAfter};
ghost use Rattle.script.specs.Runs.{are_boxes_of, are_pools_of, start_of};

use crate::event::{Replacement, ScriptEvent};
use crate::fault::RunFault;
use crate::output::Output;
use crate::print::{write_outcome, write_refusal};
use crate::read::Script;
use pools::{Pool, PoolSet, ReplaceFault};
use ras_core::{Config, Event, NewFault, Note, Outcome, StepFault, Zone, prepare};
use std::alloc::Global;
use std::io::Write;

/// The zone of a script before its first event, with these pools.
///
/// promise script-zone-begins: A script's zone begins as its lines say (`start_of`).
pub fn zone_of<P: Pool>(alloc: Global, config: Config, pools: Vec<P>) -> Result<Zone<P>, RunFault>
    ensures start { IfOk result
        (λ zone. zone ≡ start_of config (map P.account pools.items)) }
    ensures pools { IfOk result (λ _. are_pools_of config (map P.account pools.items) ≡ true) }
    ensures wrong { IfErr result (λ fault. ((fault ≡ RunFault.WrongPools)
        × (are_pools_of config (map P.account pools.items) ≡ false))
        ⊎ ((fault ≡ RunFault.Memory 0)
        × (are_pools_of config (map P.account pools.items) ≡ true))) }
{
    let Ok(pools) = PoolSet::new(pools) else {
        return Err(RunFault::WrongPools);
    };
    match Zone::new(alloc, config, pools) {
        Ok(zone) => Ok(zone),
        Err((_, NewFault::WrongPools)) => Err(RunFault::WrongPools),
        Err((_, NewFault::Memory)) => Err(RunFault::Memory(0)),
    }
}

/// Runs the events of a script on its zone, one after the other, and writes a line for what comes
/// of each. The pools are those of the script, in its order: as many, and each of them idle. The
/// fresh pools, which take the places of others, are as many as its events name, in their order.
/// Otherwise they are refused before anything is written. If an event can't be run, the lines of
/// those before it are written. The writer is flushed. A pool that was replaced is let go, and so
/// is a fresh one that was refused.
///
/// promise printed-lines-are-of-a-run: The lines printed are exactly those of a run of a fresh
/// zone, event by event; at a stop, of the events before; then it is flushed (`IsRunAnswer`,
/// `IsFlushedAfter`).
/// promise wrong-pools-print-nothing: Other pools than the script's are refused before anything is
/// written (`are_boxes_of`).
pub fn run_script<P: Pool, W: Write + Drop>(
    alloc: Global,
    script: Script,
    pools: Vec<P>,
    fresh: Vec<P>,
    out: &mut Output<W>,
) -> Result<(), RunFault>
    ensures answer { IsRunAnswer script (map P.account pools.items) (map P.account fresh.items)
        out.old.contents out.new.contents result }
    ensures flushed { IsFlushedAfter result out.new.flushed }
    ensures wrong { (result ≡ Err RunFault.WrongPools) ↔ (are_boxes_of script
        (map P.account pools.items) (map P.account fresh.items) ≡ false) }
{
    if fresh.len() != script.events.replacements() {
        return Err(RunFault::WrongPools);
    }
    let Script { config, events, .. } = script;
    let mut zone = match zone_of(alloc, config, pools) {
        Ok(zone) => zone,
        Err(fault) => return Err(fault),
    };
    run_zone(alloc, &mut zone, events.into_vec(), fresh, out)
}

// A zone that is dropped at each of many exits makes a function costly to prove, so what is done
// with it stands in functions that borrow it.

/// Runs events on a zone, one after the other, writes a line for each, and flushes the writer.
fn run_zone<P: Pool, W: Write + Drop>(
    alloc: Global,
    zone: &mut Zone<P>,
    events: Vec<ScriptEvent>,
    fresh: Vec<P>,
    out: &mut Output<W>,
) -> Result<(), RunFault>
    requires { length fresh.items ≡ length (fresh_pools events.items) }
    ensures answer { IsRunOf zone.old (deeds_of events.items (map P.account fresh.items))
        out.old.contents out.new.contents result }
    ensures flushed { IsFlushedAfter result out.new.flushed }
    ensures pools { result ≢ Err RunFault.WrongPools }
{
    let ran = run_events(alloc, zone, events, fresh, out);
    if let Err(RunFault::Stream) = ran {
        return ran;
    }
    if out.flush().is_err() {
        return Err(RunFault::Stream);
    }
    ran
}

/// Runs events on a zone, one after the other. The line of each is written before the next one is
/// run, so that no list of outcomes is held. The outcomes of events are made at one place.
fn run_events<P: Pool, W: Write + Drop>(
    alloc: Global,
    zone: &mut Zone<P>,
    events: Vec<ScriptEvent>,
    fresh: Vec<P>,
    out: &mut Output<W>,
) -> Result<(), RunFault>
    requires { length fresh.items ≡ length (fresh_pools events.items) }
    ensures answer { IsRunOf zone.old (deeds_of events.items (map P.account fresh.items))
        out.old.contents out.new.contents result }
    ensures pools { result ≢ Err RunFault.WrongPools }
{
    let mut outcome = Outcome::noted(Note::Idle, None);
    let mut number = 0;
    let mut fresh = fresh.into_iter();
    for event in events {
        number += 1;
        let ran = match event {
            ScriptEvent::Event(event) => {
                run_event(alloc, zone, number, event, &mut outcome, out)
            }
            ScriptEvent::Replace(replacement) => match fresh.next() {
                Some(pool) => run_replacement(zone, number, replacement, pool, out),
                None => unreachable!(),
            },
        };
        match ran {
            Ok(()) => {}
            Err(fault) => return Err(fault),
        }
    }
    Ok(())
}

/// Makes the step of an event. Its outcome is made where it stands already, so that it isn't moved.
fn step_into<P: Pool>(
    alloc: Global,
    zone: &mut Zone<P>,
    event: Event,
    outcome: &mut Outcome,
) -> Result<(), StepFault>
    ensures step { OnOk result (RunningStep zone.old event outcome.new zone.new) }
    ensures closed { (result ≡ Err StepFault.Closed) ↔ (zone.old.state.steps ≡ most_steps) }
    ensures err { OnErr result (zone.new ≡ zone.old) }
{
    if zone.is_closed() {
        return Err(StepFault::Closed);
    }
    let prepared = prepare(alloc, event)?;
    zone.step_into(prepared, outcome)
}

/// Runs the event with this number, and writes the line of its outcome, which is made at this
/// place.
fn run_event<P: Pool, W: Write + Drop>(
    alloc: Global,
    zone: &mut Zone<P>,
    number: usize,
    event: Event,
    outcome: &mut Outcome,
    out: &mut Output<W>,
) -> Result<(), RunFault>
    ensures { IsDeedAnswer number zone.old zone.new (Handle event)
        out.old.contents out.new.contents result }
{
    match step_into(alloc, zone, event, outcome) {
        Ok(()) => {}
        Err(StepFault::Memory) => return Err(RunFault::Memory(number)),
        Err(StepFault::Closed) => return Err(RunFault::Closed(number)),
    }
    match write_outcome(number, outcome, out) {
        Ok(()) => Ok(()),
        Err(_) => Err(RunFault::Stream),
    }
}

/// Offers the zone a fresh pool, in the event with this number, and writes the line of what comes
/// of it. The pool that comes back is let go.
fn run_replacement<P: Pool, W: Write + Drop>(
    zone: &mut Zone<P>,
    number: usize,
    replacement: Replacement,
    fresh: P,
    out: &mut Output<W>,
) -> Result<(), RunFault>
    ensures { IsDeedAnswer number zone.old zone.new (Offer replacement (P.account fresh))
        out.old.contents out.new.contents result }
{
    let Replacement { pool, moment, .. } = replacement;
    let written = match zone.replace(pool, fresh, moment) {
        Ok((outcome, _old)) => write_outcome(number, &outcome, out),
        Err((_fresh, fault)) => match fault {
            ReplaceFault::Closed => return Err(RunFault::Closed(number)),
            ReplaceFault::Memory => return Err(RunFault::Memory(number)),
            _ => write_refusal(number, fault, out),
        },
    };
    match written {
        Ok(()) => Ok(()),
        Err(_) => Err(RunFault::Stream),
    }
}
