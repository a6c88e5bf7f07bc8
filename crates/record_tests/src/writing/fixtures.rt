//! The worked zone, whose steps are recorded as they are made.

use crate::shared::datagram;
use books::Entry;
use pools::{FixedPool, PoolSpec, PoolSpecs};
use ras_core::{Config, Event, Moment, Zone};
use record_audit::{AuditFault, Audited, audit_record};
use recording::{RecordWriter, Recorded, RecordedZone};
use script::{Input, Output, ScriptEvent};
use std::alloc::Global;
use std::io::Write;
use std::test::Fail;
use vectors::requests::{ARQ, DRQ, GRQ, RRQ_101, RRQ_102};
use worked_zone::{ENDPOINT, POOL, parts, zone};
use zone_events::Change;

/// How many steps the call has.
pub const STEPS: usize = 7;

/// How many lines the zone has: its name, 14 settings and a pool.
pub const LINES_OF_THE_ZONE: u64 = 16;

/// The worked zone, as a record begins with it.
pub fn recorded_zone(alloc: Global) -> Result<RecordedZone, Fail> {
    let parts = parts(alloc).ok_or("memory for settings")?;
    let Ok(config) = Config::new(parts) else {
        return Err("settings in their ranges".into());
    };
    let mut pools = Vec::new(alloc);
    pools.push(PoolSpec::Fixed { limit: POOL })?;
    Ok(RecordedZone::new(config, PoolSpecs::from_vec(pools))?)
}

/// A record of the worked zone within a bound, without steps.
pub fn empty_record<W: Write + Drop>(
    alloc: Global,
    out: W,
    most: u64,
) -> Result<RecordWriter<W>, Fail> {
    let zone = recorded_zone(alloc)?;
    Ok(RecordWriter::begin(alloc, Output::new(out), &zone, most)?)
}

/// Two endpoints register, the first one calls the second, its request comes again, a turn finds
/// nothing that is due, and the call ends.
fn event_of(alloc: Global, step: usize) -> Result<Event, Fail> {
    let at = step as u64;
    match step {
        0 => datagram(alloc, ENDPOINT, &GRQ, at),
        1 => datagram(alloc, ENDPOINT, &RRQ_101, at),
        2 => datagram(alloc, ENDPOINT, &RRQ_102, at),
        3 | 4 => datagram(alloc, ENDPOINT, &ARQ, at),
        5 => Ok(Event::Turn(Moment::new(at).ok_or("a moment")?)),
        _ => datagram(alloc, ENDPOINT, &DRQ, at),
    }
}

/// What became of the steps of a call that were to be recorded.
#[derive(Drop)]
pub struct Call {
    pub answers: Vec<Option<Recorded>>,
}

impl Call {
    /// How many times this was answered; None: a write failed.
    pub fn count(&self, answer: Option<Recorded>) -> usize {
        self.answers.iter().filter(|it| **it == answer).count()
    }
}

/// Makes a step of the zone, and records it.
fn record_step<W: Write + Drop>(
    alloc: Global,
    zone: &mut Zone<FixedPool>,
    step: usize,
    record: &mut RecordWriter<W>,
) -> Result<Option<Recorded>, Fail> {
    let event = event_of(alloc, step)?;
    let outcome = zone.step(event.copy()?)?;
    match record.write(&ScriptEvent::Event(event), &outcome) {
        Ok(answer) => Ok(Some(answer)),
        Err(_) => Ok(None),
    }
}

fn record_steps<W: Write + Drop>(
    alloc: Global,
    zone: &mut Zone<FixedPool>,
    record: &mut RecordWriter<W>,
) -> Result<Call, Fail> {
    let mut answers = Vec::new(alloc);
    for step in 0..STEPS {
        answers.push(record_step(alloc, zone, step, record)?)?;
    }
    Ok(Call { answers })
}

/// Makes the steps of a call, and records them.
pub fn record_call<W: Write + Drop>(
    alloc: Global,
    record: &mut RecordWriter<W>,
) -> Result<Call, Fail> {
    let mut zone = zone(alloc).ok_or("memory for a zone")?;
    let call = record_steps(alloc, &mut zone, record);
    drop(zone);
    call
}

fn entry_of(alloc: Global, zone: &mut Zone<FixedPool>, call: usize) -> Result<Entry, Fail> {
    let event = event_of(alloc, call)?;
    let outcome = zone.step(event.copy()?)?;
    Ok(Entry {
        seat: 0,
        call,
        event: Change::Event(event),
        outcome,
    })
}

fn entries_by(alloc: Global, zone: &mut Zone<FixedPool>) -> Result<Vec<Entry>, Fail> {
    let mut entries = Vec::new(alloc);
    for call in 0..STEPS {
        entries.push(entry_of(alloc, zone, call)?)?;
    }
    Ok(entries)
}

/// The steps of a call, as entries of a book.
pub fn entries_of_call(alloc: Global) -> Result<Vec<Entry>, Fail> {
    let mut zone = zone(alloc).ok_or("memory for a zone")?;
    let entries = entries_by(alloc, &mut zone);
    drop(zone);
    entries
}

/// The record of a call, within a bound, and what became of each step.
pub fn record_within(alloc: Global, most: u64) -> Result<(Vec<u8>, Call), Fail> {
    let mut record = empty_record(alloc, Vec::new(alloc), most)?;
    let call = record_call(alloc, &mut record)?;
    record.flush()?;
    Ok((record.into_output().into_writer(), call))
}

/// What the audit of a text comes to.
pub fn audited(alloc: Global, text: &[u8]) -> Result<Audited, AuditFault> {
    audit_record(alloc, &mut Input::new(text))
}
