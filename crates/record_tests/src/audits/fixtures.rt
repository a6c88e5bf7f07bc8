//! A record of a zone.

use crate::shared::datagram;
use pools::FixedPool;
use ras_core::{Event, Moment, Zone};
use script::{ScriptEvent, write_event, write_outcome};
use std::alloc::Global;
use std::test::Fail;
use vectors::requests::{ARQ, DRQ, GRQ, RRQ_101, RRQ_102};
use worked_zone::{ENDPOINT, zone};

/// How many lines the worked zone has.
pub const LINES_OF_THE_ZONE: u64 = 5;

/// The lines of the worked zone.
const HEAD: &[u8] =
    b"# a call\nzone gk 10.0.0.1:1719\nset limit 3000\nset call_limit 2000\npool fixed 2500\n";

/// The step of an event with this number is made, and recorded behind a text.
fn record_step(
    zone: &mut Zone<FixedPool>,
    number: usize,
    event: Event,
    text: &mut Vec<u8>,
) -> Result<(), Fail> {
    let event = ScriptEvent::Event(event);
    write_event(&event, text)?;
    if let ScriptEvent::Event(event) = event {
        let outcome = zone.step(event)?;
        write_outcome(number, &outcome, text)?;
    }
    Ok(())
}

/// Two endpoints register, the first one calls the second, its request comes again, a turn finds
/// nothing that is due, and the call ends.
fn record_call(alloc: Global, zone: &mut Zone<FixedPool>, text: &mut Vec<u8>) -> Result<(), Fail> {
    record_step(zone, 1, datagram(alloc, ENDPOINT, &GRQ, 0)?, text)?;
    record_step(zone, 2, datagram(alloc, ENDPOINT, &RRQ_101, 1)?, text)?;
    record_step(zone, 3, datagram(alloc, ENDPOINT, &RRQ_102, 2)?, text)?;
    record_step(zone, 4, datagram(alloc, ENDPOINT, &ARQ, 3)?, text)?;
    record_step(zone, 5, datagram(alloc, ENDPOINT, &ARQ, 4)?, text)?;
    let turn = Event::Turn(Moment::new(5).ok_or("a moment")?);
    record_step(zone, 6, turn, text)?;
    record_step(zone, 7, datagram(alloc, ENDPOINT, &DRQ, 6)?, text)
}

/// The record of a call.
pub fn record(alloc: Global) -> Result<Vec<u8>, Fail> {
    let mut zone = zone(alloc).ok_or("memory for a zone")?;
    let mut text = HEAD.to_vec(alloc)?;
    let made = record_call(alloc, &mut zone, &mut text);
    drop(zone);
    made?;
    Ok(text)
}
