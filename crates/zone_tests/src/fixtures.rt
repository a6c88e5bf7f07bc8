//! The zone of the worked examples, and what comes to it.

use facts::ensure_of;
use pools::{FixedPool, NonZeroUnits, Pool, PoolSpec, StandardPool};
use ras_core::{ConfigParts, Datagram, Event, Moment, Note, Outcome, Zone};
use ras_module::{Address, Octets, Source};
use std::alloc::Global;
use std::test::Fail;
use vectors::requests::{ARQ, RRQ_101, RRQ_102};
pub use worked_zone::{CALL_LIMIT, ENDPOINT, LIMIT, POOL};

/// The units of the worked call that opens first.
pub const CALL: u64 = 1_280;

/// What is left for the first call until it has all that a call may have.
pub const REST: u64 = CALL_LIMIT - CALL;

/// A day, in milliseconds.
pub const DAY: u64 = 86_400_000;

/// The RAS address 10.0.0.LAST.
pub const fn source(last: u8) -> Source {
    Address {
        ip: [10, 0, 0, last],
        port: 1719,
    }
}

/// The settings of the worked zone.
pub fn parts(alloc: Global) -> Result<ConfigParts, Fail> {
    Ok(worked_zone::parts(alloc).ok_or("memory for settings")?)
}

/// The worked zone.
pub fn zone(alloc: Global) -> Result<Zone<FixedPool>, Fail> {
    Ok(worked_zone::zone(alloc).ok_or("memory for a zone")?)
}

/// A zone with these settings over these pools.
pub fn zone_over<P: Pool>(
    alloc: Global,
    parts: ConfigParts,
    pools: Vec<P>,
) -> Result<Zone<P>, Fail> {
    match worked_zone::zone_over(alloc, parts, pools) {
        Some(zone) => Ok(zone),
        None => Err(Fail::from("a zone with these settings over these pools")),
    }
}

/// A pool of this limit that lends whole steps, or a burst between two turns; 0 is for neither.
pub fn pool_of(limit: u64, step: u32, burst: u32) -> StandardPool {
    StandardPool::new(match (NonZeroUnits::new(step), NonZeroUnits::new(burst)) {
        (Some(step), _) => PoolSpec::Step { limit, step },
        (None, Some(burst)) => PoolSpec::Paced { limit, burst },
        (None, None) => PoolSpec::Fixed { limit },
    })
}

pub fn event(alloc: Global, bytes: &[u8], milliseconds: u64) -> Result<Event, Fail> {
    event_from(alloc, ENDPOINT, bytes, milliseconds)
}

pub fn event_from(
    alloc: Global,
    source: Source,
    bytes: &[u8],
    milliseconds: u64,
) -> Result<Event, Fail> {
    let moment = Moment::new(milliseconds).ok_or("a moment")?;
    let bytes = Octets::from_vec(bytes.to_vec(alloc)?);
    Ok(Event::Datagram(source, bytes, moment))
}

/// Two endpoints register in the worked zone, and the first one calls the second one.
pub fn open_call(alloc: Global, zone: &mut Zone<FixedPool>) -> Result<(), Fail> {
    drop(zone.step(event(alloc, &RRQ_101, 0)?)?);
    drop(zone.step(event_from(alloc, source(6), &RRQ_102, 0)?)?);
    drop(zone.step(event(alloc, &ARQ, 0)?)?);
    Ok(())
}

/// A request of 10.0.0.5 is served with this reply and nothing else.
pub fn sent(alloc: Global, bytes: &[u8]) -> Result<Outcome, Fail> {
    Ok(Outcome {
        answer: None,
        output: Some(Datagram {
            to: ENDPOINT,
            bytes: Octets::from_vec(bytes.to_vec(alloc)?),
        }),
        note: Note::Served,
        dropped: None,
        given: None,
    })
}

/// Fails with the name of a row of a table of cases and the first of these facts of it that doesn't
/// hold.
pub fn all_hold_of(row: &str, facts: &[(bool, &str)]) -> Result<(), Fail> {
    for (holds, fact) in facts {
        ensure_of(row, *holds, fact)?;
    }
    Ok(())
}

/// Fails with the name of a run, that of a row of it, and the first of these facts that doesn't
/// hold.
pub fn all_hold_in(run: &str, row: &str, facts: &[(bool, &str)]) -> Result<(), Fail> {
    for (holds, fact) in facts {
        if !*holds {
            return Err(Fail::new(format_args!("{run}: {row}: it doesn't hold that {fact}")));
        }
    }
    Ok(())
}
