//! What a world refuses, and that it stays as it was.

use crate::fixtures::zone;
use crate::worlds::acts::{Act, Comes, Row, try_world};
use facts::ensure_of;
use history::World;
use pools::FixedPool;
use ras_core::{Note, Zone};
use std::alloc::Global;
use std::test::Fail;
use vectors::requests::GRQ;

const IDLE: Comes = Comes::Applied(Note::Idle, None);

/// Acts of a worker that isn't there, of one that is idle, of one that holds an event, and of one
/// that holds an outcome.
const REFUSED: [Row; 14] = [
    ("nobody receives", 2, Act::Turn(0), Comes::Refused(3)),
    ("nobody applies", 2, Act::Apply, Comes::Refused(3)),
    ("nobody posts", 2, Act::Post, Comes::Refused(3)),
    (
        "nothing is taken of nobody",
        2,
        Act::Take,
        Comes::Refused(3),
    ),
    ("an idle worker applies", 0, Act::Apply, Comes::Refused(5)),
    ("an idle worker posts", 0, Act::Post, Comes::Refused(6)),
    ("an empty ring", 0, Act::Take, Comes::Refused(7)),
    ("an event", 1, Act::Hear(0, 5, &GRQ), Comes::Received),
    ("a second event", 1, Act::Turn(0), Comes::Refused(4)),
    ("an event is posted", 1, Act::Post, Comes::Refused(6)),
    ("a turn", 0, Act::Turn(0), Comes::Received),
    ("a step", 0, Act::Apply, IDLE),
    ("an event behind it", 0, Act::Turn(0), Comes::Refused(4)),
    ("a step of an outcome", 0, Act::Apply, Comes::Refused(5)),
];

#[test]
fn acts_are_refused_by_number(rt: HostRuntime) -> Result<(), Fail> {
    try_world(rt.alloc(), 1, &[], &REFUSED, &[(0, 0)], 0)
}

/// The number of the fault of a world that isn't made of this zone, and how many steps the zone that
/// comes back has made.
fn fault_of(
    alloc: Global,
    zone: Zone<FixedPool>,
    workers: usize,
    places: usize,
) -> Option<(u8, u64)> {
    match World::new(alloc, zone, workers, places) {
        Ok(_) => None,
        Err((zone, fault)) => Some((fault.number(), zone.steps())),
    }
}

/// A world of this many workers and places is out of range, and the zone comes back.
fn be_out_of_range(alloc: Global, row: &str, workers: usize, places: usize) -> Result<(), Fail> {
    let fault = fault_of(alloc, zone(alloc)?, workers, places);
    ensure_of(
        row,
        fault == Some((8, 0)),
        "it is out of range, and the zone comes back",
    )
}

#[test]
fn worlds_out_of_range_are_refused(rt: HostRuntime) -> Result<(), Fail> {
    let cases = [
        ("no worker", 0, 1),
        ("17 workers", 17, 1),
        ("no place", 1, 0),
        ("4,097 places", 1, 4_097),
    ];
    for (row, workers, places) in cases {
        be_out_of_range(rt.alloc(), row, workers, places)?;
    }
    Ok(())
}
