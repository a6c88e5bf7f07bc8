//! What comes of orders in which workers act.

use crate::fixtures::CALL;
use crate::messages::SECOND_ACF_1280;
use crate::worlds::acts::{Act, Comes, Row, find_run, try_acts, try_world, world};
use facts::all_hold;
use history::World;
use pools::{FixedPool, Lend};
use ras_core::Note;
use std::alloc::Global;
use std::test::Fail;
use vectors::replies::{ACF_1280, ARJ, GCF, GRJ, RCF_0001, RCF_0002};
use vectors::requests::{
    ARQ, ARQ_OF_A_SECOND_CALL as SECOND_ARQ, GRQ, GRQ_OF_XX, RRQ_101, RRQ_102,
};

/// AdmissionReject of the first call, requestDenied.
const FIRST_ARJ: [u8; 4] = [0x2C, 0x00, 0x02, 0x20];

const SERVED: Comes = Comes::Applied(Note::Served, None);

const LENT: Comes = Comes::Applied(Note::Served, Some(Lend::Lent(CALL)));

const REFUSED: Comes = Comes::Applied(Note::Served, Some(Lend::Refused));

const CONFIRM: Comes = Comes::Took(5, &GCF);

const REJECT: Comes = Comes::Took(5, &GRJ);

/// Two endpoints register, each by a worker. Then each worker holds a call, which the pool can't
/// carry together.
const BOTH_CALL: [Row; 10] = [
    ("0001", 0, Act::Hear(0, 5, &RRQ_101), Comes::Received),
    ("0001", 0, Act::Apply, SERVED),
    ("0001", 0, Act::Post, Comes::Posted),
    ("0002", 1, Act::Hear(0, 6, &RRQ_102), Comes::Received),
    ("0002", 1, Act::Apply, SERVED),
    ("0002", 1, Act::Post, Comes::Posted),
    ("0001", 0, Act::Take, Comes::Took(5, &RCF_0001)),
    ("0002", 1, Act::Take, Comes::Took(6, &RCF_0002)),
    ("call", 0, Act::Hear(1, 5, &ARQ), Comes::Received),
    ("other", 1, Act::Hear(1, 5, &SECOND_ARQ), Comes::Received),
];

/// The first call is first under the zone's lock, and the other worker posts first. Each has its
/// own reply in its ring.
const FIRST_CALL: [Row; 6] = [
    ("call", 0, Act::Apply, LENT),
    ("other", 1, Act::Apply, REFUSED),
    ("other", 1, Act::Post, Comes::Posted),
    ("call", 0, Act::Post, Comes::Posted),
    ("call", 0, Act::Take, Comes::Took(5, &ACF_1280)),
    ("other", 1, Act::Take, Comes::Took(5, &ARJ)),
];

/// The other way round.
const SECOND_CALL: [Row; 6] = [
    ("other", 1, Act::Apply, LENT),
    ("call", 0, Act::Apply, REFUSED),
    ("call", 0, Act::Post, Comes::Posted),
    ("other", 1, Act::Post, Comes::Posted),
    ("other", 1, Act::Take, Comes::Took(5, &SECOND_ACF_1280)),
    ("call", 0, Act::Take, Comes::Took(5, &FIRST_ARJ)),
];

/// The seats of the entries, with the calls of each, if the first or the second call is first.
const FIRST: [(usize, usize); 4] = [(0, 0), (1, 0), (0, 1), (1, 1)];

const SECOND: [(usize, usize); 4] = [(0, 0), (1, 0), (1, 1), (0, 1)];

#[test]
fn the_order_under_the_lock_decides(rt: HostRuntime) -> Result<(), Fail> {
    let alloc = rt.alloc();
    try_world(alloc, 4, &BOTH_CALL, &FIRST_CALL, &FIRST, CALL)?;
    try_world(alloc, 4, &BOTH_CALL, &SECOND_CALL, &SECOND, CALL)
}

/// A reply is posted, and the next one is dropped while that waits in the ring of one place. It is
/// kept, and finds its place when its request comes again and the ring is empty. A turn has no
/// output.
const RING_OF_ONE: [Row; 14] = [
    ("first", 0, Act::Hear(0, 5, &GRQ), Comes::Received),
    ("first", 0, Act::Apply, SERVED),
    ("first", 0, Act::Post, Comes::Posted),
    ("second", 0, Act::Hear(1, 5, &GRQ_OF_XX), Comes::Received),
    ("second", 0, Act::Apply, SERVED),
    ("second", 0, Act::Post, Comes::Dropped),
    ("first", 0, Act::Take, CONFIRM),
    ("repeat", 0, Act::Hear(2, 5, &GRQ_OF_XX), Comes::Received),
    ("repeat", 0, Act::Apply, Comes::Applied(Note::Kept, None)),
    ("repeat", 0, Act::Post, Comes::Posted),
    ("repeat", 0, Act::Take, REJECT),
    ("turn", 0, Act::Turn(3), Comes::Received),
    ("turn", 0, Act::Apply, Comes::Applied(Note::Idle, None)),
    ("turn", 0, Act::Post, Comes::Nothing),
];

/// Does so by one worker.
fn fill_ring(alloc: Global, world: &mut World<FixedPool>) -> Result<(), Fail> {
    try_acts(alloc, world, &RING_OF_ONE)?;
    find_run(world, &[(0, 0), (0, 1), (0, 2), (0, 3)], 0)
}

#[test]
fn a_ring_of_one_drops_the_second_reply(rt: HostRuntime) -> Result<(), Fail> {
    let mut world = world(rt.alloc(), 1, 1)?;
    let filled = fill_ring(rt.alloc(), &mut world);
    let (zone, book) = world.close();
    let steps = zone.steps();
    let entries = book.entries.len();
    drop(zone);
    drop(book);
    filled?;
    all_hold(&[
        (steps == 4, "a closed world leaves its zone, of four steps"),
        (entries == 4, "it leaves a book of four steps"),
    ])
}
