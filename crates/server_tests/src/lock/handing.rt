//! Entries that leave the lock while steps are recorded.

use crate::lock::acts::{Act, Row};
use crate::lock::fixtures::{Looked, Request, zone};
use crate::lock::locks::{Left, NOTHING, try_acts};
use book_audit::AuditFault;

/// How many entries may wait.
const MOST_WAITING: usize = 65_536;

/// The place behind three steps and one more than may wait.
const BEHIND: usize = 3 + MOST_WAITING + 1;

/// A step leaves, with the state in which it began; then two leave, into whose place the room of
/// the first one came; then none is left. If one step more is made than may wait, it isn't
/// recorded, nor is any further one, and those that waited are let go.
const ROWS: [Row; 13] = [
    ("a step", 0, Act::Step(Request::Discovery, 1)),
    ("it leaves", 0, Act::HandOut(0, 1, true)),
    ("no chapter without a base", 0, Act::CutInVain),
    ("a second step", 0, Act::Step(Request::Discovery, 1)),
    ("a third step", 0, Act::Step(Request::Rejected, 1)),
    ("both leave", 0, Act::HandOut(1, 2, true)),
    ("the second one", 0, Act::Entry(0, Request::Discovery, 1)),
    ("the third one", 0, Act::Entry(1, Request::Rejected, 2)),
    ("nothing is left to leave", 0, Act::HandOut(3, 0, true)),
    (
        "more steps than may wait",
        0,
        Act::Step(Request::Discovery, MOST_WAITING + 1),
    ),
    ("none of them is left", 0, Act::HandOut(BEHIND, 0, false)),
    ("a last step", 0, Act::Step(Request::Discovery, 1)),
    ("it has no entry", 0, Act::HandOut(BEHIND + 1, 0, false)),
];

const LEFT: Left = Left {
    first: BEHIND + 1,
    datagrams: (BEHIND + 1) as u64,
    fault: Some(AuditFault::NotJoined),
    ..NOTHING
};

#[test]
fn entries_leave_while_steps_are_recorded(rt: HostRuntime) -> Looked {
    let alloc = rt.alloc();
    try_acts(&rt, alloc, zone(alloc), 1, &ROWS, &LEFT)
}
