//! Entries that are let go, without a chapter.

use crate::lock::acts::{Act, Row};
use crate::lock::fixtures::{Looked, Request, zone};
use crate::lock::locks::{Left, NOTHING, try_acts};
use book_audit::AuditFault;

/// A step, which is let go, a step, a chapter that can't be cut, and two steps more: those of two
/// are let go. Places go on over what was.
const ROWS: [Row; 8] = [
    ("the first step", 0, Act::Apply(Request::Discovery, 0, 0)),
    ("it goes with its base", 0, Act::Discard(1, true)),
    ("the second step", 0, Act::Apply(Request::Rejected, 1, 1)),
    ("no chapter without a base", 0, Act::CutInVain),
    ("the third step", 0, Act::Apply(Request::Discovery, 2, 2)),
    ("both go without a base", 0, Act::Discard(2, false)),
    ("nothing is left to go", 0, Act::Discard(0, false)),
    ("the fourth step", 0, Act::Apply(Request::Rejected, 3, 3)),
];

/// What is left goes on from the state of the zone, with the totals of what was let go. An audit
/// finds that chapters are missing.
const LEFT: Left = Left {
    first: 4,
    datagrams: 4,
    fault: Some(AuditFault::NotJoined),
    ..NOTHING
};

#[test]
fn entries_are_let_go(rt: HostRuntime) -> Looked {
    let alloc = rt.alloc();
    try_acts(&rt, alloc, zone(alloc), 1, &ROWS, &LEFT)
}
