//! Turns that are made one after the other while the lock is held.

use crate::lock::acts::{Act, Row};
use crate::lock::fixtures::{CALL, Looked, Request, zone};
use crate::lock::locks::{Left, NOTHING, try_acts};
use book_audit::AuditFault;
use zone_lock::TurnsEnd;
use zone_view::{ReplyKind, TurnDeed};

/// So that nothing is recorded, the state in which a chapter begins is let go. Two endpoints
/// register, of which one begins a call. Two turns are made where no more are wanted, then three
/// more and one in which nothing is due, and then one in which nothing is due. What they send
/// together is the question for a sign of life.
const ROWS: [Row; 12] = [
    ("no base is left", 0, Act::Discard(0, true)),
    ("0001 registers", 0, Act::Step(Request::First, 1)),
    ("0002 registers", 0, Act::Step(Request::Second, 1)),
    ("the call opens", 0, Act::Step(Request::Call, 1)),
    ("two turns", 1, Act::Turn(2, TurnsEnd::More, 1)),
    ("three and an idle one", 1, Act::Turn(50, TurnsEnd::Idle, 0)),
    ("an idle one", 1, Act::Turn(1, TurnsEnd::Idle, 0)),
    ("kept replies over", 1, Act::Turned(TurnDeed::KeptOver, 3)),
    ("one question", 1, Act::Turned(TurnDeed::Interrogation, 1)),
    ("the pools' turn", 1, Act::Turned(TurnDeed::PoolTurn, 1)),
    ("two idle turns", 1, Act::Turned(TurnDeed::Idle, 2)),
    ("the question is sent", 1, Act::Sent(ReplyKind::Irq, 1)),
];

/// Each step is an entry.
const RECORDED: Left = Left {
    entries: 10,
    datagrams: 3,
    turns: 7,
    lent: CALL,
    in_use: CALL,
    ..NOTHING
};

/// Each step is carried.
const UNRECORDED: Left = Left {
    first: 10,
    entries: 0,
    fault: Some(AuditFault::NotJoined),
    ..RECORDED
};

#[test]
fn turns_are_made_under_one_hold(rt: HostRuntime) -> Looked {
    let alloc = rt.alloc();
    try_acts(&rt, alloc, zone(alloc), 2, &ROWS[1..], &RECORDED)
}

#[test]
fn unrecorded_turns_are_made_under_one_hold(rt: HostRuntime) -> Looked {
    let alloc = rt.alloc();
    try_acts(&rt, alloc, zone(alloc), 2, &ROWS, &UNRECORDED)
}
