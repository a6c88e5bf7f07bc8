//! A history in which a pool was replaced over a live call.

ghost use Rattle.std.specs.Prelude.{◌≡◌};

use crate::lock::acts::{Act, Row};
use crate::lock::fixtures::{CALL, CALL_LIMIT, Looked, POOL, Request, all_hold, zone};
use crate::lock::locks::{Left, NOTHING, try_acts};
use books::Receipt;
use facts::expect;
use pools::{FixedPool, Pool, ReplaceFault};
use ras_core::{Change, Moment, Note};
use std::sync::Wait;
use std::sync::ledger::Ledger;
use zone_lock::{Hall, Seat, ZoneLock};

/// The units of the fresh pool.
const FRESH: u64 = CALL_LIMIT;

/// The seat offers a fresh pool of this limit for that one. It takes its place, or is refused for
/// this fault.
pub fn offer<D: Hall, T: Ledger, U: Ledger, V: Ledger>(
    rt: &impl Wait,
    lock: &ZoneLock<FixedPool, D, T, U, V>,
    seat: &mut Seat<D, T, U, V>,
    receipts: &mut Vec<Receipt>,
    pool: usize,
    limit: u64,
    fault: Option<ReplaceFault>,
) -> Looked {
    match lock.replace(rt, seat, pool, FixedPool::new(limit), Moment::START) {
        Ok((receipt, old)) => {
            let is_old = compare_old(&old, fault);
            let is_told = compare_receipt(&receipt, receipts.len(), pool, limit);
            let is_kept = expect(receipts.push(receipt).is_ok(), "memory for a receipt");
            is_old.and(is_told).and(is_kept)
        }
        Err((fresh, found)) => all_hold(&[
            (Some(found) == fault, "a refusal has its reason"),
            (is_idle(&fresh, limit), "the fresh pool has nothing lent"),
        ]),
    }
}

/// Compares a pool that came back, and the fault that was expected, with those of a replacement.
fn compare_old(old: &FixedPool, fault: Option<ReplaceFault>) -> Looked {
    all_hold(&[
        (fault.is_none(), "the fresh pool takes its place"),
        (is_idle(old, POOL), "the old pool has nothing lent"),
        (old.refusals() == 0, "it refused nothing"),
    ])
}

/// Whether a pool that came back has this limit and nothing lent.
fn is_idle(pool: &FixedPool, limit: u64) -> bool {
    pool.limit() == limit && pool.lent() == 0
}

/// Compares a receipt with that of a step behind so many of its seat, in which an idle pool of this
/// limit took the place of that one.
fn compare_receipt(receipt: &Receipt, behind: usize, pool: usize, limit: u64) -> Looked {
    let Change::PoolChange(change) = &receipt.event else {
        return Err("the receipt is of a replacement");
    };
    all_hold(&[
        (change.pool == pool, "this pool is replaced"),
        (
            change.offered.limit == limit,
            "the fresh pool has its limit",
        ),
        (change.offered.lent == 0, "the fresh pool has nothing lent"),
        (
            change.moment == Moment::START,
            "the replacement is at its moment",
        ),
        (
            receipt.outcome.note == Note::Replaced(pool),
            "the replacement is noted",
        ),
        (receipt.outcome.output.is_none(), "nothing is sent for it"),
        (receipt.outcome.answer.is_none(), "no pool is asked"),
        (
            receipt.call == behind && receipt.place == behind,
            "it is the next step of its seat",
        ),
    ])
}

/// Two endpoints register, and a call of theirs gets its units. Its pool is replaced: the old one
/// comes back with nothing lent and no refusal.
const REPLACED: [Row; 4] = [
    ("0001 registers", 0, Act::Apply(Request::First, 0, 0)),
    ("0002 registers", 0, Act::Apply(Request::Second, 1, 1)),
    ("the call opens", 0, Act::Apply(Request::Call, 2, 2)),
    ("its pool is replaced", 0, Act::Offer(0, FRESH, None)),
];

const REPLACED_LEFT: Left = Left {
    entries: 4,
    datagrams: 3,
    lent: CALL,
    changes: 1,
    in_use: CALL,
    ..NOTHING
};

#[test]
fn a_pool_is_replaced_over_a_live_call(rt: HostRuntime) -> Looked {
    let alloc = rt.alloc();
    try_acts(&rt, alloc, zone(alloc), 1, &REPLACED, &REPLACED_LEFT)
}

/// A pool of a unit less than the call uses is offered, and one for a pool that isn't there. Both
/// are refused, and the history has no entry of them.
const REFUSED: [Row; 5] = [
    ("0001 registers", 0, Act::Apply(Request::First, 0, 0)),
    ("0002 registers", 0, Act::Apply(Request::Second, 1, 1)),
    ("the call opens", 0, Act::Apply(Request::Call, 2, 2)),
    (
        "a pool that is too small",
        0,
        Act::Offer(0, CALL - 1, Some(ReplaceFault::NotLent)),
    ),
    (
        "one for a pool that isn't there",
        0,
        Act::Offer(1, FRESH, Some(ReplaceFault::NoPool)),
    ),
];

const REFUSED_LEFT: Left = Left {
    entries: 3,
    datagrams: 3,
    lent: CALL,
    in_use: CALL,
    ..NOTHING
};

#[test]
fn a_pool_that_cannot_take_over_the_loans_is_refused(rt: HostRuntime) -> Looked {
    let alloc = rt.alloc();
    try_acts(&rt, alloc, zone(alloc), 1, &REFUSED, &REFUSED_LEFT)
}
