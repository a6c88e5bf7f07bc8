//! Orders that are carried out while a server runs.

use crate::server::clocks::leaps;
use crate::server::ends::Caller;
use crate::server::fixtures::{CALL, CALL_LIMIT, Looked, NOT_SERVED, PLAN, POOL, all_hold, zone};
use book_audit::audit;
use facts::expect;
use pools::{FixedPool, Pool};
use ras_core::Moment;
use std::alloc::Global;
use std::rt::Clock;
use std::sync::Wait;
use std::sync::atomic::AtomicU64;
use std::thread::Threads;
use udp_server::{Open, PoolOrder, Report, serve_zone};

/// How many requests there are: two registrations, and an admission of 1,280 units.
const REQUESTS: u64 = 3;

/// The millisecond at which the clock of the timers stands once each request has its reply.
const SECOND: u64 = 1_000;

/// The units of the fresh pool.
const FRESH: u64 = CALL_LIMIT;

/// From this millisecond on, a pool of this limit is to take the place of that one.
fn order(at: u64, pool: usize, limit: u64) -> Option<PoolOrder<FixedPool>> {
    Some(PoolOrder {
        at: Moment::new(at)?,
        pool,
        fresh: FixedPool::new(limit),
    })
}

/// Orders of these: from which millisecond on, for which pool, and a pool of which limit.
fn orders(alloc: Global, rows: &[(u64, usize, u64)]) -> Option<Vec<PoolOrder<FixedPool>>> {
    let mut orders = Vec::new(alloc);
    for (at, pool, limit) in rows {
        orders.push(order(*at, *pool, *limit)?).ok()?;
    }
    Some(orders)
}

/// What a server leaves that was given the three requests, and these orders: its timers' clock
/// stands a second behind the start once all three were answered.
fn report<R: Threads + Wait + Clock + Sync>(
    rt: &R,
    alloc: Global,
    orders: &[(u64, usize, u64)],
) -> Option<Report<FixedPool>> {
    let sent = AtomicU64::new(0);
    let receivers = vec![in alloc; Caller::new(rt, &sent, REQUESTS, REQUESTS)].ok();
    let clocks = leaps(alloc, &sent, u64::MAX, REQUESTS, SECOND);
    let sender = Caller::new(rt, &sent, REQUESTS, 0);
    let orders = self::orders(alloc, orders);
    let (zone, receivers, clocks, orders) = (zone(alloc)?, receivers?, clocks?, orders?);
    serve_zone(
        rt, alloc, zone, receivers, sender, &Open, clocks, orders, PLAN,
    )
    .ok()
}

/// Compares a report with that of three datagrams, of the call's units lent and none returned, and
/// of one pool that was replaced. The call's units are in use.
fn compare_report(report: &Report<FixedPool>) -> Looked {
    let Ok(totals) = audit(&report.chapters, &report.finished, &report.receipts) else {
        return Err("the receipts agree with the history");
    };
    all_hold(&[
        (report.changes == 1, "the report counts one replaced pool"),
        (report.refused == 0, "no step was refused"),
        (
            totals.datagrams == REQUESTS,
            "the audit counts three datagrams",
        ),
        (
            totals.lent == u128::from(CALL),
            "it counts the call's units as lent",
        ),
        (totals.returned == 0, "it counts none as returned"),
        (totals.changes == 1, "it counts one replaced pool"),
        (
            report.finished.zone().in_use() == CALL,
            "the call's units are in use",
        ),
    ])
}

/// Whether this came back for an order: the pool's number, this pool with nothing lent, and whether
/// it is the old one.
fn is_back(back: &(usize, FixedPool, bool), pool: usize, limit: u64, is_old: bool) -> bool {
    let (number, fixed, was_old) = back;
    *number == pool && fixed.limit() == limit && fixed.lent() == 0 && *was_old == is_old
}

/// Compares what came back with the old pool alone.
fn compare_one_box(boxes: &[(usize, FixedPool, bool)]) -> Looked {
    let [back] = boxes else {
        return Err("one pool comes back");
    };
    expect(
        is_back(back, 0, POOL, true),
        "it is the old one, with nothing lent",
    )
}

/// Carries out one order once the call is open: the old pool comes back.
fn carry_out<R: Threads + Wait + Clock + Sync>(rt: &R, alloc: Global) -> Looked {
    let report = report(rt, alloc, &[(1, 0, FRESH)]);
    compare_one_order(report.as_ref())
}

/// Compares a report with that of one order, which was carried out.
fn compare_one_order(report: Option<&Report<FixedPool>>) -> Looked {
    let report = report.ok_or(NOT_SERVED)?;
    compare_one_box(&report.boxes).and(compare_report(report))
}

#[test]
fn an_order_is_carried_out_over_a_live_call(rt: HostRuntime) -> Looked {
    carry_out(&rt, rt.alloc())
}

/// Compares what came back with the fresh pools of three orders, and with the old pool of the one
/// between them.
fn compare_four_boxes(boxes: &[(usize, FixedPool, bool)]) -> Looked {
    let [nowhere, made, small, late] = boxes else {
        return Err("four pools come back");
    };
    all_hold(&[
        (
            is_back(nowhere, 7, 900, false),
            "the first one is for a pool that isn't there",
        ),
        (
            is_back(made, 0, POOL, true),
            "the second one is the old pool",
        ),
        (
            is_back(small, 0, CALL - 1, false),
            "the third one has too few units",
        ),
        (is_back(late, 0, 5_000, false), "the fourth one is too late"),
    ])
}

/// Orders that can't be carried out: for a pool that isn't there, of fewer units than are lent, and
/// at a moment that doesn't come. The one between them is carried out.
const FOUR: [(u64, usize, u64); 4] = [
    (1, 7, 900),
    (2, 0, FRESH),
    (3, 0, CALL - 1),
    (60_000, 0, 5_000),
];

/// Hands back the fresh pools of those that can't be carried out.
fn hand_back<R: Threads + Wait + Clock + Sync>(rt: &R, alloc: Global) -> Looked {
    let report = report(rt, alloc, &FOUR);
    compare_four_orders(report.as_ref())
}

/// Compares a report with that of the four orders.
fn compare_four_orders(report: Option<&Report<FixedPool>>) -> Looked {
    let report = report.ok_or(NOT_SERVED)?;
    compare_four_boxes(&report.boxes).and(compare_report(report))
}

#[test]
fn orders_that_cannot_be_carried_out_are_handed_back(rt: HostRuntime) -> Looked {
    hand_back(&rt, rt.alloc())
}
