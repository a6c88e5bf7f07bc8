//! The zone of the worked examples, and how it is served.

ghost use Rattle.udp_server.specs.Plans.{IsPlan};

pub use crate::shared::{CALL, Looked, all_hold};
use pools::FixedPool;
use ras_module::{Address, Source};
use std::alloc::Global;
use std::rt::Clock;
use std::sync::Wait;
use std::thread::Threads;
use udp_server::{Datagrams, Gate, Moments, Plan, Report, serve_zone};
use vectors::requests::GRQ;
pub use worked_zone::{CALL_LIMIT, ENDPOINT, POOL, zone};

/// That a server wasn't made, or didn't run: memory or a thread was refused.
pub const NOT_SERVED: &str = "the server runs";

/// The endpoint that is called.
pub const CALLED: Source = Address {
    ip: [10, 0, 0, 6],
    port: 1719,
};

/// Each reply waits in a ring of 64, each step has a receipt, and no chapter ends.
pub const PLAN: Plan = Plan {
    ring: 64,
    faults: 16,
    tick: 1,
    chapter: 0,
    latest: usize::MAX,
    receipts: true,
    hands_out: false,
};

/// What a server of the zone leaves over these ends and clocks, if there was memory for them. None
/// if it didn't run.
pub fn served<
    R: Threads + Wait + Clock + Sync,
    N: Datagrams + Send,
    G: Gate + Sync,
    C: Moments + Send,
>(
    rt: &R,
    alloc: Global,
    receivers: Option<Vec<N>>,
    sender: N,
    gate: &G,
    clocks: Option<Vec<C>>,
    plan: Plan,
) -> Option<Report<FixedPool>>
    requires { IsPlan plan }
{
    let (zone, receivers, clocks) = (zone(alloc)?, receivers?, clocks?);
    let orders = Vec::new(alloc);
    serve_zone(
        rt, alloc, zone, receivers, sender, gate, clocks, orders, plan,
    )
    .ok()
}

/// A discovery whose number is told by the end that gives it and by how many are to come.
pub fn discovery(end: u8, left: u64) -> [u8; 20] {
    let mut bytes = GRQ;
    bytes[2] = end % 16;
    bytes[3] = (left % 256) as u8;
    bytes
}

/// How many entries have an output.
pub fn outputs(report: &Report<FixedPool>) -> u64 {
    let mut outputs = 0u64;
    for entry in report.finished.entries() {
        if entry.outcome.output.is_some() {
            outputs = outputs.saturating_add(1);
        }
    }
    outputs
}
