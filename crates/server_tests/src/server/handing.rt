//! Entries that are taken while a server runs.

ghost use Rattle.std.specs.Prelude.{◌≡◌};
ghost use Rattle.udp_server.specs.Plans.{IsPlan};

use crate::server::clocks::clocks;
use crate::server::ends::{Giver, Room, givers};
use crate::server::fixtures::{Looked, NOT_SERVED, PLAN, all_hold, zone};
use pools::FixedPool;
use std::alloc::Global;
use std::rt::Clock;
use std::sync::Wait;
use std::sync::atomic::{AtomicBool, AtomicU64, Ordering};
use std::thread::{self, Threads};
use std::time::Duration;
use udp_server::{HandedOut, Open, Plan, Report, RunningHistory, Watcher, serve_zone_watched};
use zone_view::RunningZone;

/// Steps are recorded for one who takes their entries.
const HANDED_OUT: Plan = Plan {
    chapter: 4_096,
    latest: 0,
    receipts: false,
    hands_out: true,
    ..PLAN
};

/// How many datagrams each of the four ends gives.
const DATAGRAMS: u64 = 50;

/// One who takes entries until the zone has ended, and counts them and whether each stood where the
/// one before it left off.
#[derive(Drop)]
struct Taker<'a, R> {
    rt: &'a R,
    alloc: Global,
    taken: &'a AtomicU64,
    has_gap: &'a AtomicBool,
}

impl<R: Clock + Wait> Taker<'_, R> {
    /// Takes the entries so far. Returns the place of the next one.
    fn take<Z: RunningHistory>(&self, zone: &Z, place: usize) -> usize {
        let HandedOut {
            first,
            entries,
            is_recorded,
        } = zone.hand_out(Vec::new(self.alloc));
        if first != place || !is_recorded {
            self.has_gap.store(true, Ordering::SeqCst);
        }
        let count = entries.len();
        self.taken.fetch_add(count as u64, Ordering::SeqCst);
        first.saturating_add(count)
    }
}

impl<R: Clock + Wait> Watcher for Taker<'_, R> {
    fn watch<Z: RunningZone + RunningHistory>(self, zone: &Z) {
        let mut place = 0;
        for _ in self.rt.forever() {
            let has_ended = zone.has_ended();
            place = self.take(zone, place);
            if has_ended {
                break;
            }
            thread::sleep(self.rt, Duration::from_millis(1));
        }
    }
}

/// What a server over four ends in memory leaves, of which one takes the entries.
fn report<R: Threads + Wait + Clock + Sync>(
    rt: &R,
    alloc: Global,
    room: &Room<'_, R>,
    taker: Taker<'_, R>,
) -> Option<Report<FixedPool>> {
    let zone = zone(alloc)?;
    let receivers = givers(alloc, room, 4, DATAGRAMS, 3)?;
    let clocks = clocks(alloc, 4, &room.reads)?;
    let sender = Giver::new(room, 0, 0, 0);
    let mut watchers = Vec::new(alloc);
    watchers.push(taker).ok()?;
    serve_zone_watched(
        rt,
        alloc,
        zone,
        receivers,
        sender,
        &Open,
        clocks,
        Vec::new(alloc),
        HANDED_OUT,
        watchers,
    )
    .ok()
}

/// Compares a report with that of a server of which each entry was taken, once and in order.
fn compare(report: Option<&Report<FixedPool>>, is_followed: bool, taken: u64) -> Looked {
    let report = report.ok_or(NOT_SERVED)?;
    let steps = report.datagrams.saturating_add(report.turns);
    all_hold(&[
        (
            report.datagrams == 4 * DATAGRAMS,
            "all datagrams are served",
        ),
        (is_followed, "entries follow one another"),
        (taken == steps, "each step is taken once"),
        (report.finished.entries().is_empty(), "nothing is left"),
    ])
}

/// Serves while entries are taken: each is, once, in order, and none is left.
fn serve_and_take<R: Threads + Wait + Clock + Sync>(rt: &R, alloc: Global) -> Looked {
    let (room, taken, has_gap) = (Room::new(rt), AtomicU64::new(0), AtomicBool::new(false));
    let taker = Taker {
        rt,
        alloc,
        taken: &taken,
        has_gap: &has_gap,
    };
    let report = report(rt, alloc, &room, taker);
    let is_followed = !has_gap.load(Ordering::SeqCst);
    compare(report.as_ref(), is_followed, taken.load(Ordering::SeqCst))
}

#[test]
fn entries_are_taken_while_it_serves(rt: HostRuntime) -> Looked {
    serve_and_take(&rt, rt.alloc())
}
