//! A running server's history is audited by the receipts of its workers.

ghost use Rattle.udp_server.specs.Plans.{IsPlan};

use crate::server::clocks::clocks;
use crate::server::ends::{Giver, Room, givers};
use crate::server::fixtures::{Looked, NOT_SERVED, PLAN, all_hold, served};
use book_audit::audit;
use pools::FixedPool;
use std::alloc::Global;
use std::rt::Clock;
use std::sync::Wait;
use std::sync::atomic::Ordering;
use std::thread::Threads;
use udp_server::{Open, Plan, Report};

/// How many datagrams each of four ends gives.
const DATAGRAMS: u64 = 100;

/// How many datagrams all ends give.
const ALL: u64 = 4 * DATAGRAMS;

/// What a server keeps of its steps.
#[derive(Clone, Copy)]
enum Kept {
    /// All of them, in no chapter.
    All,
    /// All of them, in chapters and what is left behind them.
    Chapters,
    /// The latest two chapters of one turn each.
    Latest,
    /// None.
    Nothing,
}

/// Audits the history, with which the receipts agree: there are as many as entries, and each
/// datagram was answered.
fn audit_report(report: &Report<FixedPool>, has_chapters: bool) -> Looked {
    let finished = &report.finished;
    let entries = finished.first().saturating_add(finished.entries().len());
    let Ok(totals) = audit(&report.chapters, finished, &report.receipts) else {
        return Err("the receipts agree with the history");
    };
    all_hold(&[
        (totals.datagrams == ALL, "the audit counts each datagram"),
        (totals.turns == report.turns, "it counts each turn"),
        (
            report.receipts.len() == entries,
            "there are as many receipts as entries",
        ),
        (
            report.chapters.is_empty() != has_chapters,
            "there are chapters if they end, and none if not",
        ),
    ])
}

/// Finds two chapters of one turn each, one behind the other, right before what is left.
fn find_latest(report: &Report<FixedPool>) -> Looked {
    let [one, other] = report.chapters.as_slice() else {
        return Err("two chapters are kept");
    };
    let finished = &report.finished;
    let behind_one = one.first().saturating_add(1);
    let behind_other = other.first().saturating_add(1);
    all_hold(&[
        (one.entries().len() == 1, "the first chapter has one turn"),
        (
            other.entries().len() == 1,
            "the second chapter has one turn",
        ),
        (
            behind_one == other.first(),
            "the second chapter follows the first one",
        ),
        (
            behind_other == finished.first(),
            "what is left follows the second chapter",
        ),
        (finished.entries().is_empty(), "it has no entries"),
    ])
}

/// Finds all steps let go: none is left, and the zone is where they led.
fn find_none(report: &Report<FixedPool>) -> Looked {
    let finished = &report.finished;
    let steps = report.datagrams.saturating_add(report.turns);
    let is_same = finished.base().is_same(finished.zone().machine());
    all_hold(&[
        (
            finished.first() as u64 == steps,
            "what is left begins behind all steps",
        ),
        (finished.entries().is_empty(), "it has no entries"),
        (is_same, "it begins with the state of the zone"),
        (report.chapters.is_empty(), "no chapter is kept"),
    ])
}

/// Looks what became of the steps.
fn look_at_steps(report: &Report<FixedPool>, kept: Kept) -> Looked {
    match kept {
        Kept::All => audit_report(report, false),
        Kept::Chapters => audit_report(report, true),
        Kept::Latest => find_latest(report),
        Kept::Nothing => find_none(report),
    }
}

/// Looks what became of the datagrams and the replies: each reply was sent, or found no place in
/// its ring.
fn look_at_replies<R>(
    report: &Report<FixedPool>,
    room: &Room<'_, R>,
    has_receipts: bool,
) -> Looked {
    let sent = room.sent.load(Ordering::SeqCst);
    let impatient = room.impatient.load(Ordering::SeqCst);
    let replies = report.sent.saturating_add(report.dropped);
    all_hold(&[
        (report.datagrams == ALL, "each datagram is counted"),
        (report.turns >= 1, "a turn was made"),
        (
            report.sent == sent,
            "the report counts as many replies as were sent",
        ),
        (replies == ALL, "each reply was sent, or found no place"),
        (report.refused == 0, "no step was refused"),
        (report.receive_faults == 0, "no receive failed"),
        (report.send_faults == 0, "no send failed"),
        (
            report.receipts.is_empty() != has_receipts,
            "steps have receipts if they are to have some",
        ),
        (impatient == 0, "no end lost its patience"),
    ])
}

/// What a server over four ends in memory leaves.
fn report<R: Threads + Wait + Clock + Sync>(
    rt: &R,
    alloc: Global,
    room: &Room<'_, R>,
    plan: Plan,
) -> Option<Report<FixedPool>>
    requires { IsPlan plan }
{
    let receivers = givers(alloc, room, 4, DATAGRAMS, 3);
    let clocks = clocks(alloc, 4, &room.reads);
    let sender = Giver::new(room, 0, 0, 0);
    served(rt, alloc, receivers, sender, &Open, clocks, plan)
}

/// Serves by this plan, and looks at what is left.
fn serve_and_look<R: Threads + Wait + Clock + Sync>(
    rt: &R,
    alloc: Global,
    plan: Plan,
    kept: Kept,
) -> Looked
    requires { IsPlan plan }
{
    let room = Room::new(rt);
    let report = report(rt, alloc, &room, plan).ok_or(NOT_SERVED)?;
    let are_sent = look_at_replies(&report, &room, plan.receipts);
    let looked = are_sent.and(look_at_steps(&report, kept));
    drop(report);
    looked
}

#[test]
fn a_running_server_is_audited(rt: HostRuntime) -> Looked {
    serve_and_look(&rt, rt.alloc(), PLAN, Kept::All)
}

/// Chapters end after ten entries.
const CHAPTERS: Plan = Plan {
    chapter: 10,
    ..PLAN
};

#[test]
fn a_running_server_is_audited_in_chapters(rt: HostRuntime) -> Looked {
    serve_and_look(&rt, rt.alloc(), CHAPTERS, Kept::Chapters)
}

/// A chapter ends after each turn, and the latest two are kept.
const LATEST: Plan = Plan {
    chapter: 1,
    latest: 2,
    ..PLAN
};

#[test]
fn the_latest_chapters_are_kept(rt: HostRuntime) -> Looked {
    serve_and_look(&rt, rt.alloc(), LATEST, Kept::Latest)
}

/// Nothing is recorded.
const UNRECORDED: Plan = Plan {
    chapter: 4_096,
    latest: 0,
    receipts: false,
    ..PLAN
};

#[test]
fn a_server_without_records_serves_as_any(rt: HostRuntime) -> Looked {
    serve_and_look(&rt, rt.alloc(), UNRECORDED, Kept::Nothing)
}

/// A chapter would end after each turn, and none is kept.
const LET_GO: Plan = Plan {
    latest: 0,
    ..LATEST
};

#[test]
fn a_server_without_chapters_lets_its_steps_go(rt: HostRuntime) -> Looked {
    serve_and_look(&rt, rt.alloc(), LET_GO, Kept::Nothing)
}
