//! The worker that makes the turns of the timers.

ghost use Rattle.std.specs.Prelude.{◌≡◌, IsFalse};
ghost use Rattle.zone_lock.specs.Held.{IsClosed};
ghost use Rattle.udp_server.specs.KeptChapters.{kept_of};
ghost use Rattle.udp_server.specs.OrderNumbers.{order_numbers, ordering_of};
ghost use Rattle.udp_server.specs.Orders.{numbers_back};
ghost use Rattle.udp_server.specs.Plans.{has_history};
ghost use Rattle.udp_server.specs.WholeTicks.{IsWholeTick};
ghost use Rattle.udp_server.specs.Ticks.{AreTurnsOfRound, IsTick, IsTurnOfRound};
ghost use Rattle.udp_server.specs.Ticks.{goes_on_after_turns, is_more_due, is_more_due_after};
ghost use Rattle.udp_server.specs.Ticks.{IsTriedBehind, recording};
ghost use Rattle.udp_server.specs.Working.{goes_on_after, standing};

use crate::chapters::Chapters;
use crate::gate::Gate;
use crate::moments::Moments;
use crate::orders::Orders;
use crate::worker::{Shared, StepResult, Worker, WorkerRecord};
use pools::Pool;
use ras_core::{Event, StepFault};
use std::alloc::AllocError;
use std::rt::Clock;
use std::sync::Wait;
use std::sync::ledger::Ledger;
use std::time::Duration;
use zone_events::Datagram;
use zone_lock::{Hall, TurnsEnd};

/// How many turns are made at most at one tick, if they are recorded.
const MOST_TURNS: usize = 1_000;

/// How often turns are made at one tick at most, if they aren't recorded: 50 or fewer each time.
const MOST_HOLDS: usize = 20;

/// What the expiry worker leaves at its end: what each worker does, and what came back of the
/// orders.
#[derive(Drop)]
pub(crate) struct ExpiryRecord<P: Pool, D: Hall, T: Ledger, U: Ledger, V: Ledger> {
    pub(crate) worker: WorkerRecord<D, T, U, V>,
    pub(crate) boxes: Vec<(usize, P, bool)>,
}

/// At each tick carries out the orders whose moment is reached, and makes the turns that are due,
/// until this many other workers have ended, or no step may be made any more.
pub(crate) fn expire<
    P: Pool,
    D: Hall,
    T: Ledger,
    U: Ledger,
    V: Ledger,
    R: Wait + Clock,
    G: Gate,
    C: Moments,
>(
    shared: &Shared<'_, P, D, T, U, V, R, G>,
    others: usize,
    worker: Worker<D, T, U, V, C>,
    orders: Orders<P>,
) -> ExpiryRecord<P, D, T, U, V>
    ensures { numbers_back result.boxes.items ≡ order_numbers orders }
{
    let (mut worker, mut orders) = (worker, orders);
    let mut chapters = Chapters::new(shared.alloc);
    let mut replies = Vec::new(shared.alloc);
    if shared.board.may_begin(shared.rt) {
        let pause = Duration::from_millis(shared.plan.tick);
        for _ in shared.rt.forever() {
            let have_ended = shared.board.wait_for_tick(shared.rt, others, pause);
            let goes_on = tick(
                shared,
                &mut worker,
                &mut orders,
                &mut chapters,
                &mut replies,
            );
            if !goes_on || have_ended {
                break;
            }
        }
    }
    ExpiryRecord {
        worker: worker.end(shared, chapters.into_latest()),
        boxes: orders.into_boxes(),
    }
}

/// Carries out the orders whose moment is reached, then makes the turns that are due. Whether the
/// worker goes on.
///
/// promise tick-tries-orders-then-turns: At a tick a worker tries each order that is due, and makes
/// turns behind that, one by one or in rounds as the plan says (`IsWholeTick`, `AreCarriedOut`).
fn tick<P: Pool, D: Hall, T: Ledger, U: Ledger, V: Ledger, R: Wait, G: Gate, C: Moments>(
    shared: &Shared<'_, P, D, T, U, V, R, G>,
    worker: &mut Worker<D, T, U, V, C>,
    orders: &mut Orders<P>,
    chapters: &mut Chapters,
    replies: &mut Vec<Datagram>,
) -> bool
    ensures all { order_numbers orders.new ≡ order_numbers orders.old }
    ensures tick { IsWholeTick D.opened P.account C.tells
        shared.now.plan (has_history shared.now.plan) result
        (ordering_of orders.old (standing worker.old.seat worker.old.outlet worker.old.counts))
        (ordering_of orders.new (standing worker.new.seat worker.new.outlet worker.new.counts))
        (kept_of chapters.old) (kept_of chapters.new) }
{
    orders.carry_out(shared, worker);
    if shared.plan.is_recorded() {
        goes_on_recorded(shared, worker, chapters)
    } else {
        goes_on_unrecorded(shared, worker, replies)
    }
}

/// Makes turns until nothing is due, or one is refused, many of them each time that it holds the
/// lock. Whether the worker goes on: it ends only if no step may be made any more.
///
/// promise tick-makes-turns-while-due: The turns of a tick are rounds, until none is due, one is
/// refused, or 20 rounds were made; or, if they are recorded, 1,000 turns (`IsTick`,
/// `AreTurnsOfRound`).
fn goes_on_unrecorded<
    P: Pool,
    D: Hall,
    T: Ledger,
    U: Ledger,
    V: Ledger,
    R: Wait,
    G: Gate,
    C: Moments,
>(
    shared: &Shared<'_, P, D, T, U, V, R, G>,
    worker: &mut Worker<D, T, U, V, C>,
    replies: &mut Vec<Datagram>,
) -> bool
    ensures closed { IsFalse result → IsClosed D.opened }
    ensures tick { IsTick (AreTurnsOfRound D.opened C.tells 50) MOST_HOLDS is_more_due
        goes_on_after_turns result
        (standing worker.old.seat worker.old.outlet worker.old.counts)
        (standing worker.new.seat worker.new.outlet worker.new.counts) }
{
    for _ in 0..MOST_HOLDS {
        let end = worker.turns(shared, replies);
        if !is_more_due(end) {
            return goes_on_after(end);
        }
    }
    true
}

/// Whether more turns may be due after some that ended so.
fn is_more_due(end: TurnsEnd) -> bool
    ensures { result ≡ is_more_due end }
{
    matches!(end, TurnsEnd::More)
}

/// Whether the worker goes on after turns that ended so.
fn goes_on_after(end: TurnsEnd) -> bool
    ensures { result ≡ goes_on_after_turns end }
{
    !matches!(end, TurnsEnd::Refused(StepFault::Closed))
}

/// Makes turns until nothing is due, or one is refused, and ends a chapter after each if one is
/// due. Whether the worker goes on: it ends only if no step may be made any more.
fn goes_on_recorded<
    P: Pool,
    D: Hall,
    T: Ledger,
    U: Ledger,
    V: Ledger,
    R: Wait,
    G: Gate,
    C: Moments,
>(
    shared: &Shared<'_, P, D, T, U, V, R, G>,
    worker: &mut Worker<D, T, U, V, C>,
    chapters: &mut Chapters,
) -> bool
    ensures closed { IsFalse result → IsClosed D.opened }
    ensures tick { IsTick (IsTurnOfRound D.opened C.tells shared.now.plan) MOST_TURNS
        is_more_due_after goes_on_after result
        (recording (standing worker.old.seat worker.old.outlet worker.old.counts)
        (kept_of chapters.old))
        (recording (standing worker.new.seat worker.new.outlet worker.new.counts)
        (kept_of chapters.new)) }
{
    for _ in 0..MOST_TURNS {
        match make_turn(shared, worker, chapters) {
            StepResult::Made { place: _, is_idle } => {
                if is_idle {
                    return true;
                }
            }
            StepResult::Refused => return true,
            StepResult::Closed => return false,
        }
    }
    true
}

/// Makes one turn, and ends a chapter behind it if one is due. What came of the turn.
///
/// promise refused-chapters-are-counted: A chapter counts as refused if and only if one was due and
/// none ended (`IsChapterTried`).
fn make_turn<P: Pool, D: Hall, T: Ledger, U: Ledger, V: Ledger, R: Wait, G: Gate, C: Moments>(
    shared: &Shared<'_, P, D, T, U, V, R, G>,
    worker: &mut Worker<D, T, U, V, C>,
    chapters: &mut Chapters,
) -> StepResult
    ensures { IsTurnOfRound D.opened C.tells shared.now.plan result
        (recording (standing worker.old.seat worker.old.outlet worker.old.counts)
        (kept_of chapters.old))
        (recording (standing worker.new.seat worker.new.outlet worker.new.counts)
        (kept_of chapters.new)) }
{
    let moment = worker.clock.now();
    let came = worker.step_recorded(shared, Event::Turn(moment));
    if let StepResult::Made {
        place: Some(place),
        is_idle: _,
    } = came
    {
        try_chapter(shared, worker, chapters, place);
    }
    came
}

/// Ends a chapter behind a turn that is the entry at this place, if one is due. Counts one that
/// didn't end as refused.
fn try_chapter<P: Pool, D: Hall, T: Ledger, U: Ledger, V: Ledger, R: Wait, G: Gate, C: Moments>(
    shared: &Shared<'_, P, D, T, U, V, R, G>,
    worker: &mut Worker<D, T, U, V, C>,
    chapters: &mut Chapters,
    place: usize,
)
    ensures { IsTriedBehind D.opened shared.now.plan place
        (recording (standing worker.old.seat worker.old.outlet worker.old.counts)
        (kept_of chapters.old))
        (recording (standing worker.new.seat worker.new.outlet worker.new.counts)
        (kept_of chapters.new)) }
{
    match chapters.end_if_due(shared, place) {
        Ok(()) => {}
        Err(AllocError) => worker.counts.refuse(),
    }
}
