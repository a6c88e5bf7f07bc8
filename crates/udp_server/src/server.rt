//! Running a server.

ghost use Rattle.std.specs.Prelude.{◌≡◌, ◌≢◌, ◌≤◌, ◌++◌, ◌∷◌, ◌↔◌, [], Err, IfOk, map, vec_len};
ghost use Rattle.udp_server.specs.Faults.{AreCounts, AreCountsOfEnds};
ghost use Rattle.udp_server.specs.OrderNumbers.{order_numbers};
ghost use Rattle.udp_server.specs.Orders.{AreOfOrders, numbers_back, numbers_ordered};
ghost use Rattle.udp_server.specs.Plans.{IsPlan, beginning_of};
ghost use Rattle.udp_server.specs.Served.{IsServed};
ghost use Rattle.udp_server.specs.WorkerNumbers.{numbers_below};

use crate::board::Board;
use crate::datagrams::Datagrams;
use crate::gate::Gate;
use crate::joint::report_of;
use crate::moments::Moments;
use crate::orders::{Orders, PoolOrder};
use crate::plan::Plan;
use crate::report::{Report, ServeFault};
use crate::tally::Tallies;
use crate::threads::{Crew, run};
use crate::watcher::{NoWatcher, Watcher};
use crate::worker::{Counts, Shared, Worker};
use pools::Pool;
use ras_core::{Note, Outcome, Zone};
use reply_queues::{Inlet, Outlet, rings};
use std::alloc::{AllocError, Global};
use std::marker::Brand;
use std::rt::Clock;
use std::sync::Wait;
use std::sync::ledger::Ledger;
use std::thread::Threads;
use zone_lock::{Blanks, Hall, OpenFault, Seat, ZoneLock};

/// Serves the zone of a lock until each receiving end has stopped. It takes all seats of the lock:
/// one for each receiving end, in order, and the last one for the turns of the timers; and a clock
/// for each seat. The worker of the timers carries out the orders, each once its clock has reached
/// the order's moment, in their order: a fresh pool takes the place of one of the zone's, or comes
/// back. What is refused is let go.
///
/// promise server-leaves-a-run: All steps are a run from the locked state to the zone that is left,
/// and the report has its datagrams, turns and changes (`IsServed`).
/// promise server-gives-back-each-order: Of each order a pool comes back, in the orders' order,
/// beside the number of its pool (`AreOfOrders`).
/// promise server-counts-its-ends: It is refused as WrongCounts if and only if seats, ends and
/// clocks don't fit; likewise `serve_zone` (`AreCounts`, `AreCountsOfEnds`).
pub fn serve<
    P: Pool + Send,
    D: Hall + Send + Sync,
    T: Ledger + Send + Sync,
    U: Ledger + Send + Sync,
    V: Ledger + Send + Sync,
    R: Threads + Wait + Clock + Sync,
    N: Datagrams + Send,
    G: Gate + Sync,
    C: Moments + Send,
>(
    rt: &R,
    alloc: Global,
    lock: ZoneLock<P, D, T, U, V>,
    seats: Vec<Seat<D, T, U, V>>,
    receivers: Vec<N>,
    sender: N,
    gate: &G,
    clocks: Vec<C>,
    orders: Vec<PoolOrder<P>>,
    plan: Plan,
) -> Result<Report<P>, ServeFault>
    requires seats { (vec_len seats ≡ D.all) × (vec_len seats ≤ 16) }
    requires plan { IsPlan plan }
    ensures served { IfOk result (λ r. IsServed D.opened r.finished r.datagrams r.turns
        r.changes) }
    ensures back { IfOk result (λ r. AreOfOrders r.boxes.items orders.items) }
    ensures wrong_counts { (result ≡ Err ServeFault.WrongCounts)
        ↔ ¬ AreCounts (vec_len seats) (vec_len receivers) (vec_len clocks) }
{
    serve_watched(
        rt,
        alloc,
        lock,
        seats,
        receivers,
        sender,
        gate,
        clocks,
        orders,
        plan,
        Vec::<NoWatcher>::new(alloc),
    )
}

/// Serves the zone of a lock until each receiving end has stopped. It takes all seats of the lock:
/// one for each receiving end, in order, and the last one for the turns of the timers; and a clock
/// for each seat. The worker of the timers carries out the orders, each once its clock has reached
/// the order's moment, in their order: a fresh pool takes the place of one of the zone's, or comes
/// back. What is refused is let go. Each of those who look at the server does so in one more
/// thread, and is waited for at the end.
pub fn serve_watched<
    P: Pool + Send,
    D: Hall + Send + Sync,
    T: Ledger + Send + Sync,
    U: Ledger + Send + Sync,
    V: Ledger + Send + Sync,
    R: Threads + Wait + Clock + Sync,
    N: Datagrams + Send,
    G: Gate + Sync,
    C: Moments + Send,
    W: Watcher + Send,
>(
    rt: &R,
    alloc: Global,
    lock: ZoneLock<P, D, T, U, V>,
    seats: Vec<Seat<D, T, U, V>>,
    receivers: Vec<N>,
    sender: N,
    gate: &G,
    clocks: Vec<C>,
    orders: Vec<PoolOrder<P>>,
    plan: Plan,
    watchers: Vec<W>,
) -> Result<Report<P>, ServeFault>
    requires seats { (vec_len seats ≡ D.all) × (vec_len seats ≤ 16) }
    requires plan { IsPlan plan }
    ensures served { IfOk result (λ r. IsServed D.opened r.finished r.datagrams r.turns
        r.changes) }
    ensures back { IfOk result (λ r. AreOfOrders r.boxes.items orders.items) }
    ensures wrong_counts { (result ≡ Err ServeFault.WrongCounts)
        ↔ ¬ AreCounts (vec_len seats) (vec_len receivers) (vec_len clocks) }
{
    let count = seats.len();
    if receivers.len() >= count || receivers.len() + 1 != count || clocks.len() != count {
        return Err(ServeFault::WrongCounts);
    }
    let Ok((crew, inlets)) = gather(alloc, seats, receivers, clocks, orders, plan) else {
        return Err(ServeFault::Memory);
    };
    serve_by(
        rt, alloc, lock, crew, inlets, sender, gate, watchers, count, plan,
    )
}

/// Serves the zone of a lock by those who make its steps, as many as `workers` says, until each
/// receiving end has stopped.
fn serve_by<
    P: Pool + Send,
    D: Hall + Send + Sync,
    T: Ledger + Send + Sync,
    U: Ledger + Send + Sync,
    V: Ledger + Send + Sync,
    R: Threads + Wait + Clock + Sync,
    N: Datagrams + Send,
    G: Gate + Sync,
    C: Moments + Send,
    W: Watcher + Send,
>(
    rt: &R,
    alloc: Global,
    lock: ZoneLock<P, D, T, U, V>,
    crew: Crew<P, D, T, U, V, N, C>,
    inlets: Vec<Inlet>,
    sender: N,
    gate: &G,
    watchers: Vec<W>,
    workers: usize,
    plan: Plan,
) -> Result<Report<P>, ServeFault>
    requires plan { IsPlan plan }
    ensures served { IfOk result (λ r. IsServed D.opened r.finished r.datagrams r.turns
        r.changes) }
    ensures back { IfOk result (λ r. numbers_back r.boxes.items ≡ order_numbers crew.orders) }
    ensures counts { result ≢ Err ServeFault.WrongCounts }
{
    let Ok(tallies) = Tallies::new(alloc, workers) else {
        return Err(ServeFault::Memory);
    };
    begin_history(rt, alloc, &lock, plan);
    let board = Board::new();
    let shared = Shared {
        rt,
        alloc,
        lock: &lock,
        board: &board,
        gate,
        tallies: &tallies,
        plan,
    };
    match run::<P, D, T, U, V, R, N, G, C, W, Brand>(&shared, crew, inlets, sender, watchers) {
        Ok(record) => report_of(alloc, lock, record),
        Err(AllocError) => Err(ServeFault::Memory),
    }
}

/// What becomes of the history that stands behind the lock before any step is made.
#[derive(Clone, Copy, PartialEq, Eq)]
enum Beginning {
    /// The state in which it begins is kept, and steps are recorded.
    Kept,
    /// It goes, and steps are recorded for one who takes their entries.
    HandedOut,
    /// It goes, and steps are made without a record.
    LetGo,
}

/// What becomes of it by this plan. If the report has no part of the history, the state in which it
/// begins goes: without it no chapter can be cut.
fn beginning_of(plan: Plan) -> Beginning
    ensures { result ≡ beginning_of plan }
{
    if plan.is_recorded() {
        Beginning::Kept
    } else if plan.hands_out {
        Beginning::HandedOut
    } else {
        Beginning::LetGo
    }
}

/// Lets the history that stands behind the lock go, or hands it out, if it isn't kept.
fn begin_history<P: Pool, D: Hall, T: Ledger, U: Ledger, V: Ledger, R: Wait>(
    rt: &R,
    alloc: Global,
    lock: &ZoneLock<P, D, T, U, V>,
    plan: Plan,
) {
    match beginning_of(plan) {
        Beginning::Kept => {}
        Beginning::HandedOut => drop(lock.hand_out(rt, Vec::new(alloc))),
        Beginning::LetGo => drop(lock.discard(rt, Vec::new(alloc))),
    }
}

/// Who makes steps, each with a seat, in order, the worker of the timers with the last one, and
/// with a ring; and the other ends of the rings.
fn gather<P: Pool, D: Hall, T: Ledger, U: Ledger, V: Ledger, N: Datagrams, C: Moments>(
    alloc: Global,
    seats: Vec<Seat<D, T, U, V>>,
    receivers: Vec<N>,
    clocks: Vec<C>,
    orders: Vec<PoolOrder<P>>,
    plan: Plan,
) -> Result<(Crew<P, D, T, U, V, N, C>, Vec<Inlet>), AllocError>
    requires seats { vec_len seats ≤ 16 }
    requires plan { IsPlan plan }
    ensures orders { IfOk result (λ made. order_numbers made.0.orders
        ≡ numbers_ordered orders.items) }
    ensures receivers { IfOk result (λ made. made.0.receivers ≡ receivers) }
    ensures seats { IfOk result (λ made. map (λ worker. worker.seat) made.0.workers.items
        ++ made.0.expiry.seat ∷ [] ≡ seats.items) }
    ensures numbers { IfOk result (λ made. map (λ worker. worker.number) made.0.workers.items
        ++ made.0.expiry.number ∷ [] ≡ numbers_below (vec_len seats)) }
{
    let (outlets, inlets) = rings(alloc, seats.len(), plan.ring)?;
    let mut workers = workers_of(alloc, seats, clocks, outlets)?;
    let expiry = workers.pop().ok_or(AllocError)?;
    let orders = Orders::new(alloc, orders)?;
    let crew = Crew {
        receivers,
        workers,
        expiry,
        orders,
    };
    Ok((crew, inlets))
}

/// A worker for each seat, with its clock and its ring. They are numbered from 0 on, in order.
fn workers_of<D: Hall, T: Ledger, U: Ledger, V: Ledger, C: Moments>(
    alloc: Global,
    seats: Vec<Seat<D, T, U, V>>,
    clocks: Vec<C>,
    outlets: Vec<Outlet>,
) -> Result<Vec<Worker<D, T, U, V, C>>, AllocError>
    ensures seats { IfOk result (λ workers. map (λ worker. worker.seat) workers.items
        ≡ seats.items) }
    ensures numbers { IfOk result (λ workers. map (λ worker. worker.number) workers.items
        ≡ numbers_below (vec_len seats)) }
{
    let mut workers = Vec::with_capacity(alloc, seats.len())?;
    let (mut clocks, mut outlets) = (clocks.into_iter(), outlets.into_iter());
    for seat in seats {
        let clock = clocks.next().ok_or(AllocError)?;
        let outlet = outlets.next().ok_or(AllocError)?;
        let worker = Worker {
            number: workers.len(),
            seat,
            clock,
            outlet,
            outcome: Outcome::noted(Note::Idle, None),
            receipts: Vec::new(alloc),
            counts: Counts::NONE,
        };
        workers.push(worker).map_err(AllocError::from)?;
    }
    Ok(workers)
}

/// Puts a zone behind a lock and serves it: a seat for each receiving end, of which there are at
/// most 15, and one for the turns of the timers.
pub fn serve_zone<
    P: Pool + Send,
    R: Threads + Wait + Clock + Sync,
    N: Datagrams + Send,
    G: Gate + Sync,
    C: Moments + Send,
>(
    rt: &R,
    alloc: Global,
    zone: Zone<P>,
    receivers: Vec<N>,
    sender: N,
    gate: &G,
    clocks: Vec<C>,
    orders: Vec<PoolOrder<P>>,
    plan: Plan,
) -> Result<Report<P>, ServeFault>
    requires plan { IsPlan plan }
    ensures served { IfOk result (λ r. IsServed zone.state r.finished r.datagrams r.turns
        r.changes) }
    ensures back { IfOk result (λ r. AreOfOrders r.boxes.items orders.items) }
    ensures wrong_counts { (result ≡ Err ServeFault.WrongCounts)
        ↔ ¬ AreCountsOfEnds (vec_len receivers) (vec_len clocks) }
{
    serve_zone_watched(
        rt,
        alloc,
        zone,
        receivers,
        sender,
        gate,
        clocks,
        orders,
        plan,
        Vec::<NoWatcher>::new(alloc),
    )
}

/// Puts a zone behind a lock and serves it: a seat for each receiving end, of which there are at
/// most 15, and one for the turns of the timers. Each of those who look at the server does so in
/// one more thread, and is waited for at the end.
pub fn serve_zone_watched<
    P: Pool + Send,
    R: Threads + Wait + Clock + Sync,
    N: Datagrams + Send,
    G: Gate + Sync,
    C: Moments + Send,
    W: Watcher + Send,
>(
    rt: &R,
    alloc: Global,
    zone: Zone<P>,
    receivers: Vec<N>,
    sender: N,
    gate: &G,
    clocks: Vec<C>,
    orders: Vec<PoolOrder<P>>,
    plan: Plan,
    watchers: Vec<W>,
) -> Result<Report<P>, ServeFault>
    requires plan { IsPlan plan }
    ensures served { IfOk result (λ r. IsServed zone.state r.finished r.datagrams r.turns
        r.changes) }
    ensures back { IfOk result (λ r. AreOfOrders r.boxes.items orders.items) }
    ensures wrong_counts { (result ≡ Err ServeFault.WrongCounts)
        ↔ ¬ AreCountsOfEnds (vec_len receivers) (vec_len clocks) }
{
    if receivers.len() > 15 || clocks.len() != receivers.len() + 1 {
        return Err(ServeFault::WrongCounts);
    }
    let seats = receivers.len() + 1;
    let blanks = Blanks::new(seats);
    open_and_serve::<P, Brand, Brand, Brand, Brand, R, N, G, C, W>(
        rt, alloc, zone, seats, blanks, receivers, sender, gate, clocks, orders, plan, watchers,
    )
}

/// The ledgers are the caller's to pick.
fn open_and_serve<
    P: Pool + Send,
    D: Hall + Send + Sync,
    T: Ledger + Send + Sync,
    U: Ledger + Send + Sync,
    V: Ledger + Send + Sync,
    R: Threads + Wait + Clock + Sync,
    N: Datagrams + Send,
    G: Gate + Sync,
    C: Moments + Send,
    W: Watcher + Send,
>(
    rt: &R,
    alloc: Global,
    zone: Zone<P>,
    seats: usize,
    blanks: Blanks,
    receivers: Vec<N>,
    sender: N,
    gate: &G,
    clocks: Vec<C>,
    orders: Vec<PoolOrder<P>>,
    plan: Plan,
    watchers: Vec<W>,
) -> Result<Report<P>, ServeFault>
    requires datagrams { (blanks.datagrams.name ≡ D.name)
        × (blanks.datagrams.parts ≡ D.parts) × (D.parts ≡ seats) }
    requires turns { (blanks.turns.name ≡ T.name)
        × (blanks.turns.parts ≡ T.parts) × (T.parts ≡ seats) }
    requires lent { (blanks.lent.name ≡ U.name)
        × (blanks.lent.parts ≡ U.parts) × (U.parts ≡ seats) }
    requires changes { (blanks.changes.name ≡ V.name)
        × (blanks.changes.parts ≡ V.parts) × (V.parts ≡ seats) }
    requires opened { (D.all ≡ seats) × (D.opened ≡ zone.state) }
    requires seats { (1 ≤ seats) × (seats ≤ 16) }
    requires counts { AreCounts seats (vec_len receivers) (vec_len clocks) }
    requires plan { IsPlan plan }
    ensures served { IfOk result (λ r. IsServed zone.state r.finished r.datagrams r.turns
        r.changes) }
    ensures back { IfOk result (λ r. AreOfOrders r.boxes.items orders.items) }
    ensures counts { result ≢ Err ServeFault.WrongCounts }
{
    match ZoneLock::<P, D, T, U, V>::open(alloc, zone, seats, blanks) {
        Ok((lock, seats)) => serve_watched(
            rt, alloc, lock, seats, receivers, sender, gate, clocks, orders, plan, watchers,
        ),
        Err((_, OpenFault::BadSeats)) => Err(ServeFault::WrongCounts),
        Err((_, OpenFault::Memory)) => Err(ServeFault::Memory),
    }
}
