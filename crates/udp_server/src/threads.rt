//! The threads of a server: they begin together, and are joined.

ghost use Rattle.std.specs.Prelude.{◌≡◌, ◌≤◌, ◌<◌, ◌+◌, IfSome, vec_capacity, vec_len};
ghost use Rattle.std.specs.Prelude.{IfOk, map};
ghost use Rattle.udp_server.specs.OrderNumbers.{order_numbers};
ghost use Rattle.udp_server.specs.Orders.{numbers_back};

use crate::comes_back::{EachComesBack, OrderNumbers};
use crate::datagrams::Datagrams;
use crate::expiry_worker::{ExpiryRecord, expire};
use crate::gate::Gate;
use crate::moments::Moments;
use crate::orders::Orders;
use crate::receiver::{Post, work, work_recorded};
use crate::sender::{SendCounts, Sent, send_all};
use crate::view::View;
use crate::watcher::Watcher;
use crate::worker::{Shared, Worker, WorkerRecord};
use pools::Pool;
use reply_queues::Inlet;
use std::alloc::{AllocError, Global};
use std::marker::PhantomData;
use std::rt::Clock;
use std::sync::Wait;
use std::sync::ledger::Ledger;
use std::thread;
use std::thread::{JoinHandle, PromisedHandle, Scope, Threads};
use zone_lock::Hall;

/// Who makes steps: a worker for each receiving end, in order, and the expiry worker, with its
/// orders.
#[derive(Drop)]
pub(crate) struct Crew<
    P: Pool,
    D: Hall,
    T: Ledger,
    U: Ledger,
    V: Ledger,
    N: Datagrams,
    C: Moments,
> {
    pub(crate) receivers: Vec<N>,
    pub(crate) workers: Vec<Worker<D, T, U, V, C>>,
    pub(crate) expiry: Worker<D, T, U, V, C>,
    pub(crate) orders: Orders<P>,
}

/// What the threads leave: what each worker leaves, in order; what came back of the orders; and
/// what was sent, and of how many workers the sender awaited the end.
#[derive(Drop)]
pub(crate) struct CrewRecord<P: Pool, D: Hall, T: Ledger, U: Ledger, V: Ledger> {
    pub(crate) workers: Vec<WorkerRecord<D, T, U, V>>,
    pub(crate) boxes: Vec<(usize, P, bool)>,
    pub(crate) sent: SendCounts,
    pub(crate) awaited: usize,
}

/// Runs the threads, the sender in this one, and joins them; those who look at the server last.
pub(crate) fn run<
    P: Pool + Send,
    D: Hall + Send + Sync,
    T: Ledger + Send + Sync,
    U: Ledger + Send + Sync,
    V: Ledger + Send + Sync,
    R: Threads + Wait + Clock + Sync,
    N: Datagrams + Send,
    G: Gate + Sync,
    C: Moments + Send,
    W: Watcher + Send,
    O: OrderNumbers,
>(
    shared: &Shared<'_, P, D, T, U, V, R, G>,
    crew: Crew<P, D, T, U, V, N, C>,
    inlets: Vec<Inlet>,
    sender: N,
    watchers: Vec<W>,
) -> Result<CrewRecord<P, D, T, U, V>, AllocError>
    requires orders { O.numbers ≡ order_numbers crew.orders }
    ensures { IfOk result (λ left. numbers_back left.boxes.items ≡ O.numbers) }
{
    let record = thread::scope(
        thread::scope_env(),
        shared.rt,
        |scope| -> Option<CrewRecord<P, D, T, U, V>>
            requires { O.numbers ≡ order_numbers crew.orders }
            ensures { IfSome result (λ left. numbers_back left.boxes.items ≡ O.numbers) }
        {
            run_in::<_, P, D, T, U, V, R, N, G, C, W, O>(
                scope, shared, crew, inlets, sender, watchers,
            )
        },
    );
    record.ok_or(AllocError)
}

/// Runs the threads in a scope. None if one of them can't be made, or if there is no memory for
/// what they leave; those that were made then end without having begun.
///
/// promise sender-awaits-each-worker: The sender ends only once it was told that as many workers
/// have ended as leave a record.
fn run_in<
    's,
    E,
    P: Pool + Send + 's,
    D: Hall + Send + Sync + 's,
    T: Ledger + Send + Sync + 's,
    U: Ledger + Send + Sync + 's,
    V: Ledger + Send + Sync + 's,
    R: Threads + Wait + Clock + Sync + 's,
    N: Datagrams + Send + 's,
    G: Gate + Sync + 's,
    C: Moments + Send + 's,
    W: Watcher + Send + 's,
    O: OrderNumbers,
>(
    scope: &'s Scope<'s, E>,
    shared: &'s Shared<'s, P, D, T, U, V, R, G>,
    crew: Crew<P, D, T, U, V, N, C>,
    inlets: Vec<Inlet>,
    sender: N,
    watchers: Vec<W>,
) -> Option<CrewRecord<P, D, T, U, V>>
    requires orders { O.numbers ≡ order_numbers crew.orders }
    ensures back { IfSome result (λ left. numbers_back left.boxes.items ≡ O.numbers) }
    ensures awaited { IfSome result (λ left. left.awaited ≡ vec_len left.workers) }
{
    let Crew {
        receivers,
        workers,
        expiry,
        orders,
    } = crew;
    let posts = posts_of(shared.alloc, receivers, workers)?;
    let Some(all) = posts.len().checked_add(1) else {
        return None;
    };
    let Ok(records) = Vec::with_capacity(shared.alloc, all) else {
        return None;
    };
    let Some(handles) = start_workers(scope, shared, posts) else {
        shared.board.cancel(shared.rt);
        return None;
    };
    let expiry = start_expiry::<_, P, D, T, U, V, R, G, C, O>(
        scope,
        shared,
        handles.len(),
        expiry,
        orders,
    );
    let Some(last) = expiry else {
        shared.board.cancel(shared.rt);
        return None;
    };
    let Some(watching) = start_watchers(scope, shared, all, watchers) else {
        shared.board.cancel(shared.rt);
        return None;
    };
    shared.board.start(shared.rt);
    let sent = send_all(shared.rt, shared.board, shared.tallies, all, inlets, sender);
    let mut records = join_all(shared.rt, handles, records);
    let ExpiryRecord { worker, boxes } = last.join(shared.rt);
    records.push_reserved(worker);
    join_watchers(shared.rt, watching);
    Some(CrewRecord {
        workers: records,
        boxes,
        sent: sent.counts,
        awaited: sent.awaited,
    })
}

/// Each worker with the end at its place: the first one receives at the first end, and so on. None
/// if there aren't as many of both, or if there is no memory.
///
/// promise each-end-has-its-worker: Of as many ends and workers, each worker receives at the end at
/// its own place.
fn posts_of<D: Hall, T: Ledger, U: Ledger, V: Ledger, N: Datagrams, C: Moments>(
    alloc: Global,
    receivers: Vec<N>,
    workers: Vec<Worker<D, T, U, V, C>>,
) -> Option<Vec<Post<D, T, U, V, N, C>>>
    ensures ends { IfSome result (λ posts. map (λ post. post.end) posts.items
        ≡ receivers.items) }
    ensures workers { IfSome result (λ posts. map (λ post. post.worker) posts.items
        ≡ workers.items) }
{
    if receivers.len() != workers.len() {
        return None;
    }
    let Ok(mut posts) = Vec::with_capacity(alloc, receivers.len()) else {
        return None;
    };
    let mut workers = workers.into_iter();
    for end in receivers {
        let worker = workers.next()?;
        posts.push(Post { end, worker }).ok()?;
    }
    Some(posts)
}

/// Starts a thread for each worker that receives, in order. None if one of them can't be made.
fn start_workers<
    's,
    E,
    P: Pool + Send + 's,
    D: Hall + Send + Sync + 's,
    T: Ledger + Send + Sync + 's,
    U: Ledger + Send + Sync + 's,
    V: Ledger + Send + Sync + 's,
    R: Threads + Wait + Clock + Sync + 's,
    N: Datagrams + Send + 's,
    G: Gate + Sync + 's,
    C: Moments + Send + 's,
>(
    scope: &'s Scope<'s, E>,
    shared: &'s Shared<'s, P, D, T, U, V, R, G>,
    posts: Vec<Post<D, T, U, V, N, C>>,
) -> Option<Vec<JoinHandle<WorkerRecord<D, T, U, V>>>>
    ensures { IfSome result (λ handles. vec_len handles ≡ vec_len posts) }
{
    let Ok(mut handles) = Vec::with_capacity(shared.alloc, posts.len()) else {
        return None;
    };
    for post in posts {
        handles.push_reserved(start_worker(scope, shared, post)?);
    }
    Some(handles)
}

/// What the threads leave, behind the records that are there, for which there is room, and for one
/// more.
fn join_all<X: Drop, R: Threads + Wait>(
    rt: &R,
    handles: Vec<JoinHandle<X>>,
    records: Vec<X>,
) -> Vec<X>
    requires { vec_len records + vec_len handles < vec_capacity records }
    ensures len { vec_len result ≡ vec_len records + vec_len handles }
    ensures room { vec_len result < vec_capacity result }
{
    let mut records = records;
    for handle in handles {
        records.push_reserved(handle.join(rt));
    }
    records
}

/// Waits for those who look at the server.
fn join_watchers<R: Threads + Wait>(rt: &R, handles: Vec<JoinHandle<()>>) {
    for handle in handles {
        handle.join(rt);
    }
}

/// Starts the thread of a worker that receives, whose steps are recorded if the plan wants it. None
/// if no thread can be made.
fn start_worker<
    's,
    E,
    P: Pool + Send + 's,
    D: Hall + Send + Sync + 's,
    T: Ledger + Send + Sync + 's,
    U: Ledger + Send + Sync + 's,
    V: Ledger + Send + Sync + 's,
    R: Threads + Wait + Clock + Sync + 's,
    N: Datagrams + Send + 's,
    G: Gate + Sync + 's,
    C: Moments + Send + 's,
>(
    scope: &'s Scope<'s, E>,
    shared: &'s Shared<'s, P, D, T, U, V, R, G>,
    post: Post<D, T, U, V, N, C>,
) -> Option<JoinHandle<WorkerRecord<D, T, U, V>>> {
    if shared.plan.is_recorded() {
        return scope.spawn(move || work_recorded(shared, post)).ok();
    }
    scope.spawn(move || work(shared, post)).ok()
}

/// Starts the thread of the expiry worker. None if no thread can be made.
fn start_expiry<
    's,
    E,
    P: Pool + Send + 's,
    D: Hall + Send + Sync + 's,
    T: Ledger + Send + Sync + 's,
    U: Ledger + Send + Sync + 's,
    V: Ledger + Send + Sync + 's,
    R: Threads + Wait + Clock + Sync + 's,
    G: Gate + Sync + 's,
    C: Moments + Send + 's,
    O: OrderNumbers,
>(
    scope: &'s Scope<'s, E>,
    shared: &'s Shared<'s, P, D, T, U, V, R, G>,
    others: usize,
    worker: Worker<D, T, U, V, C>,
    orders: Orders<P>,
) -> Option<PromisedHandle<ExpiryRecord<P, D, T, U, V>, EachComesBack<O>>>
    requires { O.numbers ≡ order_numbers orders }
{
    let promise = EachComesBack {
        orders: PhantomData,
    };
    let work = move || -> ExpiryRecord<P, D, T, U, V>
        ensures { numbers_back result.boxes.items ≡ order_numbers orders }
    { expire(shared, others, worker, orders) };
    scope.spawn_with(promise, work).ok()
}

/// Starts a thread for each of those who look at the server until this many workers have ended.
/// None if one of them can't be made.
fn start_watchers<
    's,
    E,
    P: Pool + Send + 's,
    D: Hall + Send + Sync + 's,
    T: Ledger + Send + Sync + 's,
    U: Ledger + Send + Sync + 's,
    V: Ledger + Send + Sync + 's,
    R: Threads + Wait + Clock + Sync + 's,
    G: Gate + Sync + 's,
    W: Watcher + Send + 's,
>(
    scope: &'s Scope<'s, E>,
    shared: &'s Shared<'s, P, D, T, U, V, R, G>,
    workers: usize,
    watchers: Vec<W>,
) -> Option<Vec<JoinHandle<()>>> {
    let Ok(mut handles) = Vec::with_capacity(shared.alloc, watchers.len()) else {
        return None;
    };
    for watcher in watchers {
        handles.push_reserved(start_watcher(scope, shared, workers, watcher)?);
    }
    Some(handles)
}

/// Starts the thread of one who looks at the server. None if no thread can be made.
fn start_watcher<
    's,
    E,
    P: Pool + Send + 's,
    D: Hall + Send + Sync + 's,
    T: Ledger + Send + Sync + 's,
    U: Ledger + Send + Sync + 's,
    V: Ledger + Send + Sync + 's,
    R: Threads + Wait + Clock + Sync + 's,
    G: Gate + Sync + 's,
    W: Watcher + Send + 's,
>(
    scope: &'s Scope<'s, E>,
    shared: &'s Shared<'s, P, D, T, U, V, R, G>,
    workers: usize,
    watcher: W,
) -> Option<JoinHandle<()>> {
    scope.spawn(move || look(shared, workers, watcher)).ok()
}

/// Looks at the server until this many workers have ended.
fn look<P: Pool, D: Hall, T: Ledger, U: Ledger, V: Ledger, R: Wait, G: Gate, W: Watcher>(
    shared: &Shared<'_, P, D, T, U, V, R, G>,
    workers: usize,
    watcher: W,
) {
    let view = View {
        rt: shared.rt,
        lock: shared.lock,
        tallies: shared.tallies,
        board: shared.board,
        workers,
    };
    watcher.watch(&view);
}
