//! The workers that receive datagrams.

ghost use Rattle.std.specs.Prelude.{◌≡◌, IfOk, false, true};
ghost use Rattle.udp_server.specs.Working.{IsEventNow, IsReceived, IsTold, IsTurnOfLoop};
ghost use Rattle.udp_server.specs.Working.{failures, standing};

use crate::datagrams::{Datagrams, DeviceFault, MOST_RECEIVED, Received};
use crate::gate::Gate;
use crate::moments::Moments;
use crate::worker::{Shared, StepResult, Worker, WorkerRecord};
use pools::Pool;
use ras_core::Event;
use ras_module::{Octets, Source};
use std::alloc::{AllocError, Global};
use std::sync::Wait;
use std::sync::ledger::Ledger;
use zone_lock::Hall;

/// An end that receives, with what it received last, and how many receives in a row have failed.
#[derive(Drop)]
struct Receiver<N: Datagrams> {
    end: N,
    buffer: [u8; MOST_RECEIVED],
    failed_in_a_row: u64,
}

impl<N: Datagrams> Receiver<N> {
    /// Nothing was received yet.
    fn new(end: N) -> Receiver<N> {
        Receiver {
            end,
            buffer: [0; MOST_RECEIVED],
            failed_in_a_row: 0,
        }
    }
}

/// A worker that receives, and the end at which it does.
pub(crate) struct Post<D: Hall, T: Ledger, U: Ledger, V: Ledger, N: Datagrams, C: Moments> {
    pub(crate) end: N,
    pub(crate) worker: Worker<D, T, U, V, C>,
}

// Written by hand, so that whoever owns a post makes one call at each exit.
impl<D: Hall, T: Ledger, U: Ledger, V: Ledger, N: Datagrams, C: Moments> Drop
    for Post<D, T, U, V, N, C> {
    fn drop(self) {
        let Post { end: _, worker: _ } = self;
    }
}

impl<D: Hall, T: Ledger, U: Ledger, V: Ledger, N: Datagrams, C: Moments> Post<D, T, U, V, N, C> {
    /// The end, and the worker.
    fn into_parts(self) -> (N, Worker<D, T, U, V, C>)
        ensures end { result.0 ≡ self.end }
        ensures worker { result.1 ≡ self.worker }
    {
        let Post { end, worker } = self;
        (end, worker)
    }
}

/// What a receive came to.
#[derive(Drop)]
enum Next {
    /// A datagram came: its step is next.
    Event(Event),
    /// Nothing came that makes a step.
    Nothing,
    /// Nothing more is received: the end has stopped, or too many receives in a row have failed.
    End,
}

/// Receives datagrams and makes a step for each, of which nothing is recorded, until the end has
/// stopped, too many receives in a row have failed, or no step may be made any more.
pub(crate) fn work<
    P: Pool,
    D: Hall,
    T: Ledger,
    U: Ledger,
    V: Ledger,
    R: Wait,
    N: Datagrams,
    G: Gate,
    C: Moments,
>(
    shared: &Shared<'_, P, D, T, U, V, R, G>,
    post: Post<D, T, U, V, N, C>,
) -> WorkerRecord<D, T, U, V> {
    let (end, mut worker) = post.into_parts();
    let mut receiver = Receiver::new(end);
    if shared.board.may_begin(shared.rt) {
        for _ in shared.rt.forever() {
            if !serve_next(shared, &mut receiver, &mut worker) {
                break;
            }
        }
    }
    worker.end(shared, Vec::new(shared.alloc))
}

/// Waits for a datagram, and makes a step of it, if one comes. Whether the worker goes on.
///
/// promise worker-serves-what-came: Each turn of a worker makes at most one step, of just the
/// datagram that came, and records it if and only if its loop does; its reply goes into the ring,
/// or is dropped and counted. A worker ends only if its end has stopped, if as many receives in a
/// row have failed as the plan says, or if no step is made any more (`IsTurnOfLoop`, `IsEnd`,
/// `CameOf`, `IsRecordedAs`, `IsHandedOn`).
fn serve_next<
    P: Pool,
    D: Hall,
    T: Ledger,
    U: Ledger,
    V: Ledger,
    R: Wait,
    N: Datagrams,
    G: Gate,
    C: Moments,
>(
    shared: &Shared<'_, P, D, T, U, V, R, G>,
    receiver: &mut Receiver<N>,
    worker: &mut Worker<D, T, U, V, C>,
) -> bool
    ensures { IsTurnOfLoop D.opened false
        (λ given octets. N.receives receiver.old.end given octets receiver.new.end)
        (IsTold C.tells worker.old.clock) receiver.new.buffer shared.now.plan.faults
        (failures (N.faults receiver.old.end) receiver.old.failed_in_a_row)
        (failures (N.faults receiver.new.end) receiver.new.failed_in_a_row) result
        (standing worker.old.seat worker.old.outlet worker.old.counts)
        (standing worker.new.seat worker.new.outlet worker.new.counts) }
{
    let goes_on = match receive_next(shared, receiver, worker) {
        Next::Event(event) => !matches!(worker.step(shared, event), StepResult::Closed),
        Next::Nothing => true,
        Next::End => false,
    };
    shared.show(worker.number, worker.counts);
    goes_on
}

/// The same, with each step as an entry of the history.
pub(crate) fn work_recorded<
    P: Pool,
    D: Hall,
    T: Ledger,
    U: Ledger,
    V: Ledger,
    R: Wait,
    N: Datagrams,
    G: Gate,
    C: Moments,
>(
    shared: &Shared<'_, P, D, T, U, V, R, G>,
    post: Post<D, T, U, V, N, C>,
) -> WorkerRecord<D, T, U, V> {
    let (end, mut worker) = post.into_parts();
    let mut receiver = Receiver::new(end);
    if shared.board.may_begin(shared.rt) {
        for _ in shared.rt.forever() {
            if !serve_next_recorded(shared, &mut receiver, &mut worker) {
                break;
            }
        }
    }
    worker.end(shared, Vec::new(shared.alloc))
}

/// The same as `serve_next`, with the step as an entry of the history.
fn serve_next_recorded<
    P: Pool,
    D: Hall,
    T: Ledger,
    U: Ledger,
    V: Ledger,
    R: Wait,
    N: Datagrams,
    G: Gate,
    C: Moments,
>(
    shared: &Shared<'_, P, D, T, U, V, R, G>,
    receiver: &mut Receiver<N>,
    worker: &mut Worker<D, T, U, V, C>,
) -> bool
    ensures { IsTurnOfLoop D.opened true
        (λ given octets. N.receives receiver.old.end given octets receiver.new.end)
        (IsTold C.tells worker.old.clock) receiver.new.buffer shared.now.plan.faults
        (failures (N.faults receiver.old.end) receiver.old.failed_in_a_row)
        (failures (N.faults receiver.new.end) receiver.new.failed_in_a_row) result
        (standing worker.old.seat worker.old.outlet worker.old.counts)
        (standing worker.new.seat worker.new.outlet worker.new.counts) }
{
    let goes_on = match receive_next(shared, receiver, worker) {
        Next::Event(event) => !matches!(worker.step_recorded(shared, event), StepResult::Closed),
        Next::Nothing => true,
        Next::End => false,
    };
    shared.show(worker.number, worker.counts);
    goes_on
}

/// Waits for a datagram.
fn receive_next<
    P: Pool,
    D: Hall,
    T: Ledger,
    U: Ledger,
    V: Ledger,
    R: Wait,
    N: Datagrams,
    G: Gate,
    C: Moments,
>(
    shared: &Shared<'_, P, D, T, U, V, R, G>,
    receiver: &mut Receiver<N>,
    worker: &mut Worker<D, T, U, V, C>,
) -> Next
    ensures { IsReceived
        (λ given octets. N.receives receiver.old.end given octets receiver.new.end)
        (IsTold C.tells worker.old.clock) receiver.new.buffer shared.now.plan.faults
        (failures (N.faults receiver.old.end) receiver.old.failed_in_a_row)
        (failures (N.faults receiver.new.end) receiver.new.failed_in_a_row) result
        (standing worker.old.seat worker.old.outlet worker.old.counts)
        (standing worker.new.seat worker.new.outlet worker.new.counts) }
{
    match receiver.end.receive(&mut receiver.buffer) {
        Ok(Received::Stopped) => Next::End,
        Ok(Received::Quiet) => {
            receiver.failed_in_a_row = 0;
            Next::Nothing
        }
        Ok(Received::Datagram(source, length)) => {
            receiver.failed_in_a_row = 0;
            shared.count_received(worker.number);
            let octets = &receiver.buffer[..length];
            match event_of(shared.alloc, source, octets, &mut worker.clock) {
                Ok(event) => Next::Event(event),
                Err(AllocError) => {
                    worker.counts.refuse();
                    Next::Nothing
                }
            }
        }
        Err(DeviceFault) => {
            worker.counts.faults = worker.counts.faults.saturating_add(1);
            receiver.failed_in_a_row = receiver.failed_in_a_row.saturating_add(1);
            if receiver.failed_in_a_row < shared.plan.faults {
                Next::Nothing
            } else {
                Next::End
            }
        }
    }
}

/// The event of a datagram that has come, at the moment that the clock tells now.
fn event_of<C: Moments>(
    alloc: Global,
    source: Source,
    octets: &[u8],
    clock: &mut C,
) -> Result<Event, AllocError>
    ensures { IfOk result (IsEventNow (IsTold C.tells clock.old) source octets.now) }
{
    let moment = clock.now();
    let octets = Octets::from_vec(Vec::from_slice(alloc, octets)?);
    Ok(Event::Datagram(source, octets, moment))
}
