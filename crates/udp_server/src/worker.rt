//! One who makes steps of the zone, and hands the replies to the sender.

ghost use Rattle.std.specs.Prelude.{◌≡◌, ◌<◌, ◌+◌, ◌++◌, ◌∷◌, ◌↔◌, [], min, IfErr, IfOk};
ghost use Rattle.std.specs.Prelude.{IsTrue, OnOk};
ghost use Rattle.std.specs.Prelude.{Some, is_some, true, vec_capacity, vec_len};
ghost use Rattle.std.specs.Option.{ForSome};
ghost use Rattle.ras_machine.specs.Steps.{HasFewOctets};
ghost use Rattle.udp_server.specs.Ends.{fault_count, most_count};
ghost use Rattle.udp_server.specs.Orders.{IsPoolKept, IsPoolReplaced, refused_after_fault};
ghost use Rattle.udp_server.specs.Rooms.{IsRoom};
ghost use Rattle.udp_server.specs.Working.{CameOf, IsHandedOn, IsRecordedAs, first_octet};
ghost use Rattle.udp_server.specs.Working.{standing};

use crate::board::Board;
use crate::gate::{Gate, Stage};
use crate::moments::Moments;
use crate::plan::Plan;
use crate::tally::Tallies;
use books::{Chapter, Receipt};
use pools::{Pool, ReplaceFault};
use ras_core::{Event, Outcome, Prepared, StepFault, prepare};
use ras_module::Reply;
use reply_queues::Outlet;
use std::alloc::{AllocError, Global};
use std::sync::Wait;
use std::sync::ledger::Ledger;
use zone_config::Moment;
use zone_events::{Datagram, Note};
use zone_lock::{Hall, Seat, ZoneLock};
use zone_view::StepCounts;

/// What all threads of a server share.
#[derive(Drop)]
pub(crate) struct Shared<'a, P: Pool, D: Hall, T: Ledger, U: Ledger, V: Ledger, R, G> {
    pub(crate) rt: &'a R,
    pub(crate) alloc: Global,
    pub(crate) lock: &'a ZoneLock<P, D, T, U, V>,
    pub(crate) board: &'a Board,
    pub(crate) gate: &'a G,
    pub(crate) tallies: &'a Tallies,
    pub(crate) plan: Plan,
}

impl<P: Pool, D: Hall, T: Ledger, U: Ledger, V: Ledger, R, G> Shared<'_, P, D, T, U, V, R, G> {
    /// Counts a step of the worker with this number, for those who look at the server.
    pub(crate) fn count_step(&self, worker: usize, first: Option<u8>, outcome: &Outcome) {
        if let Some(tally) = self.tallies.of_worker(worker) {
            tally.count_step(&StepCounts::of(first, outcome));
        }
    }

    /// Counts a datagram that the worker with this number received.
    pub(crate) fn count_received(&self, worker: usize) {
        if let Some(tally) = self.tallies.of_worker(worker) {
            tally.count_received();
        }
    }

    /// Shows what the worker with this number counted.
    pub(crate) fn show(&self, worker: usize, counts: Counts) {
        if let Some(tally) = self.tallies.of_worker(worker) {
            tally.show(counts);
        }
    }
}

/// The first octet of the datagram of an event, if it has one.
pub(crate) fn first_octet(event: &Event) -> Option<u8>
    ensures { result ≡ first_octet event.now }
{
    match event {
        Event::Datagram(_, octets, _) => octets.as_slice().first().copied(),
        Event::Turn(_) => None,
    }
}

/// What a worker counts. A count at `u64::MAX` stays there.
#[derive(Clone, Copy)]
pub(crate) struct Counts {
    /// Replies that found no place in the ring.
    pub(crate) dropped: u64,
    /// Steps and chapters that weren't made for want of memory.
    pub(crate) refused: u64,
    /// Receives that failed.
    pub(crate) faults: u64,
}

impl Counts {
    pub(crate) const NONE: Counts = Counts {
        dropped: 0,
        refused: 0,
        faults: 0,
    };

    /// One step or chapter more was refused.
    pub(crate) fn refuse(&mut self)
        ensures refused { self.new.refused ≡ fault_count self.old.refused }
        ensures dropped { self.new.dropped ≡ self.old.dropped }
        ensures faults { self.new.faults ≡ self.old.faults }
    {
        self.refused = self.refused.saturating_add(1);
    }

    /// Counts the step of a pool that was refused for want of memory, if that is the reason.
    fn count_fault(&mut self, fault: ReplaceFault)
        ensures refused { self.new.refused ≡ refused_after_fault fault self.old.refused }
        ensures dropped { self.new.dropped ≡ self.old.dropped }
        ensures faults { self.new.faults ≡ self.old.faults }
    {
        match fault {
            ReplaceFault::Memory => self.refuse(),
            ReplaceFault::Closed
            | ReplaceFault::NoPool
            | ReplaceFault::NotIdle
            | ReplaceFault::NotLent => {}
        }
    }

    /// What both count together.
    pub(crate) fn and(self, more: Counts) -> Counts
        ensures dropped { result.dropped ≡ min (self.dropped + more.dropped) most_count }
        ensures refused { result.refused ≡ min (self.refused + more.refused) most_count }
        ensures faults { result.faults ≡ min (self.faults + more.faults) most_count }
    {
        Counts {
            dropped: self.dropped.saturating_add(more.dropped),
            refused: self.refused.saturating_add(more.refused),
            faults: self.faults.saturating_add(more.faults),
        }
    }
}

/// One who makes steps, with the outcome of its last one, if that wasn't recorded.
pub(crate) struct Worker<D: Hall, T: Ledger, U: Ledger, V: Ledger, C: Moments> {
    pub(crate) number: usize,
    pub(crate) seat: Seat<D, T, U, V>,
    pub(crate) clock: C,
    pub(crate) outlet: Outlet,
    pub(crate) outcome: Outcome,
    pub(crate) receipts: Vec<Receipt>,
    pub(crate) counts: Counts,
}

// Written by hand, so that whoever owns a worker makes one call at each exit.
impl<D: Hall, T: Ledger, U: Ledger, V: Ledger, C: Moments> Drop for Worker<D, T, U, V, C> {
    fn drop(self) {
        let Worker {
            number: _,
            seat: _,
            clock: _,
            outlet: _,
            outcome: _,
            receipts: _,
            counts: _,
        } = self;
    }
}

/// What a worker leaves at its end.
#[derive(Drop)]
pub(crate) struct WorkerRecord<D: Hall, T: Ledger, U: Ledger, V: Ledger> {
    pub(crate) seat: Seat<D, T, U, V>,
    pub(crate) receipts: Vec<Receipt>,
    pub(crate) chapters: Vec<Chapter>,
    pub(crate) counts: Counts,
}

/// What came of a worker's step.
#[derive(Clone, Copy)]
pub(crate) enum StepResult {
    /// If it was recorded, it is the entry at this place of the history; whether nothing was due.
    Made { place: Option<usize>, is_idle: bool },
    /// There was no memory for it.
    Refused,
    /// As many steps were made as there may be.
    Closed,
}

impl<D: Hall, T: Ledger, U: Ledger, V: Ledger, C: Moments> Worker<D, T, U, V, C> {
    /// Makes the step of an event, which is an entry of the history, and hands its reply to the
    /// sender. What is needed of memory is there before the step.
    pub(crate) fn step_recorded<P: Pool, R: Wait, G: Gate>(
        &mut self,
        shared: &Shared<'_, P, D, T, U, V, R, G>,
        event: Event,
    ) -> StepResult
        ensures came { CameOf D.opened event result
            (standing self.old.seat self.old.outlet self.old.counts)
            (standing self.new.seat self.new.outlet self.new.counts) }
        ensures recorded { IsRecordedAs true result }
    {
        let first = first_octet(&event);
        match self.ready(shared, event) {
            Ok((prepared, buffer)) => self.apply(shared, first, prepared, buffer),
            Err(AllocError) => {
                self.counts.refuse();
                StepResult::Refused
            }
        }
    }

    /// Reads the datagram of an event. If receipts are kept, makes room for one and for the copy of
    /// a reply.
    fn ready<P: Pool, R: Wait, G: Gate>(
        &mut self,
        shared: &Shared<'_, P, D, T, U, V, R, G>,
        event: Event,
    ) -> Result<(Prepared, Option<Vec<u8>>), AllocError>
        ensures event { IfOk result (λ ready. ready.0 ≡ event) }
        ensures room { IfOk result (λ ready. ForSome ready.1 (λ buffer.
            IsRoom buffer self.new.receipts)) }
        ensures wanted { IfOk result (λ ready. is_some ready.1 ≡ shared.now.plan.receipts) }
        ensures same { standing self.new.seat self.new.outlet self.new.counts
            ≡ standing self.old.seat self.old.outlet self.old.counts }
    {
        let buffer = self.room_for_copy(shared.alloc, shared.plan)?;
        let prepared = prepare(shared.alloc, event)?;
        Ok((prepared, buffer))
    }

    /// Makes room for a receipt, and for the copy of a reply, if receipts are kept.
    fn room_for_copy(&mut self, alloc: Global, plan: Plan) -> Result<Option<Vec<u8>>, AllocError>
        ensures room { IfOk result (λ buffer. ForSome buffer (λ buffer.
            IsRoom buffer self.new.receipts)) }
        ensures same { standing self.new.seat self.new.outlet self.new.counts
            ≡ standing self.old.seat self.old.outlet self.old.counts }
        ensures wanted { IfOk result (λ buffer. is_some buffer ≡ plan.receipts) }
    {
        if !plan.receipts {
            return Ok(None);
        }
        self.receipts.reserve(1)?;
        let buffer = Vec::with_capacity(alloc, Reply::MOST)?;
        Ok(Some(buffer))
    }

    /// Makes a step that is prepared, of a datagram with this first octet, if of one.
    #[tactic(auto, using(crate::proofs::Steps::few_of))]
    fn apply<P: Pool, R: Wait, G: Gate>(
        &mut self,
        shared: &Shared<'_, P, D, T, U, V, R, G>,
        first: Option<u8>,
        prepared: Prepared,
        buffer: Option<Vec<u8>>,
    ) -> StepResult
        requires { ForSome buffer (λ buffer. IsRoom buffer self.old.receipts) }
        ensures came { CameOf D.opened prepared result
            (standing self.old.seat self.old.outlet self.old.counts)
            (standing self.new.seat self.new.outlet self.new.counts) }
        ensures recorded { IsRecordedAs true result }
    {
        shared.gate.pass(self.number, Stage::BeforeApply);
        let receipt = match shared.lock.apply(shared.rt, &mut self.seat, prepared) {
            Ok(receipt) => receipt,
            Err(StepFault::Memory) => {
                self.counts.refuse();
                return StepResult::Refused;
            }
            Err(StepFault::Closed) => return StepResult::Closed,
        };
        shared.gate.pass(self.number, Stage::AfterApply);
        shared.count_step(self.number, first, &receipt.outcome);
        let place = receipt.place;
        let is_idle = was_idle(&receipt.outcome);
        let reply = self.reply_of(receipt, buffer);
        self.hand_on(shared, reply);
        shared.gate.pass(self.number, Stage::AfterPost);
        StepResult::Made {
            place: Some(place),
            is_idle,
        }
    }

    /// Puts a fresh pool in the place of the zone's pool with this number. The old pool comes back.
    /// If that can't be, the fresh one does: a want of memory is counted.
    ///
    /// promise worker-replaces-that-pool: A pool that a worker replaces is the named one, by one
    /// step of its seat; the old pool comes back, or the fresh one, with the reason
    /// (`IsPoolReplaced`, `IsPoolKept`, `IsPoolRefused`).
    pub(crate) fn replace<P: Pool, R: Wait, G: Gate>(
        &mut self,
        shared: &Shared<'_, P, D, T, U, V, R, G>,
        pool: usize,
        fresh: P,
        now: Moment,
    ) -> Result<P, P>
        ensures replaced { IfOk result (λ back. IsPoolReplaced D.opened pool (P.account fresh) now
            (P.account back)
            (standing self.old.seat self.old.outlet self.old.counts)
            (standing self.new.seat self.new.outlet self.new.counts)) }
        ensures kept { IfErr result (λ back. IsPoolKept D.opened P.account pool fresh back
            (standing self.old.seat self.old.outlet self.old.counts)
            (standing self.new.seat self.new.outlet self.new.counts)) }
    {
        if self.reserve_receipt(shared.plan).is_err() {
            self.counts.refuse();
            return Err(fresh);
        }
        match shared
            .lock
            .replace(shared.rt, &mut self.seat, pool, fresh, now)
        {
            Ok((receipt, old)) => {
                if shared.plan.receipts {
                    self.keep(receipt);
                }
                Ok(old)
            }
            Err((fresh, fault)) => {
                self.counts.count_fault(fault);
                Err(fresh)
            }
        }
    }

    /// Makes room for a receipt, if receipts are kept.
    fn reserve_receipt(&mut self, plan: Plan) -> Result<(), AllocError>
        ensures room { OnOk result (IsTrue plan.receipts
            → vec_len self.new.receipts < vec_capacity self.new.receipts) }
        ensures same { standing self.new.seat self.new.outlet self.new.counts
            ≡ standing self.old.seat self.old.outlet self.old.counts }
    {
        if plan.receipts {
            self.receipts.reserve(1)?;
        }
        Ok(())
    }

    /// What is sent. The receipt is kept if there is a buffer for the copy of what is sent.
    fn reply_of(&mut self, receipt: Receipt, buffer: Option<Vec<u8>>) -> Option<Datagram>
        requires few { HasFewOctets receipt.outcome.output }
        requires room { ForSome buffer (λ buffer. IsRoom buffer self.old.receipts) }
        ensures output { result ≡ receipt.outcome.output }
        ensures same { standing self.new.seat self.new.outlet self.new.counts
            ≡ standing self.old.seat self.old.outlet self.old.counts }
    {
        let Some(buffer) = buffer else {
            return output_of(receipt);
        };
        let reply = match &receipt.outcome.output {
            Some(output) => Some(output.copy_into(buffer)),
            None => None,
        };
        self.keep(receipt);
        reply
    }

    /// Keeps a receipt, for which there is room.
    fn keep(&mut self, receipt: Receipt)
        requires { vec_len self.old.receipts < vec_capacity self.old.receipts }
        ensures kept { self.new.receipts.items ≡ self.old.receipts.items ++ receipt ∷ [] }
        ensures same { standing self.new.seat self.new.outlet self.new.counts
            ≡ standing self.old.seat self.old.outlet self.old.counts }
    {
        self.receipts.push_reserved(receipt);
    }

    /// Hands what is sent to the sender, if anything is.
    pub(crate) fn hand_on<P: Pool, R: Wait, G: Gate>(
        &mut self,
        shared: &Shared<'_, P, D, T, U, V, R, G>,
        reply: Option<Datagram>,
    )
        ensures { IsHandedOn reply
            (standing self.old.seat self.old.outlet self.old.counts)
            (standing self.new.seat self.new.outlet self.new.counts) }
    {
        if let Some(reply) = reply {
            self.post(shared, reply);
        }
    }

    /// Hands a reply to the sender. One that finds no place in the ring is dropped.
    pub(crate) fn post<P: Pool, R: Wait, G: Gate>(
        &mut self,
        shared: &Shared<'_, P, D, T, U, V, R, G>,
        reply: Datagram,
    )
        ensures { IsHandedOn (Some reply)
            (standing self.old.seat self.old.outlet self.old.counts)
            (standing self.new.seat self.new.outlet self.new.counts) }
    {
        self.put(reply);
        shared.board.wake_sender();
    }

    /// Puts a reply behind those in the ring. If the ring is full, it is dropped, and counted.
    fn put(&mut self, reply: Datagram)
        ensures { IsHandedOn (Some reply)
            (standing self.old.seat self.old.outlet self.old.counts)
            (standing self.new.seat self.new.outlet self.new.counts) }
    {
        match self.outlet.offer(reply) {
            Ok(()) => {}
            Err(_) => self.counts.dropped = self.counts.dropped.saturating_add(1),
        }
    }

    /// Hands nothing more to the sender, and says so.
    pub(crate) fn end<P: Pool, R: Wait, G: Gate>(
        self,
        shared: &Shared<'_, P, D, T, U, V, R, G>,
        chapters: Vec<Chapter>,
    ) -> WorkerRecord<D, T, U, V>
        ensures seat { result.seat ≡ self.seat }
        ensures receipts { result.receipts ≡ self.receipts }
        ensures chapters { result.chapters ≡ chapters }
        ensures counts { result.counts ≡ self.counts }
    {
        let Worker {
            number: _,
            seat,
            clock: _,
            outlet,
            outcome: _,
            receipts,
            counts,
        } = self;
        let _ = outlet.end();
        shared.board.end(shared.rt);
        WorkerRecord {
            seat,
            receipts,
            chapters,
            counts,
        }
    }
}

/// Whether nothing was due in a step.
pub(crate) fn was_idle(outcome: &Outcome) -> bool
    ensures { IsTrue result ↔ (outcome.now.note ≡ Note.Idle) }
{
    matches!(outcome.note, Note::Idle)
}

/// What is sent by a step.
fn output_of(receipt: Receipt) -> Option<Datagram>
    ensures { result ≡ receipt.outcome.output }
{
    let mut receipt = receipt;
    receipt.outcome.output.take()
}
