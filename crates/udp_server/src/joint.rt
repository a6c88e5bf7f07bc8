//! What the threads of a server leave, and the report of it.

ghost use Rattle.std.specs.Prelude.{◌≡◌, ◌≢◌, ◌≤◌, ◌+◌, ◌^◌, ◌++◌, ◌∷◌, [], Err, IfOk};
ghost use Rattle.std.specs.Prelude.{OnOk, flat_map, length, map};
ghost use Rattle.books.specs.Totals.{changes_of, datagrams_of, turns_of};
ghost use Rattle.udp_server.specs.Joint.{counts_of_both, joint_count};
ghost use Rattle.udp_server.specs.Served.{IsServed};

use crate::report::{Report, ServeFault};
use crate::sender::SendCounts;
use crate::threads::CrewRecord;
use crate::worker::{Counts, WorkerRecord};
use books::{Chapter, Finished, Receipt, totals_of};
use pools::Pool;
use std::alloc::{AllocError, Global};
use std::sync::ledger::Ledger;
use zone_lock::{Hall, Seat, ZoneLock};

/// What all workers leave together.
#[derive(Drop)]
struct JointRecord<D: Hall, T: Ledger, U: Ledger, V: Ledger> {
    seats: Vec<Seat<D, T, U, V>>,
    receipts: Vec<Receipt>,
    chapters: Vec<Chapter>,
    counts: Counts,
}

impl<D: Hall, T: Ledger, U: Ledger, V: Ledger> JointRecord<D, T, U, V> {
    /// Puts what one worker left behind what others did.
    fn join(&mut self, left: WorkerRecord<D, T, U, V>) -> Result<(), AllocError>
        ensures seats { OnOk result (self.new.seats.items
            ≡ self.old.seats.items ++ left.seat ∷ []) }
        ensures receipts { OnOk result (self.new.receipts.items
            ≡ self.old.receipts.items ++ left.receipts.items) }
        ensures chapters { OnOk result (self.new.chapters.items
            ≡ self.old.chapters.items ++ left.chapters.items) }
        ensures counts { OnOk result (self.new.counts
            ≡ counts_of_both self.old.counts left.counts) }
    {
        let WorkerRecord {
            seat,
            mut receipts,
            mut chapters,
            counts,
        } = left;
        self.seats.push(seat).map_err(AllocError::from)?;
        self.receipts.append(&mut receipts)?;
        self.chapters.append(&mut chapters)?;
        self.counts = self.counts.and(counts);
        Ok(())
    }
}

/// What these workers leave together, in their order.
fn join_records<D: Hall, T: Ledger, U: Ledger, V: Ledger>(
    alloc: Global,
    workers: Vec<WorkerRecord<D, T, U, V>>,
) -> Result<JointRecord<D, T, U, V>, AllocError>
    ensures seats { IfOk result (λ joint. joint.seats.items
        ≡ map (λ worker. worker.seat) workers.items) }
    ensures receipts { IfOk result (λ joint. joint.receipts.items
        ≡ flat_map (λ worker. worker.receipts.items) workers.items) }
    ensures chapters { IfOk result (λ joint. joint.chapters.items
        ≡ flat_map (λ worker. worker.chapters.items) workers.items) }
    ensures dropped { IfOk result (λ joint. joint.counts.dropped
        ≡ joint_count (λ worker. worker.counts.dropped) workers.items) }
    ensures refused { IfOk result (λ joint. joint.counts.refused
        ≡ joint_count (λ worker. worker.counts.refused) workers.items) }
    ensures faults { IfOk result (λ joint. joint.counts.faults
        ≡ joint_count (λ worker. worker.counts.faults) workers.items) }
{
    let mut joint = JointRecord {
        seats: Vec::with_capacity(alloc, workers.len())?,
        receipts: Vec::new(alloc),
        chapters: Vec::new(alloc),
        counts: Counts::NONE,
    };
    for worker in workers {
        joint.join(worker)?;
    }
    Ok(joint)
}

/// The report of what the threads left, with the zone that is taken out of its lock.
pub(crate) fn report_of<P: Pool, D: Hall, T: Ledger, U: Ledger, V: Ledger>(
    alloc: Global,
    lock: ZoneLock<P, D, T, U, V>,
    left: CrewRecord<P, D, T, U, V>,
) -> Result<Report<P>, ServeFault>
    ensures served { IfOk result (λ r. IsServed D.opened r.finished r.datagrams r.turns
        r.changes) }
    ensures counts { result ≢ Err ServeFault.WrongCounts }
    ensures sent { IfOk result (λ r. r.sent ≡ left.sent.replies) }
    ensures send_faults { IfOk result (λ r. r.send_faults ≡ left.sent.faults) }
    ensures dropped { IfOk result (λ r. r.dropped
        ≡ joint_count (λ worker. worker.counts.dropped) left.workers.items) }
    ensures refused { IfOk result (λ r. r.refused
        ≡ joint_count (λ worker. worker.counts.refused) left.workers.items) }
    ensures receive_faults { IfOk result (λ r. r.receive_faults
        ≡ joint_count (λ worker. worker.counts.faults) left.workers.items) }
    ensures chapters { IfOk result (λ r. r.chapters.items
        ≡ flat_map (λ worker. worker.chapters.items) left.workers.items) }
    ensures receipts { IfOk result (λ r. r.receipts.items
        ≡ flat_map (λ worker. worker.receipts.items) left.workers.items) }
    ensures boxes { IfOk result (λ r. r.boxes ≡ left.boxes) }
{
    let CrewRecord {
        workers,
        boxes,
        sent,
        awaited: _,
    } = left;
    match join_records(alloc, workers) {
        Ok(joint) => report_with(lock, joint, boxes, sent),
        Err(AllocError) => Err(ServeFault::Memory),
    }
}

/// The same, with what all workers left together: the report takes over what they counted and kept.
fn report_with<P: Pool, D: Hall, T: Ledger, U: Ledger, V: Ledger>(
    lock: ZoneLock<P, D, T, U, V>,
    joint: JointRecord<D, T, U, V>,
    boxes: Vec<(usize, P, bool)>,
    sent: SendCounts,
) -> Result<Report<P>, ServeFault>
    ensures served { IfOk result (λ r. IsServed D.opened r.finished r.datagrams r.turns
        r.changes) }
    ensures counts { result ≢ Err ServeFault.WrongCounts }
    ensures sent { IfOk result (λ r. r.sent ≡ sent.replies) }
    ensures send_faults { IfOk result (λ r. r.send_faults ≡ sent.faults) }
    ensures dropped { IfOk result (λ r. r.dropped ≡ joint.counts.dropped) }
    ensures refused { IfOk result (λ r. r.refused ≡ joint.counts.refused) }
    ensures receive_faults { IfOk result (λ r. r.receive_faults ≡ joint.counts.faults) }
    ensures chapters { IfOk result (λ r. r.chapters ≡ joint.chapters) }
    ensures receipts { IfOk result (λ r. r.receipts ≡ joint.receipts) }
    ensures boxes { IfOk result (λ r. r.boxes ≡ boxes) }
{
    let JointRecord {
        seats,
        receipts,
        chapters,
        counts,
    } = joint;
    let Ok(finished) = lock.finish(seats) else {
        return Err(ServeFault::NotFinished);
    };
    let (datagrams, turns, changes) = counted(&finished);
    Ok(Report {
        datagrams,
        turns,
        changes,
        sent: sent.replies,
        dropped: counts.dropped,
        refused: counts.refused,
        receive_faults: counts.faults,
        send_faults: sent.faults,
        finished,
        chapters,
        receipts,
        boxes,
    })
}

/// How many datagrams and how many turns a whole history has, and how many steps in which a fresh
/// pool took the place of another one.
fn counted<P: Pool>(finished: &Finished<P>) -> (u64, u64, u64)
    requires first { finished.now.carried.datagrams + finished.now.carried.turns
        + finished.now.carried.changes ≡ finished.now.first }
    requires few { finished.now.first + length finished.now.entries ≤ 2 ^ 62 }
    ensures datagrams { result.0
        ≡ finished.now.carried.datagrams + datagrams_of finished.now.entries }
    ensures turns { result.1 ≡ finished.now.carried.turns + turns_of finished.now.entries }
    ensures changes { result.2
        ≡ finished.now.carried.changes + changes_of finished.now.entries }
{
    let carried = finished.carried();
    let since = totals_of(finished.entries());
    (
        carried.datagrams + since.datagrams,
        carried.turns + since.turns,
        carried.changes + since.changes,
    )
}
