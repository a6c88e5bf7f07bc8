//! Pools that are to be replaced while a server runs.

ghost use Rattle.std.specs.Prelude.{◌≡◌, ◌≤◌, ◌<◌, ◌+◌, ◌-◌, IfOk, IsFalse, IsTrue, OnSome};
ghost use Rattle.std.specs.Prelude.{vec_capacity, vec_len};
ghost use Rattle.udp_server.specs.Orders.{AreCarriedOut, IsNextAt, IsNextTried, IsNoneDue};
ghost use Rattle.udp_server.specs.Orders.{all_back, numbers_of, numbers_ordered, ordering};
ghost use Rattle.udp_server.specs.Working.{IsTold, standing};

use crate::gate::Gate;
use crate::moments::Moments;
use crate::worker::{Shared, Worker};
use pools::Pool;
use std::alloc::{AllocError, Global};
use std::sync::Wait;
use std::sync::ledger::Ledger;
use zone_config::Moment;
use zone_lock::Hall;

/// From this moment on, a fresh pool is to take the place of the pool with this number.
#[derive(Drop)]
pub struct PoolOrder<P: Pool> {
    pub at: Moment,
    pub pool: usize,
    pub fresh: P,
}

/// The orders that were not tried yet, the next one last; and for each other one the pool's number,
/// the pool that came back, and whether it is the old one. There is room for what comes back of
/// all.
pub(crate) struct Orders<P: Pool> {
    waiting: Vec<PoolOrder<P>>,
    boxes: Vec<(usize, P, bool)>,
    ghost room: { vec_len boxes + vec_len waiting ≤ vec_capacity boxes },
}

// Written by hand, so that whoever owns orders makes one call at each exit.
impl<P: Pool> Drop for Orders<P> {
    fn drop(self) {
        let Orders {
            waiting: _,
            boxes: _,
        } = self;
    }
}

impl<P: Pool> Orders<P> {
    /// None of these orders was tried.
    pub(crate) fn new(alloc: Global, orders: Vec<PoolOrder<P>>) -> Result<Self, AllocError>
        ensures { IfOk result (λ made. numbers_of made.waiting.items made.boxes.items
            ≡ numbers_ordered orders.items) }
    {
        let boxes = Vec::with_capacity(alloc, orders.len())?;
        let mut waiting = orders;
        waiting.reverse();
        Ok(Orders { waiting, boxes })
    }

    /// Tries each order, in the list's order, whose moment the worker's clock has reached. An order
    /// waits for those before it, and none is tried twice.
    ///
    /// promise orders-are-tried-once: Each order is tried once, at its moment or later and behind
    /// those before it; what comes back of it stands beside its pool's number (`AreCarriedOut`,
    /// `IsNextTried`).
    pub(crate) fn carry_out<D: Hall, T: Ledger, U: Ledger, V: Ledger, R: Wait, G: Gate, C: Moments>(
        &mut self,
        shared: &Shared<'_, P, D, T, U, V, R, G>,
        worker: &mut Worker<D, T, U, V, C>,
    )
        ensures tried { AreCarriedOut D.opened P.account C.tells
            (ordering self.old.waiting.items self.old.boxes.items
            (standing worker.old.seat worker.old.outlet worker.old.counts))
            (ordering self.new.waiting.items self.new.boxes.items
            (standing worker.new.seat worker.new.outlet worker.new.counts)) }
        ensures all { numbers_of self.new.waiting.items self.new.boxes.items
            ≡ numbers_of self.old.waiting.items self.old.boxes.items }
    {
        for _ in 0..self.waiting.len() {
            if !self.has_tried_next(shared, worker) {
                return;
            }
        }
    }

    /// Tries the next order, if there is one whose moment the worker's clock has reached. Whether
    /// it has.
    fn has_tried_next<D: Hall, T: Ledger, U: Ledger, V: Ledger, R: Wait, G: Gate, C: Moments>(
        &mut self,
        shared: &Shared<'_, P, D, T, U, V, R, G>,
        worker: &mut Worker<D, T, U, V, C>,
    ) -> bool
        ensures tried { IsTrue result
            → IsNextTried D.opened P.account (IsTold C.tells worker.old.clock)
            (ordering self.old.waiting.items self.old.boxes.items
            (standing worker.old.seat worker.old.outlet worker.old.counts))
            (ordering self.new.waiting.items self.new.boxes.items
            (standing worker.new.seat worker.new.outlet worker.new.counts)) }
        ensures all { numbers_of self.new.waiting.items self.new.boxes.items
            ≡ numbers_of self.old.waiting.items self.old.boxes.items }
        ensures none { IsFalse result
            → IsNoneDue (IsTold C.tells worker.old.clock) self.new.waiting.items }
        ensures same { IsFalse result
            → ordering self.new.waiting.items self.new.boxes.items
            (standing worker.new.seat worker.new.outlet worker.new.counts)
            ≡ ordering self.old.waiting.items self.old.boxes.items
            (standing worker.old.seat worker.old.outlet worker.old.counts) }
    {
        let now = worker.clock.now();
        let Some(order) = self.next_at(now) else {
            return false;
        };
        let PoolOrder { at: _, pool, fresh } = order;
        match worker.replace(shared, pool, fresh, now) {
            Ok(old) => self.boxes.push_reserved((pool, old, true)),
            Err(fresh) => self.boxes.push_reserved((pool, fresh, false)),
        }
        true
    }

    /// The next order, if its moment is reached. There is room for what comes back of it.
    fn next_at(&mut self, now: Moment) -> Option<PoolOrder<P>>
        ensures next { IsNextAt now self.old.waiting.items result self.new.waiting.items }
        ensures boxes { self.new.boxes ≡ self.old.boxes }
        ensures fewer { OnSome result (vec_len self.new.waiting + 1 ≡ vec_len self.old.waiting) }
        ensures room { OnSome result (vec_len self.new.boxes + vec_len self.new.waiting
            < vec_capacity self.new.boxes) }
    {
        let next = self.waiting.last()?;
        if now.milliseconds() < next.at.milliseconds() {
            return None;
        }
        self.waiting.pop()
    }

    /// What came back of each order. The fresh pools of those that were not tried come back, too.
    pub(crate) fn into_boxes(mut self) -> Vec<(usize, P, bool)>
        ensures { result.items ≡ all_back self.waiting.items self.boxes.items }
    {
        for _ in 0..self.waiting.len() {
            self.hand_back();
        }
        let Orders { waiting: _, boxes } = self;
        boxes
    }

    /// The next order isn't tried any more: its fresh pool comes back.
    fn hand_back(&mut self)
        ensures all { all_back self.new.waiting.items self.new.boxes.items
            ≡ all_back self.old.waiting.items self.old.boxes.items }
        ensures fewer { vec_len self.new.waiting ≡ vec_len self.old.waiting - 1 }
    {
        if let Some(order) = self.waiting.pop() {
            let PoolOrder { at: _, pool, fresh } = order;
            self.boxes.push_reserved((pool, fresh, false));
        }
    }
}
