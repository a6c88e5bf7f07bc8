//! Steps of a worker of which nothing is recorded.

ghost use Rattle.std.specs.Prelude.{◌≡◌, false};
ghost use Rattle.zone_lock.specs.Held.{IsClosed};
ghost use Rattle.udp_server.specs.Working.{AreHandedOn, CameOf, CameOfTurns};
ghost use Rattle.udp_server.specs.Working.{IsRecordedAs, IsTold, refused_after, standing};

use crate::gate::{Gate, Stage};
use crate::moments::Moments;
use crate::worker::{Counts, Shared, StepResult, Worker, first_octet, was_idle};
use pools::Pool;
use ras_core::{Event, StepFault, prepare};
use std::sync::Wait;
use std::sync::ledger::Ledger;
use zone_events::Datagram;
use zone_lock::{Hall, TurnsEnd};

/// How many turns are made at most before the lock is free again: a request waits for them.
const MOST_AT_ONCE: usize = 50;

impl Counts {
    /// Counts the turn that was refused for want of memory, if turns ended so.
    fn count_end(&mut self, end: TurnsEnd)
        ensures refused { self.new.refused ≡ refused_after end self.old.refused }
        ensures dropped { self.new.dropped ≡ self.old.dropped }
        ensures faults { self.new.faults ≡ self.old.faults }
    {
        match end {
            TurnsEnd::Refused(StepFault::Memory) => self.refuse(),
            TurnsEnd::Refused(StepFault::Closed) | TurnsEnd::Idle | TurnsEnd::More => {}
        }
    }
}

impl<D: Hall, T: Ledger, U: Ledger, V: Ledger, C: Moments> Worker<D, T, U, V, C> {
    /// Makes the step of an event, of which nothing is recorded, and hands its reply to the sender.
    /// The worker keeps its outcome until the next step, and nothing else tells of it.
    pub(crate) fn step<P: Pool, R: Wait, G: Gate>(
        &mut self,
        shared: &Shared<'_, P, D, T, U, V, R, G>,
        event: Event,
    ) -> StepResult
        ensures came { CameOf D.opened event result
            (standing self.old.seat self.old.outlet self.old.counts)
            (standing self.new.seat self.new.outlet self.new.counts) }
        ensures recorded { IsRecordedAs false result }
    {
        let first = first_octet(&event);
        let Ok(prepared) = prepare(shared.alloc, event) else {
            self.counts.refuse();
            return StepResult::Refused;
        };
        shared.gate.pass(self.number, Stage::BeforeApply);
        let lock = shared.lock;
        match lock.step(shared.rt, &mut self.seat, prepared, &mut self.outcome) {
            Ok(()) => {}
            Err(StepFault::Memory) => {
                self.counts.refuse();
                return StepResult::Refused;
            }
            Err(StepFault::Closed) => return StepResult::Closed,
        }
        shared.gate.pass(self.number, Stage::AfterApply);
        shared.count_step(self.number, first, &self.outcome);
        let is_idle = was_idle(&self.outcome);
        let reply = self.take_reply();
        self.hand_on(shared, reply);
        shared.gate.pass(self.number, Stage::AfterPost);
        StepResult::Made {
            place: None,
            is_idle,
        }
    }

    /// Takes what is sent out of the outcome of the last step. Its octets aren't copied.
    fn take_reply(&mut self) -> Option<Datagram>
        ensures output { result ≡ self.old.outcome.output }
        ensures same { standing self.new.seat self.new.outlet self.new.counts
            ≡ standing self.old.seat self.old.outlet self.old.counts }
    {
        self.outcome.output.take()
    }

    /// Makes turns one after the other while it holds the lock, and hands their replies to the
    /// sender, in order. Nothing is recorded of them. Why it makes no further one; a want of memory
    /// is counted. What `replies` has is let go; only its memory is used.
    ///
    /// promise timers-make-turns-in-order: At most 50 turns are made under one hold, at one moment;
    /// each reply is handed on once, in order (`CameOfTurns`, `AreTurnsServed`, `AreHandedOn`).
    pub(crate) fn turns<P: Pool, R: Wait, G: Gate>(
        &mut self,
        shared: &Shared<'_, P, D, T, U, V, R, G>,
        replies: &mut Vec<Datagram>,
    ) -> TurnsEnd
        ensures came { CameOfTurns D.opened (IsTold C.tells self.old.clock) MOST_AT_ONCE result
            (standing self.old.seat self.old.outlet self.old.counts)
            (standing self.new.seat self.new.outlet self.new.counts) }
        ensures closed { result ≡ TurnsEnd.Refused StepFault.Closed → IsClosed D.opened }
    {
        replies.clear();
        if replies.reserve(MOST_AT_ONCE).is_err() {
            self.counts.refuse();
            return TurnsEnd::Refused(StepFault::Memory);
        }
        let moment = self.clock.now();
        shared.gate.pass(self.number, Stage::BeforeApply);
        let (seat, outcome) = (&mut self.seat, &mut self.outcome);
        let mut counts = zone_view::Counts::none();
        let end = shared.lock.turns(
            shared.rt,
            seat,
            moment,
            MOST_AT_ONCE,
            outcome,
            replies,
            &mut counts,
        );
        self.counts.count_end(end);
        self.count_turns(shared, &counts);
        shared.gate.pass(self.number, Stage::AfterApply);
        self.post_all(shared, replies);
        shared.gate.pass(self.number, Stage::AfterPost);
        end
    }

    /// Counts turns, for those who look at the server, and shows what the worker counted.
    fn count_turns<P: Pool, R, G>(
        &self,
        shared: &Shared<'_, P, D, T, U, V, R, G>,
        counts: &zone_view::Counts,
    ) {
        if let Some(tally) = shared.tallies.of_worker(self.number) {
            tally.count_steps(counts);
            tally.show(self.counts);
        }
    }

    /// Hands replies to the sender, in order. Those that find no place in the ring are dropped.
    fn post_all<P: Pool, R: Wait, G: Gate>(
        &mut self,
        shared: &Shared<'_, P, D, T, U, V, R, G>,
        replies: &mut Vec<Datagram>,
    )
        ensures { AreHandedOn replies.old.items
            (standing self.old.seat self.old.outlet self.old.counts)
            (standing self.new.seat self.new.outlet self.new.counts) }
    {
        for datagram in replies.drain(..) {
            self.post(shared, datagram);
        }
    }
}
