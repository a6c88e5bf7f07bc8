//! What a turn calls for, and what is done in it.

ghost use Rattle.std.specs.Prelude.{◌≡◌, ◌≤◌, ℕ, IfOk, MatchOption, None, OnErr, OnOk};
ghost use Rattle.std.specs.FinMap as fin;
ghost use Rattle.kept_replies.specs.Kept.{births};
ghost use Rattle.ras_machine.specs.Machine.{Doing, retry_course, turn_course};
ghost use Rattle.ras_machine.specs.Soundness.{Sound};
ghost use Rattle.ras_machine.specs.Turns.{IsDueIn, IsNothingDueIn, number_after};
ghost use Rattle.ras_machine.specs.Courses.{CallsFor, Does, IsWaitingRequest};

use crate::course::Course;
use crate::job::{Job, Occasion};
use crate::machine::Machine;
use expiry::due_beside;
use kept_replies::KeptState;
use ras_module::{EndpointId, Reply, Request, RequestSeqNum};
use std::alloc::AllocError;
use zone_config::Moment;
use zone_events::{DueItem, Note, Outcome};

impl Machine {
    /// Any item that is due, and None if and only if nothing is due.
    pub fn due(&self, now: Moment) -> Option<DueItem>
        ensures { MatchOption result (IsNothingDueIn self.now now)
            (IsDueIn self.now now) }
    {
        let moment = now.milliseconds();
        let endpoint = self.tables.endpoint_due(now);
        let registrations = self.tables.registrations();
        due_beside(
            endpoint,
            registrations,
            &self.kept,
            moment,
            self.next_pool_turn,
        )
    }

    /// What a turn calls for in which this item is done.
    pub fn turn_course(&self, now: Moment, item: Option<DueItem>) -> Result<Course, AllocError>
        ensures { IfOk result (CallsFor self.now now
            (turn_course self.now now item)) }
    {
        match item {
            None => Ok(Course::Idle),
            Some(DueItem::Retry(born)) => self.retry_course(now, born),
            Some(item) => Ok(Course::Doing(item)),
        }
    }

    /// A request that waits is served again.
    fn retry_course(&self, now: Moment, born: u64) -> Result<Course, AllocError>
        ensures { IfOk result (CallsFor self.now now (retry_course self.now now born
            (fin.get (births self.now.kept) born))) }
    {
        match self.waiting(born)? {
            Some((job, request)) => self.serving(now, job, request),
            None => Ok(Course::Doing(DueItem::Retry(born))),
        }
    }

    /// The request that waits in the entry with this birth. None, if there is no such request, or
    /// it isn't one that is served: then there is nothing to do.
    fn waiting(&self, born: u64) -> Result<Option<(Job, Request)>, AllocError>
        ensures { IfOk result (λ found. (now : ℕ)
            → IsWaitingRequest self.now now born found) }
    {
        let Some((key, entry)) = self.kept.by_born(born) else {
            return Ok(None);
        };
        let KeptState::Pending { request, left, .. } = &entry.state else {
            return Ok(None);
        };
        if let Request::Irr(_) = request {
            return Ok(None);
        }
        let job = Job {
            key: key.copy()?,
            occasion: Occasion::Again { born, left: *left },
        };
        Ok(Some((job, request.copy()?)))
    }

    /// Does an item that is due, and is no request that waits.
    pub(crate) fn do_item(
        &mut self,
        now: Moment,
        item: &DueItem,
        outcome: &mut Outcome,
    ) -> Result<(), AllocError>
        requires sound { Sound self.old }
        requires due { IsDueIn self.old now item.now }
        ensures does { OnOk result (Does self.old now (Doing item.now) outcome.new self.new) }
        ensures given { OnOk result (outcome.new.given ≡ None) }
        ensures err { OnErr result (self.new ≡ self.old) }
    {
        match item {
            DueItem::RegistrationOver(id) => self.lapse(now, id, outcome),
            DueItem::Interrogate(id) => return self.interrogate(now, id, outcome),
            DueItem::Silent(id) => self.silence(now, id, outcome),
            DueItem::Retry(_) => outcome.be_noted(Note::Done(*item), None),
            DueItem::KeptOver(born) => self.expire(now, *born, outcome),
            DueItem::PoolTurn => self.turn_pools(now, outcome),
        }
        Ok(())
    }

    /// A registration is over.
    fn lapse(&mut self, now: Moment, id: &EndpointId, outcome: &mut Outcome)
        requires { IsDueIn self.old now (DueItem.RegistrationOver id.now) }
        ensures does { Does self.old now (Doing (DueItem.RegistrationOver id.now))
            outcome.new self.new }
        ensures given { outcome.new.given ≡ None }
    {
        self.tables.lapse(id);
        outcome.be_noted(Note::Done(DueItem::RegistrationOver(*id)), None);
    }

    /// The endpoint was interrogated `asks` times and never answered.
    fn silence(&mut self, now: Moment, id: &EndpointId, outcome: &mut Outcome)
        requires { IsDueIn self.old now (DueItem.Silent id.now) }
        ensures does { Does self.old now (Doing (DueItem.Silent id.now)) outcome.new self.new }
        ensures given { outcome.new.given ≡ None }
    {
        self.tables.silence(id);
        outcome.be_noted(Note::Done(DueItem::Silent(*id)), None);
    }

    /// A kept reply is over.
    fn expire(&mut self, now: Moment, born: u64, outcome: &mut Outcome)
        requires { IsDueIn self.old now (DueItem.KeptOver born) }
        ensures does { Does self.old now (Doing (DueItem.KeptOver born)) outcome.new self.new }
        ensures given { outcome.new.given ≡ None }
    {
        self.kept.drop_born(born);
        outcome.be_noted(Note::Done(DueItem::KeptOver(born)), None);
    }

    /// The pools make their turn, and the next one is later.
    fn turn_pools(&mut self, now: Moment, outcome: &mut Outcome)
        requires { IsDueIn self.old now DueItem.PoolTurn }
        ensures does { Does self.old now (Doing DueItem.PoolTurn) outcome.new self.new }
        ensures given { outcome.new.given ≡ None }
    {
        self.next_pool_turn = now.milliseconds() + self.tables.config().pool_turn();
        outcome.be_noted(Note::Done(DueItem::PoolTurn), None);
    }

    /// Asks an endpoint for a sign of life (H.225.0, InfoRequest).
    fn interrogate(
        &mut self,
        now: Moment,
        id: &EndpointId,
        outcome: &mut Outcome,
    ) -> Result<(), AllocError>
        requires sound { Sound self.old }
        requires due { IsDueIn self.old now (DueItem.Interrogate id.now) }
        ensures does { OnOk result (Does self.old now (Doing (DueItem.Interrogate id.now))
            outcome.new self.new) }
        ensures given { OnOk result (outcome.new.given ≡ None) }
        ensures err { OnErr result (self.new ≡ self.old) }
    {
        let seq = self.interrogation_number;
        let to = self.tables.registrations().get(id).unwrap().ras;
        let output = self.datagram(to, &Reply::Irq { seq })?;
        self.tables.interrogated(now, id);
        self.interrogation_number = following(seq);
        outcome.be_noted(Note::Done(DueItem::Interrogate(*id)), Some(output));
        Ok(())
    }
}

/// The requestSeqNum of the interrogation after this one.
fn following(seq: RequestSeqNum) -> RequestSeqNum
    ensures { result ≡ number_after seq }
{
    let number = seq.get();
    let next = if number == u16::MAX { 1 } else { number + 1 };
    RequestSeqNum::new(next).unwrap()
}
