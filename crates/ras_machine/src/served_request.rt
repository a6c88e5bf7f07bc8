//! Serving requests: the plan is carried out, and the reply is kept.

ghost use Rattle.std.specs.Prelude.{◌≡◌, ◌^◌, All, IfOk, IfSome, IsSome, None, OnErr, OnOk, Some};
ghost use Rattle.ras_requests.specs.Requests.{endpoint_of};
ghost use Rattle.zone_tables.specs.Changes.{IsPossible, IsRegistered};
ghost use Rattle.std.specs.FinMap as fin;
ghost use Rattle.ras_requests.specs.Planned.{asker_of};
ghost use Rattle.zone_tables.specs.UnitRequests.{IsUnitRequest, leg_of_purpose, units_requested};
ghost use Rattle.zone_tables.specs.Parts.{usage_of};
ghost use Rattle.zone_tables.specs.Soundness.{SoundTables};
ghost use Rattle.ras_machine.specs.Soundness.{Sound};
ghost use Rattle.ras_machine.specs.Steps.{IsAskedOnce, IsTimely, IsUnusedIn};
ghost use Rattle.ras_machine.specs.Courses.{CarriesOut, IsPlacedIn, KeepsAlive, ServesByUnits};
ghost use Rattle.ras_machine.specs.Courses.{heard_at};
ghost use Rattle.ras_machine.specs.inside.Written.{IsRenewal, IsWritten};

use crate::job::{Job, Occasion};
use crate::kept_entry::{keep, reserve, state_after};
use crate::machine::Machine;
use kept_replies::{KeptReply, KeptState};
use ras_codec::{LentConfirm, write_confirm, write_reserved};
use ras_module::{EndpointId, Octets, Reply, Request, Source};
use ras_requests::{GrantedTime, Settlement, endpoint_of, seq_of, unit_reply};
use std::alloc::AllocError;
use zone_config::Moment;
use zone_events::{Datagram, Outcome};
use zone_tables::{Change, EndpointChange, Lender, UnitRequest, ZoneTables};

/// A reply that is written: as it is sent, and as it is kept.
#[derive(Drop)]
struct Written {
    output: Datagram,
    reply: KeptReply,
}

impl Machine {
    /// Does what was decided about a request, and keeps the reply. All that may want memory comes
    /// before the first change.
    pub(crate) fn carry_out(
        &mut self,
        now: Moment,
        job: Job,
        request: &Request,
        settlement: Settlement,
        outcome: &mut Outcome,
    ) -> Result<(), AllocError>
        requires possible { IsPossible self.old.tables (endpoint_of request.now) settlement.change }
        requires unused { IfSome outcome.old.given (IsUnusedIn self.old) }
        requires placed { IsPlacedIn self.old job }
        requires timely { IsTimely self.old now job.occasion }
        requires sound { Sound self.old }
        ensures does { OnOk result (CarriesOut self.old now job request.now settlement
            outcome.old.given outcome.new self.new) }
        ensures given { OnOk result (outcome.new.given ≡ outcome.old.given) }
        ensures answer { OnOk result (outcome.new.answer ≡ None) }
        ensures err { OnErr result (self.new ≡ self.old) }
    {
        let Settlement { reply, change } = settlement;
        let output = self.datagram(job.key.source, &reply)?;
        let reply = KeptReply::new(self.alloc, &reply, output.bytes.as_slice())?;
        self.complete(
            now,
            job,
            request,
            change,
            Written { output, reply },
            outcome,
        )
    }

    /// Keeps alive the registration of the endpoint that a request names, and keeps the reply.
    pub(crate) fn renew(
        &mut self,
        now: Moment,
        job: Job,
        request: &Request,
        time: GrantedTime,
        outcome: &mut Outcome,
    ) -> Result<(), AllocError>
        requires names { IsSome (endpoint_of request.now) }
        requires registered { IsSome (fin.get self.old.tables.live (asker_of request.now)) }
        requires none_given { outcome.old.given ≡ None }
        requires placed { IsPlacedIn self.old job }
        requires timely { IsTimely self.old now job.occasion }
        requires sound { Sound self.old }
        ensures does { OnOk result (KeepsAlive self.old now job request.now time
            outcome.new self.new) }
        ensures none_given { OnOk result (outcome.new.given ≡ None) }
        ensures answer { OnOk result (outcome.new.answer ≡ None) }
        ensures err { OnErr result (self.new ≡ self.old) }
    {
        let endpoint = endpoint_of(request).unwrap();
        let (change, written) = self.renewal(job.key.source, time, endpoint)?;
        self.complete(now, job, request, change, written, outcome)
    }

    /// A registration that is kept alive: its change, and its RegistrationConfirm, which is written
    /// from the registration where it stands.
    fn renewal(
        &self,
        to: Source,
        time: GrantedTime,
        endpoint: &EndpointId,
    ) -> Result<(Change, Written), AllocError>
        requires { IsSome (fin.get self.now.tables.live endpoint.now) }
        ensures renewal { IfOk result (λ made.
            IsRenewal self.now.tables time endpoint.now made.0 made.1) }
        ensures written { IfOk result (λ made. IsWritten to made.1) }
    {
        let registration = self.tables.registrations().get(endpoint).unwrap();
        let confirm = LentConfirm {
            seq: time.seq,
            call_signal: registration.call_signal,
            aliases: &registration.aliases,
            gatekeeper: &self.tables.config().parts().identifier,
            endpoint: &registration.identifier,
            granted: time.granted,
        };
        let mut bytes = Vec::with_capacity(self.alloc, confirm.room())?;
        write_confirm(&confirm, &mut bytes);
        let reply = KeptReply::of_confirm(self.alloc, &confirm, &bytes)?;
        let bytes = Octets::from_vec(bytes);
        let output = Datagram { to, bytes };
        let change = EndpointChange::Renewal(time.deadline);
        Ok((Change::Endpoint(change), Written { output, reply }))
    }

    /// Makes the change of a request whose reply is written, and keeps the reply. All that may want
    /// memory comes before the first change.
    fn complete(
        &mut self,
        now: Moment,
        job: Job,
        request: &Request,
        change: Change,
        written: Written,
        outcome: &mut Outcome,
    ) -> Result<(), AllocError>
        requires possible { IsPossible self.old.tables (endpoint_of request.now) change }
        requires written { IsWritten job.key.source written }
        requires unused { IfSome outcome.old.given (IsUnusedIn self.old) }
        requires placed { IsPlacedIn self.old job }
        requires timely { IsTimely self.old now job.occasion }
        requires sound { Sound self.old }
        ensures does { OnOk result (CarriesOut self.old now job request.now
            (record { reply = written.reply; change = change })
            outcome.old.given outcome.new self.new) }
        ensures given { OnOk result (outcome.new.given ≡ outcome.old.given) }
        ensures answer { OnOk result (outcome.new.answer ≡ None) }
        ensures err { OnErr result (self.new ≡ self.old) }
    {
        let Written { output, reply } = written;
        let until = self.tables.config().term(now).until;
        let occasion = job.occasion;
        reserve(&mut self.kept, &job)?;
        self.tables.apply(now, endpoint_of(request), change)?;
        hear(&mut self.tables, occasion, now, request);
        let state = KeptState::Done { reply, until };
        keep(&mut self.kept, job, self.steps, state);
        outcome.answer = None;
        outcome.output = Some(output);
        outcome.note = occasion.note();
        outcome.dropped = occasion.dropped();
        Ok(())
    }

    /// Requests units of a pool, and does what follows from its answer about a request. The memory
    /// is there before the pool is asked.
    pub(crate) fn request_units<L: Lender>(
        &mut self,
        now: Moment,
        job: Job,
        request: Request,
        unit_request: UnitRequest,
        lender: &mut L,
        outcome: &mut Outcome,
    ) -> Result<(), AllocError>
        requires lends_for { L.lends_for lender.old self.old.tables.pools }
        requires may { IsUnitRequest (usage_of self.old.tables) unit_request }
        requires leg { IfSome (leg_of_purpose (asker_of request) unit_request.purpose)
            (IsRegistered self.old.tables.live) }
        requires endpoint { IsSome (endpoint_of request) }
        requires placed { IsPlacedIn self.old job }
        requires timely { IsTimely self.old now job.occasion }
        requires sound { Sound self.old }
        ensures does { OnOk result (ServesByUnits self.old now job request unit_request
            outcome.new self.new) }
        ensures asks { OnOk result (IsAskedOnce L.lends lender.old self.old.tables.pools
            (Some (units_requested unit_request)) outcome.new.answer lender.new) }
        ensures none_given { OnOk result (outcome.new.given ≡ None) }
        ensures err { OnErr result (self.new ≡ self.old) }
        ensures not_asked { OnErr result (lender.new ≡ lender.old) }
    {
        let config = self.tables.config();
        let delay = config.delay();
        let term = config.term(now);
        let to = job.key.source;
        let occasion = job.occasion;
        let mut bytes = Vec::with_capacity(self.alloc, Reply::SHORT)?;
        let buffer = Vec::with_capacity(self.alloc, Reply::SHORT)?;
        reserve(&mut self.kept, &job)?;
        let endpoint = endpoint_of(&request).unwrap();
        let answer = self.tables.request_units(endpoint, &unit_request, lender)?;
        hear(&mut self.tables, occasion, now, &request);
        let waits = occasion.waits(answer);
        let reply = unit_reply(seq_of(&request), &unit_request, answer, waits, delay);
        write_reserved(&reply, &mut bytes);
        let kept_reply = KeptReply::in_buffer(buffer, &reply, &bytes);
        let state = state_after(request, reply, kept_reply, waits, term);
        keep(&mut self.kept, job, self.steps, state);
        let bytes = Octets::from_vec(bytes);
        outcome.answer = Some(answer);
        outcome.output = Some(Datagram { to, bytes });
        outcome.note = occasion.note();
        outcome.dropped = occasion.dropped();
        outcome.given = None;
        Ok(())
    }
}

/// Notes that the endpoint that a request names was heard, if it is registered and the request is
/// served as it comes.
fn hear(tables: &mut ZoneTables, occasion: Occasion, now: Moment, request: &Request)
    requires { SoundTables tables.old }
    ensures heard { tables.new ≡ heard_at tables.old occasion now (endpoint_of request.now) }
    ensures sound { SoundTables tables.new }
{
    if let Occasion::Again { .. } = occasion {
        return;
    }
    if let Some(id) = endpoint_of(request) {
        tables.hear(now, id);
    }
}
