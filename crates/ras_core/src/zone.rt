//! The zone.

ghost use Rattle.std.specs.Prelude.{◌≡◌, ◌≢◌, ◌<◌, ◌≤◌, ◌↔◌, ◌++◌, ◌∷◌, [], All, map, take};
ghost use Rattle.std.specs.Prelude.{Err, IfErr, IfOk, IsOk, OnOk, OnErr, IsTrue};
ghost use Rattle.std.specs.Prelude.{length, vec_len, vec_capacity};
ghost use Rattle.std.specs.FinMap as fin;
ghost use Rattle.registrations.specs.Registry.{IsListOf};
ghost use Rattle.admission.specs.Calls.{in_use};
ghost use Rattle.pools.specs.Account.{is_idle};
ghost use Rattle.pools.specs.Members.{accounts_of};
ghost use Rattle.zone_tables.specs.Pools.{figures_of};
ghost use Rattle.ras_machine.specs.State.{opening};
ghost use Rattle.ras_machine.specs.Machine.{most_steps};
ghost use Rattle.ras_machine.specs.Soundness.{Sound};
ghost use Rattle.ras_core.specs.Runs.{RunningStep, RunsOn};
ghost use Rattle.ras_core.specs.Tallies.{figures_without_loans, lasts_of, tallies_of};

use crate::choices::{chosen_course, is_pool_turn};
use crate::fault::{NewFault, StepFault};
use crate::settling::settle;
use crate::snapshot::Snapshot;
use admission::CallList;
use pools::{Pool, PoolSet};
use ras_machine::{Machine, Prepared, prepare};
use registrations::RegistrationList;
use std::alloc::{AllocError, Global};
use std::marker::Model;
use zone_config::{Config, Moment};
use zone_events::{Event, Note, Outcome};
use zone_tables::PoolFigures;

/// The zone of one gatekeeper, with the pools from which its calls have their bandwidth. Contracts
/// see its state, which is always sound. Beside it they see for each pool the last request with its
/// answer, how often the pool was asked for units, and how many turns it made.
pub struct Zone<P: Pool> {
    pub(crate) machine: Machine,
    pub(crate) pools: PoolSet<P>,
}

// By hand, as that of the machine, so that it is one call where a zone is dropped.
impl<P: Pool> Drop for Zone<P> {
    fn drop(self) {
        let Zone {
            machine: _,
            pools: _,
        } = self;
    }
}

impl<P: Pool> Model for Zone<P> {
    ghost use Rattle.std.specs.Coded.{codes};
    ghost use Rattle.std.specs.FinMap as map;
    ghost use Rattle.ras_core.specs.Running.{Running};
    ghost use Rattle.ras_core.specs.Tallies.{tallies_of};
    ghost use Rattle.ras_core.specs.inside.Parts.{AreZoneParts};

    ghost Value = { Running };

    ghost coded = { Prim.hlevel (codes, map.code) };

    ghost view = { λ z. record { state = z.machine; tallies = tallies_of z.pools } };

    ghost invariant = { λ z. AreZoneParts z.machine z.pools };
}

impl<P: Pool> Zone<P> {
    /// A zone in which no step was made, with pools that have nothing lent, and fewer than 2^62
    /// refusals and waits each, as `PoolSet::new` gives them. Its clock stands at 0. It is refused
    /// as WrongPools if and only if the number of pools is not the number of networks; the pools
    /// then come back.
    ///
    /// promise zone-begins-as-set: A new zone has its settings, its pools' figures, clock 0 and no
    /// step; WrongPools if and only if there are not as many pools as networks, which then come
    /// back (`opening`).
    pub fn new(
        alloc: Global,
        config: Config,
        pools: PoolSet<P>,
    ) -> Result<Self, (PoolSet<P>, NewFault)>
        requires { All (λ m. IsTrue (is_idle m.account)) pools }
        ensures opening { IfOk result (λ zone. zone.state
            ≡ opening config (figures_of (accounts_of pools))) }
        ensures tallies { IfOk result (λ zone. zone.tallies ≡ tallies_of pools) }
        ensures sound { IfOk result (λ zone. Sound zone.state) }
        ensures wrong { (result ≡ Err (pools, NewFault.WrongPools))
            ↔ (length pools ≢ length config.networks) }
        ensures opens { length pools ≡ length config.networks → IsOk result }
        ensures handed_back { IfErr result (λ fault. fault.0 ≡ pools) }
    {
        if pools.len() != config.parts().networks.as_slice().len() {
            return Err((pools, NewFault::WrongPools));
        }
        let machine = Machine::new(alloc, config, PoolFigures::of(&pools));
        Ok(Zone { machine, pools })
    }

    /// One step of the machine: the outcome of the event is returned. It is refused as Closed if
    /// and only if 2^62 steps were made; after a refusal nothing has changed, including the clock
    /// and the pools.
    ///
    /// promise step-is-of-the-machine: Outcome and zone are the RAS machine's, and what is sent has
    /// at most 20,000 octets (`RunningStep`, `Step`, `HasFewOctets`).
    /// promise step-memory-changes-nothing: After a refusal the zone is as it was, with its clock
    /// and pools; Closed if and only if 2^62 steps were made (`most_steps`).
    /// promise handed-out-identifier-is-unused: An identifier that is handed out is one that no
    /// endpoint has and no kept RCF tells (`IsAllowed`, `IsUnusedFor`).
    /// promise kept-replies-stay-in-their-window: No entry is dropped inside its window, and Busy
    /// comes only if nothing kept is over (`IsAllowed`).
    /// promise request-in-progress-ends: Such a request is told to wait, is served again when due,
    /// and is refused after the last wait; a retry keeps its birth and hears nobody (`by_answer`,
    /// `kept_after`, `plan_at`).
    /// promise loan-leaves-the-least-grant: A loan that would leave a call below its least goes
    /// back in the same step, and the request is rejected (`least_units`, `making`, `resizing`,
    /// `with_answer`).
    /// promise turn-does-one-due-item: One item that is due is done; only at the pools' turn does
    /// each pool make one (`effect`, `tallies_after`).
    /// promise pool-is-asked-once: The pool that the machine asks is asked once, for its units, and
    /// no other is (`ask_in`, `tallies_after`).
    /// promise endpoints-and-calls-are-sound: Each alias and call signal address has at most one
    /// registration, each leg a registered endpoint, each call one or two legs (`Sound`,
    /// `SoundTables`).
    /// promise bandwidth-is-sound: Each pool has lent what its calls use, within its limit;
    /// bandwidth in use is within the zone's (`Sound`, `SoundTables`).
    /// promise sizes-are-sound: No table is above its size, settings are in range, the clock is
    /// below 2^53, steps and pools' counts are bounded (`Sound`).
    /// promise kept-entries-are-sound: Entries differ in birth and are older than the step; one
    /// that waits is an ARQ or BRQ told requestInProgress (`Sound`).
    pub fn step(&mut self, event: Event) -> Result<Outcome, StepFault>
        ensures step { IfOk result (λ outcome. RunningStep self.old event outcome self.new) }
        ensures closed { (result ≡ Err StepFault.Closed) ↔ (self.old.state.steps ≡ most_steps) }
        ensures err { OnErr result (self.new ≡ self.old) }
        ensures sound { Sound self.new.state }
    {
        if self.is_closed() {
            return Err(StepFault::Closed);
        }
        let prepared = prepare(self.machine.allocator(), event)?;
        self.step_prepared(prepared)
    }

    /// One step, as `step` makes it, of an event whose datagram was read before.
    pub fn step_prepared(&mut self, prepared: Prepared) -> Result<Outcome, StepFault>
        ensures step { IfOk result (λ outcome. RunningStep self.old prepared outcome self.new) }
        ensures closed { (result ≡ Err StepFault.Closed) ↔ (self.old.state.steps ≡ most_steps) }
        ensures err { OnErr result (self.new ≡ self.old) }
        ensures sound { Sound self.new.state }
    {
        let mut outcome = Outcome::noted(Note::Idle, None);
        self.step_into(prepared, &mut outcome)?;
        Ok(outcome)
    }

    /// One step, as `step_prepared` makes it: what the event calls for, the choices that are open,
    /// and then the deed. Its outcome is made where the caller wants it, so that it isn't moved.
    /// After a refusal what stands there means nothing.
    pub fn step_into(&mut self, prepared: Prepared, outcome: &mut Outcome) -> Result<(), StepFault>
        ensures step { OnOk result (RunningStep self.old prepared outcome.new self.new) }
        ensures closed { (result ≡ Err StepFault.Closed) ↔ (self.old.state.steps ≡ most_steps) }
        ensures err { OnErr result (self.new ≡ self.old) }
        ensures sound { Sound self.new.state }
    {
        if self.machine.is_closed() {
            return Err(StepFault::Closed);
        }
        let now = self.clock().later(prepared.moment());
        let course = chosen_course(&self.machine, now, prepared.into_arrival())?;
        self.machine.identify(&course, &mut outcome.given)?;
        let returns = course.may_return_units();
        let turn = is_pool_turn(&course);
        self.machine.perform(now, course, &mut self.pools, outcome)?;
        settle(&mut self.pools, self.machine.pools(), returns, turn);
        Ok(())
    }

    /// A step of an event that stays with the caller.
    fn step_at(&mut self, event: &Event) -> Result<Outcome, StepFault>
        ensures step { IfOk result (λ outcome. RunningStep self.old event.now outcome self.new) }
        ensures closed { (result ≡ Err StepFault.Closed) ↔ (self.old.state.steps ≡ most_steps) }
        ensures err { OnErr result (self.new ≡ self.old) }
        ensures sound { Sound self.new.state }
    {
        if self.machine.is_closed() {
            return Err(StepFault::Closed);
        }
        let event = event.copy()?;
        self.step(event)
    }

    /// The endpoints that are registered, by rising identifier: character by character, a prefix
    /// before what it begins.
    ///
    /// promise zone-lists-its-endpoints: Endpoints are listed by rising identifier; likewise calls,
    /// by `Zone::calls` (`IsListOf`).
    pub fn endpoints(&self) -> Result<RegistrationList, AllocError>
        ensures { IfOk result (IsListOf self.now.state.tables.live) }
    {
        self.machine.tables().registrations().list()
    }

    /// The calls that are open, by rising key.
    pub fn calls(&self) -> Result<CallList, AllocError>
        ensures { IfOk result (λ list. list ≡ fin.entries self.now.state.tables.calls) }
    {
        self.machine.tables().calls().list()
    }

    /// The bandwidth in use: the units of all calls, of 100 bit/s each.
    ///
    /// promise zone-tells-bandwidth-in-use: Bandwidth in use is the sum over the live calls
    /// (`in_use`).
    pub fn in_use(&self) -> u64
        ensures sum { result ≡ in_use self.now.state.tables.calls }
        ensures limit { result ≤ self.now.state.tables.config.limit }
    {
        self.machine.tables().calls().total()
    }

    /// The state as it stands, in lists of its own.
    ///
    /// promise snapshot-is-sound: A snapshot has the state at one moment, and is sound by its type
    /// (`Sound`).
    pub fn snapshot(&self) -> Result<Snapshot, AllocError>
        ensures { IfOk result (λ snapshot. snapshot ≡ self.now.state) }
    {
        Ok(Snapshot::of(self.machine.copy()?))
    }

    /// The machine of the zone, without its pools.
    pub fn machine(&self) -> &Machine
        ensures { result.now ≡ self.now.state }
    {
        &self.machine
    }

    /// Ends the zone. Its pools come back in their order, with nothing lent; their limits,
    /// refusals, waits and last answers stay.
    ///
    /// promise zone-closes-with-nothing-lent: The pools come back with nothing lent.
    pub fn close(self) -> Vec<P>
        ensures figures { figures_of (map P.account result.items)
            ≡ figures_without_loans self.state.tables.pools }
        ensures lasts { lasts_of (map P.account result.items)
            ≡ map (λ t. t.last) self.tallies }
    {
        let Zone { machine: _, pools } = self;
        pools.close()
    }

    /// The clock: the latest moment of an event so far.
    pub fn clock(&self) -> Moment
        ensures { result ≡ self.now.state.clock }
    {
        self.machine.clock()
    }

    /// How many steps were made.
    pub fn steps(&self) -> u64
        ensures { result ≡ self.now.state.steps }
    {
        self.machine.steps()
    }

    /// Whether no further step is made.
    pub fn is_closed(&self) -> bool
        ensures { IsTrue result ↔ (self.now.state.steps ≡ most_steps) }
    {
        self.machine.is_closed()
    }

    /// One step for each event, in order; the outcomes are appended. A fault comes with the index
    /// of its event: the steps before that event stand, and their outcomes are appended; the event
    /// itself changed nothing.
    ///
    /// promise run-is-of-the-machine: There is one outcome for each event, and both are a run; at a
    /// fault, of the events before it (`RunsOn`, `RunningRun`).
    pub fn run(
        &mut self,
        events: &[Event],
        outcomes: &mut Vec<Outcome>,
    ) -> Result<(), (usize, StepFault)>
        ensures ok { OnOk result (RunsOn self.old events.now
            outcomes.old.items outcomes.new.items self.new) }
        ensures index { IfErr result (λ fault. fault.0 < length events.now) }
        ensures err { IfErr result (λ fault. RunsOn self.old (take fault.0 events.now)
            outcomes.old.items outcomes.new.items self.new) }
        ensures closed { IfErr result (λ fault.
            (fault.1 ≡ StepFault.Closed) ↔ (self.new.state.steps ≡ most_steps)) }
        ensures sound { Sound self.new.state }
    {
        let _ = &self.machine;
        for (i, event) in events.iter().enumerate() {
            if self.is_closed() {
                return Err((i, StepFault::Closed));
            }
            if outcomes.reserve(1).is_err() {
                return Err((i, StepFault::Memory));
            }
            match self.step_at(event) {
                Ok(outcome) => append(outcomes, outcome),
                Err(fault) => return Err((i, fault)),
            }
        }
        Ok(())
    }
}

/// Adds an outcome, for which there is room.
fn append(outcomes: &mut Vec<Outcome>, outcome: Outcome)
    requires { vec_len outcomes.old < vec_capacity outcomes.old }
    ensures { outcomes.new.items ≡ outcomes.old.items ++ outcome ∷ [] }
{
    outcomes.push_reserved(outcome);
}
