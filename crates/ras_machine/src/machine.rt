//! The machine's state and its deed.

ghost use Rattle.std.specs.Prelude.{◌≡◌, ◌<◌, ◌≤◌, ◌^◌, ◌+◌, ◌↔◌, All, IfOk};
ghost use Rattle.std.specs.Prelude.{IfSome, IsTrue, OnErr, OnOk, Some, length};
ghost use Rattle.std.specs.FinMap as fin;
ghost use Rattle.zone_tables.specs.Pools.{IsIdle};
ghost use Rattle.ras_machine.specs.State.{opening};
ghost use Rattle.ras_machine.specs.Machine.{Hearing, most_steps};
ghost use Rattle.ras_machine.specs.Courses.{Does, IsReady, MayBeNamed, Performs, Stands, course_of};
ghost use Rattle.ras_machine.specs.Steps.{IsAskedOnce, IsUnusedIn, ask_in};
ghost use Rattle.ras_machine.specs.Soundness.{AreBornBefore, Sound};

use crate::course::{Course, Task};
use crate::noted::{idle, ignored, repeated};
use kept_replies::Kept;
use ras_module::{EndpointId, RequestSeqNum};
use ras_requests::Plan;
use std::alloc::{AllocError, Global};
use std::marker::Model;
use zone_config::{Config, Moment};
use zone_events::{Note, Outcome};
use zone_tables::{Lender, PoolFigures, ZoneTables};

/// The steps that a zone makes at most.
const MOST_STEPS: u64 = 1 << 62;

/// The tables, the replies that are kept, the clock, the number of the next interrogation, the
/// moment of the next turn of the pools, and the number of steps made. By its type all of it is
/// sound, but for two facts that hold between steps: the pools' counts are small, and what is kept
/// was born before.
pub struct Machine {
    pub(crate) alloc: Global,
    pub(crate) tables: ZoneTables,
    pub(crate) kept: Kept,
    pub(crate) interrogation_number: RequestSeqNum,
    pub(crate) next_pool_turn: u64,
    pub(crate) steps: u64,
    pub(crate) clock: Moment,
}

// By hand, so that it is one call where a machine is dropped: a derived one is written out at each
// exit of each function that owns a machine, field by field down to the tables' buffers.
impl Drop for Machine {
    fn drop(self) {
        let Machine {
            alloc: _,
            tables: _,
            kept: _,
            interrogation_number: _,
            next_pool_turn: _,
            steps: _,
            clock: _,
        } = self;
    }
}

impl Model for Machine {
    ghost use Rattle.std.specs.Coded.{codes};
    ghost use Rattle.std.specs.FinMap as map;
    ghost use Rattle.ras_machine.specs.State.{State};
    ghost use Rattle.ras_machine.specs.inside.Parts.{AreSoundParts};

    ghost Value = { State };

    ghost coded = { Prim.hlevel (codes, map.code) };

    ghost view = { λ m. record {
      tables = m.tables;
      kept = m.kept.kept;
      clock = m.clock;
      interrogation_number = m.interrogation_number;
      next_pool_turn = m.next_pool_turn;
      steps = m.steps;
    } };

    ghost invariant = { λ m.
        AreSoundParts m.tables m.kept m.clock m.interrogation_number m.steps };
}

impl Machine {
    /// A machine in which no step was made. The pools have nothing lent, and are as many as the
    /// settings have networks.
    pub fn new(alloc: Global, config: Config, pools: PoolFigures) -> Self
        requires idle { All IsIdle pools }
        requires each { length pools ≡ length config.networks }
        ensures opening { result ≡ opening config pools }
        ensures sound { Sound result }
    {
        let kept = Kept::new(alloc, config.kept());
        let next_pool_turn = config.parts().pool_turn;
        Machine {
            alloc,
            tables: ZoneTables::new(alloc, config, pools),
            kept,
            interrogation_number: RequestSeqNum::new(1).unwrap(),
            next_pool_turn,
            steps: 0,
            clock: Moment::START,
        }
    }

    /// The clock: the latest moment of an event so far.
    pub fn clock(&self) -> Moment
        ensures { result ≡ self.now.clock }
    {
        self.clock
    }

    /// How many steps were made.
    pub fn steps(&self) -> u64
        ensures { result ≡ self.now.steps }
    {
        self.steps
    }

    /// Whether no further step is made, as 2^62 were.
    pub fn is_closed(&self) -> bool
        ensures { IsTrue result ↔ (self.now.steps ≡ most_steps) }
    {
        self.steps == MOST_STEPS
    }

    /// The tables that requests are about.
    pub fn tables(&self) -> &ZoneTables
        ensures { result.now ≡ self.now.tables }
    {
        &self.tables
    }

    /// How many replies are kept, or being made.
    pub fn kept_len(&self) -> usize
        ensures { result ≡ fin.len self.now.kept }
    {
        self.kept.len()
    }

    /// The same state, in tables of its own.
    pub fn copy(&self) -> Result<Self, AllocError>
        ensures { IfOk result (λ copy. copy ≡ self.now) }
    {
        Ok(Machine {
            alloc: self.alloc,
            tables: self.tables.copy()?,
            kept: self.kept.copy()?,
            interrogation_number: self.interrogation_number,
            next_pool_turn: self.next_pool_turn,
            steps: self.steps,
            clock: self.clock,
        })
    }

    /// Whether the other machine stands at the same state. This takes no memory.
    pub fn is_same(&self, other: &Self) -> bool
        ensures { IsTrue result ↔ (self.now ≡ other.now) }
    {
        self.tables.is_same(&other.tables)
            && self.kept.is_same(&other.kept)
            && self.interrogation_number == other.interrogation_number
            && self.next_pool_turn == other.next_pool_turn
            && self.steps == other.steps
            && self.clock == other.clock
    }

    /// The figures of the pools.
    pub fn pools(&self) -> &PoolFigures
        ensures { result.now ≡ self.now.tables.pools }
    {
        self.tables.pools()
    }

    /// Where what the machine keeps has its memory from.
    pub fn allocator(&self) -> Global {
        self.alloc
    }

    /// The identifier that is handed out, if the course calls for one: one that no endpoint has,
    /// and that no kept reply tells.
    pub fn identify(
        &self,
        course: &Course,
        given: &mut Option<EndpointId>,
    ) -> Result<(), AllocError>
        ensures { OnOk result (MayBeNamed self.now course.now given.new) }
    {
        if let Course::Serving(task) = course {
            if let Plan::Naming(_) = task.plan {
                *given = Some(self.unused()?);
            }
        }
        Ok(())
    }

    /// An identifier that no endpoint has, and that no kept reply tells.
    fn unused(&self) -> Result<EndpointId, AllocError>
        ensures { IfOk result (IsUnusedIn self.now) }
    {
        // the next one nearly always is: then no list of all that are told is made
        let next = self.tables.registrations().unused(&[]);
        if self.is_unused(&next) {
            return Ok(next);
        }
        let told = self.kept.identifiers()?;
        Ok(self.tables.registrations().unused(&told))
    }

    /// One step by a course that was chosen: what it calls for is done, and the clock stands at
    /// `now`. The outcome is made in its place, where the identifier stands already that is handed
    /// out if the course calls for one. All that may want memory comes before the first change, and
    /// before a pool is asked. Of the pools the machine keeps the figures: whoever has the pools
    /// gives back to them what came back.
    ///
    /// promise deed-is-what-was-called-for: A step does what its event calls for, as chosen, or
    /// changes nothing (`Performs`, `IsAskedOnce`).
    pub fn perform<L: Lender>(
        &mut self,
        now: Moment,
        course: Course,
        lender: &mut L,
        outcome: &mut Outcome,
    ) -> Result<(), AllocError>
        requires lends_for { L.lends_for lender.old self.old.tables.pools }
        requires few { self.old.steps < most_steps }
        requires moment { now < 2 ^ 53 }
        requires sound { Sound self.old }
        requires stands { Stands self.old now course }
        requires ready { IsReady self.old now (course_of self.old now course) }
        requires named { MayBeNamed self.old course outcome.old.given }
        ensures performs { OnOk result (Performs self.old now
            (course_of self.old now course) outcome.new self.new) }
        ensures asks { OnOk result (IsAskedOnce L.lends lender.old self.old.tables.pools
            (ask_in (course_of self.old now course)) outcome.new.answer lender.new) }
        ensures named { OnOk result
            (IfSome outcome.new.given (λ id. outcome.old.given ≡ Some id)) }
        ensures err { OnErr result (self.new ≡ self.old) }
        ensures not_asked { OnErr result (lender.new ≡ lender.old) }
    {
        let steps = self.steps + 1;
        match course {
            Course::Ignoring(cause) => ignored(cause, outcome),
            Course::Hearing(response) => self.hear_response(now, &response.get().endpoint, outcome),
            Course::Repeating(output) => repeated(output, outcome),
            Course::Serving(task) => {
                let Task { job, request, plan } = task;
                match plan {
                    Plan::Settled(settlement) => {
                        outcome.given = None;
                        self.carry_out(now, job, &request, settlement, outcome)?;
                        // (one call, where each kind of request would be taken apart by itself)
                        drop(request);
                    }
                    Plan::Renewing(time) => {
                        outcome.given = None;
                        self.renew(now, job, &request, time, outcome)?;
                        drop(request);
                    }
                    Plan::Naming(newcomer) => {
                        let id = outcome.given.as_ref().unwrap();
                        let settlement = newcomer.into_inner().under(self.alloc, id)?;
                        self.carry_out(now, job, &request, settlement, outcome)?;
                        drop(request);
                    }
                    Plan::Asking(units) => {
                        self.request_units(now, job, request, units, lender, outcome)?;
                    }
                }
            }
            Course::Doing(item) => self.do_item(now, &item, outcome)?,
            Course::Idle => idle(outcome),
        }
        self.clock = now;
        self.steps = steps;
        Ok(())
    }

    /// An endpoint gave a sign of life.
    fn hear_response(&mut self, now: Moment, endpoint: &EndpointId, outcome: &mut Outcome)
        ensures { Does self.old now (Hearing endpoint.now) outcome.new self.new }
    {
        self.tables.hear(now, endpoint);
        outcome.be_noted(Note::Served, None);
    }
}
