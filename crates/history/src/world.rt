//! A world: a zone with its book, and workers with a ring each.

ghost use Rattle.std.specs.Prelude.{◌≡◌, ◌≤◌, [], length, replicate, IfOk, OnOk, IfErr, OnErr};
ghost use Rattle.std.specs.Prelude.{◌⊎◌, ◌↔◌, MatchOption, None, Err, IsTrue, vec_capacity};
ghost use Rattle.ras_machine.specs.Steps.{HasFewOctets};
ghost use Rattle.history.specs.Workers.{acted_by};
ghost use Rattle.history.specs.Worlds.{IsInOrder, IsInRange, Happens, needs_memory, refusal};

use crate::fault::WorldFault;
use crate::worker::{Hand, Mark, Worker};
use books::{Book, Entry};
use pools::Pool;
use ras_core::Zone;
use ras_module::Reply;
use std::alloc::{AllocError, Global};
use std::marker::Model;
use zone_events::{Change, Datagram, Event, Outcome};

/// What may happen next, and of which worker: it receives an event; it has the zone make a step of
/// the event that it holds; it posts the output of that step, if there is one, into its ring; or
/// the front of its ring is taken.
#[derive(Drop)]
pub enum WorldStep {
    Receive(usize, Event),
    Apply(usize),
    Post(usize),
    Take(usize),
}

/// What happened.
#[derive(Drop)]
pub enum Acted {
    Received,
    /// The zone made a step, with this outcome.
    Applied(Outcome),
    Posted,
    /// The ring was full: the output is gone.
    Dropped,
    /// There was no output.
    Nothing,
    Took(Datagram),
}

/// A zone with its book, and workers with a ring each.
#[derive(Drop)]
pub struct World<P: Pool> {
    pub(crate) zone: Zone<P>,
    pub(crate) book: Book,
    pub(crate) workers: Vec<Worker>,
    capacity: usize,
}

impl<P: Pool> Model for World<P> {
    ghost use Rattle.std.specs.Coded.{codes};
    ghost use Rattle.std.specs.FinMap as map;
    ghost use Rattle.history.specs.Worlds.{Scene, IsInOrder};

    ghost Value = { Scene };

    ghost coded = { Prim.hlevel (codes, map.code) };

    ghost view = { λ w. record {
      base = w.book.base;
      zone = w.zone;
      entries = w.book.entries.items;
      workers = w.workers.items;
      capacity = w.capacity;
    } };

    ghost invariant = { λ w. IsInOrder (record {
      base = w.book.base;
      zone = w.zone;
      entries = w.book.entries.items;
      workers = w.workers.items;
      capacity = w.capacity;
    }) };
}

impl<P: Pool> World<P> {
    /// A world in which nothing has happened: an empty book that begins at this zone, 1 to 16 idle
    /// workers, and rings with 1 to 4,096 places. Else, or if there is no memory, the zone comes
    /// back.
    pub fn new(
        alloc: Global,
        zone: Zone<P>,
        workers: usize,
        capacity: usize,
    ) -> Result<Self, (Zone<P>, WorldFault)>
        ensures ok { IfOk result (λ w. w ≡ record {
          base = zone.state;
          zone = zone;
          entries = [];
          workers = replicate workers
              (record { hand = Hand.Idle; ring = []; settled = []; taken = 0 });
          capacity = capacity;
        }) }
        ensures order { IfOk result IsInOrder }
        ensures range { OnOk result (IsInRange workers capacity) }
        ensures handed_back { IfErr result (λ fault. fault.0 ≡ zone) }
        ensures fault { IfErr result (λ fault.
            ((fault.1 ≡ WorldFault.OutOfRange) × ¬ IsInRange workers capacity)
            ⊎ ((fault.1 ≡ WorldFault.Memory) × IsInRange workers capacity)) }
    {
        if workers == 0 || workers > 16 || capacity == 0 || capacity > 4096 {
            return Err((zone, WorldFault::OutOfRange));
        }
        let Ok(base) = zone.snapshot() else {
            return Err((zone, WorldFault::Memory));
        };
        // The state that a snapshot shows is sound.
        let _ = base.machine();
        let Ok(all) = idle(alloc, workers) else {
            return Err((zone, WorldFault::Memory));
        };
        Ok(World {
            zone,
            book: Book::new(alloc, base),
            workers: all,
            capacity,
        })
    }

    /// The book: where the world began, and each step that the zone made since.
    pub fn book(&self) -> &Book
        ensures base { result.now.base ≡ self.now.base }
        ensures entries { result.now.entries.items ≡ self.now.entries }
    {
        &self.book
    }

    pub fn zone(&self) -> &Zone<P>
        ensures { result.now ≡ self.now.zone }
    {
        &self.zone
    }

    /// Ends the world: its zone and its book.
    pub fn close(self) -> (Zone<P>, Book)
        ensures zone { result.0 ≡ self.zone }
        ensures base { result.1.base ≡ self.base }
        ensures entries { result.1.entries.items ≡ self.entries }
    {
        let World { zone, book, .. } = self;
        (zone, book)
    }

    /// Does one step, or changes nothing. Neither receiving nor taking is refused for want of
    /// memory.
    ///
    /// promise acts-keep-the-order: After any acts in any order the book is a run to the zone,
    /// which is sound, and replies are taken in order (`IsInOrder`, `IsServed`).
    /// promise act-does-what-it-says: An act does what its definition says; else it is refused for
    /// the first cause that holds, or for want of memory, and nothing changes (`Happens`,
    /// `refusal`, `needs_memory`).
    pub fn act(&mut self, step: WorldStep) -> Result<Acted, WorldFault>
        ensures ok { IfOk result (λ acted. Happens self.old step acted self.new) }
        ensures refused { MatchOption (refusal self.old step)
            (IfErr result (λ fault. (fault ≡ WorldFault.Memory) × IsTrue (needs_memory step)))
            (λ fault. result ≡ Err fault) }
        ensures err { OnErr result (self.new ≡ self.old) }
        ensures order { IsInOrder self.new }
    {
        let _ = &self.capacity;
        if let Some(fault) = self.refusal(&step) {
            return Err(fault);
        }
        match step {
            WorldStep::Receive(w, event) => Ok(self.receive(w, event)),
            WorldStep::Apply(w) => self.apply(w),
            WorldStep::Post(w) => self.post(w),
            WorldStep::Take(w) => Ok(self.take(w)),
        }
    }

    /// Why the step is refused, whatever memory there is.
    pub fn refusal(&self, step: &WorldStep) -> Option<WorldFault>
        ensures { result ≡ refusal self.now step.now }
    {
        match step {
            WorldStep::Receive(w, _) => match self.workers.get(*w) {
                None => Some(WorldFault::NoWorker),
                Some(worker) => {
                    if worker.is_idle() {
                        None
                    } else {
                        Some(WorldFault::NotIdle)
                    }
                }
            },
            WorldStep::Apply(w) => match self.workers.get(*w) {
                None => Some(WorldFault::NoWorker),
                Some(worker) => match worker.event() {
                    None => Some(WorldFault::NoEvent),
                    Some(_) => {
                        if self.zone.is_closed() {
                            Some(WorldFault::Closed)
                        } else {
                            None
                        }
                    }
                },
            },
            WorldStep::Post(w) => match self.workers.get(*w) {
                None => Some(WorldFault::NoWorker),
                Some(worker) => match worker.place() {
                    None => Some(WorldFault::NoOutcome),
                    Some(_) => None,
                },
            },
            WorldStep::Take(w) => match self.workers.get(*w) {
                None => Some(WorldFault::NoWorker),
                Some(worker) => {
                    if worker.has_empty_ring() {
                        Some(WorldFault::RingEmpty)
                    } else {
                        None
                    }
                }
            },
        }
    }

    fn receive(&mut self, w: usize, event: Event) -> Acted
        requires { refusal self.old (WorldStep.Receive w event) ≡ None }
        ensures acted { Happens self.old (WorldStep.Receive w event) result self.new }
        ensures order { IsInOrder self.new }
    {
        self.workers[w].receive(event);
        Acted::Received
    }

    fn apply(&mut self, w: usize) -> Result<Acted, WorldFault>
        requires { refusal self.old (WorldStep.Apply w) ≡ None }
        ensures ok { IfOk result (λ acted. Happens self.old (WorldStep.Apply w) acted self.new) }
        ensures memory { IfErr result (λ fault. fault ≡ WorldFault.Memory) }
        ensures err { OnErr result (self.new ≡ self.old) }
        ensures order { IsInOrder self.new }
    {
        let alloc = *self.book.entries.allocator();
        let worker = &mut self.workers[w];
        let Some(event) = worker.event() else {
            unreachable!()
        };
        let event = event.copy()?;
        let buffer = Vec::with_capacity(alloc, Reply::MOST)?;
        self.book.reserve_entry()?;
        let Ok(outcome) = self.zone.step(event) else {
            return Err(WorldFault::Memory);
        };
        let told = copy_of(&outcome, buffer);
        let place = self.book.entries.len();
        let call = worker.settled();
        let event = worker.hold(place);
        self.book.add_reserved(Entry {
            seat: w,
            call,
            event: Change::Event(event),
            outcome,
        });
        Ok(Acted::Applied(told))
    }

    fn post(&mut self, w: usize) -> Result<Acted, WorldFault>
        requires { refusal self.old (WorldStep.Post w) ≡ None }
        ensures ok { IfOk result (λ acted. Happens self.old (WorldStep.Post w) acted self.new) }
        ensures memory { IfErr result (λ fault. fault ≡ WorldFault.Memory) }
        ensures err { OnErr result (self.new ≡ self.old) }
        ensures order { IsInOrder self.new }
    {
        let alloc = *self.book.entries.allocator();
        let worker = &mut self.workers[w];
        let Some(place) = worker.place() else {
            unreachable!()
        };
        let entry = &self.book.entries[place];
        let mark = worker.post(alloc, &entry.outcome.output, self.capacity)?;
        Ok(acted_by(mark))
    }

    fn take(&mut self, w: usize) -> Acted
        requires { refusal self.old (WorldStep.Take w) ≡ None }
        ensures acted { Happens self.old (WorldStep.Take w) result self.new }
        ensures order { IsInOrder self.new }
    {
        Acted::Took(self.workers[w].take())
    }
}

/// What is told of a post.
fn acted_by(mark: Mark) -> Acted
    ensures { result ≡ acted_by mark }
{
    match mark {
        Mark::Posted => Acted::Posted,
        Mark::Dropped => Acted::Dropped,
        Mark::Silent => Acted::Nothing,
    }
}

/// An equal outcome, whose output stands in this buffer.
fn copy_of(outcome: &Outcome, buffer: Vec<u8>) -> Outcome
    requires empty { buffer.items ≡ [] }
    requires few { HasFewOctets outcome.now.output }
    requires room { Reply.MOST ≤ vec_capacity buffer }
    ensures { result ≡ outcome.now }
{
    outcome.copy_into(buffer)
}

/// This number of idle workers: `workers`.
fn idle(alloc: Global, workers: usize) -> Result<Vec<Worker>, AllocError>
    ensures { IfOk result (λ all. all.items ≡ replicate workers
        (record { hand = Hand.Idle; ring = []; settled = []; taken = 0 })) }
{
    let mut all = Vec::new(alloc);
    for i in 0..workers {
        let _ = i;
        all.push(Worker::new(alloc))?;
    }
    Ok(all)
}
