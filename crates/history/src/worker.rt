//! One worker.

ghost use Rattle.std.specs.Prelude.{◌≡◌, ◌+◌, ◌<◌, ◌^◌, ◌∷◌, [], length, IfOk, OnErr, Some, false};
ghost use Rattle.std.specs.Prelude.{is_some, true};
ghost use Rattle.std.specs.Option.{option_copied};
ghost use Rattle.history.specs.Workers.{is_idle, event_of, place_of, is_empty, mark_of, posted};

use std::alloc::{AllocError, Global};
use std::marker::Model;
use std::mem;
use zone_events::{Datagram, Event};

/// What a worker holds: nothing, an event, or the outcome that stands at a place of the book.
#[derive(Drop)]
pub enum Hand {
    Idle,
    Holding(Event),
    Done(usize),
}

/// What became of an outcome that a worker held: its output went into the ring, or was dropped as
/// the ring was full, or it had none.
#[derive(Clone, Copy, Debug, PartialEq, Eq)]
pub enum Mark {
    Posted,
    Dropped,
    Silent,
}

/// A worker with its ring, what became of each of its outcomes, and how many outputs were taken
/// from its ring.
#[derive(Drop)]
pub struct Worker {
    hand: Hand,
    ring: Vec<Datagram>,
    settled: Vec<Mark>,
    taken: usize,
}

impl Model for Worker {
    ghost use Rattle.history.specs.Workers.{WorkerState};

    ghost Value = { WorkerState };

    ghost view = { λ k. record {
      hand = k.hand;
      ring = k.ring.items;
      settled = k.settled.items;
      taken = k.taken;
    } };
}

impl Worker {
    pub(crate) fn new(alloc: Global) -> Self
        ensures { result ≡ record { hand = Hand.Idle; ring = []; settled = []; taken = 0 } }
    {
        Worker {
            hand: Hand::Idle,
            ring: Vec::new(alloc),
            settled: Vec::new(alloc),
            taken: 0,
        }
    }

    pub(crate) fn is_idle(&self) -> bool
        ensures { result ≡ is_idle self.now.hand }
    {
        match &self.hand {
            Hand::Idle => true,
            Hand::Holding(_) => false,
            Hand::Done(_) => false,
        }
    }

    /// The event that it holds.
    pub(crate) fn event(&self) -> Option<&Event>
        ensures { option_copied result ≡ event_of self.now.hand }
    {
        match &self.hand {
            Hand::Idle => None,
            Hand::Holding(event) => Some(event),
            Hand::Done(_) => None,
        }
    }

    /// The place of the outcome that it holds.
    pub(crate) fn place(&self) -> Option<usize>
        ensures { result ≡ place_of self.now.hand }
    {
        match &self.hand {
            Hand::Idle => None,
            Hand::Holding(_) => None,
            Hand::Done(place) => Some(*place),
        }
    }

    /// How many of its outcomes left its hand.
    pub(crate) fn settled(&self) -> usize
        ensures { result ≡ length self.now.settled }
    {
        self.settled.len()
    }

    pub(crate) fn receive(&mut self, event: Event)
        ensures { self.new ≡ record self.old { hand = Hand.Holding event } }
    {
        self.hand = Hand::Holding(event);
    }

    /// Holds the outcome at this place, in place of the event, which is given back.
    pub(crate) fn hold(&mut self, place: usize) -> Event
        requires { is_some (event_of self.old.hand) ≡ true }
        ensures event { event_of self.old.hand ≡ Some result }
        ensures hand { self.new ≡ record self.old { hand = Hand.Done place } }
    {
        match mem::replace(&mut self.hand, Hand::Done(place)) {
            Hand::Idle => unreachable!(),
            Hand::Holding(event) => event,
            Hand::Done(_) => unreachable!(),
        }
    }

    /// Puts a copy of the output into the ring, if there is one and the ring has room for it.
    pub(crate) fn post(
        &mut self,
        alloc: Global,
        output: &Option<Datagram>,
        capacity: usize,
    ) -> Result<Mark, AllocError>
        ensures mark { IfOk result (λ m. m ≡ mark_of capacity (length self.old.ring) output.now) }
        ensures ok { IfOk result (λ m. self.new ≡ posted self.old m output.now) }
        ensures err { OnErr result (self.new ≡ self.old) }
    {
        self.settled.reserve(1)?;
        let Some(output) = output else {
            self.settled.push_reserved(Mark::Silent);
            self.hand = Hand::Idle;
            return Ok(Mark::Silent);
        };
        if self.ring.len() >= capacity {
            self.settled.push_reserved(Mark::Dropped);
            self.hand = Hand::Idle;
            return Ok(Mark::Dropped);
        }
        self.ring.reserve(1)?;
        let copy = copy_of(alloc, output)?;
        self.ring.push_reserved(copy);
        self.settled.push_reserved(Mark::Posted);
        self.hand = Hand::Idle;
        Ok(Mark::Posted)
    }

    pub(crate) fn has_empty_ring(&self) -> bool
        ensures { result ≡ is_empty self.now.ring }
    {
        is_empty(&self.ring)
    }

    /// Takes the front of the ring.
    pub(crate) fn take(&mut self) -> Datagram
        requires some { is_empty self.old.ring ≡ false }
        requires few { self.old.taken + 1 < 2 ^ 64 }
        ensures ring { self.old.ring ≡ result ∷ self.new.ring }
        ensures taken { self.new ≡ record {
          hand = self.old.hand;
          ring = self.new.ring;
          settled = self.old.settled;
          taken = self.old.taken + 1;
        } }
    {
        self.taken += 1;
        self.ring.remove(0)
    }
}

fn is_empty(ring: &[Datagram]) -> bool
    ensures { result ≡ is_empty ring.now }
{
    match ring {
        [] => true,
        [_, ..] => false,
    }
}

/// An equal datagram.
fn copy_of(alloc: Global, datagram: &Datagram) -> Result<Datagram, AllocError>
    ensures { IfOk result (λ copy. copy ≡ datagram.now) }
{
    let buffer = Vec::with_capacity(alloc, datagram.bytes.as_slice().len())?;
    Ok(datagram.copy_into(buffer))
}
