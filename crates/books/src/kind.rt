//! Of what a step is made.

ghost use Rattle.std.specs.Prelude.{◌≡◌};
ghost use Rattle.books.specs.Totals.{changes_of_kind, datagrams_of_kind, kind_of, turns_of_kind};

use ras_core::Prepared;
use zone_events::{Change, Event};

/// Of what a step is made. That, and what a pool answered in it, is all of it that is counted.
#[derive(Clone, Copy, Debug, PartialEq, Eq)]
pub enum StepKind {
    Datagram,
    Turn,
    /// A pool takes the place of another one.
    PoolChange,
}

impl StepKind {
    /// The kind of a step that is made of this.
    pub fn of(change: &Change) -> Self
        ensures { result ≡ kind_of change.now }
    {
        match change {
            Change::Event(Event::Datagram(_, _, _)) => StepKind::Datagram,
            Change::Event(Event::Turn(_)) => StepKind::Turn,
            Change::PoolChange(_) => StepKind::PoolChange,
        }
    }

    /// The kind of the step of a prepared event.
    pub fn of_prepared(prepared: &Prepared) -> Self
        ensures { result ≡ kind_of (Change.Event prepared.now) }
    {
        if prepared.is_turn() {
            StepKind::Turn
        } else {
            StepKind::Datagram
        }
    }

    /// 1 for a datagram, and 0 for all else.
    pub fn datagrams(self) -> u64
        ensures { result ≡ datagrams_of_kind self }
    {
        match self {
            StepKind::Datagram => 1,
            StepKind::Turn => 0,
            StepKind::PoolChange => 0,
        }
    }

    /// 1 for a turn, and 0 for all else.
    pub fn turns(self) -> u64
        ensures { result ≡ turns_of_kind self }
    {
        match self {
            StepKind::Datagram => 0,
            StepKind::Turn => 1,
            StepKind::PoolChange => 0,
        }
    }

    /// 1 for a pool that takes the place of another one, and 0 for all else.
    pub fn changes(self) -> u64
        ensures { result ≡ changes_of_kind self }
    {
        match self {
            StepKind::Datagram => 0,
            StepKind::Turn => 0,
            StepKind::PoolChange => 1,
        }
    }
}
