//! When kept entries are over, and when requests are served again.

ghost use Rattle.std.specs.Prelude.{◌≡◌, ◌≤◌, ◌<◌, ℕ, None, Some};
ghost use Rattle.std.specs.Prelude.{IsOk, IfOk, OnOk, MatchOption};
ghost use Rattle.std.specs.FinMap as map;
ghost use Rattle.deadlines.specs.Deadlines.{DeadlineTable};
ghost use Rattle.kept_replies.specs.inside.Due.{end_in, retry_in, moved};
ghost use Rattle.kept_replies.specs.inside.Due.{NoneCame, Came, Writes, TakesOut};

use crate::entry::KeptState;
use deadlines::Deadlines;
use std::alloc::{AllocError, Global};
use std::marker::Model;

/// The moments of entries, by the places of their rows.
#[derive(Drop)]
pub(crate) struct DueMoments {
    // those at which replies are over
    ends: Deadlines,
    // those at which requests are served again
    retries: Deadlines,
}

impl Model for DueMoments {
    ghost use Rattle.std.specs.Prelude.{min};
    ghost use Rattle.std.specs.Coded.{codes};
    ghost use Rattle.std.specs.FinMap as map;
    ghost use Rattle.kept_replies.specs.inside.Due.{DueTable};

    ghost Value = { DueTable };

    ghost coded = { Prim.hlevel (codes, map.code) };

    ghost view = { λ t. record {
      ends = t.ends.moments;
      retries = t.retries.moments;
      room = min t.ends.room t.retries.room;
    } };
}

impl DueMoments {
    /// No moment. This takes no memory.
    pub(crate) fn new(alloc: Global) -> Self
        ensures ends { result.ends ≡ map.empty }
        ensures retries { result.retries ≡ map.empty }
    {
        DueMoments {
            ends: Deadlines::new(alloc),
            retries: Deadlines::new(alloc),
        }
    }

    /// An equal table.
    pub(crate) fn copy(&self) -> Result<Self, AllocError>
        ensures { IfOk result (λ copy. copy ≡ self.now) }
    {
        Ok(DueMoments {
            ends: self.ends.copy()?,
            retries: self.retries.copy()?,
        })
    }

    /// Makes room for the moments of the places below this number.
    pub(crate) fn reserve(&mut self, places: usize) -> Result<(), AllocError>
        ensures ends { self.new.ends ≡ self.old.ends }
        ensures retries { self.new.retries ≡ self.old.retries }
        ensures ok { OnOk result (places ≤ self.new.room) }
        ensures room { self.old.room ≤ self.new.room }
        ensures succeeds { places ≤ self.old.room → IsOk result }
    {
        self.ends.reserve(places)?;
        self.retries.reserve(places)
    }

    /// Writes the moments of the entry at this place, which is in this state.
    pub(crate) fn write(&mut self, place: usize, state: &KeptState)
        requires { place < self.old.room }
        ensures { Writes self.old self.new place (end_in state.now) (retry_in state.now) }
    {
        match state {
            KeptState::Done { until, .. } => self.finish(place, *until),
            KeptState::Pending { retry, .. } => self.wait(place, *retry),
        }
    }

    /// Notes that the reply at this place is over at the moment `until`.
    pub(crate) fn finish(&mut self, place: usize, until: u64)
        requires { place < self.old.room }
        ensures { Writes self.old self.new place (Some until) None }
    {
        self.ends.set(place, until);
        self.retries.clear(place);
    }

    /// Notes that the request at this place is served again at the moment `retry`.
    pub(crate) fn wait(&mut self, place: usize, retry: u64)
        requires { place < self.old.room }
        ensures { Writes self.old self.new place None (Some retry) }
    {
        self.ends.clear(place);
        self.retries.set(place, retry);
    }

    /// Takes out what stands at this place, and what stands last comes in its place.
    pub(crate) fn take_out(&mut self, place: usize, last: usize)
        requires { place < self.old.room }
        ensures { TakesOut self.old self.new place last }
    {
        take_moment(&mut self.ends, place, last);
        take_moment(&mut self.retries, place, last);
    }

    /// A place whose reply is over. None if there is none.
    pub(crate) fn over(&self, now: u64) -> Option<usize>
        ensures { MatchOption result (NoneCame now self.now.ends) (Came now self.now.ends) }
    {
        place_due(&self.ends, now)
    }

    /// A place whose request is to be served again. None if there is none.
    pub(crate) fn retry(&self, now: u64) -> Option<usize>
        ensures { MatchOption result (NoneCame now self.now.retries) (Came now self.now.retries) }
    {
        place_due(&self.retries, now)
    }
}

fn take_moment(deadlines: &mut Deadlines, place: usize, last: usize)
    requires { place < deadlines.old.room }
    ensures moments { deadlines.new.moments ≡ moved deadlines.old.moments place last }
    ensures room { deadlines.new.room ≡ deadlines.old.room }
{
    if place == last {
        deadlines.clear(place);
    } else {
        deadlines.rename(last, place);
    }
}

fn place_due(deadlines: &Deadlines, now: u64) -> Option<usize>
    ensures { MatchOption result (NoneCame now deadlines.now.moments)
        (Came now deadlines.now.moments) }
{
    let (moment, place) = deadlines.earliest()?;
    if moment <= now { Some(place) } else { None }
}
