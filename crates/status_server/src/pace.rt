//! How fast connections are accepted.

ghost use Rattle.std.specs.Prelude.{◌≡◌, ◌+◌, ◌*◌, ◌↔◌, IfSome, IsSome, IsTrue};
ghost use Rattle.std.specs.Time.{FitsClock, instant_nanos};
ghost use Rattle.status_server.specs.Pace.{is_full, round_from, with_accepted};

use std::time::{Duration, Instant};

/// The most connections that are accepted in one round.
const MOST_ACCEPTED: usize = 16;

/// The least number of milliseconds from the beginning of a round to that of the next one. So at
/// most 80 connections are accepted in a second, each with its one request: a flood of them can't
/// take a whole processor, and a dozen people with whoever gathers the metrics need a few.
const ROUND: u64 = 200;

/// The pace at which connections are accepted, in rounds. A round begins as its first connection is
/// accepted, and the first one with the server.
#[derive(Clone, Copy)]
pub(crate) struct Pace {
    /// When the last round began.
    begin: Instant,
    /// How many connections were accepted in it.
    accepted: usize,
}

impl Pace {
    /// The pace of a server that begins at this moment.
    pub(crate) fn new(begin: Instant) -> Pace
        ensures { result ≡ round_from begin }
    {
        Pace { begin, accepted: 0 }
    }

    /// Whether no more connections are to be accepted in the last round.
    fn is_full(&self) -> bool
        ensures { result ≡ is_full self.now }
    {
        self.accepted >= MOST_ACCEPTED
    }

    /// Counts a connection that was accepted at this moment: it begins the next round if the last
    /// one is full.
    pub(crate) fn count(&mut self, moment: Instant)
        ensures { self.new ≡ with_accepted self.old moment }
    {
        if self.is_full() {
            *self = Pace {
                begin: moment,
                accepted: 1,
            };
        } else {
            self.accepted += 1;
        }
    }

    /// The moment from which on the next round may begin, if the last one is full; None if it
    /// isn't, or if no clock reaches that moment.
    pub(crate) fn pause(&self) -> Option<Instant>
        ensures full { IsSome result ↔ (IsTrue (is_full self.now)
            × FitsClock (instant_nanos self.now.begin + ROUND * 1000000)) }
        ensures moment { IfSome result (λ moment.
            instant_nanos moment ≡ instant_nanos self.now.begin + ROUND * 1000000) }
    {
        if !self.is_full() {
            return None;
        }
        self.begin.checked_add(Duration::from_millis(ROUND))
    }
}
