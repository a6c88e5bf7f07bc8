//! Numbers that are at least 1 by their types.

ghost use Rattle.std.specs.Prelude.{◌≡◌, ◌<◌, ◌≤◌, SomeIff};

use std::marker::Model;

/// A RequestSeqNum (H.225.0): 1 to 65535. A reply carries that of its request. Contracts see the
/// number.
#[derive(Clone, Copy, PartialEq, Eq, PartialOrd, Ord)]
pub struct RequestSeqNum {
    number: u16,
}

impl Model for RequestSeqNum {
    ghost use Rattle.std.specs.Prelude.{ℕ, ◌<◌};

    ghost Value = { ℕ };

    ghost view = { λ n. n.number };

    ghost invariant = { λ n. 0 < n.number };

    ghost inverse = { λ n. record { number = n } };
}

impl RequestSeqNum {
    /// This number. None if and only if it is 0.
    ///
    /// promise number-is-not-zero: A number is accepted if and only if it is at least 1; so are
    /// those of `Delay` and `TimeToLive`.
    pub fn new(number: u16) -> Option<Self>
        ensures { SomeIff result (0 < number) number }
    {
        if number == 0 {
            return None;
        }
        Some(RequestSeqNum { number })
    }

    /// The number.
    pub fn get(self) -> u16
        ensures same { result ≡ self }
        ensures some { 0 < result }
        ensures few { result ≤ 65535 }
    {
        self.number
    }
}

/// The delay of a requestInProgress (H.225.0): 1 to 65535 milliseconds. Contracts see the number.
#[derive(Clone, Copy, PartialEq, Eq, PartialOrd, Ord)]
pub struct Delay {
    milliseconds: u16,
}

impl Model for Delay {
    ghost use Rattle.std.specs.Prelude.{ℕ, ◌<◌};

    ghost Value = { ℕ };

    ghost view = { λ n. n.milliseconds };

    ghost invariant = { λ n. 0 < n.milliseconds };

    ghost inverse = { λ n. record { milliseconds = n } };
}

impl Delay {
    /// This many milliseconds. None if and only if they are 0.
    pub fn new(milliseconds: u16) -> Option<Self>
        ensures { SomeIff result (0 < milliseconds) milliseconds }
    {
        if milliseconds == 0 {
            return None;
        }
        Some(Delay { milliseconds })
    }

    /// The milliseconds.
    pub fn get(self) -> u16
        ensures same { result ≡ self }
        ensures some { 0 < result }
    {
        self.milliseconds
    }
}

/// A TimeToLive (H.225.0): 1 to 4294967295 seconds. Contracts see the number.
#[derive(Clone, Copy, PartialEq, Eq, PartialOrd, Ord)]
pub struct TimeToLive {
    seconds: u32,
}

impl Model for TimeToLive {
    ghost use Rattle.std.specs.Prelude.{ℕ, ◌<◌};

    ghost Value = { ℕ };

    ghost view = { λ n. n.seconds };

    ghost invariant = { λ n. 0 < n.seconds };

    ghost inverse = { λ n. record { seconds = n } };
}

impl TimeToLive {
    /// This many seconds. None if and only if they are 0.
    pub fn new(seconds: u32) -> Option<Self>
        ensures { SomeIff result (0 < seconds) seconds }
    {
        if seconds == 0 {
            return None;
        }
        Some(TimeToLive { seconds })
    }

    /// The seconds.
    pub fn get(self) -> u32
        ensures same { result ≡ self }
        ensures some { 0 < result }
    {
        self.seconds
    }
}
