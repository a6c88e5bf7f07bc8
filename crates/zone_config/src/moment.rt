//! Moments.

ghost use Rattle.std.specs.Prelude.{◌≡◌, ◌<◌, ◌^◌, SomeIff, max};

use std::marker::Model;

/// A moment in milliseconds, below 2^53. Contracts see the number of milliseconds.
#[derive(Clone, Copy, PartialEq, Eq, PartialOrd, Ord)]
pub struct Moment {
    milliseconds: u64,
}

impl Model for Moment {
    ghost use Rattle.std.specs.Prelude.{ℕ, ◌<◌, ◌^◌};

    ghost Value = { ℕ };

    ghost view = { λ m. m.milliseconds };

    ghost invariant = { λ m. m.milliseconds < 2 ^ 53 };

    ghost inverse = { λ n. record { milliseconds = n } };
}

impl Moment {
    /// The moment at which a zone's clock begins.
    pub const START: Moment = Moment { milliseconds: 0 };

    /// The moment after this many milliseconds. None if and only if they are 2^53 or more.
    ///
    /// promise moments-are-bounded: A moment is accepted if and only if it is below 2^53.
    pub fn new(milliseconds: u64) -> Option<Self>
        ensures { SomeIff result (milliseconds < 2 ^ 53) milliseconds }
    {
        if milliseconds < 1 << 53 {
            Some(Moment { milliseconds })
        } else {
            None
        }
    }

    /// The later of two moments.
    pub fn later(self, other: Moment) -> Moment
        ensures later { result ≡ max self other }
        ensures small { result < 2 ^ 53 }
    {
        if self.milliseconds < other.milliseconds {
            other
        } else {
            self
        }
    }

    /// The milliseconds.
    pub fn milliseconds(self) -> u64
        ensures same { result ≡ self }
        ensures small { result < 2 ^ 53 }
    {
        self.milliseconds
    }
}

// A zone's clock begins at 0.
const _: () = prove!(Moment::START.milliseconds == 0);
