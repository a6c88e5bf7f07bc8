//! Clocks.

use zone_config::Moment;

/// A clock. A zone takes a moment before an earlier one for that, so a clock may go back.
pub trait Moments: Drop {
    ghost use Rattle.std.specs.Prelude.{ℕ};

    /// Asked what it is, this clock tells this moment; it became the other one.
    ghost tells: { Self → ℕ → Self → Type 0 } = { λ old moment new. Unit {0} };

    /// What it is now.
    fn now(&mut self) -> Moment
        ensures { tells self.old result self.new };
}
