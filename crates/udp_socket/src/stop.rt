//! What tells the ends of a socket to stop.

use std::sync::atomic::{AtomicBool, Ordering};

/// What tells the ends of a socket to stop. An end asks before each receive.
pub trait Stop {
    ghost use Rattle.std.specs.Prelude.{Bool};

    /// At some moment nothing more was to be received, or there still was.
    ghost told: { Self → Bool → Type 0 } = { λ _ _. Unit {0} };

    /// Whether nothing more is to be received.
    fn is_over(&self) -> bool
        ensures told { told self.now result };
}

impl Stop for AtomicBool {
    fn is_over(&self) -> bool {
        self.load(Ordering::SeqCst)
    }
}
