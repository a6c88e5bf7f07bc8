//! What tells the ends of the socket to stop: a signal that asks the program to end.

use surroundings::{Signals, StopSignal};
use udp_socket::Stop;

/// Such a signal, for the ends of a socket.
#[derive(Drop)]
pub struct SignalStop<S: Signals>(pub StopSignal<S>);

impl<S: Signals> Stop for SignalStop<S> {
    ghost use Rattle.std.specs.Prelude.{◌⊎◌, IsFalse, IsTrue};
    ghost use Rattle.surroundings.specs.Signals.{HasAsked, HasNotAsked, IsPause};

    ghost told = { λ _ is_over. (IsTrue is_over → HasAsked S.told)
        × (IsFalse is_over → HasNotAsked S.told ⊎ IsPause S.passed) };

    fn is_over(&self) -> bool {
        self.0.has_come()
    }
}
