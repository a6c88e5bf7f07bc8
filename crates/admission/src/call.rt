//! Calls.

ghost use Rattle.std.specs.Prelude.{◌≡◌};

use crate::legs::Legs;

/// A call that was admitted.
#[derive(PartialEq, Eq, Drop)]
pub struct Call {
    /// The pool that lent its units, by its place.
    pub pool: usize,
    /// The bandwidth that it may use, in units of 100 bits a second (H.225.0, BandWidth).
    pub units: u32,
    /// Who takes part.
    pub legs: Legs,
}

impl Call {
    /// An equal call. This takes no memory.
    pub fn copy(&self) -> Self
        ensures { result ≡ self.now }
    {
        Call {
            pool: self.pool,
            units: self.units,
            legs: self.legs.copy(),
        }
    }
}
