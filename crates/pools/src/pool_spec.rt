//! What pools are to be made.
ghost use Rattle.std.specs.Prelude.{◌≡◌, ◌<◌};
ghost use Rattle.std.specs.Option.{SomeIff};

use std::marker::Model;

/// A number of units of 100 bit/s: 1 to 4294967295, the most that a BandWidth of H.225.0 has.
/// Contracts see the number.
#[derive(Clone, Copy)]
pub struct NonZeroUnits {
    units: u32,
}

impl Model for NonZeroUnits {
    ghost use Rattle.std.specs.Prelude.{ℕ, ◌<◌};

    ghost Value = { ℕ };

    ghost view = { λ n. n.units };

    ghost invariant = { λ n. 0 < n.units };

    ghost inverse = { λ n. record { units = n } };
}

impl NonZeroUnits {
    /// This many units. None if and only if they are 0.
    pub fn new(units: u32) -> Option<Self>
        ensures { SomeIff result (0 < units) units }
    {
        if units == 0 {
            return None;
        }
        Some(NonZeroUnits { units })
    }

    /// The units.
    pub fn get(self) -> u32
        ensures same { result ≡ self }
        ensures some { 0 < result }
    {
        self.units
    }
}

/// A pool to be made: its kind, with its numbers in units of 100 bit/s.
#[derive(Clone, Copy)]
pub enum PoolSpec {
    /// A `FixedPool` that lends up to this limit.
    Fixed { limit: u64 },
    /// A `StepPool` that lends up to this limit, in whole steps.
    Step { limit: u64, step: NonZeroUnits },
    /// A `PacedPool` that lends up to this limit, and at most a burst between two turns.
    Paced { limit: u64, burst: NonZeroUnits },
}

/// The pools to be made for a zone, in their order. Contracts see the list.
#[derive(Drop)]
pub struct PoolSpecs {
    items: Vec<PoolSpec>,
}

impl Model for PoolSpecs {
    ghost use Rattle.std.specs.Prelude.{List};
    ghost use Rattle.pools.specs.declared.pool_spec.PoolSpec.{PoolSpec};

    ghost Value = { List PoolSpec };

    ghost view = { λ s. s.items.items };
}

impl PoolSpecs {
    /// The pools of a vector. This takes no memory.
    pub fn from_vec(items: Vec<PoolSpec>) -> Self
        ensures { result ≡ items.items }
    {
        Self { items }
    }

    /// The pools, in order.
    pub fn as_slice(&self) -> &[PoolSpec]
        ensures { result.now ≡ self.now }
    {
        &self.items
    }
}
