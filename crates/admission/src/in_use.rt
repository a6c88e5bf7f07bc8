//! The bandwidth in use, added up.

ghost use Rattle.std.specs.Prelude.{◌≡◌, ◌≤◌, ◌<◌, ◌+◌, ◌^◌, length, slice_get};
ghost use Rattle.std.specs.Option.{option_copied};
ghost use Rattle.admission.specs.inside.Sums.{sum_of, AreZero, Grows};

/// The units of all calls, and of the calls of each pool. A zone has at most 16 pools; the units of
/// a pool with a larger number aren't kept.
#[derive(Clone, Copy)]
pub struct InUse {
    pub total: u64,
    by_pool: [u64; 16],
}

impl InUse {
    /// The sums of no calls.
    pub fn none() -> Self
        ensures { AreZero result }
    {
        InUse {
            total: 0,
            by_pool: [0; 16],
        }
    }

    /// The units of the calls of one pool, if they are kept.
    pub fn of_pool(&self, pool: usize) -> Option<&u64>
        ensures { option_copied result ≡ slice_get self.now.by_pool pool }
    {
        self.by_pool.get(pool)
    }

    /// The calls of this pool use this many units more.
    pub fn add(&mut self, pool: usize, units: u32)
        requires total { self.old.total + units < 2 ^ 64 }
        requires pool { pool < length self.old.by_pool → sum_of self.old pool + units < 2 ^ 64 }
        ensures { Grows self.old self.new pool units }
    {
        self.total += u64::from(units);
        if pool < self.by_pool.len() {
            self.by_pool[pool] += u64::from(units);
        }
    }

    /// The calls of this pool use this many units fewer.
    pub fn take(&mut self, pool: usize, units: u32)
        requires total { units ≤ self.old.total }
        requires pool { pool < length self.old.by_pool → units ≤ sum_of self.old pool }
        ensures { Grows self.new self.old pool units }
    {
        self.total -= u64::from(units);
        if pool < self.by_pool.len() {
            self.by_pool[pool] -= u64::from(units);
        }
    }
}
