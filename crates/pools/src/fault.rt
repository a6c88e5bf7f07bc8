//! Why a list of pools makes no set, and why a pool isn't replaced.

ghost use Rattle.std.specs.Prelude.{◌≡◌};
ghost use Rattle.pools.specs.Accounts.{pool_fault_number};
ghost use Rattle.pools.specs.Replacing.{replace_fault_number};

use thiserror::Error;

/// What is wrong with a list of pools.
#[derive(Clone, Copy, Debug, PartialEq, Eq, Error)]
pub enum PoolFault {
    /// The list is empty.
    #[error("there is no pool")]
    Empty,
    /// The list has more than sixteen pools.
    #[error("there are more than 16 pools")]
    TooMany,
    /// A pool has something lent, or it has counted 2^62 refusals or waits.
    #[error("a pool is not idle: it has units lent, or has counted 2^62 refusals or waits")]
    NotIdle,
}

impl PoolFault {
    /// The number of the fault.
    ///
    /// promise faults-have-numbers: Each fault has its number, in every crate
    /// (`pool_fault_number`).
    pub fn number(&self) -> u8
        ensures { result ≡ pool_fault_number self.now }
    {
        match self {
            PoolFault::Empty => 1,
            PoolFault::TooMany => 2,
            PoolFault::NotIdle => 3,
        }
    }
}

/// Why a fresh pool doesn't take the place of a pool. A set alone returns `NoPool`, `NotIdle` and
/// `NotLent`; the others are for what stands above it.
#[derive(Clone, Copy, Debug, PartialEq, Eq, Error)]
pub enum ReplaceFault {
    /// No more changes are taken.
    #[error("no more changes are taken")]
    Closed,
    /// There is no pool at this index.
    #[error("there is no pool at this index")]
    NoPool,
    /// The fresh pool has something lent, or it has counted 2^62 refusals or waits.
    #[error("the fresh pool is not idle: it has units lent, or has counted 2^62 refusals or waits")]
    NotIdle,
    /// The fresh pool doesn't lend all that the pool in the set has lent.
    #[error("the fresh pool does not lend what the pool in the set has lent")]
    NotLent,
    /// There is no memory.
    #[error("there is no memory")]
    Memory,
}

impl ReplaceFault {
    /// The number of the fault.
    pub fn number(&self) -> u8
        ensures { result ≡ replace_fault_number self.now }
    {
        match self {
            ReplaceFault::Closed => 1,
            ReplaceFault::NoPool => 2,
            ReplaceFault::NotIdle => 3,
            ReplaceFault::NotLent => 4,
            ReplaceFault::Memory => 5,
        }
    }
}
