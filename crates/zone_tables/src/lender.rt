//! Who answers a zone's requests for units.

ghost use Rattle.std.specs.Prelude.{◌≡◌, ◌<◌};
ghost use Rattle.pools.specs.Account.{IsAnswer};
ghost use Rattle.zone_tables.specs.Pools.{MayBeAsked, figures_at};

use crate::pool_figures::PoolFigures;
use pools::{Lend, Pool, PoolSet};

/// Who answers a zone's requests for units: the pools themselves, or whoever repeats the answers
/// that they gave before. The tables keep the figures of the pools. A lender may have pools of its
/// own, which have these figures.
pub trait Lender {
    ghost use Rattle.std.specs.Prelude.{List};
    ghost use Rattle.pools.specs.declared.interface.Figures.{Figures};
    ghost use Rattle.pools.specs.declared.interface.Lend.{Lend};
    ghost use Rattle.zone_tables.specs.Pools.{RequestedUnits};

    /// It lends for pools with these figures.
    ghost lends_for: { Self → List Figures → Type 0 };

    /// For pools with these figures it gives this answer to a request, and becomes the other
    /// lender.
    ghost lends: { Self → List Figures → RequestedUnits → Lend → Self → Type 0 };

    /// Asks a pool for units, of which at least `least` are of use: a loan of fewer goes back to it
    /// at once. Its index has to be below `pools.len()`.
    fn ask(&mut self, pools: &PoolFigures, pool: usize, units: u64, least: u64) -> Lend
        requires figures { lends_for self.old pools.now }
        requires may { MayBeAsked pools.now pool units }
        ensures answer { IsAnswer (figures_at pools.now pool) units result }
        ensures lends { lends self.old pools.now
            (record { pool = pool; units = units; least = least }) result self.new };
}

impl<P: Pool> Lender for PoolSet<P> {
    ghost use Rattle.std.specs.Prelude.{◌≡◌};
    ghost use Rattle.pools.specs.Members.{accounts_of, members_after_least};
    ghost use Rattle.zone_tables.specs.Pools.{figures_of};

    ghost lends_for = { λ set figures. figures_of (accounts_of set) ≡ figures };

    ghost lends = { λ old figures requested answer new.
        new ≡ members_after_least old requested.pool requested.units requested.least answer };

    fn ask(&mut self, _pools: &PoolFigures, pool: usize, units: u64, least: u64) -> Lend {
        self.lend_least(pool, units, least).0
    }
}
