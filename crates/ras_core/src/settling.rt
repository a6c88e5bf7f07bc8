//! The pools follow the figures that the machine keeps of them.

ghost use Rattle.std.specs.Prelude.{◌≡◌, ◌≤◌, ◌<◌, false, length, slice_set};
ghost use Rattle.pools.specs.Members.{accounts_of, member_at};
ghost use Rattle.zone_tables.specs.Leaving.{AreSameButLent, IsSameButLent};
ghost use Rattle.zone_tables.specs.Pools.{figures_of};
ghost use Rattle.ras_core.specs.Tallies.{tallies_of};
ghost use Rattle.ras_core.specs.inside.PoolTurns.{tallies_turned};

use pools::{Figures, Pool, PoolSet};
use zone_tables::PoolFigures;

/// Gives back to each pool the units that came back to it in a step, if any may have come back, and
/// tells the pools that time went on, if it did.
pub fn settle<P: Pool>(pools: &mut PoolSet<P>, figures: &PoolFigures, returns: bool, turn: bool)
    requires same { AreSameButLent (figures_of (accounts_of pools.old)) figures.now }
    requires none { returns ≡ false → figures_of (accounts_of pools.old) ≡ figures.now }
    ensures figures { figures_of (accounts_of pools.new) ≡ figures.now }
    ensures tallies { tallies_of pools.new ≡ tallies_turned (tallies_of pools.old) turn }
{
    give_back(pools, figures, returns);
    if turn {
        pools.turn();
    }
}

/// Gives back to each pool what it has lent more than these figures say. No pool is asked for
/// figures if it is known that none has lent more.
fn give_back<P: Pool>(pools: &mut PoolSet<P>, figures: &PoolFigures, returns: bool)
    requires same { AreSameButLent (figures_of (accounts_of pools.old)) figures.now }
    requires none { returns ≡ false → figures_of (accounts_of pools.old) ≡ figures.now }
    ensures figures { figures_of (accounts_of pools.new) ≡ figures.now }
    ensures tallies { tallies_of pools.new ≡ tallies_of pools.old }
{
    if !returns {
        return;
    }
    for i in 0..pools.len() {
        give_back_to(pools, i, figures.get(i));
    }
}

/// Gives back to pool i what it has lent more than these figures say.
fn give_back_to<P: Pool>(pools: &mut PoolSet<P>, i: usize, figures: Figures)
    requires pool { i < length pools.old }
    requires same { IsSameButLent (member_at pools.old i).account.figures figures }
    ensures figures { figures_of (accounts_of pools.new)
        ≡ slice_set (figures_of (accounts_of pools.old)) i figures }
    ensures tallies { tallies_of pools.new ≡ tallies_of pools.old }
    ensures len { length pools.new ≡ length pools.old }
{
    let back = pools.figures(i).lent - figures.lent;
    if back > 0 {
        pools.take_back(i, back);
    }
}
