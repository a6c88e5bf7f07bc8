//! What is called of the pools of a set, and what comes of it.

use crate::counting::{CountingPool, Counts, Met};
use facts::ensure_of;
use pools::{Figures, FixedPool, Lend, Pool, PoolSet};
use std::alloc::Global;
use std::sync::Arc;
use std::test::Fail;

pub type Boxed = Box<dyn Pool + Send>;

/// What is called of a pool of a set.
#[derive(Clone, Copy)]
pub enum Deed {
    /// It is asked for units, and answers so.
    Ask(u64, Lend),
    /// It is asked for units, of which so many are the least, and answers so; and whether nothing
    /// goes back.
    AskLeast(u64, u64, Lend, bool),
    TakeBack(u64),
    /// All pools of the set have their turn.
    Turn,
}

/// The place of a pool, what is called of it, and how many units it has lent and how many requests
/// it has refused then.
pub type Row = (usize, Deed, u64, u64);

/// The figures of a pool, and its last request with the answer.
pub type Shown = (Figures, Option<(u64, Lend)>);

/// The figures of a pool that told nobody to wait.
pub fn figures(limit: u64, lent: u64, refusals: u64) -> Figures {
    Figures {
        limit,
        lent,
        refusals,
        waits: 0,
    }
}

/// What a pool of a set shows, how often the set asked it, and how often it had its turn.
pub fn shown<P: Pool>(set: &PoolSet<P>, i: usize) -> Option<(Shown, u64, u64)> {
    if i < set.len() {
        let shown = (set.figures(i), set.last(i));
        Some((shown, set.requests(i), set.turns(i)))
    } else {
        None
    }
}

/// Asks a pool of a set that was asked little, of units of which so many are the least.
fn ask_least<P: Pool>(
    set: &mut PoolSet<P>,
    i: usize,
    asked: u64,
    least: u64,
) -> Option<(Lend, bool)> {
    if i >= set.len() || asked == 0 || asked > 4_294_967_295 {
        return None;
    }
    let figures = set.figures(i);
    if figures.refusals > 1_000_000 || figures.waits > 1_000_000 {
        return None;
    }
    if least == 0 {
        Some((set.lend(i, asked), true))
    } else {
        Some(set.lend_least(i, asked, least))
    }
}

/// Gives units back to a pool of a set that has lent as many.
fn give_back<P: Pool>(set: &mut PoolSet<P>, i: usize, n: u64) -> bool {
    if i >= set.len() || set.figures(i).lent < n {
        return false;
    }
    set.take_back(i, n);
    true
}

/// Does one deed. Whether this comes of it. A pool's last request changes by a further one alone.
fn is_done<P: Pool>(set: &mut PoolSet<P>, row: &Row) -> bool {
    let (i, deed, lent, refusals) = *row;
    let Some(((_, before), _, _)) = shown(set, i) else {
        return false;
    };
    let (is_so, last) = match deed {
        Deed::Ask(asked, answer) => (
            ask_least(set, i, asked, 0) == Some((answer, true)),
            Some((asked, answer)),
        ),
        Deed::AskLeast(asked, least, answer, stays) => (
            ask_least(set, i, asked, least) == Some((answer, stays)),
            Some((asked, answer)),
        ),
        Deed::TakeBack(n) => (give_back(set, i, n), before),
        Deed::Turn => {
            set.turn();
            (true, before)
        }
    };
    let Some(((figures, found), _, _)) = shown(set, i) else {
        return false;
    };
    is_so && found == last && figures.lent == lent && figures.refusals == refusals
}

/// Does these deeds.
pub fn try_deeds<P: Pool>(set: &mut PoolSet<P>, row: &str, deeds: &[Row]) -> Result<(), Fail> {
    for deed in deeds {
        ensure_of(row, is_done(set, deed), "its pools do what they should")?;
    }
    Ok(())
}

/// As many counts, of which nothing was called.
pub fn counts_of(alloc: Global, count: u64) -> Result<Vec<Arc<Met>>, Fail> {
    let mut mets = Vec::new(alloc);
    for _ in 0..count {
        mets.push(Arc::new(alloc, Met::new())?)?;
    }
    Ok(mets)
}

/// Boxed pools of 100 units, each of which counts there.
pub fn counting(alloc: Global, mets: &[Arc<Met>]) -> Result<Vec<Boxed>, Fail> {
    let mut pools: Vec<Boxed> = Vec::new(alloc);
    for met in mets {
        let pool = CountingPool::new(FixedPool::new(100), met)?;
        pools.push(Box::new(alloc, pool)?)?;
    }
    Ok(pools)
}

/// Whether the pools have met this.
pub fn have_met(mets: &[Arc<Met>], counts: &[Counts]) -> bool {
    for (met, counts) in mets.iter().zip(counts) {
        if met.counts() != *counts {
            return false;
        }
    }
    mets.len() == counts.len()
}

/// A pool of 10 units that has lent one.
pub fn lending() -> Result<FixedPool, Fail> {
    let mut pool = FixedPool::new(10);
    if pool.lend(1) == Lend::Lent(1) {
        Ok(pool)
    } else {
        Err(Fail::from("a pool of 10 units lends 1"))
    }
}
