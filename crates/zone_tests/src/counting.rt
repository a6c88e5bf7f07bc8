//! Pools that count for themselves what is called of them. The contracts say it of what a set of
//! pools counts.

use pools::{Lend, Pool};
use std::sync::Arc;
use std::sync::atomic::AtomicU64;
use std::sync::atomic::Ordering::SeqCst;
use std::test::Fail;

/// What a pool has met: how often it was asked, for how many units, and for how many at last; how
/// often units came back, and how many are lent; how often it had its turn; and whether it was
/// dropped, and with how many units lent.
#[derive(Clone, Copy, PartialEq, Eq)]
pub struct Counts {
    pub lends: u64,
    pub asked: u64,
    pub asked_last: u64,
    pub returns: u64,
    pub lent: u64,
    pub turns: u64,
    pub drops: u64,
    pub lent_at_drop: u64,
}

/// What a pool has met of which nothing was called.
pub const NOTHING: Counts = Counts {
    lends: 0,
    asked: 0,
    asked_last: 0,
    returns: 0,
    lent: 0,
    turns: 0,
    drops: 0,
    lent_at_drop: 0,
};

/// Where a pool counts what it meets.
#[derive(Drop)]
pub struct Met {
    lends: AtomicU64,
    asked: AtomicU64,
    asked_last: AtomicU64,
    returns: AtomicU64,
    lent: AtomicU64,
    turns: AtomicU64,
    drops: AtomicU64,
    lent_at_drop: AtomicU64,
}

impl Met {
    pub fn new() -> Met {
        Met {
            lends: AtomicU64::new(0),
            asked: AtomicU64::new(0),
            asked_last: AtomicU64::new(0),
            returns: AtomicU64::new(0),
            lent: AtomicU64::new(0),
            turns: AtomicU64::new(0),
            drops: AtomicU64::new(0),
            lent_at_drop: AtomicU64::new(0),
        }
    }

    pub fn counts(&self) -> Counts {
        Counts {
            lends: self.lends.load(SeqCst),
            asked: self.asked.load(SeqCst),
            asked_last: self.asked_last.load(SeqCst),
            returns: self.returns.load(SeqCst),
            lent: self.lent.load(SeqCst),
            turns: self.turns.load(SeqCst),
            drops: self.drops.load(SeqCst),
            lent_at_drop: self.lent_at_drop.load(SeqCst),
        }
    }
}

/// A pool that counts what is called of it, and how much it has lent when it is dropped.
pub struct CountingPool<P: Pool> {
    pool: P,
    met: Arc<Met>,
}

impl<P: Pool> CountingPool<P> {
    /// The pool, which counts there what is called of it.
    pub fn new(pool: P, met: &Arc<Met>) -> Result<CountingPool<P>, Fail> {
        let met = Arc::clone(met)?;
        Ok(CountingPool { pool, met })
    }
}

impl<P: Pool> Pool for CountingPool<P> {
    ghost account = { λ c. P.account c.pool };

    fn limit(&self) -> u64 {
        self.pool.limit()
    }

    fn lent(&self) -> u64 {
        self.pool.lent()
    }

    fn refusals(&self) -> u64 {
        self.pool.refusals()
    }

    fn waits(&self) -> u64 {
        self.pool.waits()
    }

    fn last(&self) -> Option<(u64, Lend)> {
        self.pool.last()
    }

    fn lend(&mut self, asked: u64) -> Lend {
        self.met.lends.fetch_add(1, SeqCst);
        self.met.asked.fetch_add(asked, SeqCst);
        self.met.asked_last.store(asked, SeqCst);
        let answer = self.pool.lend(asked);
        self.met.lent.store(self.pool.lent(), SeqCst);
        answer
    }

    fn take_back(&mut self, n: u64) {
        self.met.returns.fetch_add(1, SeqCst);
        self.pool.take_back(n);
        self.met.lent.store(self.pool.lent(), SeqCst);
    }

    fn turn(&mut self) {
        self.met.turns.fetch_add(1, SeqCst);
        self.pool.turn();
    }
}

impl<P: Pool> Drop for CountingPool<P> {
    fn drop(self) {
        let CountingPool { pool, met } = self;
        met.drops.fetch_add(1, SeqCst);
        met.lent_at_drop.fetch_add(pool.lent(), SeqCst);
    }
}
