//! Pools whose loans are seen from outside.

use pools::{Lend, Pool};
use std::sync::Arc;
use std::sync::atomic::{AtomicU64, Ordering};

/// A pool that tells a meter what it lends and takes back. Several pools may share one meter, which
/// then shows what they have lent together.
pub struct Metered<P: Pool> {
    pool: P,
    meter: Arc<AtomicU64>,
}

impl<P: Pool> Metered<P> {
    pub fn new(pool: P, meter: Arc<AtomicU64>) -> Metered<P> {
        Metered { pool, meter }
    }
}

impl<P: Pool> Pool for Metered<P> {
    ghost account = { λ m. P.account m.pool };

    fn limit(&self) -> u64 {
        self.pool.limit()
    }

    fn lent(&self) -> u64 {
        self.pool.lent()
    }

    fn refusals(&self) -> u64 {
        self.pool.refusals()
    }

    fn waits(&self) -> u64 {
        self.pool.waits()
    }

    fn last(&self) -> Option<(u64, Lend)> {
        self.pool.last()
    }

    fn lend(&mut self, asked: u64) -> Lend {
        let answer = self.pool.lend(asked);
        if let Lend::Lent(units) = answer {
            let _ = self.meter.fetch_add(units, Ordering::SeqCst);
        }
        answer
    }

    fn take_back(&mut self, n: u64) {
        self.pool.take_back(n);
        let _ = self.meter.fetch_sub(n, Ordering::SeqCst);
    }

    fn turn(&mut self) {
        self.pool.turn();
    }
}

impl<P: Pool> Drop for Metered<P> {
    fn drop(self) {
        let Metered { pool, meter } = self;
        drop(pool);
        drop(meter);
    }
}
