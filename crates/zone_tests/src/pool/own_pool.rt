//! A pool of one's own.
ghost use Rattle.std.specs.Prelude.{◌≤◌};

use pools::{Figures, FixedPool, Lend, Pool, PoolSet};
use std::test::Fail;

/// A pool that lends to one request at most half of what is left, so that no call takes it all.
#[derive(Drop)]
struct HalvingPool {
    figures: Figures,
    last: Option<(u64, Lend)>,
    ghost within_limit: { figures.lent ≤ figures.limit },
}

impl HalvingPool {
    fn new(limit: u64) -> HalvingPool {
        HalvingPool {
            figures: Figures {
                limit,
                lent: 0,
                refusals: 0,
                waits: 0,
            },
            last: None,
        }
    }
}

impl Pool for HalvingPool {
    ghost account = { λ p. record { figures = p.figures; last = p.last } };

    fn limit(&self) -> u64 {
        self.figures.limit
    }

    fn lent(&self) -> u64 {
        self.figures.lent
    }

    fn refusals(&self) -> u64 {
        self.figures.refusals
    }

    fn waits(&self) -> u64 {
        self.figures.waits
    }

    fn last(&self) -> Option<(u64, Lend)> {
        self.last
    }

    fn lend(&mut self, asked: u64) -> Lend {
        let left = self.figures.limit - self.figures.lent;
        let answer = match asked.min(left.div_ceil(2)) {
            0 => {
                self.figures.refusals += 1;
                Lend::Refused
            }
            n => {
                self.figures.lent += n;
                Lend::Lent(n)
            }
        };
        self.last = Some((asked, answer));
        answer
    }

    fn take_back(&mut self, n: u64) {
        self.figures.lent -= n;
    }

    fn turn(&mut self) {}
}

/// Asks the first pool of a set twice, and closes the set.
fn ask_twice<P: Pool>(pools: Vec<P>, asked: u64) -> Option<(Lend, Lend, Vec<P>)> {
    let Ok(mut set) = PoolSet::new(pools) else {
        return None;
    };
    if asked == 0 || asked > 1_000 {
        return None;
    }
    let first = set.lend(0, asked);
    let second = set.lend(0, asked);
    Some((first, second, set.close()))
}

/// Whether these are two pools, the first with nothing lent.
fn are_two(pools: &[Box<dyn Pool + Send>]) -> bool {
    let [first, _] = pools else {
        return false;
    };
    first.lent() == 0
}

#[test]
fn pool_of_ones_own_is_lent_from_in_a_set(rt: HostRuntime) -> Result<(), Fail> {
    let alloc = rt.alloc();
    let mut pools: Vec<Box<dyn Pool + Send>> = Vec::new(alloc);
    pools.push(Box::new(alloc, HalvingPool::new(100))?)?;
    pools.push(Box::new(alloc, FixedPool::new(2500))?)?;
    let Some((first, second, back)) = ask_twice(pools, 80) else {
        panic!(rt; "refused");
    };
    let are_two = are_two(&back);
    drop(back);
    assert!(rt; (first, second) == (Lend::Lent(50), Lend::Lent(25)));
    assert!(rt; are_two);
    Ok(())
}
