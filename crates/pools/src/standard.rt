//! Pools of the three kinds, as one type.
ghost use Rattle.std.specs.Prelude.{◌≡◌, ◌≤◌};
ghost use Rattle.pools.specs.Account.{MayAsk, IsAnswer, account_after_answer};
ghost use Rattle.pools.specs.Account.{account_after_return};
ghost use Rattle.pools.specs.Specs.{account_in, pool_of, AnswersByKind, pool_after_answer};
ghost use Rattle.pools.specs.Specs.{pool_after_return, pool_after_turn};

use crate::fixed::FixedPool;
use crate::interface::{Lend, Pool};
use crate::paced::PacedPool;
use crate::pool_spec::PoolSpec;
use crate::step::StepPool;

/// A pool of one of the three kinds, for a program that learns the kind when it runs.
#[derive(Debug, Drop)]
pub enum StandardPool {
    Fixed(FixedPool),
    Step(StepPool),
    Paced(PacedPool),
}

impl StandardPool {
    /// The pool that is described, of which nothing is lent.
    ///
    /// promise described-pool-is-of-its-kind: A described pool is made of its kind; its `lend`
    /// answers by that kind's rule (`pool_of`, `AnswersByKind`).
    pub fn new(spec: PoolSpec) -> StandardPool
        ensures { result ≡ pool_of spec }
    {
        match spec {
            PoolSpec::Fixed { limit } => StandardPool::Fixed(FixedPool::new(limit)),
            PoolSpec::Step { limit, step } => {
                StandardPool::Step(StepPool::new(limit, u64::from(step.get())))
            }
            PoolSpec::Paced { limit, burst } => {
                StandardPool::Paced(PacedPool::new(limit, u64::from(burst.get())))
            }
        }
    }
}

impl Pool for StandardPool {
    ghost use Rattle.pools.specs.Specs.{account_in};

    ghost account = { account_in };

    fn limit(&self) -> u64 {
        match self {
            StandardPool::Fixed(pool) => pool.limit(),
            StandardPool::Step(pool) => pool.limit(),
            StandardPool::Paced(pool) => pool.limit(),
        }
    }

    fn lent(&self) -> u64 {
        match self {
            StandardPool::Fixed(pool) => pool.lent(),
            StandardPool::Step(pool) => pool.lent(),
            StandardPool::Paced(pool) => pool.lent(),
        }
    }

    fn refusals(&self) -> u64 {
        match self {
            StandardPool::Fixed(pool) => pool.refusals(),
            StandardPool::Step(pool) => pool.refusals(),
            StandardPool::Paced(pool) => pool.refusals(),
        }
    }

    fn waits(&self) -> u64 {
        match self {
            StandardPool::Fixed(pool) => pool.waits(),
            StandardPool::Step(pool) => pool.waits(),
            StandardPool::Paced(pool) => pool.waits(),
        }
    }

    fn last(&self) -> Option<(u64, Lend)> {
        match self {
            StandardPool::Fixed(pool) => pool.last(),
            StandardPool::Step(pool) => pool.last(),
            StandardPool::Paced(pool) => pool.last(),
        }
    }

    /// Answers by the rule of its kind.
    fn lend(&mut self, asked: u64) -> Lend
        requires { MayAsk (account_in self.old) asked }
        ensures answer { IsAnswer (account_in self.old).figures asked result }
        ensures rule { AnswersByKind self.old asked result }
        ensures after { self.new ≡ pool_after_answer self.old asked result }
    {
        match self {
            StandardPool::Fixed(pool) => pool.lend(asked),
            StandardPool::Step(pool) => pool.lend(asked),
            StandardPool::Paced(pool) => pool.lend(asked),
        }
    }

    fn take_back(&mut self, n: u64)
        requires { n ≤ (account_in self.old).figures.lent }
        ensures { self.new ≡ pool_after_return self.old n }
    {
        match self {
            StandardPool::Fixed(pool) => pool.take_back(n),
            StandardPool::Step(pool) => pool.take_back(n),
            StandardPool::Paced(pool) => pool.take_back(n),
        }
    }

    fn turn(&mut self)
        ensures { self.new ≡ pool_after_turn self.old }
    {
        match self {
            StandardPool::Fixed(pool) => pool.turn(),
            StandardPool::Step(pool) => pool.turn(),
            StandardPool::Paced(pool) => pool.turn(),
        }
    }
}
