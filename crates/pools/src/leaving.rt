//! How pools leave a set: another pool takes the place of one, or the set is closed.
ghost use Rattle.std.specs.Prelude.{◌≡◌, ◌≢◌, ◌≤◌, map, MatchResult, IfOk, IfErr, All, Some, None};
ghost use Rattle.pools.specs.Account.{account_without_loans};
ghost use Rattle.pools.specs.Members.{IsPoolSet, accounts_of, member_at, member_without_loans};
ghost use Rattle.pools.specs.Replacing.{IsHandedBack, IsReplaceFault, fault_unasked};
ghost use Rattle.pools.specs.Replacing.{lent_by, members_after_replacing};

use crate::fault::ReplaceFault;
use crate::interface::Pool;
use crate::parts::lend_in_parts;
use crate::pool_set::{PoolSet, is_idle_pool};

/// Gives back to each pool all that it has lent. A pool is called, once, only if that is something.
fn return_all_loans<P: Pool>(set: &mut PoolSet<P>)
    ensures { set.new ≡ map member_without_loans set.old }
{
    for i in 0..set.len() {
        set.return_loans(i);
    }
}

impl<P: Pool> PoolSet<P> {
    /// Puts a fresh pool in the place of pool i, whose loans it takes over, and returns the old
    /// one with nothing lent. Its limit, refusals, waits and last answer stay. No other pool
    /// changes. `i` may be any number. No memory is taken.
    ///
    /// The fresh pool is asked for what pool i has lent, in loans that are each of the lesser of
    /// 4,294,967,295 units and what is still to be lent. The set's counts for it begin anew: as
    /// many requests as these loans, and no turn. If nothing is lent, it is asked nothing.
    ///
    /// Otherwise nothing in the set changes, and the fresh pool comes back: `NoPool` if and only if
    /// `i` isn't below `len`, else `NotIdle` if and only if it has something lent, or has counted
    /// 2^62 refusals or waits. It is asked nothing then. `NotLent` is for one that answers
    /// otherwise than by a loan of all that was asked. It is asked no more, and has nothing lent.
    ///
    /// promise fresh-pool-takes-over-all-loans: A fresh pool takes over all loans, and the old one
    /// comes back with nothing lent; else the set stays, and the fresh one comes back: as NoPool,
    /// NotIdle or NotLent (`members_after_replacing`, `IsReplaceFault`, `IsHandedBack`).
    pub fn replace(&mut self, i: usize, fresh: P) -> Result<P, (P, ReplaceFault)>
        ensures ok { IfOk result (λ old.
            P.account old ≡ account_without_loans (member_at self.old i).account) }
        ensures after { MatchResult result
            (λ _. self.new ≡ members_after_replacing self.old i (P.account fresh))
            (λ _. self.new ≡ self.old) }
        ensures fault { MatchResult result
            (λ _. fault_unasked self.old i (P.account fresh) ≡ None)
            (λ refused. IsReplaceFault self.old i (P.account fresh) (P.account refused.0)
            refused.1) }
        ensures unasked { IfErr result (λ refused. refused.1 ≢ ReplaceFault.NotLent →
            refused.0 ≡ fresh) }
        ensures handed_back { IfErr result (λ refused. refused.1 ≡ ReplaceFault.NotLent →
            IsHandedBack (P.account fresh) (P.account refused.0)) }
        ensures within { IfOk result (λ _. lent_by self.old i ≤ (P.account fresh).figures.limit) }
        ensures sound { IsPoolSet self.new }
    {
        if i >= self.len() {
            return Err((fresh, ReplaceFault::NoPool));
        }
        if !is_idle_pool(&fresh) {
            return Err((fresh, ReplaceFault::NotIdle));
        }
        let lent = self.pool(i).lent();
        let mut fresh = fresh;
        let Some(loans) = lend_in_parts(&mut fresh, lent) else {
            return Err((fresh, ReplaceFault::NotLent));
        };
        self.return_loans(i);
        let old = self.exchange(i, fresh, loans);
        Ok(old)
    }

    /// The pools that were handed in, in their order, with nothing lent. Their limits, refusals,
    /// waits and last answers stay.
    ///
    /// promise closed-pools-have-nothing-lent: All pools come back in order, with their limits,
    /// counts and last answers, and nothing lent (`account_without_loans`).
    pub fn close(self) -> Vec<P>
        ensures accounts { map P.account result.items
            ≡ map account_without_loans (accounts_of self) }
        ensures repaid { All (λ a. a.figures.lent ≡ 0) (map P.account result.items) }
    {
        let mut set = self;
        return_all_loans(&mut set);
        set.into_pools()
    }
}
