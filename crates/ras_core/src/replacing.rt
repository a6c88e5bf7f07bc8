//! A pool of a zone is replaced while calls live.

ghost use Rattle.std.specs.Prelude.{◌≡◌, ◌≢◌, IfErr, IfOk, MatchResult, None, OnErr};
ghost use Rattle.pools.specs.Account.{is_idle};
ghost use Rattle.pools.specs.Replacing.{IsHandedBack};
ghost use Rattle.zone_tables.specs.Pools.{figures_at};
ghost use Rattle.ras_machine.specs.Soundness.{Sound};
ghost use Rattle.ras_core.specs.Replacing.{IsOldPool, IsRefusal, change_by, fault_unasked};
ghost use Rattle.ras_core.specs.Runs.{RunningReplacement};
ghost use Rattle.ras_core.specs.Tallies.{tallies_after_replacing};

use crate::zone::Zone;
use pools::{Figures, Pool, ReplaceFault};
use zone_config::Moment;
use zone_events::{Outcome, PoolChange};

impl<P: Pool> Zone<P> {
    /// One step in which a fresh pool takes the place of the pool with this number, and takes over
    /// its loans: no call loses its bandwidth, and no other pool changes. The old pool comes back
    /// with nothing lent; its limit, refusals, waits and last answer stay. The network stays that
    /// of the old pool. `pool` may be any number. No memory is taken.
    ///
    /// The fresh pool is asked for what the old one has lent, in loans that are each of the lesser
    /// of 4,294,967,295 units and what is still to be lent. If nothing is lent, it is asked
    /// nothing.
    ///
    /// Otherwise nothing in the zone changes, and the fresh pool comes back: `Closed` if and only
    /// if 2^62 steps were made, else `NoPool` if and only if there is no such pool, else `NotIdle`
    /// if and only if the fresh one has something lent, or has counted 2^62 refusals or waits. It
    /// is asked nothing then. `NotLent` is for one that answers otherwise than by a loan of all
    /// that was asked. It is asked no more, and has nothing lent.
    ///
    /// promise zone-replaces-a-pool: A fresh pool replaces one by one step, with its loans, and
    /// calls stay; else nothing changes, and it comes back as Closed, NoPool, NotIdle or NotLent.
    /// It wants no memory (`Replaces`, `RunningReplacement`, `IsRefusal`, `IsOldPool`).
    pub fn replace(
        &mut self,
        pool: usize,
        fresh: P,
        moment: Moment,
    ) -> Result<(Outcome, P), (P, ReplaceFault)>
        ensures step { IfOk result (λ done. RunningReplacement self.old
            (change_by pool (P.account fresh) moment) done.0 self.new) }
        ensures tallies { IfOk result (λ _. self.new.tallies
            ≡ tallies_after_replacing self.old.tallies pool (P.account fresh)
            (figures_at self.old.state.tables.pools pool).lent) }
        ensures old_pool { IfOk result (λ done. IsOldPool self.old pool (P.account done.1)) }
        ensures fault { MatchResult result
            (λ _. fault_unasked self.old.state pool (P.account fresh) ≡ None)
            (λ refused. IsRefusal self.old.state pool (P.account fresh) (P.account refused.0)
            refused.1) }
        ensures unasked { IfErr result (λ refused. refused.1 ≢ ReplaceFault.NotLent →
            refused.0 ≡ fresh) }
        ensures handed_back { IfErr result (λ refused. refused.1 ≡ ReplaceFault.NotLent →
            IsHandedBack (P.account fresh) (P.account refused.0)) }
        ensures err { OnErr result (self.new ≡ self.old) }
        ensures sound { Sound self.new.state }
    {
        if self.machine.is_closed() {
            return Err((fresh, ReplaceFault::Closed));
        }
        let offered = figures_of(&fresh);
        let old = self.pools.replace(pool, fresh)?;
        let change = PoolChange {
            pool,
            offered,
            moment,
        };
        Ok((self.machine.replace_pool(&change), old))
    }

    /// Why a fresh pool wouldn't even be asked by `replace`; None if it would be. No memory is
    /// taken.
    ///
    /// promise replacement-refusal-is-told-beforehand: It is told exactly why a fresh pool wouldn't
    /// be asked (`fault_unasked`).
    pub fn fault_unasked(&self, pool: usize, fresh: &P) -> Option<ReplaceFault>
        ensures { result ≡ fault_unasked self.now.state pool (P.account fresh.now) }
    {
        if self.machine.is_closed() {
            return Some(ReplaceFault::Closed);
        }
        if pool >= self.pools.len() {
            return Some(ReplaceFault::NoPool);
        }
        if is_idle(fresh) {
            None
        } else {
            Some(ReplaceFault::NotIdle)
        }
    }
}

/// Whether a pool has nothing lent, and counts that leave room for many requests.
fn is_idle<P: Pool>(pool: &P) -> bool
    ensures { result ≡ is_idle (P.account pool.now) }
{
    pool.lent() == 0 && pool.refusals() < 1 << 62 && pool.waits() < 1 << 62
}

/// The figures of a pool.
pub fn figures_of<P: Pool>(pool: &P) -> Figures
    ensures { result ≡ (P.account pool.now).figures }
{
    Figures {
        limit: pool.limit(),
        lent: pool.lent(),
        refusals: pool.refusals(),
        waits: pool.waits(),
    }
}
