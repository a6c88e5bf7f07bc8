//! A pool of a world's zone is replaced.

ghost use Rattle.std.specs.Prelude.{◌≡◌, ◌≢◌, IfErr, IfOk, MatchResult, None, OnErr, OnOk, length};
ghost use Rattle.pools.specs.Replacing.{IsHandedBack};
ghost use Rattle.zone_events.specs.Events.{noted_outcome};
ghost use Rattle.ras_core.specs.Replacing.{IsOldPool, IsRefusalOrMemory, change_by, fault_unasked};
ghost use Rattle.ras_core.specs.Tallies.{tallies_after_replacing};
ghost use Rattle.zone_tables.specs.Pools.{figures_at};
ghost use Rattle.books.specs.Books.{entries_of_seat};
ghost use Rattle.history.specs.Worlds.{IsInOrder, ReplacesPool};

use crate::world::World;
use books::Entry;
use pools::{Pool, ReplaceFault};
use ras_core::{Change, Moment, Note, PoolChange, figures_of};

impl<P: Pool> World<P> {
    /// Puts a fresh pool in the place of the zone's pool with this number, as `Zone::replace` does.
    /// The old pool comes back with nothing lent. The step is an entry of the book, whose seat is
    /// the number of workers. Or nothing changes, and the fresh pool comes back. The memory for the
    /// entry is asked for once the fresh pool is found to be idle, and before it is asked to take
    /// over the loans.
    ///
    /// promise world-replaces-a-pool: A pool is replaced by one step, an entry of no worker; or
    /// refused in the order Closed, NoPool, NotIdle, Memory, NotLent, and nothing changes
    /// (`ReplacesPool`, `IsOldPool`, `IsRefusalOrMemory`).
    pub fn replace(&mut self, pool: usize, fresh: P, moment: Moment) -> Result<P, (P, ReplaceFault)>
        ensures ok { OnOk result (ReplacesPool self.old
            (change_by pool (P.account fresh) moment)
            (noted_outcome (Note.Replaced pool) None) self.new) }
        ensures tallies { IfOk result (λ _. self.new.zone.tallies
            ≡ tallies_after_replacing self.old.zone.tallies pool (P.account fresh)
            (figures_at self.old.zone.state.tables.pools pool).lent) }
        ensures old_pool { IfOk result (λ old. IsOldPool self.old.zone pool (P.account old)) }
        ensures fault { MatchResult result
            (λ _. fault_unasked self.old.zone.state pool (P.account fresh) ≡ None)
            (λ refused. IsRefusalOrMemory self.old.zone.state pool (P.account fresh)
            (P.account refused.0) refused.1) }
        ensures unasked { IfErr result (λ refused. refused.1 ≢ ReplaceFault.NotLent →
            refused.0 ≡ fresh) }
        ensures handed_back { IfErr result (λ refused. refused.1 ≡ ReplaceFault.NotLent →
            IsHandedBack (P.account fresh) (P.account refused.0)) }
        ensures err { OnErr result (self.new ≡ self.old) }
        ensures order { IsInOrder self.new }
    {
        let unasked = self.zone.fault_unasked(pool, &fresh);
        if let Some(fault) = unasked {
            return Err((fresh, fault));
        }
        if self.book.reserve_entry().is_err() {
            return Err((fresh, ReplaceFault::Memory));
        }
        let change = &PoolChange {
            pool,
            offered: figures_of(&fresh),
            moment,
        };
        let (outcome, old) = self.zone.replace(pool, fresh, moment)?;
        let seat = self.workers.len();
        let call = count_of_seat(&self.book.entries, seat);
        self.book.add_reserved(Entry {
            seat,
            call,
            event: Change::PoolChange(*change),
            outcome,
        });
        Ok(old)
    }
}

/// How many of the entries are of this seat.
fn count_of_seat(entries: &[Entry], seat: usize) -> usize
    ensures { result ≡ length (entries_of_seat seat entries.now) }
{
    entries.iter().filter(|entry| entry.seat == seat).count()
}
