//! A pool is replaced by whoever holds the lock.

ghost use Rattle.std.specs.Prelude.{◌≡◌, ◌≢◌, ◌+◌, ◌++◌, ◌∷◌, [], IfErr, IfOk, MatchResult, None};
ghost use Rattle.std.specs.Prelude.{◌<◌, OnErr, OnOk, length, vec_capacity, vec_len};
ghost use Rattle.pools.specs.Replacing.{IsHandedBack};
ghost use Rattle.zone_tables.specs.Pools.{figures_at};
ghost use Rattle.ras_core.specs.Replacing.{IsOldPool, IsRefusalOrMemory, change_by, fault_unasked};
ghost use Rattle.ras_core.specs.Runs.{RunningReplacement};
ghost use Rattle.ras_core.specs.Tallies.{tallies_after_replacing};
ghost use Rattle.zone_lock.specs.Held.{IsKept, entry_by, receipt_at};
ghost use Rattle.zone_lock.specs.Seats.{seated_after};

use crate::locked::Locked;
use crate::seat::{Hall, Seat};
use books::{Entry, Receipt, StepKind};
use pools::{Pool, ReplaceFault};
use ras_core::{Change, Moment, Outcome, PoolChange, Zone, figures_of};
use std::sync::ledger::Ledger;

/// Puts a fresh pool in the place of the locked zone's pool with this number, as `Zone::replace`
/// does: one step, which is the last entry afterwards. The old pool comes back with nothing lent.
/// Or it changes nothing, and the fresh pool comes back. The memory for the entry is asked for once
/// the fresh pool is found to be idle, and before it is asked to take over the loans.
///
/// promise lock-replaces-a-pool: One step replaces the pool, as one entry; or it is refused in
/// order, and nothing changes (`RunningReplacement`, `IsRefusalOrMemory`, `IsOldPool`).
pub fn replace_locked<P: Pool, D: Hall, T: Ledger, U: Ledger, V: Ledger>(
    locked: &mut Locked<P, D, T, U, V>,
    seat: &mut Seat<D, T, U, V>,
    pool: usize,
    fresh: P,
    moment: Moment,
) -> Result<(Receipt, P), (P, ReplaceFault)>
    ensures step { IfOk result (λ done. RunningReplacement locked.old.zone
        (change_by pool (P.account fresh) moment) done.0.outcome locked.new.zone) }
    ensures tallies { IfOk result (λ _. locked.new.zone.tallies
        ≡ tallies_after_replacing locked.old.zone.tallies pool (P.account fresh)
        (figures_at locked.old.zone.state.tables.pools pool).lent) }
    ensures old_pool { IfOk result (λ done.
        IsOldPool locked.old.zone pool (P.account done.1)) }
    ensures entry { IfOk result (λ done. locked.new.entries ≡ locked.old.entries
        ++ entry_by seat.old.number seat.old.calls
        (Change.PoolChange (change_by pool (P.account fresh) moment)) done.0.outcome ∷ []) }
    ensures receipt { IfOk result (λ done. done.0
        ≡ receipt_at (locked.old.first + length locked.old.entries)
        (entry_by seat.old.number seat.old.calls
        (Change.PoolChange (change_by pool (P.account fresh) moment)) done.0.outcome)) }
    ensures seat { IfOk result (λ done. seat.new ≡ seated_after seat.old
        (Change.PoolChange (change_by pool (P.account fresh) moment)) done.0.outcome) }
    ensures first { locked.new.first ≡ locked.old.first }
    ensures carried { locked.new.carried ≡ locked.old.carried }
    ensures base { locked.new.base ≡ locked.old.base }
    ensures recorded { locked.new.is_recorded ≡ locked.old.is_recorded }
    ensures fault { MatchResult result
        (λ _. fault_unasked locked.old.zone.state pool (P.account fresh) ≡ None)
        (λ refused. IsRefusalOrMemory locked.old.zone.state pool (P.account fresh)
        (P.account refused.0) refused.1) }
    ensures unasked { IfErr result (λ refused. refused.1 ≢ ReplaceFault.NotLent →
        refused.0 ≡ fresh) }
    ensures handed_back { IfErr result (λ refused. refused.1 ≡ ReplaceFault.NotLent →
        IsHandedBack (P.account fresh) (P.account refused.0)) }
    ensures err { OnErr result (locked.new ≡ locked.old) }
    ensures err_seat { OnErr result (seat.new ≡ seat.old) }
    ensures before { IsKept D.opened locked.old }
    ensures kept { IsKept D.opened locked.new }
{
    let change = &PoolChange {
        pool,
        offered: figures_of(&fresh),
        moment,
    };
    let (outcome, old) = replace_with_room(
        &mut locked.zone,
        &mut locked.entries,
        pool,
        fresh,
        moment,
    )?;
    let answer = outcome.answer;
    let place = locked.first + locked.entries.len();
    let receipt = seat.enter_replacement(&mut locked.entries, place, change, outcome);
    let kind = StepKind::PoolChange;
    locked.so_far = locked.so_far.with_step(kind, answer);
    locked.ledgers.count(seat, kind, answer);
    Ok((receipt, old))
}

/// Replaces a pool of a zone as `Zone::replace` does. The memory for the entry is asked for before,
/// once the fresh pool is found to be idle.
fn replace_with_room<P: Pool>(
    zone: &mut Zone<P>,
    entries: &mut Vec<Entry>,
    pool: usize,
    fresh: P,
    moment: Moment,
) -> Result<(Outcome, P), (P, ReplaceFault)>
    ensures step { IfOk result (λ done. RunningReplacement zone.old
        (change_by pool (P.account fresh) moment) done.0 zone.new) }
    ensures tallies { IfOk result (λ _. zone.new.tallies
        ≡ tallies_after_replacing zone.old.tallies pool (P.account fresh)
        (figures_at zone.old.state.tables.pools pool).lent) }
    ensures old_pool { IfOk result (λ done. IsOldPool zone.old pool (P.account done.1)) }
    ensures room { OnOk result (vec_len entries.new < vec_capacity entries.new) }
    ensures entries { entries.new.items ≡ entries.old.items }
    ensures fault { MatchResult result
        (λ _. fault_unasked zone.old.state pool (P.account fresh) ≡ None)
        (λ refused. IsRefusalOrMemory zone.old.state pool (P.account fresh)
        (P.account refused.0) refused.1) }
    ensures unasked { IfErr result (λ refused. refused.1 ≢ ReplaceFault.NotLent →
        refused.0 ≡ fresh) }
    ensures handed_back { IfErr result (λ refused. refused.1 ≡ ReplaceFault.NotLent →
        IsHandedBack (P.account fresh) (P.account refused.0)) }
    ensures err { OnErr result (zone.new ≡ zone.old) }
{
    if let Some(fault) = zone.fault_unasked(pool, &fresh) {
        return Err((fresh, fault));
    }
    match entries.reserve(1) {
        Ok(()) => zone.replace(pool, fresh, moment),
        Err(_) => Err((fresh, ReplaceFault::Memory)),
    }
}
