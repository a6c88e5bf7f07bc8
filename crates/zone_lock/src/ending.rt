//! What is left of a history as its zone is taken out of the lock.

ghost use Rattle.std.specs.Prelude.{◌≡◌, ◌≤◌, ◌+◌, ◌^◌, [], length, None};
ghost use Rattle.std.specs.Prelude.{OnSome};
ghost use Rattle.ras_machine.specs.Soundness.{Sound};
ghost use Rattle.books.specs.Books.{BookRun};
ghost use Rattle.books.specs.Totals.{changes_of, datagrams_of, lent_of, returned_by, turns_of};
ghost use Rattle.zone_lock.specs.Held.{IsKept, IsLedInUse, IsLeft, IsWholeHistory};

use crate::cutting::discard_locked;
use crate::locked::Locked;
use crate::seat::Hall;
use books::Finished;
use pools::Pool;
use std::sync::ledger::Ledger;

/// Takes the zone out of what stood behind a lock, with its history since the last chapter. If
/// entries were discarded, so are those since then, and the history is left without entries. This
/// takes no memory.
///
/// promise rest-is-the-whole-book: What is left is the whole book, if a copy of its beginning is
/// kept; else the zone and the place of the next entry (`IsLeft`).
pub fn finish_locked<P: Pool, D: Hall, T: Ledger, U: Ledger, V: Ledger>(
    locked: Locked<P, D, T, U, V>,
) -> Finished<P>
    ensures left { IsLeft locked result }
    ensures history { IsWholeHistory D.opened result }
    ensures run { BookRun result.base result.entries result.zone.state }
    ensures sound { Sound result.zone.state }
    ensures opened { result.first ≡ 0 → result.base ≡ D.opened }
    ensures first { result.carried.datagrams + result.carried.turns + result.carried.changes
        ≡ result.first }
    ensures few { result.first + length result.entries ≤ 2 ^ 62 }
    ensures datagrams { result.carried.datagrams + datagrams_of result.entries
        ≡ locked.carried.datagrams + datagrams_of locked.entries }
    ensures turns { result.carried.turns + turns_of result.entries
        ≡ locked.carried.turns + turns_of locked.entries }
    ensures lent { result.carried.lent + lent_of result.entries
        ≡ locked.carried.lent + lent_of locked.entries }
    ensures changes { result.carried.changes + changes_of result.entries
        ≡ locked.carried.changes + changes_of locked.entries }
    ensures in_use { IsLedInUse D.opened result.zone.state
        (result.carried.lent + lent_of result.entries)
        (result.carried.returned + returned_by result.base result.entries result.zone.state) }
    ensures settings { result.base.tables.config ≡ D.opened.tables.config }
{
    let Locked {
        first,
        carried,
        so_far: _,
        opened_units: _,
        base,
        is_recorded: _,
        entries,
        zone,
        ledgers: _,
    } = settled(locked);
    Finished::new(zone, base, entries, first, carried)
}

/// What stood behind a lock. If no copy of the state in which its entries begin is kept, they are
/// let go, and it begins in the state of the zone.
fn settled<P: Pool, D: Hall, T: Ledger, U: Ledger, V: Ledger>(
    locked: Locked<P, D, T, U, V>,
) -> Locked<P, D, T, U, V>
    ensures kept { IsKept D.opened result }
    ensures left { OnSome locked.base (result ≡ locked) }
    ensures begun { result.base ≡ None → result.entries ≡ [] }
    ensures let_go { locked.base ≡ None → (result.base ≡ None)
        × (result.first ≡ locked.first + length locked.entries) }
    ensures zone { result.zone ≡ locked.zone }
    ensures datagrams { result.carried.datagrams + datagrams_of result.entries
        ≡ locked.carried.datagrams + datagrams_of locked.entries }
    ensures turns { result.carried.turns + turns_of result.entries
        ≡ locked.carried.turns + turns_of locked.entries }
    ensures lent { result.carried.lent + lent_of result.entries
        ≡ locked.carried.lent + lent_of locked.entries }
    ensures changes { result.carried.changes + changes_of result.entries
        ≡ locked.carried.changes + changes_of locked.entries }
{
    let mut locked = locked;
    if locked.base.is_none() {
        let room = Vec::new(*locked.entries.allocator());
        let _ = discard_locked(&mut locked, room);
    }
    locked
}
