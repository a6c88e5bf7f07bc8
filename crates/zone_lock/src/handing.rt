//! How a history leaves the lock while it is made: its entries so far are taken out, and those that
//! come next are recorded as before.

ghost use Rattle.std.specs.Prelude.{◌≡◌, ◌+◌, [], length, None};
ghost use Rattle.zone_lock.specs.Held.{AreCarriedOn, IsKept, IsLedInUse};

use crate::cutting::{Discarded, discard_locked};
use crate::locked::Locked;
use crate::seat::Hall;
use books::Entry;
use pools::Pool;
use std::sync::ledger::Ledger;

/// Entries that left a lock, oldest first: the place of the first one in the whole history, and
/// whether steps that come next are recorded.
#[derive(Drop)]
pub struct HandedOut {
    pub first: usize,
    pub entries: Vec<Entry>,
    pub is_recorded: bool,
}

/// Takes the entries so far out. Those that come next stand in `room`, which has none yet; if steps
/// were recorded, they are. No chapter can be cut afterwards. This takes no memory.
///
/// promise handed-out-entries-are-the-book: All entries of the book leave the lock, with their
/// place; what goes on begins behind them, and is recorded as before (`AreCarriedOn`).
pub fn hand_out_locked<P: Pool, D: Hall, T: Ledger, U: Ledger, V: Ledger>(
    locked: &mut Locked<P, D, T, U, V>,
    room: Vec<Entry>,
) -> HandedOut
    requires { room.items ≡ [] }
    ensures place { result.first ≡ locked.old.first }
    ensures gone { result.entries.items ≡ locked.old.entries }
    ensures told { result.is_recorded ≡ locked.old.is_recorded }
    ensures recorded { locked.new.is_recorded ≡ locked.old.is_recorded }
    ensures first { locked.new.first ≡ locked.old.first + length locked.old.entries }
    ensures carried { AreCarriedOn locked.old.carried locked.old.entries locked.new.carried }
    ensures in_use { IsLedInUse D.opened locked.old.zone.state
        locked.new.carried.lent locked.new.carried.returned }
    ensures base { locked.new.base ≡ None }
    ensures entries { locked.new.entries ≡ [] }
    ensures zone { locked.new.zone ≡ locked.old.zone }
    ensures before { IsKept D.opened locked.old }
    ensures kept { IsKept D.opened locked.new }
{
    let (first, is_recorded) = (locked.first, locked.is_recorded);
    let Discarded { base: _, entries } = discard_locked(locked, room);
    locked.is_recorded = is_recorded;
    HandedOut {
        first,
        entries,
        is_recorded,
    }
}
