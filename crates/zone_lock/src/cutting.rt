//! How a history is kept short: its entries so far are taken out, as a chapter or to be let go.

ghost use Rattle.std.specs.Prelude.{◌≡◌, ◌≢◌, ◌+◌, ◌↔◌, [], length};
ghost use Rattle.std.specs.Prelude.{IfOk, OnOk, OnErr, Err, None, Some, false, true};
ghost use Rattle.books.specs.Totals.{returned_by, totals_with};
ghost use Rattle.zone_lock.specs.Held.{AreCarriedOn, IsKept, IsLedInUse};
ghost use Rattle.zone_lock.specs.Faults.{cut_fault_number};

use crate::locked::Locked;
use crate::seat::Hall;
use books::{Chapter, Entry, SharedSnapshot};
use pools::Pool;
use ras_core::Zone;
use std::alloc::Global;
use std::mem;
use std::sync::ledger::Ledger;

/// What a lock had of its history, and has no more: the state in which its book began, if a copy of
/// it was kept, and the entries of the book.
#[derive(Drop)]
pub struct Discarded {
    pub base: Option<SharedSnapshot>,
    pub entries: Vec<Entry>,
}

/// Why no chapter ends.
#[derive(Clone, Copy, Debug, PartialEq, Eq, Drop)]
pub enum CutFault {
    /// The entries before were let go, with the state to which they led, so that nobody has the
    /// state in which the chapter would begin.
    NoBase,
    Memory,
}

impl CutFault {
    /// The number of the fault.
    pub fn number(&self) -> u8
        ensures { result ≡ cut_fault_number self.now }
    {
        match self {
            CutFault::NoBase => 1,
            CutFault::Memory => 2,
        }
    }
}

/// Ends a chapter: the entries so far are taken out, and the state that they lead to, which is
/// copied once, is the end of the chapter and the base of what comes. It is refused as NoBase if
/// and only if the state in which the chapter would begin was let go. If it is refused, nothing has
/// changed.
///
/// promise chapter-has-the-book: A chapter has what was in the book, and what goes on begins behind
/// it; NoBase if and only if no copy of the beginning is kept (`totals_with`, `returned_by`).
pub fn cut_locked<P: Pool, D: Hall, T: Ledger, U: Ledger, V: Ledger>(
    locked: &mut Locked<P, D, T, U, V>,
) -> Result<Chapter, CutFault>
    ensures chapter { IfOk result (λ chapter. chapter ≡ record {
      first = locked.old.first;
      base = chapter.base;
      entries = locked.old.entries;
      end = locked.old.zone.state;
    }) }
    ensures begun { IfOk result (λ chapter. locked.old.base ≡ Some chapter.base) }
    ensures first { OnOk result
        (locked.new.first ≡ locked.old.first + length locked.old.entries) }
    ensures carried { IfOk result (λ chapter. locked.new.carried
        ≡ totals_with locked.old.carried locked.old.entries
        (returned_by chapter.base locked.old.entries locked.old.zone.state)) }
    ensures base { OnOk result (locked.new.base ≡ Some locked.old.zone.state) }
    ensures recorded { OnOk result (locked.new.is_recorded ≡ true) }
    ensures entries { OnOk result (locked.new.entries ≡ []) }
    ensures zone { locked.new.zone ≡ locked.old.zone }
    ensures no_base { (result ≡ Err CutFault.NoBase) ↔ (locked.old.base ≡ None) }
    ensures err { OnErr result (locked.new ≡ locked.old) }
    ensures before { IsKept D.opened locked.old }
    ensures kept { IsKept D.opened locked.new }
{
    let Some(base) = &locked.base else {
        return Err(CutFault::NoBase);
    };
    let base = again(base)?;
    let alloc: Global = *locked.entries.allocator();
    let (end, next) = ends_of(alloc, &locked.zone)?;
    let first = locked.first;
    let Discarded { base: _, entries } = discard_locked(locked, Vec::new(alloc));
    locked.base = Some(next);
    locked.is_recorded = true;
    Ok(Chapter::new(first, base, entries, end))
}

/// The same state once more.
fn again(base: &SharedSnapshot) -> Result<SharedSnapshot, CutFault>
    ensures same { IfOk result (λ again. again ≡ base.now) }
    ensures fault { result ≢ Err CutFault.NoBase }
{
    base.again().map_err(|_| CutFault::Memory)
}

/// The state of a zone, twice, for one copy.
fn ends_of<P: Pool>(
    alloc: Global,
    zone: &Zone<P>,
) -> Result<(SharedSnapshot, SharedSnapshot), CutFault>
    ensures both { IfOk result (λ ends. (ends.0 ≡ zone.now.state) × (ends.1 ≡ zone.now.state)) }
    ensures fault { result ≢ Err CutFault.NoBase }
{
    let Ok(snapshot) = zone.snapshot() else {
        return Err(CutFault::Memory);
    };
    let Ok(end) = SharedSnapshot::new(alloc, snapshot) else {
        return Err(CutFault::Memory);
    };
    let next = again(&end)?;
    Ok((end, next))
}

/// Takes the entries so far out, with the copy of the state in which they began, if there is one.
/// The state to which they lead isn't copied: what comes next begins there, and no copy says so.
/// Steps that come next aren't recorded; entries of pools that are replaced stand in `room`, which
/// has none yet. This takes no memory.
///
/// promise discarded-entries-are-carried: What goes on begins behind the discarded book, with the
/// totals carried, and without memory (`AreCarriedOn`, `IsLedInUse`).
pub fn discard_locked<P: Pool, D: Hall, T: Ledger, U: Ledger, V: Ledger>(
    locked: &mut Locked<P, D, T, U, V>,
    room: Vec<Entry>,
) -> Discarded
    requires { room.items ≡ [] }
    ensures gone { (result.base ≡ locked.old.base) × (result.entries.items ≡ locked.old.entries) }
    ensures first { locked.new.first ≡ locked.old.first + length locked.old.entries }
    ensures carried { AreCarriedOn locked.old.carried locked.old.entries locked.new.carried }
    ensures in_use { IsLedInUse D.opened locked.old.zone.state
        locked.new.carried.lent locked.new.carried.returned }
    ensures base { locked.new.base ≡ None }
    ensures recorded { locked.new.is_recorded ≡ false }
    ensures entries { locked.new.entries ≡ [] }
    ensures zone { locked.new.zone ≡ locked.old.zone }
    ensures before { IsKept D.opened locked.old }
    ensures kept { IsKept D.opened locked.new }
{
    locked.first += locked.entries.len();
    locked.so_far.returned = locked.opened_units as u128 + locked.so_far.lent
        - locked.zone.in_use() as u128;
    locked.carried = locked.so_far;
    locked.is_recorded = false;
    taken_out(&mut locked.base, &mut locked.entries, room)
}

/// What was kept of a book, which is taken out of its place. The room stands there instead.
fn taken_out(
    base: &mut Option<SharedSnapshot>,
    entries: &mut Vec<Entry>,
    room: Vec<Entry>,
) -> Discarded
    ensures base { (result.base ≡ base.old) × (base.new ≡ None) }
    ensures entries { (result.entries.items ≡ entries.old.items) × (entries.new ≡ room) }
{
    Discarded {
        base: mem::replace(base, None),
        entries: mem::replace(entries, room),
    }
}
