//! What stands behind the lock, and what is done with it by whoever holds it.

ghost use Rattle.std.specs.Prelude.{◌≡◌, ◌≤◌, ◌<◌, ◌+◌, ◌*◌, ◌^◌, ◌++◌, ◌∷◌, [], ◌↔◌, length};
ghost use Rattle.std.specs.Prelude.{IfOk, OnErr, OnOk, Err, vec_capacity, vec_len};
ghost use Rattle.ras_module.specs.declared.reply.TheConstants.Reply as reply_octets;
ghost use Rattle.ras_machine.specs.Machine.{most_steps};
ghost use Rattle.ras_core.specs.Runs.{RunningStep};
ghost use Rattle.zone_lock.specs.Held.{IsKept, entry_by, receipt_at};
ghost use Rattle.zone_lock.specs.Listings.{IsListing};
ghost use Rattle.zone_lock.specs.Seats.{seated_after};

use crate::ledgers::Ledgers;
use crate::listing::{Listing, listing_of};
use crate::order::{Order, ToldOrder};
use crate::seat::{Hall, Seat};
use books::{Entry, Receipt, SharedSnapshot, StepKind, Totals};
use pools::Pool;
use ras_core::{Change, Note, Outcome, Prepared, StepFault, Zone};
use std::alloc::AllocError;
use std::marker::Model;
use std::sync::ledger::Ledger;

/// A zone with the part of its history since the last chapter: the place of its first entry in the
/// whole history, the totals of the entries before it, the totals so far (units that come back are
/// counted when a chapter ends), the units that were in use when the zone was locked, the state in
/// which it begins, if a copy of it is kept, whether steps are recorded, its entries, the zone, and
/// the ledgers.
///
/// promise lock-keeps-a-run: Whenever the lock is free, all steps since the zone was put there are
/// a run to it; the book is its end, earlier totals are carried, and the ledgers have the history's
/// totals (`IsKept`, `IsInside`).
#[derive(Drop)]
pub struct Locked<P: Pool, D: Hall, T: Ledger, U: Ledger, V: Ledger> {
    pub(crate) first: usize,
    pub(crate) carried: Totals,
    pub(crate) so_far: Totals,
    pub(crate) opened_units: u64,
    pub(crate) base: Option<SharedSnapshot>,
    pub(crate) is_recorded: bool,
    pub(crate) entries: Vec<Entry>,
    pub(crate) zone: Zone<P>,
    pub(crate) ledgers: Ledgers<D, T, U, V>,
}

impl<P: Pool, D: Hall, T: Ledger, U: Ledger, V: Ledger> Model for Locked<P, D, T, U, V> {
    ghost use Rattle.std.specs.Coded.{codes};
    ghost use Rattle.std.specs.FinMap as map;
    ghost use Rattle.zone_lock.specs.Held.{Held, IsInside};
    ghost use Rattle.zone_lock.specs.Seats.{HavePartForEach};

    ghost Value = { Held };

    ghost coded = { Prim.hlevel (codes, map.code) };

    ghost view = { λ l. record {
      first = l.first;
      carried = l.carried;
      base = l.base;
      is_recorded = l.is_recorded;
      entries = l.entries.items;
      zone = l.zone;
    } };

    ghost invariant = { λ l. IsInside D.opened (record {
      first = l.first;
      carried = l.carried;
      base = l.base;
      is_recorded = l.is_recorded;
      entries = l.entries.items;
      zone = l.zone;
    }) l.so_far l.opened_units
        l.ledgers.datagrams.total l.ledgers.turns.total l.ledgers.lent.total
        l.ledgers.changes.total
        × HavePartForEach D.all D.parts T.parts U.parts V.parts };
}

/// Makes one step of the locked zone, which is the last entry afterwards, or changes nothing. It is
/// refused as Closed if and only if 2^62 steps were made. All memory is there before the step.
///
/// promise locked-step-is-one-entry: One step adds one entry, returns its receipt and raises the
/// seat's shares; at an error nothing changes (`entry_by`, `receipt_at`, `seated_after`).
pub fn apply_locked<P: Pool, D: Hall, T: Ledger, U: Ledger, V: Ledger>(
    locked: &mut Locked<P, D, T, U, V>,
    seat: &mut Seat<D, T, U, V>,
    prepared: Prepared,
) -> Result<Receipt, StepFault>
    ensures step { IfOk result (λ receipt.
        RunningStep locked.old.zone prepared receipt.outcome locked.new.zone) }
    ensures entry { IfOk result (λ receipt. locked.new.entries ≡ locked.old.entries
        ++ entry_by seat.old.number seat.old.calls (Change.Event prepared) receipt.outcome ∷ []) }
    ensures receipt { IfOk result (λ receipt. receipt
        ≡ receipt_at (locked.old.first + length locked.old.entries)
        (entry_by seat.old.number seat.old.calls (Change.Event prepared) receipt.outcome)) }
    ensures seat { IfOk result (λ receipt.
        seat.new ≡ seated_after seat.old (Change.Event prepared) receipt.outcome) }
    ensures first { locked.new.first ≡ locked.old.first }
    ensures carried { locked.new.carried ≡ locked.old.carried }
    ensures base { locked.new.base ≡ locked.old.base }
    ensures recorded { locked.new.is_recorded ≡ locked.old.is_recorded }
    ensures closed { (result ≡ Err StepFault.Closed)
        ↔ (locked.old.zone.state.steps ≡ most_steps) }
    ensures err { OnErr result (locked.new ≡ locked.old) }
    ensures err_seat { OnErr result (seat.new ≡ seat.old) }
    ensures kept { IsKept D.opened locked.new }
{
    match ToldOrder::new(*locked.entries.allocator(), prepared, seat) {
        Ok(ordered) => make_step(locked, seat, ordered),
        Err(_) => Err(fault_without_order(locked)),
    }
}

/// The step of an order, with its receipt, which tells this event.
pub(crate) fn make_step<P: Pool, D: Hall, T: Ledger, U: Ledger, V: Ledger>(
    locked: &mut Locked<P, D, T, U, V>,
    seat: &mut Seat<D, T, U, V>,
    ordered: ToldOrder,
) -> Result<Receipt, StepFault>
    requires kept { ordered.order.kept ≡ Change.Event ordered.order.prepared }
    requires told { ordered.told ≡ Change.Event ordered.order.prepared }
    requires empty { ordered.order.buffer.items ≡ [] }
    requires room { reply_octets.MOST ≤ vec_capacity ordered.order.buffer }
    ensures step { IfOk result (λ receipt.
        RunningStep locked.old.zone ordered.order.prepared receipt.outcome locked.new.zone) }
    ensures entry { IfOk result (λ receipt. locked.new.entries ≡ locked.old.entries
        ++ entry_by seat.old.number seat.old.calls (Change.Event ordered.order.prepared)
        receipt.outcome ∷ []) }
    ensures receipt { IfOk result (λ receipt. receipt
        ≡ receipt_at (locked.old.first + length locked.old.entries)
        (entry_by seat.old.number seat.old.calls (Change.Event ordered.order.prepared)
        receipt.outcome)) }
    ensures seat { IfOk result (λ receipt.
        seat.new ≡ seated_after seat.old (Change.Event ordered.order.prepared) receipt.outcome) }
    ensures first { locked.new.first ≡ locked.old.first }
    ensures carried { locked.new.carried ≡ locked.old.carried }
    ensures base { locked.new.base ≡ locked.old.base }
    ensures recorded { locked.new.is_recorded ≡ locked.old.is_recorded }
    ensures closed { (result ≡ Err StepFault.Closed)
        ↔ (locked.old.zone.state.steps ≡ most_steps) }
    ensures err { OnErr result (locked.new ≡ locked.old) }
    ensures err_seat { OnErr result (seat.new ≡ seat.old) }
    ensures before { IsKept D.opened locked.old }
    ensures kept { IsKept D.opened locked.new }
{
    let ToldOrder { order, told } = ordered;
    let (number, call) = (seat.number, seat.calls);
    let place = locked.first + locked.entries.len();
    let mut outcome = Outcome::noted(Note::Idle, None);
    enter_step(locked, seat, order, &mut outcome)?;
    Ok(Receipt {
        seat: number,
        call,
        place,
        event: told,
        outcome,
    })
}

/// The step of an order, which is the last entry afterwards. Its outcome is made where the caller
/// wants it; the entry has a copy. After a refusal what stands in place of the outcome means
/// nothing.
pub(crate) fn enter_step<P: Pool, D: Hall, T: Ledger, U: Ledger, V: Ledger>(
    locked: &mut Locked<P, D, T, U, V>,
    seat: &mut Seat<D, T, U, V>,
    order: Order,
    outcome: &mut Outcome,
) -> Result<(), StepFault>
    requires kept { order.kept ≡ Change.Event order.prepared }
    requires empty { order.buffer.items ≡ [] }
    requires room { reply_octets.MOST ≤ vec_capacity order.buffer }
    ensures step { OnOk result
        (RunningStep locked.old.zone order.prepared outcome.new locked.new.zone) }
    ensures entry { OnOk result (locked.new.entries ≡ locked.old.entries
        ++ entry_by seat.old.number seat.old.calls (Change.Event order.prepared)
        outcome.new ∷ []) }
    ensures seat { OnOk result
        (seat.new ≡ seated_after seat.old (Change.Event order.prepared) outcome.new) }
    ensures first { locked.new.first ≡ locked.old.first }
    ensures carried { locked.new.carried ≡ locked.old.carried }
    ensures base { locked.new.base ≡ locked.old.base }
    ensures recorded { locked.new.is_recorded ≡ locked.old.is_recorded }
    ensures closed { (result ≡ Err StepFault.Closed)
        ↔ (locked.old.zone.state.steps ≡ most_steps) }
    ensures err { OnErr result (locked.new ≡ locked.old) }
    ensures err_seat { OnErr result (seat.new ≡ seat.old) }
    ensures before { IsKept D.opened locked.old }
    ensures kept { IsKept D.opened locked.new }
{
    let Order {
        prepared,
        kept,
        buffer,
    } = order;
    step_with_room(&mut locked.zone, &mut locked.entries, prepared, outcome)?;
    let kind = StepKind::of(&kept);
    seat.enter(&mut locked.entries, kept, outcome, buffer);
    locked.so_far = locked.so_far.with_step(kind, outcome.answer);
    locked.ledgers.count(seat, kind, outcome.answer);
    Ok(())
}

/// Makes the step of a zone, once there is room for its entry. After a refusal what stands in place
/// of the outcome means nothing.
fn step_with_room<P: Pool>(
    zone: &mut Zone<P>,
    entries: &mut Vec<Entry>,
    prepared: Prepared,
    outcome: &mut Outcome,
) -> Result<(), StepFault>
    ensures step { OnOk result (RunningStep zone.old prepared outcome.new zone.new) }
    ensures room { OnOk result (vec_len entries.new < vec_capacity entries.new) }
    ensures entries { entries.new.items ≡ entries.old.items }
    ensures closed { (result ≡ Err StepFault.Closed) ↔ (zone.old.state.steps ≡ most_steps) }
    ensures err { OnErr result (zone.new ≡ zone.old) }
{
    match make_room(zone, entries) {
        Ok(()) => zone.step_into(prepared, outcome),
        Err(fault) => {
            drop(prepared);
            Err(fault)
        }
    }
}

/// Makes room for the entry of a step, unless as many steps were made as there may be.
fn make_room<P: Pool>(zone: &Zone<P>, entries: &mut Vec<Entry>) -> Result<(), StepFault>
    ensures room { OnOk result (vec_len entries.new < vec_capacity entries.new) }
    ensures entries { entries.new.items ≡ entries.old.items }
    ensures closed { (result ≡ Err StepFault.Closed) ↔ (zone.now.state.steps ≡ most_steps) }
{
    if zone.is_closed() {
        return Err(StepFault::Closed);
    }
    entries.reserve(1)?;
    Ok(())
}

/// Why no step is made if there is no memory for what it needs: as many steps were made as there
/// may be, or that want of memory alone.
pub(crate) fn fault_without_order<P: Pool, D: Hall, T: Ledger, U: Ledger, V: Ledger>(
    locked: &Locked<P, D, T, U, V>,
) -> StepFault
    ensures closed { (result ≡ StepFault.Closed)
        ↔ (locked.now.zone.state.steps ≡ most_steps) }
    ensures kept { IsKept D.opened locked.now }
{
    if locked.zone.is_closed() {
        StepFault::Closed
    } else {
        StepFault::Memory
    }
}

/// Lists what the locked zone has.
pub fn list_locked<P: Pool, D: Hall, T: Ledger, U: Ledger, V: Ledger>(
    locked: &Locked<P, D, T, U, V>,
) -> Result<Listing, AllocError>
    ensures listing { IfOk result (λ listing. IsListing locked.now.zone.state listing) }
    ensures kept { IsKept D.opened locked.now }
{
    listing_of(&locked.zone)
}
