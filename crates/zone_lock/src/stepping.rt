//! A step of which nothing is recorded unless somebody keeps chapters or takes the entries.

ghost use Rattle.std.specs.Prelude.{◌≡◌, ◌↔◌, Err, OnErr, OnOk, true};
ghost use Rattle.ras_machine.specs.Machine.{most_steps};
ghost use Rattle.ras_core.specs.Runs.{RunningStep};
ghost use Rattle.zone_lock.specs.Held.{IsEntered, IsKept, entry_by, goes_on};
ghost use Rattle.zone_lock.specs.Seats.{seated_after};

use crate::locked::{Locked, enter_step, fault_without_order};
use crate::order::Order;
use crate::seat::{Hall, Seat};
use books::StepKind;
use pools::Pool;
use ras_core::{Change, Outcome, Prepared, StepFault};
use std::sync::ledger::Ledger;

/// How many entries may wait to be taken, if no chapter can be cut of them. With their octets they
/// take some 64 MiB.
const MOST_WAITING: usize = 65_536;

/// Makes one step of the locked zone, or changes nothing. Its outcome is made where the caller
/// wants it. Nothing else tells of the step: neither its event nor its outcome is copied, and the
/// entries so far are let go; their totals and its own are carried. But if steps are recorded,
/// since a chapter can be cut or somebody takes the entries, it is recorded as `apply_locked` does
/// it. If 65,536 entries wait to be taken, neither it nor any further step is. It is refused as
/// Closed if and only if 2^62 steps were made. After a refusal what stands in place of the outcome
/// means nothing.
///
/// promise unrecorded-step-is-in-the-history: The history grows by the step's entry, which stands
/// in no memory unless steps are recorded; at an error nothing changes (`IsEntered`, `goes_on`).
pub fn step_locked<P: Pool, D: Hall, T: Ledger, U: Ledger, V: Ledger>(
    locked: &mut Locked<P, D, T, U, V>,
    seat: &mut Seat<D, T, U, V>,
    prepared: Prepared,
    outcome: &mut Outcome,
) -> Result<(), StepFault>
    ensures step { OnOk result
        (RunningStep locked.old.zone prepared outcome.new locked.new.zone) }
    ensures entered { OnOk result (IsEntered D.opened locked.old
        (entry_by seat.old.number seat.old.calls (Change.Event prepared) outcome.new)
        locked.new) }
    ensures seat { OnOk result
        (seat.new ≡ seated_after seat.old (Change.Event prepared) outcome.new) }
    ensures closed { (result ≡ Err StepFault.Closed)
        ↔ (locked.old.zone.state.steps ≡ most_steps) }
    ensures err { OnErr result (locked.new ≡ locked.old) }
    ensures err_seat { OnErr result (seat.new ≡ seat.old) }
    ensures before { IsKept D.opened locked.old }
    ensures kept { IsKept D.opened locked.new }
{
    if goes_on(locked) {
        return step_recorded(locked, seat, prepared, outcome);
    }
    let kind = StepKind::of_prepared(&prepared);
    locked.zone.step_into(prepared, outcome)?;
    locked.so_far = locked.so_far.with_step(kind, outcome.answer);
    locked.so_far.returned = locked.opened_units as u128 + locked.so_far.lent
        - locked.zone.in_use() as u128;
    locked.carried = locked.so_far;
    locked.ledgers.count(seat, kind, outcome.answer);
    locked.first = locked.first + locked.entries.len() + 1;
    locked.entries.clear();
    locked.is_recorded = false;
    Ok(())
}

/// Whether a step is recorded.
fn goes_on<P: Pool, D: Hall, T: Ledger, U: Ledger, V: Ledger>(
    locked: &Locked<P, D, T, U, V>,
) -> bool
    ensures { result ≡ goes_on locked.now }
{
    locked.is_recorded && (locked.base.is_some() || locked.entries.len() < MOST_WAITING)
}

/// The step of a zone whose steps are recorded.
fn step_recorded<P: Pool, D: Hall, T: Ledger, U: Ledger, V: Ledger>(
    locked: &mut Locked<P, D, T, U, V>,
    seat: &mut Seat<D, T, U, V>,
    prepared: Prepared,
    outcome: &mut Outcome,
) -> Result<(), StepFault>
    requires { goes_on locked.old ≡ true }
    ensures step { OnOk result
        (RunningStep locked.old.zone prepared outcome.new locked.new.zone) }
    ensures entered { OnOk result (IsEntered D.opened locked.old
        (entry_by seat.old.number seat.old.calls (Change.Event prepared) outcome.new)
        locked.new) }
    ensures seat { OnOk result
        (seat.new ≡ seated_after seat.old (Change.Event prepared) outcome.new) }
    ensures closed { (result ≡ Err StepFault.Closed)
        ↔ (locked.old.zone.state.steps ≡ most_steps) }
    ensures err { OnErr result (locked.new ≡ locked.old) }
    ensures err_seat { OnErr result (seat.new ≡ seat.old) }
    ensures before { IsKept D.opened locked.old }
    ensures kept { IsKept D.opened locked.new }
{
    match Order::new(*locked.entries.allocator(), prepared, seat) {
        Ok(order) => enter_step(locked, seat, order, outcome),
        Err(_) => Err(fault_without_order(locked)),
    }
}
