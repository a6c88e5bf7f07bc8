//! What is told of a zone behind a lock to those who look at it: figures and rows, as many as there
//! is room for, so that the lock is held for a copy and no longer.

ghost use Rattle.std.specs.Prelude.{◌≡◌, ◌≤◌, ◌<◌, ◌+◌, ◌++◌, ◌∷◌, All, [], length, min};
ghost use Rattle.std.specs.Prelude.{IfSome, Some, vec_capacity, vec_len};
ghost use Rattle.std.specs.FinMap as map;
ghost use Rattle.admission.specs.Calls.{legs_of};
ghost use Rattle.zone_lock.specs.Held.{IsKept};
ghost use Rattle.zone_lock.specs.Views.{AreCallRowsBelow, AreEndpointRowsBelow, AreFigures};
ghost use Rattle.zone_lock.specs.Views.{IsCallRow, IsEndpointRow, endpoint_row};
ghost use Rattle.zone_lock.specs.Views.{first_of, row_in, second_of};

use crate::locked::Locked;
use crate::seat::Hall;
use admission::Call;
use pools::{Figures, Pool};
use ras_core::Zone;
use ras_module::EndpointId;
use registrations::Registration;
use std::sync::ledger::Ledger;
use zone_tables::ZoneTables;
use zone_view::{CallRow, EndpointRow, ShownAliases, ZoneFigures};

/// The figures of the locked zone. Those of its pools are put into `pools`, in order, which has
/// none yet, and room for 16.
pub fn figures_locked<P: Pool, D: Hall, T: Ledger, U: Ledger, V: Ledger>(
    locked: &Locked<P, D, T, U, V>,
    pools: &mut Vec<Figures>,
) -> ZoneFigures
    requires empty { pools.old.items ≡ [] }
    requires room { 16 ≤ vec_capacity pools.old }
    ensures figures { AreFigures locked.now.zone.state result pools.new.items }
    ensures kept { IsKept D.opened locked.now }
{
    figures_of_zone(&locked.zone, pools)
}

fn figures_of_zone<P: Pool>(zone: &Zone<P>, pools: &mut Vec<Figures>) -> ZoneFigures
    requires empty { pools.old.items ≡ [] }
    requires room { 16 ≤ vec_capacity pools.old }
    ensures figures { AreFigures zone.now.state result pools.new.items }
{
    let machine = zone.machine();
    let tables = machine.tables();
    pools.extend_from_slice(tables.pools().as_slice()).unwrap();
    ZoneFigures {
        clock: machine.clock().milliseconds(),
        steps: machine.steps(),
        endpoints: tables.registrations().len(),
        calls: tables.calls().len(),
        kept: machine.kept_len(),
        in_use: zone.in_use(),
        limit: tables.config().parts().limit,
    }
}

/// Puts rows of endpoints of the locked zone at places below this one into `rows`, which has none
/// yet, by falling places: as many as there is room for. Returns the place below which the next
/// ones stand; 0 if there are none.
pub fn endpoints_locked<P: Pool, D: Hall, T: Ledger, U: Ledger, V: Ledger>(
    locked: &Locked<P, D, T, U, V>,
    place: usize,
    rows: &mut Vec<EndpointRow>,
) -> usize
    requires empty { rows.old.items ≡ [] }
    ensures rows { All (IsEndpointRow locked.now.zone.state.tables) rows.new.items }
    ensures by_place { AreEndpointRowsBelow locked.now.zone.state.tables place rows.new.items result }
    ensures count { length rows.new.items + result
        ≡ min place (map.len locked.now.zone.state.tables.live) }
    ensures full { 0 < result → vec_len rows.new ≡ vec_capacity rows.new }
    ensures room { vec_capacity rows.new ≡ vec_capacity rows.old }
    ensures kept { IsKept D.opened locked.now }
{
    put_endpoints(locked.zone.machine().tables(), place, rows)
}

#[tactic(auto, using(crate::proofs::Numbered::no_rows, crate::proofs::Numbered::next_row, crate::proofs::Numbered::row_of_live))]
fn put_endpoints(tables: &ZoneTables, place: usize, rows: &mut Vec<EndpointRow>) -> usize
    requires empty { rows.old.items ≡ [] }
    ensures rows { All (IsEndpointRow tables.now) rows.new.items }
    ensures by_place { AreEndpointRowsBelow tables.now place rows.new.items result }
    ensures count { length rows.new.items + result ≡ min place (map.len tables.now.live) }
    ensures full { 0 < result → vec_len rows.new ≡ vec_capacity rows.new }
    ensures room { vec_capacity rows.new ≡ vec_capacity rows.old }
{
    let registrations = tables.registrations();
    let mut left = place.min(registrations.len());
    while left > 0 && rows.len() < rows.capacity() {
        left -= 1;
        let registration = registrations.nth(left).unwrap();
        rows.push_reserved(endpoint_row_of(tables, registration));
    }
    left
}

/// The row of an endpoint that is registered in these tables.
fn endpoint_row_of(tables: &ZoneTables, registration: &Registration) -> EndpointRow
    ensures { result ≡ row_in tables.now registration.now }
{
    let legs = tables.legs_of(&registration.identifier);
    endpoint_row(registration, legs)
}

/// The row of an endpoint that takes part in this many calls.
fn endpoint_row(registration: &Registration, legs: usize) -> EndpointRow
    ensures { result ≡ endpoint_row registration.now legs }
{
    let aliases = registration.aliases.as_slice();
    EndpointRow {
        identifier: registration.identifier,
        call_signal: registration.call_signal,
        ras: registration.ras,
        aliases: ShownAliases::first_of(aliases),
        alias_count: aliases.len(),
        legs,
        deadline: registration.deadline,
        heard: registration.heard,
    }
}

/// Puts rows of calls of the locked zone at places below this one into `rows`, which has none yet,
/// by falling places: as many as there is room for. Returns the place below which the next ones
/// stand; 0 if there are none.
pub fn calls_locked<P: Pool, D: Hall, T: Ledger, U: Ledger, V: Ledger>(
    locked: &Locked<P, D, T, U, V>,
    place: usize,
    rows: &mut Vec<CallRow>,
) -> usize
    requires empty { rows.old.items ≡ [] }
    ensures rows { All (IsCallRow locked.now.zone.state.tables) rows.new.items }
    ensures by_place { AreCallRowsBelow locked.now.zone.state.tables place rows.new.items result }
    ensures count { length rows.new.items + result
        ≡ min place (map.len locked.now.zone.state.tables.calls) }
    ensures full { 0 < result → vec_len rows.new ≡ vec_capacity rows.new }
    ensures room { vec_capacity rows.new ≡ vec_capacity rows.old }
    ensures kept { IsKept D.opened locked.now }
{
    put_calls(locked.zone.machine().tables(), place, rows)
}

#[tactic(auto, using(crate::proofs::Numbered::no_call_rows))]
fn put_calls(tables: &ZoneTables, place: usize, rows: &mut Vec<CallRow>) -> usize
    requires empty { rows.old.items ≡ [] }
    ensures rows { All (IsCallRow tables.now) rows.new.items }
    ensures by_place { AreCallRowsBelow tables.now place rows.new.items result }
    ensures count { length rows.new.items + result ≡ min place (map.len tables.now.calls) }
    ensures full { 0 < result → vec_len rows.new ≡ vec_capacity rows.new }
    ensures room { vec_capacity rows.new ≡ vec_capacity rows.old }
{
    let calls = tables.calls();
    let mut left = place.min(calls.len());
    while left > 0 && rows.len() < rows.capacity() {
        left -= 1;
        let (key, call) = calls.nth(left).unwrap();
        let (first, second): (EndpointId, Option<EndpointId>) = (first_of(call), second_of(call));
        rows.push_reserved(CallRow {
            key: *key,
            pool: call.pool,
            units: call.units,
            first,
            second,
        });
    }
    left
}

/// The endpoint that was admitted first.
fn first_of(call: &Call) -> EndpointId
    ensures { result ≡ first_of call.now.legs }
{
    call.legs.as_slice()[0].endpoint
}

/// The endpoint that joined a call.
fn second_of(call: &Call) -> Option<EndpointId>
    ensures { result ≡ second_of call.now.legs }
{
    match call.legs.as_slice() {
        [_, second] => Some(second.endpoint),
        _ => None,
    }
}
