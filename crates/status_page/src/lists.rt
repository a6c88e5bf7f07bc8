//! Lists of a zone's endpoints and calls: some of them at a time, by rising keys.

ghost use Rattle.std.specs.Prelude.{◌≡◌, ◌<◌, ◌≤◌, All, IfOk, IfSome, IsTrue};
ghost use Rattle.std.specs.Prelude.{vec_capacity, vec_len};
ghost use Rattle.std.specs.Cmp.Lexicographic.{slice_cmp};
ghost use Rattle.std.specs.List.Sorted.{IsStrictlySortedBy};
ghost use Rattle.std.specs.Ordering.{nat_cmp};
ghost use Rattle.status_page.specs.Lists.{AreFirstCalls, AreFirstEndpoints, IsNearer, IsNextOf};
ghost use Rattle.status_page.specs.Lists.{call_keys_of, identifiers_of};
ghost use Rattle.status_page.specs.Lists.{is_call_after, is_endpoint_after};

use crate::keeping::{keep, values_of};
use ras_module::{CallKey, EndpointId};
use std::alloc::{AllocError, Global};
use std::collections::BTreeMap;
use zone_view::{CallRow, EndpointRow, RunningZone};

/// How many rows a zone is asked for at one time.
const ROWS_AT_ONCE: usize = 64;

/// Endpoints of a zone.
#[derive(Drop)]
pub struct EndpointList {
    pub rows: Vec<Box<EndpointRow>>,
    /// Whether the zone told more of them, behind the last one here.
    pub is_more: bool,
}

/// Calls of a zone.
#[derive(Drop)]
pub struct CallList {
    pub rows: Vec<Box<CallRow>>,
    /// Whether the zone told more of them, behind the last one here.
    pub is_more: bool,
}

/// The endpoints behind this one, or from the first one on, by rising identifiers: `most` at most.
/// One that stays while the zone tells them all isn't left out. One that comes or goes meanwhile
/// may be missing.
///
/// promise lists-are-of-told-rows: The rows are the first ones behind the given identifier of all
/// that the zone told, from its highest place down until it had no more, rising, at most as many as
/// asked for, and it is told whether there are more; likewise of calls (`AreFirstEndpoints`,
/// `AreAllRead`).
pub fn endpoints_after<Z: RunningZone>(
    alloc: Global,
    zone: &Z,
    after: Option<EndpointId>,
    most: usize,
) -> Result<EndpointList, AllocError>
    ensures rising { IfOk result (λ list.
        IsStrictlySortedBy (slice_cmp nat_cmp) (identifiers_of list.rows.items)) }
    ensures after { IfOk result (λ list.
        All (λ row. IsTrue (is_endpoint_after after row.value.identifier)) list.rows.items) }
    ensures told { IfOk result (λ list.
        All (λ row. Z.has_endpoint zone.now row.value) list.rows.items) }
    ensures most { IfOk result (λ list. vec_len list.rows ≤ most) }
    ensures first { IfOk result (AreFirstEndpoints (Z.has_endpoint zone.now)
        (Z.has_endpoints_below zone.now) after most) }
{
    let mut entries = BTreeMap::new(alloc);
    let mut told = Vec::with_capacity(alloc, ROWS_AT_ONCE)?;
    let mut place = usize::MAX;
    let mut is_more = false;
    while let Some(row) = next_endpoint(zone, &mut told, &mut place) {
        let key = row.identifier;
        if !is_endpoint_after(after, &key) {
            continue;
        }
        is_more |= keep(alloc, &mut entries, most, key, row)?;
    }
    Ok(EndpointList {
        rows: values_of(alloc, entries)?,
        is_more,
    })
}

/// The next row of an endpoint that a zone tells, below a place. None if there are no more. There
/// is room for rows: without it a zone tells none, though it may have some.
fn next_endpoint<Z: RunningZone>(
    zone: &Z,
    told: &mut Vec<EndpointRow>,
    place: &mut usize,
) -> Option<EndpointRow>
    requires told { All (Z.has_endpoint zone.now) told.old.items }
    requires room { 0 < vec_capacity told.old }
    ensures told { All (Z.has_endpoint zone.now) told.new.items }
    ensures room { vec_capacity told.new ≡ vec_capacity told.old }
    ensures row { IfSome result (Z.has_endpoint zone.now) }
    ensures nearer { IfSome result (λ _.
        IsNearer place.old (vec_len told.old) place.new (vec_len told.new)) }
    ensures next { IsNextOf (Z.has_endpoints_below zone.now)
        place.old told.old.items place.new told.new.items result }
{
    if told.is_empty() && *place > 0 {
        let below = zone.endpoints_below(*place, told);
        *place = below.min(*place - 1);
    }
    told.pop()
}

/// Whether an identifier stands behind this one, if there is one.
fn is_endpoint_after(after: Option<EndpointId>, key: &EndpointId) -> bool
    ensures { result ≡ is_endpoint_after after key.now }
{
    match after {
        Some(last) => last < *key,
        None => true,
    }
}

/// The calls behind this one, or from the first one on, by rising keys: `most` at most. One that
/// stays while the zone tells them all isn't left out; one that comes or goes meanwhile may be
/// missing.
pub fn calls_after<Z: RunningZone>(
    alloc: Global,
    zone: &Z,
    after: Option<CallKey>,
    most: usize,
) -> Result<CallList, AllocError>
    ensures rising { IfOk result (λ list.
        IsStrictlySortedBy (slice_cmp nat_cmp) (call_keys_of list.rows.items)) }
    ensures after { IfOk result (λ list.
        All (λ row. IsTrue (is_call_after after row.value.key)) list.rows.items) }
    ensures told { IfOk result (λ list.
        All (λ row. Z.has_call zone.now row.value) list.rows.items) }
    ensures most { IfOk result (λ list. vec_len list.rows ≤ most) }
    ensures first { IfOk result (AreFirstCalls (Z.has_call zone.now)
        (Z.has_calls_below zone.now) after most) }
{
    let mut entries = BTreeMap::new(alloc);
    let mut told = Vec::with_capacity(alloc, ROWS_AT_ONCE)?;
    let mut place = usize::MAX;
    let mut is_more = false;
    while let Some(row) = next_call(zone, &mut told, &mut place) {
        let key = row.key;
        if !is_call_after(after, &key) {
            continue;
        }
        is_more |= keep(alloc, &mut entries, most, key.octets, row)?;
    }
    Ok(CallList {
        rows: values_of(alloc, entries)?,
        is_more,
    })
}

/// The next row of a call that a zone tells, below a place. None if there are no more. There
/// is room for rows: without it a zone tells none, though it may have some.
fn next_call<Z: RunningZone>(
    zone: &Z,
    told: &mut Vec<CallRow>,
    place: &mut usize,
) -> Option<CallRow>
    requires told { All (Z.has_call zone.now) told.old.items }
    requires room { 0 < vec_capacity told.old }
    ensures told { All (Z.has_call zone.now) told.new.items }
    ensures room { vec_capacity told.new ≡ vec_capacity told.old }
    ensures row { IfSome result (Z.has_call zone.now) }
    ensures nearer { IfSome result (λ _.
        IsNearer place.old (vec_len told.old) place.new (vec_len told.new)) }
    ensures next { IsNextOf (Z.has_calls_below zone.now)
        place.old told.old.items place.new told.new.items result }
{
    if told.is_empty() && *place > 0 {
        let below = zone.calls_below(*place, told);
        *place = below.min(*place - 1);
    }
    told.pop()
}

/// Whether a key stands behind this one, if there is one.
fn is_call_after(after: Option<CallKey>, key: &CallKey) -> bool
    ensures { result ≡ is_call_after after key.now }
{
    match after {
        Some(last) => last.octets.cmp(&key.octets).is_lt(),
        None => true,
    }
}
