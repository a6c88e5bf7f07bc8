//! Lists of a zone that tells rows in another order, and some of them twice.

use crate::pages::memory_zone::small_zone;
use facts::all_hold;
use ras_module::{CallKey, EndpointId};
use status_page::{CallList, EndpointList, calls_after, endpoints_after};
use std::alloc::Global;
use std::test::Fail;
use value_texts::name_of;
use zone_view::EndpointRow;

/// Whether a row is of the endpoint whose identifier is written so.
fn is_of(row: &EndpointRow, text: &str) -> bool {
    match name_of(text.as_bytes()) {
        Some(name) => row.identifier == EndpointId::new(name),
        None => false,
    }
}

/// Whether a list has these endpoints, in order.
fn has_endpoints(list: &EndpointList, texts: &[&str]) -> bool {
    list.rows.len() == texts.len()
        && list
            .rows
            .iter()
            .zip(texts)
            .all(|(row, text)| is_of(row, text))
}

/// Whether a list has the calls with these last octets, in order.
fn has_calls(list: &CallList, lasts: &[u8]) -> bool {
    list.rows.len() == lasts.len()
        && list
            .rows
            .iter()
            .zip(lasts)
            .all(|(row, last)| row.key.octets[15] == *last)
}

fn key(last: u8) -> CallKey {
    let mut octets = [0; 16];
    octets[15] = last;
    CallKey { octets }
}

/// Whether the first endpoints of the small zone, this many at most, are these, and whether there
/// are more.
fn lists_endpoints(
    alloc: Global,
    most: usize,
    texts: &[&str],
    is_more: bool,
) -> Result<bool, Fail> {
    let zone = small_zone(alloc)?;
    let list = endpoints_after(alloc, &zone, None, most)?;
    Ok(has_endpoints(&list, texts) && list.is_more == is_more)
}

const ALL: [&str; 5] = ["0001", "0002", "0003", "0004", "0005"];

#[test]
fn endpoints_rise_without_doubles(rt: HostRuntime) -> Result<(), Fail> {
    let alloc = rt.alloc();
    let all = lists_endpoints(alloc, 200, &ALL, false)?;
    let just = lists_endpoints(alloc, 5, &ALL, false)?;
    let none = lists_endpoints(alloc, 0, &[], true)?;
    all_hold(&[
        (all, "all endpoints rise"),
        (just, "a list has room for just these"),
        (none, "a list without room has none of them"),
    ])
}

/// Whether the calls of the small zone behind this one, this many at most, are these, and whether
/// there are more.
fn lists_calls(
    alloc: Global,
    after: Option<CallKey>,
    most: usize,
    lasts: &[u8],
    is_more: bool,
) -> Result<bool, Fail> {
    let zone = small_zone(alloc)?;
    let list = calls_after(alloc, &zone, after, most)?;
    Ok(has_calls(&list, lasts) && list.is_more == is_more)
}

#[test]
fn calls_rise_without_doubles(rt: HostRuntime) -> Result<(), Fail> {
    let alloc = rt.alloc();
    let all = lists_calls(alloc, None, 200, &[1, 2, 3], false)?;
    let first = lists_calls(alloc, None, 1, &[1], true)?;
    let others = lists_calls(alloc, Some(key(1)), 2, &[2, 3], false)?;
    let none = lists_calls(alloc, Some(key(3)), 2, &[], false)?;
    all_hold(&[
        (all, "all calls rise"),
        (first, "the first one stands before others"),
        (others, "the others stand behind it"),
        (none, "none stands behind the last one"),
    ])
}
