//! What stands in a zone: its endpoints with their aliases, and its calls with their legs.

use facts::ensure_of;
use pools::Pool;
use ras_core::Zone;
use ras_module::{Address, Alias};
use std::alloc::Global;
use std::test::Fail;

/// The identifiers 0001, 0002 and 0003.
pub const FIRST: [u16; 4] = [48, 48, 48, 49];

pub const SECOND: [u16; 4] = [48, 48, 48, 50];

pub const THIRD: [u16; 4] = [48, 48, 48, 51];

/// The aliases 101, 102 and 109.
pub const ONE: [u16; 3] = [49, 48, 49];

pub const TWO: [u16; 3] = [49, 48, 50];

pub const NINE: [u16; 3] = [49, 48, 57];

/// An endpoint, once for each of its aliases: its identifier, the last number of its two addresses,
/// the alias, when its time to live ends, and when it was heard.
pub type Holder = ([u16; 4], u8, [u16; 3], u64, u64);

/// 0001 with the alias 101 and 0002 with 102, as they came.
pub const AS_THEY_CAME: [Holder; 2] = [(FIRST, 5, ONE, 60_000, 0), (SECOND, 6, TWO, 60_000, 0)];

/// A leg of a call that has its units of the second pool: each octet of the call's key, its units,
/// the identifier of the endpoint, and the last number of the address that it was told to call.
pub type Leg = (u8, u64, [u16; 4], u8);

/// The digits of an identifier, if there are four.
fn four_of(text: &[u16]) -> [u16; 4] {
    match text {
        [a, b, c, d] => [*a, *b, *c, *d],
        _ => [0; 4],
    }
}

/// The digits of an alias, if there are three.
fn three_of(alias: &Alias) -> [u16; 3] {
    match alias {
        Alias::Digits(digits) => match digits.as_slice() {
            [a, b, c] => [*a, *b, *c],
            _ => [0; 3],
        },
        Alias::H323Id(_) => [0; 3],
    }
}

/// The last number of the address 10.0.0.LAST with this port.
fn last_of(address: &Address, port: u16) -> u8 {
    match address.ip {
        [10, 0, 0, last] if address.port == port => last,
        _ => 0,
    }
}

/// The endpoints of a zone, by rising identifier.
fn holders_of<P: Pool>(alloc: Global, zone: &Zone<P>) -> Result<Vec<Holder>, Fail> {
    let endpoints = zone.endpoints()?;
    let mut holders = Vec::new(alloc);
    for endpoint in endpoints.as_slice() {
        let identifier = four_of(endpoint.identifier.as_slice());
        let called = last_of(&endpoint.call_signal, 1720);
        let last = if last_of(&endpoint.ras, 1719) == called {
            called
        } else {
            0
        };
        for alias in endpoint.aliases.as_slice() {
            let alias = three_of(alias);
            holders.push((identifier, last, alias, endpoint.deadline, endpoint.heard))?;
        }
    }
    Ok(holders)
}

/// Finds these endpoints registered, and no other.
pub fn find_endpoints<P: Pool>(
    alloc: Global,
    zone: &Zone<P>,
    row: &str,
    expected: &[Holder],
) -> Result<(), Fail> {
    let holders = holders_of(alloc, zone)?;
    let are_found = holders.as_slice() == expected;
    drop(holders);
    ensure_of(row, are_found, "these endpoints are registered at the end")
}

/// The calls of a zone, by rising key.
fn legs_of<P: Pool>(alloc: Global, zone: &Zone<P>) -> Result<Vec<Leg>, Fail> {
    let calls = zone.calls()?;
    let mut legs = Vec::new(alloc);
    for (key, call) in calls.as_slice() {
        let [first, ..] = key.octets;
        let is_its_own = key.octets == [first; 16] && call.pool == 1;
        let octet = if is_its_own { first } else { 0 };
        for leg in call.legs.as_slice() {
            let identifier = four_of(leg.endpoint.as_slice());
            legs.push((
                octet,
                u64::from(call.units),
                identifier,
                last_of(&leg.told, 1720),
            ))?;
        }
    }
    Ok(legs)
}

/// Finds these calls open, and no other.
pub fn find_calls<P: Pool>(
    alloc: Global,
    zone: &Zone<P>,
    row: &str,
    expected: &[Leg],
) -> Result<(), Fail> {
    let legs = legs_of(alloc, zone)?;
    let are_found = legs.as_slice() == expected;
    drop(legs);
    ensure_of(row, are_found, "these calls are open at the end")
}
