//! The tables' calls that take memory. If one is refused, its table is as it was, and the same call
//! with memory is done.

use admission::{CallFault, Calls, Leg};
use aliases::{AliasTable, SetFault};
use ras_module::{
    Address, Alias, AliasList, BmpString, CallKey, DialledDigits, EndpointId, ReplyAliases,
};
use registrations::{AddFault, Registration, Registrations};
use std::alloc::Global;

const CHANGED: &str = "a refused call changed its table";

const TWICE: &str = "a call of a table was refused twice";

const OTHERWISE: &str = "a table answered otherwise";

const KEYS: [CallKey; 2] = [CallKey { octets: [1; 16] }, CallKey { octets: [2; 16] }];

fn endpoint(last: u8) -> Result<EndpointId, &'static str> {
    let text = BmpString::new(&[48, 48, 48, u16::from(last)]).ok_or("no identifier")?;
    Ok(EndpointId::new(text))
}

fn digits(last: u8) -> Result<Alias, &'static str> {
    let text = BmpString::new(&[49, 50, u16::from(last)]).ok_or("no text")?;
    Ok(Alias::Digits(DialledDigits::new(text).ok_or("no digits")?))
}

fn address(last: u8) -> Address {
    Address {
        ip: [10, 0, 0, last],
        port: 1720,
    }
}

/// Who holds the one alias, and who the other.
fn holders(table: &AliasTable) -> Result<[Option<EndpointId>; 2], &'static str> {
    Ok([
        table.holder(&digits(b'1')?).copied(),
        table.holder(&digits(b'2')?).copied(),
    ])
}

fn set(table: &mut AliasTable, alias: Alias) -> Result<(), &'static str> {
    let holder = endpoint(b'1')?;
    let before = holders(table)?;
    match table.set(alias, holder, address(1)) {
        Ok(()) => Ok(()),
        Err((_, SetFault::Duplicate)) => Err(OTHERWISE),
        Err((alias, SetFault::Memory)) => {
            if holders(table)? != before {
                return Err(CHANGED);
            }
            table.set(alias, holder, address(1)).map_err(|_| TWICE)
        }
    }
}

/// An alias is entered, room is made, and the aliases that are in conflict are copied.
pub fn aliases(alloc: Global) -> Result<(), &'static str> {
    let mut table = AliasTable::new(alloc);
    let asked = [digits(b'2')?, digits(b'1')?];
    set(&mut table, asked[1])?;
    if table.reserve(8).is_err() {
        if holders(&table)? != [Some(endpoint(b'1')?), None] {
            return Err(CHANGED);
        }
        table.reserve(8).map_err(|_| TWICE)?;
    }
    let held = table
        .conflicts(&asked, address(2))
        .or_else(|_| table.conflicts(&asked, address(2)))
        .map_err(|_| TWICE)?;
    match held.as_slice() {
        [one] if *one == asked[1] => Ok(()),
        _ => Err(OTHERWISE),
    }
}

fn registration(alloc: Global, last: u8) -> Result<Registration, &'static str> {
    let mut list = AliasList::new(alloc);
    let alias = digits(last)?;
    if list.push(alias).is_err() {
        list.push(alias).map_err(|_| TWICE)?;
    }
    let Ok(Some(aliases)) = ReplyAliases::new(list) else {
        return Err(OTHERWISE);
    };
    Ok(Registration {
        identifier: endpoint(last)?,
        call_signal: address(last),
        ras: address(last),
        aliases,
        deadline: 0,
        heard: 0,
        tries: 0,
        asked: 0,
    })
}

/// Adds a registration at an address that nobody has.
fn add(table: &mut Registrations, alloc: Global) -> Result<Result<(), AddFault>, &'static str> {
    let registration = registration(alloc, b'1')?;
    if table.by_address(registration.call_signal).is_some() {
        return Err(OTHERWISE);
    }
    match table.add(registration, &[]) {
        Ok(_) => Ok(Ok(())),
        Err(fault) => Ok(Err(fault)),
    }
}

/// A registration is added, room is made, and the registrations are copied.
pub fn registrations(alloc: Global) -> Result<(), &'static str> {
    let mut table = Registrations::new(alloc, 20_000);
    if add(&mut table, alloc)?.is_err() {
        if table.len() != 0 || table.by_address(address(b'1')).is_some() {
            return Err(CHANGED);
        }
        add(&mut table, alloc)?.map_err(|_| TWICE)?;
    }
    if table.reserve(8).is_err() {
        if table.len() != 1 || table.by_address(address(b'1')).is_none() {
            return Err(CHANGED);
        }
        table.reserve(8).map_err(|_| TWICE)?;
    }
    let list = table.list().or_else(|_| table.list()).map_err(|_| TWICE)?;
    match list.as_slice() {
        [one] if one.call_signal == address(b'1') => Ok(()),
        _ => Err(OTHERWISE),
    }
}

/// Opens the call with a key that no call has.
fn open(calls: &mut Calls, key: CallKey) -> Result<Result<(), CallFault>, &'static str> {
    let leg = Leg {
        endpoint: endpoint(b'1')?,
        told: address(1),
    };
    if calls.get(&key).is_some() {
        return Err(OTHERWISE);
    }
    Ok(calls.open(key, 0, 1280, leg))
}

/// A call is opened, room is made, and the calls are copied.
pub fn calls(alloc: Global) -> Result<(), &'static str> {
    let mut calls = Calls::new(alloc, 20_000);
    if open(&mut calls, KEYS[0])?.is_err() {
        if calls.len() != 0 || calls.get(&KEYS[0]).is_some() {
            return Err(CHANGED);
        }
        open(&mut calls, KEYS[0])?.map_err(|_| TWICE)?;
    }
    if calls.reserve(8).is_err() {
        if calls.len() != 1 || calls.total() != 1280 {
            return Err(CHANGED);
        }
        calls.reserve(8).map_err(|_| TWICE)?;
    }
    let list = calls.list().or_else(|_| calls.list()).map_err(|_| TWICE)?;
    match list.as_slice() {
        [one] if one.0 == KEYS[0] => Ok(()),
        _ => Err(OTHERWISE),
    }
}
