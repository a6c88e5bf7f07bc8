//! The rows of some endpoints: the number of their legs, and when their silence ends.

use crate::fixtures::{address, endpoint, enter, has_leg_come, has_leg_gone, registration};
use facts::all_hold;
use ras_module::EndpointId;
use registrations::{Registrations, Times};
use std::alloc::Global;
use std::test::Fail;

const TIMES: Times = Times {
    silence: 30,
    asks: 1,
    ask_wait: 5,
};

const FIRST: u8 = b'1';

const SECOND: u8 = b'2';

/// When the silence of each ends, the first one heard at 20, and the second one at 10.
const FIRST_SILENT: u64 = 50;

const SECOND_SILENT: u64 = 40;

/// A moment behind all others.
const LATE: u64 = 999;

/// Registers an endpoint that was heard at this moment; once more if memory for it was refused.
fn register(table: &mut Registrations, alloc: Global, last: u8, heard: u64) -> Result<(), Fail> {
    if table.reserve(1).is_err() {
        table.reserve(1)?;
    }
    let mut new = registration(alloc, endpoint(last), address(last), 1000)?;
    new.heard = heard;
    enter(table, new)
}

/// Whether this endpoint alone is silent from this moment on.
fn is_silent_from(table: &Registrations, moment: u64, last: u8) -> bool {
    let is_silent = match table.silent(moment) {
        Some(r) => r.identifier == endpoint(last),
        None => false,
    };
    is_silent && table.silent(moment.saturating_sub(1)).is_none()
}

/// Counts two legs of an endpoint, of which one goes.
fn count_legs(table: &mut Registrations, id: &EndpointId) -> Result<(), Fail> {
    let have_come = has_leg_come(table, id) && has_leg_come(table, id);
    let has_gone = has_leg_gone(table, id);
    all_hold(&[
        (have_come && has_gone, "two legs come, and one of them goes"),
        (table.legs(id) == Some(1), "the endpoint has one leg"),
    ])
}

/// The silence of the first endpoint ends, if it alone has a leg.
fn be_silent_alone(table: &mut Registrations) -> Result<(), Fail> {
    let is_nobody = table.silent(LATE).is_none();
    count_legs(table, &endpoint(FIRST))?;
    all_hold(&[
        (is_nobody, "nobody in no call is silent"),
        (
            is_silent_from(table, FIRST_SILENT, FIRST),
            "the silence of the first endpoint ends",
        ),
    ])
}

/// The silence of the second endpoint ends before that, once it has a leg.
fn be_silent_before(table: &mut Registrations) -> Result<(), Fail> {
    let has_come = has_leg_come(table, &endpoint(SECOND));
    all_hold(&[
        (has_come, "a leg of the second endpoint comes"),
        (
            is_silent_from(table, SECOND_SILENT, SECOND),
            "its silence ends before that of the first one",
        ),
    ])
}

/// Removes an endpoint, whose place the other one takes: its silence still ends.
fn remove_first(table: &mut Registrations) -> Result<(), Fail> {
    let is_gone = table.remove(&endpoint(FIRST)).is_some();
    all_hold(&[
        (is_gone, "the first endpoint goes"),
        (table.legs(&endpoint(FIRST)).is_none(), "it has no legs"),
        (
            is_silent_from(table, SECOND_SILENT, SECOND),
            "the second one's silence ends",
        ),
    ])
}

/// Takes the last legs, after which nobody is silent.
fn take_legs(table: &mut Registrations) -> Result<(), Fail> {
    let id = endpoint(SECOND);
    if table.get(&id).is_some() {
        table.no_legs(&id);
    }
    all_hold(&[
        (table.legs(&id) == Some(0), "the second endpoint has no leg"),
        (table.silent(LATE).is_none(), "nobody is silent"),
    ])
}

/// Finds both endpoints with their legs and their silences in a copy.
fn compare_copy(copy: &Registrations) -> Result<(), Fail> {
    all_hold(&[
        (
            copy.legs(&endpoint(FIRST)) == Some(1),
            "the first endpoint has its leg in the copy",
        ),
        (
            is_silent_from(copy, SECOND_SILENT, SECOND),
            "the second one's silence ends in the copy",
        ),
    ])
}

/// Removes an endpoint from a table, whose copy keeps both.
fn remove_beside_a_copy(table: &mut Registrations) -> Result<(), Fail> {
    let copy = table.copy().or_else(|_| table.copy())?;
    remove_first(table)?;
    compare_copy(&copy)
}

/// Registers two endpoints, and changes their legs and their silences.
fn change_rows(table: &mut Registrations, alloc: Global) -> Result<(), Fail> {
    register(table, alloc, FIRST, 20)?;
    register(table, alloc, SECOND, 10)?;
    be_silent_alone(table)?;
    be_silent_before(table)?;
    remove_beside_a_copy(table)?;
    take_legs(table)
}

#[test]
fn a_row_has_its_legs_and_its_silence(rt: HostRuntime) -> Result<(), Fail> {
    let mut table = Registrations::with_times(rt.alloc(), 4, TIMES);
    change_rows(&mut table, rt.alloc())
}
