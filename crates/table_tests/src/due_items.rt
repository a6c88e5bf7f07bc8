//! What is due by the tables, and from which moment on.

use crate::fixtures::{
    Change, add, address, all_hold_of, alter, datagram, endpoint, keep_confirm, leg, open, pend,
    registration,
};
use admission::Calls;
use expiry::{DueItem, Times, due};
use facts::{all_hold, ensure};
use kept_replies::Kept;
use ras_module::CallKey;
use registrations::Registrations;
use std::alloc::Global;
use std::test::Fail;

const TIMES: Times = Times {
    silence: 30_000,
    asks: 3,
    ask_wait: 5000,
};

/// A moment that doesn't come.
const NEVER: u64 = u64::MAX;

const FIRST: u8 = b'1';

const CALL: CallKey = CallKey { octets: [17; 16] };

/// The tables of a zone.
#[derive(Drop)]
struct Tables {
    endpoints: Registrations,
    calls: Calls,
    kept: Kept,
}

/// Tables of four places each.
fn tables_of_four(alloc: Global) -> Tables {
    Tables {
        endpoints: Registrations::new(alloc, 4),
        calls: Calls::new(alloc, 4),
        kept: Kept::new(alloc, 4),
    }
}

/// Registers one endpoint.
fn register(alloc: Global, table: &mut Registrations, deadline: u64) -> Result<(), Fail> {
    let new = registration(alloc, endpoint(FIRST), address(5), deadline)?;
    let is_added = matches!(add(table, new, &[]), Some(Ok(_)));
    ensure(is_added, "the endpoint is registered")
}

/// Opens a call in which it takes part.
fn open_call(calls: &mut Calls) -> Result<(), Fail> {
    let opened = open(calls, CALL, 0, 1280, leg(FIRST, 5));
    ensure(opened == Some(Ok(())), "the call is opened")
}

/// When a request that waits is served again.
const RETRY: u64 = 1_500;

/// When a kept reply is over.
const OVER: u64 = 10_000;

/// When the pools' turn is due.
const TURN: u64 = 1_400;

/// When a registration is over.
const END: u64 = 60_000;

/// What is due at this moment, where the pools have their turn at that one.
fn due_at(tables: &Tables, now: u64, turn: u64) -> Option<DueItem> {
    let Tables {
        endpoints,
        calls,
        kept,
    } = tables;
    due(endpoints, calls, kept, now, turn, &TIMES)
}

/// Looks what is due: nothing a moment before, and then this.
fn look(tables: &Tables, row: &str, moment: u64, item: DueItem) -> Result<(), Fail> {
    let before = due_at(tables, moment.saturating_sub(1), NEVER);
    let then = due_at(tables, moment, NEVER);
    all_hold_of(
        row,
        &[
            (before.is_none(), "nothing is due a moment before"),
            (then == Some(item), "it is due at its moment"),
        ],
    )
}

/// When a silent endpoint in a call is asked.
const QUESTIONS: [(&str, u64); 3] = [
    ("first question", 30_000),
    ("second question", 35_000),
    ("third question", 40_000),
];

/// Asks the endpoint at this moment, when that is due.
fn ask(tables: &mut Tables, row: &str, now: u64) -> Result<(), Fail> {
    let id = endpoint(FIRST);
    look(tables, row, now, DueItem::Interrogate(id))?;
    alter(&mut tables.endpoints, &id, Change::Ask(now))
}

/// Asks the endpoint three times.
fn ask_three_times(tables: &mut Tables) -> Result<(), Fail> {
    for (row, now) in QUESTIONS {
        ask(tables, row, now)?;
    }
    Ok(())
}

/// Asks an endpoint in a call, silent from the start, after 30 seconds, and twice more in steps of
/// 5 seconds. It counts as silent 5 seconds after the last question.
fn be_silent(alloc: Global, tables: &mut Tables) -> Result<(), Fail> {
    register(alloc, &mut tables.endpoints, NEVER)?;
    open_call(&mut tables.calls)?;
    ask_three_times(tables)?;
    let item = DueItem::Silent(endpoint(FIRST));
    look(tables, "silence", 45_000, item)
}

#[test]
fn a_silent_endpoint_in_a_call(rt: HostRuntime) -> Result<(), Fail> {
    be_silent(rt.alloc(), &mut tables_of_four(rt.alloc()))
}

/// Leaves an endpoint that takes part in no call unasked until its registration is over.
fn leave_unasked(alloc: Global, tables: &mut Tables) -> Result<(), Fail> {
    register(alloc, &mut tables.endpoints, END)?;
    let item = DueItem::RegistrationOver(endpoint(FIRST));
    look(tables, "end of the registration", END, item)
}

#[test]
fn a_silent_endpoint_in_no_call(rt: HostRuntime) -> Result<(), Fail> {
    leave_unasked(rt.alloc(), &mut tables_of_four(rt.alloc()))
}

/// Lets a request wait, whose retry is due then.
fn wait(alloc: Global, tables: &mut Tables) -> Result<(), Fail> {
    let key = datagram(alloc, &[])?;
    pend(alloc, &mut tables.kept, key, 3, RETRY, 3)?;
    look(tables, "retry", RETRY, DueItem::Retry(3))
}

#[test]
fn a_request_that_waits(rt: HostRuntime) -> Result<(), Fail> {
    wait(rt.alloc(), &mut tables_of_four(rt.alloc()))
}

/// Keeps a reply, which is due to go when it is over.
fn keep_until_over(alloc: Global, tables: &mut Tables) -> Result<(), Fail> {
    keep_confirm(alloc, &mut tables.kept, &[], 7, 5, OVER)?;
    look(tables, "end of the reply", OVER, DueItem::KeptOver(5))
}

#[test]
fn a_reply_that_is_over(rt: HostRuntime) -> Result<(), Fail> {
    keep_until_over(rt.alloc(), &mut tables_of_four(rt.alloc()))
}

#[test]
fn the_turn_of_the_pools(rt: HostRuntime) -> Result<(), Fail> {
    let tables = tables_of_four(rt.alloc());
    let early = due_at(&tables, TURN - 1, TURN);
    let then = due_at(&tables, TURN, TURN);
    all_hold(&[
        (
            early != Some(DueItem::PoolTurn),
            "no turn is due a moment before",
        ),
        (
            then == Some(DueItem::PoolTurn),
            "the turn is due at its moment",
        ),
    ])
}
