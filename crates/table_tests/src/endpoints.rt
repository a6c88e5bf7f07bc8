//! The registrations of endpoints.

use crate::fixtures::{
    Change, add, address, all_hold_of, alter, digits, endpoint, enter, registration,
};
use facts::{all_hold, ensure, ensure_of};
use ras_module::{Address, AliasList, BmpString, EndpointId, ReplyAliases};
use registrations::{AddFault, Registration, RegistrationList, Registrations};
use std::alloc::Global;
use std::test::Fail;

/// An endpoint that comes, by its name: the last number of its address, and the last digit of the
/// identifier that it gets, unless the table is full.
type Newcomer = (&'static str, u8, Option<u8>);

const FIRST_THREE: [Newcomer; 3] = [
    ("first endpoint", 1, Some(b'1')),
    ("second endpoint", 2, Some(b'2')),
    ("third endpoint", 3, Some(b'3')),
];

const FOURTH: [Newcomer; 1] = [("fourth endpoint", 4, Some(b'4'))];

const LAST_TWO: [Newcomer; 2] = [
    ("fifth endpoint", 5, Some(b'5')),
    ("sixth endpoint", 6, None),
];

/// What is answered to an endpoint at this address, where these identifiers are taken.
fn answer_to(
    table: &mut Registrations,
    alloc: Global,
    last: u8,
    taken: &[EndpointId],
) -> Result<Option<Result<EndpointId, AddFault>>, Fail> {
    let new = registration(alloc, endpoint(b'9'), address(last), 10)?;
    Ok(add(table, new, taken))
}

/// Adds an endpoint, where these identifiers are taken.
fn add_one(
    table: &mut Registrations,
    alloc: Global,
    taken: &[EndpointId],
    newcomer: &Newcomer,
) -> Result<(), Fail> {
    let (name, last, given) = *newcomer;
    let expected = match given {
        Some(digit) => Ok(endpoint(digit)),
        None => Err(AddFault::Full),
    };
    let answer = answer_to(table, alloc, last, taken)?;
    ensure_of(
        name,
        answer == Some(expected),
        "it gets this identifier, or the table is full",
    )
}

/// Adds these endpoints, where these identifiers are taken.
fn add_all(
    table: &mut Registrations,
    alloc: Global,
    taken: &[EndpointId],
    newcomers: &[Newcomer],
) -> Result<(), Fail> {
    for newcomer in newcomers {
        add_one(table, alloc, taken, newcomer)?;
    }
    Ok(())
}

/// The identifier of who is registered at the address that ends so.
fn found_at(table: &Registrations, last: u8) -> Option<EndpointId> {
    match table.by_address(address(last)) {
        Some(row) => Some(row.identifier),
        None => None,
    }
}

/// Removes an endpoint. Its address for call signalling, if it was registered.
fn remove(table: &mut Registrations, id: &EndpointId) -> Option<Address> {
    match table.remove(id) {
        Some(gone) => Some(gone.call_signal),
        None => None,
    }
}

/// Removes the second of three endpoints, once.
fn remove_second(table: &mut Registrations) -> Result<(), Fail> {
    let second = endpoint(b'2');
    let are_three = table.len() == 3;
    let is_found = found_at(table, 2) == Some(second);
    let gone = remove(table, &second);
    let again = remove(table, &second);
    all_hold(&[
        (are_three, "three endpoints are registered"),
        (is_found, "the second one is found by its address"),
        (gone == Some(address(2)), "the second endpoint goes"),
        (again.is_none(), "it goes once"),
    ])
}

/// Looks which identifiers are unused: the second one again, unless it is taken.
fn look_for_unused(table: &Registrations) -> Result<(), Fail> {
    let (first, second) = (endpoint(b'1'), endpoint(b'2'));
    let (fourth, fifth) = (endpoint(b'4'), endpoint(b'5'));
    all_hold(&[
        (table.unused(&[]) == fourth, "4 is the next identifier"),
        (
            table.unused(&[fourth, second]) == fifth,
            "5 is, if 4 and 2 are taken",
        ),
        (!table.is_unused(&first, &[]), "1 is used"),
        (table.is_unused(&second, &[]), "2 is unused again"),
        (
            !table.is_unused(&second, &[second]),
            "2 isn't unused if it is taken",
        ),
    ])
}

/// Counts identifiers from one on, over an endpoint that goes, until the table of four is full. The
/// identifier of the one that went isn't handed out.
fn count(table: &mut Registrations, alloc: Global) -> Result<(), Fail> {
    table.reserve(4)?;
    add_all(table, alloc, &[], &FIRST_THREE)?;
    remove_second(table)?;
    look_for_unused(table)?;
    add_all(table, alloc, &[endpoint(b'2')], &FOURTH)?;
    add_all(table, alloc, &[], &LAST_TWO)
}

#[test]
fn identifiers_count_from_one(rt: HostRuntime) -> Result<(), Fail> {
    count(&mut Registrations::new(rt.alloc(), 4), rt.alloc())
}

/// The identifiers `0010`, `0002`, `00100` and `A`, each with the last number of an address.
const FOUR: [(&[u16], u8); 4] = [
    (&[48, 48, 49, 48], 1),
    (&[48, 48, 48, 50], 2),
    (&[48, 48, 49, 48, 48], 3),
    (&[65], 4),
];

/// Enters a registration, if neither it nor its address is registered.
fn insert(table: &mut Registrations, alloc: Global, text: &[u16], last: u8) -> Result<(), Fail> {
    let identifier = EndpointId::new(BmpString::new(text).ok_or("an identifier")?);
    enter(table, registration(alloc, identifier, address(last), 10)?)
}

/// Enters a registration with each of the four identifiers.
fn insert_four(table: &mut Registrations, alloc: Global) -> Result<(), Fail> {
    for (text, last) in FOUR {
        insert(table, alloc, text, last)?;
    }
    Ok(())
}

/// Whether these are the registrations at these addresses, in this order.
fn are_at(rows: &[Registration], order: &[u8]) -> bool {
    for (row, last) in rows.iter().zip(order) {
        if row.call_signal != address(*last) {
            return false;
        }
    }
    rows.len() == order.len()
}

/// Meets each of four registrations once, in whatever order.
fn meet_each(table: &Registrations) -> Result<(), Fail> {
    let mut seen = 0u64;
    for i in 0..4usize {
        match table.nth(i) {
            Some(r) => seen |= 1 << u64::from(r.call_signal.ip[3] % 8),
            None => return Err(Fail::from("each of four places has a registration")),
        }
    }
    all_hold(&[
        (seen == 30, "each registration is met once"),
        (table.nth(4).is_none(), "there is no fifth one"),
    ])
}

/// Enters registrations, lists them, and meets each.
fn insert_and_list(table: &mut Registrations, alloc: Global) -> Result<(), Fail> {
    insert_four(table, alloc)?;
    meet_each(table)?;
    let list = RegistrationList::from_vec(table.list()?.into_vec());
    ensure(
        are_at(list.as_slice(), &[2, 1, 3, 4]),
        "each registration comes once, and the identifiers rise",
    )
}

#[test]
fn listed_by_rising_identifier(rt: HostRuntime) -> Result<(), Fail> {
    insert_and_list(&mut Registrations::new(rt.alloc(), 20000), rt.alloc())
}

/// When the first endpoint's time to live is over, when the second one's is, and when the first
/// one's is once it is renewed.
const FIRST_END: u64 = 100;

const SECOND_END: u64 = 200;

const RENEWED_END: u64 = 300;

/// When the first endpoint is heard, and when it is asked.
const HEARD: u64 = 7;

const ASKED: u64 = 8;

/// A change by its name, and then when the registration ends, when it was heard, how often it was
/// asked, and when.
type Row = (&'static str, Change, u64, u64, u8, u64);

const RENEWED: [Row; 1] = [("renewed", Change::Renew(RENEWED_END), RENEWED_END, 0, 0, 0)];

const CHANGES: [Row; 3] = [
    ("heard", Change::Hear(HEARD), RENEWED_END, HEARD, 0, 0),
    ("asked", Change::Ask(ASKED), RENEWED_END, HEARD, 1, ASKED),
    ("calm", Change::Calm, RENEWED_END, HEARD, 0, ASKED),
];

/// Registers two endpoints with these ends.
fn register_two(table: &mut Registrations, alloc: Global) -> Result<(), Fail> {
    for (last, end) in [(1u8, FIRST_END), (2, SECOND_END)] {
        let new = registration(alloc, endpoint(b'9'), address(last), end)?;
        let is_added = matches!(add(table, new, &[]), Some(Ok(_)));
        ensure(is_added, "the endpoint is registered")?;
    }
    Ok(())
}

/// Compares an endpoint behind a change.
fn compare_changed(table: &Registrations, one: &EndpointId, row: &Row) -> Result<(), Fail> {
    let (name, _, end, heard, tries, asked) = *row;
    match table.get(one) {
        Some(found) => all_hold_of(
            name,
            &[
                (found.deadline == end, "its time to live ends then"),
                (found.heard == heard, "it was heard then"),
                (found.tries == tries, "it was asked so often"),
                (found.asked == asked, "it was asked then"),
            ],
        ),
        None => Err(Fail::from("the endpoint is registered")),
    }
}

/// Makes these changes of an endpoint.
fn make_changes(table: &mut Registrations, one: &EndpointId, rows: &[Row]) -> Result<(), Fail> {
    for row in rows {
        alter(table, one, row.1)?;
        compare_changed(table, one, row)?;
    }
    Ok(())
}

/// Whose time to live is over at this moment: any of them.
fn over(table: &Registrations, now: u64) -> Option<EndpointId> {
    match table.over(now) {
        Some(row) => Some(row.identifier),
        None => None,
    }
}

/// Renews the one that is over first, after which the other one is.
fn renew(table: &mut Registrations, one: &EndpointId, other: &EndpointId) -> Result<(), Fail> {
    let early = over(table, FIRST_END - 1);
    let first = over(table, FIRST_END);
    make_changes(table, one, &RENEWED)?;
    let next = over(table, RENEWED_END - 1);
    all_hold(&[
        (early.is_none(), "nobody is over a moment before"),
        (
            first == Some(*one),
            "the one with the earlier end is over first",
        ),
        (
            next == Some(*other),
            "the other one is over once the first is renewed",
        ),
    ])
}

/// Compares a copy of its registration with it.
fn compare_copy(table: &Registrations, one: &EndpointId) -> Result<(), Fail> {
    let Some(row) = table.get(one) else {
        return Err(Fail::from("the endpoint is registered"));
    };
    let copy = row.copy()?;
    ensure(
        copy.identifier == *one && copy.asked == ASKED && copy.aliases == row.aliases,
        "its copy has its identifier, its aliases and its moment",
    )
}

fn one_alias(alloc: Global) -> Option<ReplyAliases> {
    let alias = digits(&[49, 50])?;
    let mut list = AliasList::new(alloc);
    list.push(alias).ok()?;
    ReplyAliases::new(list).ok()?
}

/// Compares an endpoint that was rewritten.
fn compare_rewritten(table: &Registrations, one: &EndpointId) -> Result<(), Fail> {
    match table.get(one) {
        Some(r) => all_hold(&[
            (r.call_signal == address(1), "its call signal address stays"),
            (r.ras == address(9), "its RAS address is another"),
            (r.deadline == 400, "its end is another"),
            (r.aliases.as_slice().len() == 1, "it has an alias"),
        ]),
        None => Err(Fail::from("the endpoint is registered")),
    }
}

/// Gives an endpoint another RAS address, an alias and another end, and no other address.
fn rewrite(table: &mut Registrations, alloc: Global, one: &EndpointId) -> Result<(), Fail> {
    if table.get(one).is_none() {
        return Err(Fail::from("the endpoint is registered"));
    }
    let aliases = one_alias(alloc).ok_or("an alias")?;
    table.rewrite(one, address(9), aliases, 400);
    compare_rewritten(table, one)
}

/// Compares the other registration, and the next identifier.
fn compare_other(table: &Registrations, other: &EndpointId) -> Result<(), Fail> {
    match table.get(other) {
        Some(r) => all_hold(&[
            (r.ras == address(2), "the other one has its RAS address"),
            (r.deadline == SECOND_END, "the other one has its end"),
            (
                table.unused(&[]) == endpoint(b'3'),
                "3 is the next identifier",
            ),
        ]),
        None => Err(Fail::from("the other one is registered")),
    }
}

/// Renews, hears, asks and calms one of two registrations.
fn change_one(table: &mut Registrations, alloc: Global) -> Result<(), Fail> {
    let (one, other) = (endpoint(b'1'), endpoint(b'2'));
    register_two(table, alloc)?;
    renew(table, &one, &other)?;
    make_changes(table, &one, &CHANGES)
}

/// Rewrites it then. The other one stays, and the numbers go on as they would have.
fn change_and_rewrite(table: &mut Registrations, alloc: Global) -> Result<(), Fail> {
    let one = endpoint(b'1');
    change_one(table, alloc)?;
    rewrite(table, alloc, &one)?;
    compare_copy(table, &one)?;
    compare_other(table, &endpoint(b'2'))
}

#[test]
fn one_registration_changes(rt: HostRuntime) -> Result<(), Fail> {
    change_and_rewrite(&mut Registrations::new(rt.alloc(), 2), rt.alloc())
}
