//! The aliases that endpoints hold.

use crate::fixtures::{address, all_hold_of, digits, endpoint};
use aliases::{AliasTable, SetFault};
use facts::{ensure, ensure_of};
use ras_module::{Alias, BmpString, EndpointId};
use std::alloc::{AllocError, Global};
use std::test::Fail;

fn named(text: &[u16]) -> Option<Alias> {
    Some(Alias::H323Id(BmpString::new(text)?))
}

/// The aliases `1`, `2`, `3` and `4`.
fn four_digits() -> Result<[Alias; 4], Fail> {
    let one = digits(&[49]).ok_or("digits")?;
    let two = digits(&[50]).ok_or("digits")?;
    let three = digits(&[51]).ok_or("digits")?;
    let four = digits(&[52]).ok_or("digits")?;
    Ok([one, two, three, four])
}

/// Enters an alias of this endpoint at this address. Why it isn't entered: the alias comes back.
fn fault_of(
    table: &mut AliasTable,
    alias: &Alias,
    holder: u8,
    last: u8,
) -> Result<Option<SetFault>, Fail> {
    match table.set(*alias, endpoint(holder), address(last)) {
        Ok(()) => Ok(None),
        Err((back, fault)) => {
            ensure(back == *alias, "the alias comes back")?;
            Ok(Some(fault))
        }
    }
}

/// Enters these aliases, each of this endpoint at this address.
fn set_each(table: &mut AliasTable, aliases: &[(Alias, u8, u8)]) -> Result<(), Fail> {
    for (alias, holder, last) in aliases {
        let fault = fault_of(table, alias, *holder, *last)?;
        ensure(fault.is_none(), "the alias is entered")?;
    }
    Ok(())
}

fn holder_of(table: &AliasTable, alias: &Alias) -> Option<EndpointId> {
    match table.holder(alias) {
        Some(holder) => Some(*holder),
        None => None,
    }
}

/// Finds each of these aliases held by this endpoint, or by none.
fn find_holders(table: &AliasTable, aliases: &[(&str, Alias, Option<u8>)]) -> Result<(), Fail> {
    for (name, alias, holder) in aliases {
        let expected = match holder {
            Some(last) => Some(endpoint(*last)),
            None => None,
        };
        let found = holder_of(table, alias);
        ensure_of(name, found == expected, "it has this holder, or none")?;
    }
    Ok(())
}

/// Finds these aliases, in this order, in conflict with an endpoint at this address.
fn find_conflicts(
    table: &AliasTable,
    asked: &[Alias],
    last: u8,
    expected: &[Alias],
) -> Result<(), Fail> {
    let held = table.conflicts(asked, address(last))?;
    ensure(
        held.as_slice() == expected,
        "these aliases are in conflict, in this order",
    )
}

/// An endpoint that enters an alias, and the last number of its address; and why it isn't entered.
type Entered = (&'static str, u8, u8, Option<SetFault>);

/// An alias is entered by an endpoint, in vain by another one, and again by the first one from
/// another address.
const ENTERED: [Entered; 3] = [
    ("first", b'1', 5, None),
    ("by another endpoint", b'2', 6, Some(SetFault::Duplicate)),
    ("from another address", b'1', 7, None),
];

/// Enters a number, of which this comes. Its first holder keeps it.
fn enter(table: &mut AliasTable, number: &Alias, row: &Entered) -> Result<(), Fail> {
    let (name, holder, last, expected) = *row;
    let fault = fault_of(table, number, holder, last)?;
    all_hold_of(
        name,
        &[
            (fault == expected, "a duplicate alone is refused"),
            (
                holder_of(table, number) == Some(endpoint(b'1')),
                "the first endpoint holds the number",
            ),
        ],
    )
}

/// Enters a number, which is in conflict at another address than its holder's alone. The same
/// characters as a name are another alias.
fn hold_once(table: &mut AliasTable, number: &Alias, name: &Alias) -> Result<(), Fail> {
    find_holders(table, &[("the number at first", *number, None)])?;
    for row in &ENTERED {
        enter(table, number, row)?;
    }
    find_holders(table, &[("the name", *name, None)])?;
    find_conflicts(table, &[*number], 7, &[])?;
    find_conflicts(table, &[*number], 5, &[*number])
}

#[test]
fn an_alias_has_one_holder(rt: HostRuntime) -> Result<(), Fail> {
    let number = digits(&[52, 55, 49, 49]).ok_or("digits")?;
    let name = named(&[52, 55, 49, 49]).ok_or("a name")?;
    hold_once(&mut AliasTable::new(rt.alloc()), &number, &name)
}

/// Finds the aliases of two endpoints in conflict in the order in which they are asked, and not
/// those at one's own address.
fn conflict_in_order(
    table: &mut AliasTable,
    one: &Alias,
    anna: &Alias,
    two: &Alias,
    three: &Alias,
) -> Result<(), Fail> {
    set_each(table, &[(*one, b'1', 1), (*anna, b'1', 1), (*two, b'2', 2)])?;
    let asked = [*two, *anna, *three, *one, *two];
    find_conflicts(table, &asked, 3, &[*two, *anna, *one, *two])?;
    find_conflicts(table, &asked, 2, &[*anna, *one])
}

#[test]
fn conflicts_stand_as_in_the_list(rt: HostRuntime) -> Result<(), Fail> {
    let [one, two, three, _four] = four_digits()?;
    let anna = named(&[97, 110, 110, 97]).ok_or("a name")?;
    let mut table = AliasTable::new(rt.alloc());
    conflict_in_order(&mut table, &one, &anna, &two, &three)
}

/// A table in which the first endpoint holds two aliases.
fn table_of_two(alloc: Global, one: &Alias, two: &Alias) -> Result<AliasTable, AllocError> {
    let mut table = AliasTable::new(alloc);
    table.reserve(2)?;
    table.set_all(&[*one, *two], endpoint(b'1'), address(1));
    Ok(table)
}

/// Drops a holder of two aliases that has entered a third one since, as another endpoint has: it goes
/// with its aliases, and with no other. They are free then.
fn drop_with_its_aliases(
    table: &mut AliasTable,
    own: &[Alias; 2],
    others: &[Alias; 2],
) -> Result<(), Fail> {
    let held = [
        ("its first alias", own[0], Some(b'1')),
        ("its second alias", own[1], Some(b'1')),
    ];
    let left = [
        ("the other endpoint's alias", others[0], Some(b'2')),
        ("its later alias", others[1], None),
        ("its first alias", own[0], None),
        ("its second alias", own[1], None),
    ];
    find_holders(table, &held)?;
    set_each(table, &[(others[0], b'2', 2), (others[1], b'1', 1)])?;
    table.drop_holder(&endpoint(b'1'));
    find_holders(table, &left)?;
    set_each(table, &[(own[0], b'3', 3)])
}

#[test]
fn a_holder_goes_with_all_its_aliases(rt: HostRuntime) -> Result<(), Fail> {
    let [one, two, three, four] = four_digits()?;
    let mut table = table_of_two(rt.alloc(), &one, &two)?;
    drop_with_its_aliases(&mut table, &[one, two], &[three, four])
}

/// Gives up the aliases of a list that are the endpoint's own: not its others, and none of another
/// endpoint.
fn give_up_its_own(
    table: &mut AliasTable,
    own: &[Alias; 2],
    other: &Alias,
    free: &Alias,
) -> Result<(), Fail> {
    set_each(table, &[(*other, b'2', 2)])?;
    table.drop_all(&[own[0], *other, *free], &endpoint(b'1'));
    let left = [
        ("its alias of the list", own[0], None),
        ("its other alias", own[1], Some(b'1')),
        ("the other endpoint's alias", *other, Some(b'2')),
    ];
    find_holders(table, &left)
}

#[test]
fn an_endpoint_gives_up_aliases_of_its_own(rt: HostRuntime) -> Result<(), Fail> {
    let [one, two, three, four] = four_digits()?;
    let mut table = table_of_two(rt.alloc(), &one, &two)?;
    give_up_its_own(&mut table, &[one, two], &three, &four)
}
