//! Tests of settings: keys of texts that give none, and the numbers of faults.

use crate::printed::is_printed;
use settings::{SettingsFault, unknown_keys};
use std::test::Fail;

#[test]
fn what_is_no_table_has_no_unknown_keys(rt: HostRuntime) {
    for text in ["", "zone = 1\nserve = 1\npool = [1]\n"] {
        let is_none = match unknown_keys(rt.alloc(), text) {
            Ok(unknown) => unknown.is_empty(),
            Err(_) => false,
        };
        assert!(rt; is_none, "{text}");
    }
}

#[test]
fn no_document_has_unknown_keys(rt: HostRuntime) {
    let is_syntax = match unknown_keys(rt.alloc(), "[zone") {
        Err(SettingsFault::Syntax(error)) => (error.line, error.column) == (1, 6),
        _ => false,
    };
    assert!(rt; is_syntax);
}

/// The faults but the first, with their numbers and what is printed of them.
const FAULTS: [(SettingsFault, u8, &str); 5] = [
    (
        SettingsFault::Missing("zone.address"),
        2,
        "2 Missing zone.address",
    ),
    (
        SettingsFault::WrongKind("pool.limit"),
        3,
        "3 WrongKind pool.limit",
    ),
    (
        SettingsFault::OutOfRange("serve.tick"),
        4,
        "4 OutOfRange serve.tick",
    ),
    (SettingsFault::NoDefaultPool, 5, "5 NoDefaultPool"),
    (SettingsFault::Memory, 6, "6 Memory"),
];

#[test]
fn a_fault_is_told_by_its_number_its_name_and_its_key(rt: HostRuntime) -> Result<(), Fail> {
    for (fault, number, text) in FAULTS {
        let is_told = is_printed(rt.alloc(), &fault, text)?;
        assert!(rt; is_told && fault.number() == number, "{text}");
    }
    Ok(())
}
