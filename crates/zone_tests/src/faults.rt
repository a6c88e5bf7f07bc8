//! The numbers of faults, and the messages of those of pools.

use history::WorldFault;
use pools::{PoolFault, ReplaceFault};
use ras_core::{ConfigFault, NewFault, StepFault};
use std::test::Fail;

#[test]
fn faults_have_their_numbers(rt: HostRuntime) {
    let numbers = [
        ("a key", ConfigFault::OutOfRange("zone.limit").number(), 1),
        ("no default pool", ConfigFault::NoDefaultPool.number(), 2),
        ("wrong pools", NewFault::WrongPools.number(), 1),
        ("memory for a zone", NewFault::Memory.number(), 2),
        ("memory for a step", StepFault::Memory.number(), 1),
        ("a closed zone", StepFault::Closed.number(), 2),
        ("memory for an act", WorldFault::Memory.number(), 1),
        ("a closed world", WorldFault::Closed.number(), 2),
    ];
    for (row, found, number) in numbers {
        assert!(rt; found == number, "{row}");
    }
}

#[test]
fn faults_of_pools_have_numbers_and_messages(rt: HostRuntime) -> Result<(), Fail> {
    for (fault, number, message) in [
        (PoolFault::Empty, 1, "there is no pool"),
        (PoolFault::TooMany, 2, "there are more than 16 pools"),
        (
            PoolFault::NotIdle,
            3,
            "a pool is not idle: it has units lent, or has counted 2^62 refusals or waits",
        ),
    ] {
        assert!(rt; fault.number() == number);
        assert!(rt; format!(in rt.alloc(); "{fault}")?.as_str() == message);
    }
    for (fault, number, message) in [
        (ReplaceFault::Closed, 1, "no more changes are taken"),
        (ReplaceFault::NoPool, 2, "there is no pool at this index"),
        (
            ReplaceFault::NotIdle,
            3,
            "the fresh pool is not idle: it has units lent, or has counted 2^62 refusals or waits",
        ),
        (
            ReplaceFault::NotLent,
            4,
            "the fresh pool does not lend what the pool in the set has lent",
        ),
        (ReplaceFault::Memory, 5, "there is no memory"),
    ] {
        assert!(rt; fault.number() == number);
        assert!(rt; format!(in rt.alloc(); "{fault}")?.as_str() == message);
    }
    Ok(())
}
