//! What is read of a script, and where reading ends.

use crate::printed::is_printed;
use crate::scripts::fixtures::script_of;
use facts::{all_hold, ensure, ensure_of};
use pools::PoolSpec;
use ras_core::ConfigParts;
use ras_module::Address;
use script::{Input, RunFault, Script, ScriptEvent, ScriptFault, read_script, write_event};
use std::alloc::{AllocError, Global};
use std::test::Fail;

/// Why a script isn't read that has this many of an octet, and how many are left of its input.
fn fault_and_rest(
    alloc: Global,
    octet: u8,
    size: usize,
) -> Result<(Option<ScriptFault>, usize), AllocError> {
    let script = vec![in alloc; octet; size]?;
    let mut input = Input::new(script.as_slice());
    let fault = read_script(alloc, &mut input).err();
    Ok((fault, input.into_reader().len()))
}

/// An octet, how many of it a script has, why it isn't read, and how many are left of its input.
const SIZES: [(u8, usize, ScriptFault, usize); 4] = [
    (b' ', 1_048_576, ScriptFault::NoZone, 0),
    (b' ', 1_048_577, ScriptFault::TooLong, 0),
    (b' ', 1_048_580, ScriptFault::TooLong, 3),
    (b'x', 1_048_577, ScriptFault::TooLong, 0),
];

#[test]
fn one_octet_past_the_limit_is_read(rt: HostRuntime) -> Result<(), Fail> {
    for (octet, size, fault, left) in SIZES {
        let told = fault_and_rest(rt.alloc(), octet, size)?;
        assert!(rt; told == (Some(fault), left), "{size} times {octet}");
    }
    Ok(())
}

/// Its settings are set each to another number; of those that are set twice the last one counts.
const SETTINGS: &[u8] = b"zone old 10.9.9.9:9

set limit 3000
set limit 1
set call_limit 2
set time_to_live 3
set endpoints 4
set calls 5
set kept 6
set window 7
set silence 8
set delay 9
set retries 10
 set  asks 011\x20
set ask_wait 12
set pool_turn 13
set least_grant 14
zone g\xC3\xA9 10.0.0.1:1719
at 0 from 10.0.0.5:1719
";

/// Each setting has the number that was set under its key last.
fn compare_settings(parts: &ConfigParts) -> Result<(), Fail> {
    all_hold(&[
        (parts.limit == 1, "limit is 1"),
        (parts.call_limit == 2, "call_limit is 2"),
        (parts.time_to_live == 3, "time_to_live is 3"),
        (parts.endpoints == 4, "endpoints is 4"),
        (parts.calls == 5, "calls is 5"),
        (parts.kept == 6, "kept is 6"),
        (parts.window == 7, "window is 7"),
        (parts.silence == 8, "silence is 8"),
        (parts.delay == 9, "delay is 9"),
        (parts.retries == 10, "retries is 10"),
        (parts.asks == 11, "asks is 11"),
        (parts.ask_wait == 12, "ask_wait is 12"),
        (parts.pool_turn == 13, "pool_turn is 13"),
        (parts.least_grant == 14, "least_grant is 14"),
    ])
}

#[test]
fn each_setting_has_its_key(rt: HostRuntime) -> Result<(), Fail> {
    let script = script_of(rt.alloc(), SETTINGS)?;
    compare_settings(script.config.parts())
}

/// The address of the zone.
const ADDRESS: Address = Address {
    ip: [10, 0, 0, 1],
    port: 1719,
};

/// Whether these are one pool of the limit 1.
fn is_one_pool(pools: &[PoolSpec]) -> bool {
    matches!(pools, [PoolSpec::Fixed { limit: 1 }])
}

/// A script names its zone last, and no pool.
fn compare_zone(script: &Script) -> Result<(), Fail> {
    let parts = script.config.parts();
    all_hold(&[
        (
            parts.identifier.as_slice() == [103, 233].as_slice(),
            "the zone has its last name",
        ),
        (parts.address == ADDRESS, "it has its last address"),
        (
            is_one_pool(script.pools.as_slice()),
            "it has one pool, of its limit",
        ),
        (
            parts.networks.as_slice() == [None].as_slice(),
            "this pool is for all addresses",
        ),
    ])
}

#[test]
fn a_zone_without_pools_has_one_of_its_limit(rt: HostRuntime) -> Result<(), Fail> {
    let script = script_of(rt.alloc(), SETTINGS)?;
    compare_zone(&script)
}

/// Events, at the ends of what a line may say.
const EVENTS: &[u8] = b"zone gk 10.0.0.1:1719
at 0012 from 255.0.0.05:65535 0aBf
turn 9007199254740991

at 9007199254740991 from 0.0.0.0:0 18
  turn   00\x20
replace 9007199254740991 18446744073709551615 fixed 0
  replace  0012 007  paced 2500 4294967295\x20
replace 0 018446744073709551615 step 1000000000000 64
";

/// The lines of these events.
const WRITTEN: &[u8] = b"at 12 from 255.0.0.5:65535 0ABF
turn 9007199254740991
at 9007199254740991 from 0.0.0.0:0 18
turn 0
replace 9007199254740991 18446744073709551615 fixed 0
replace 12 7 paced 2500 4294967295
replace 0 18446744073709551615 step 1000000000000 64
";

fn lines_of(alloc: Global, events: &[ScriptEvent]) -> Result<Vec<u8>, Fail> {
    let mut lines = Vec::new(alloc);
    for event in events {
        write_event(event, &mut lines)?;
    }
    Ok(lines)
}

/// The lines of the events of a script.
fn written_again(alloc: Global, text: &[u8]) -> Result<Vec<u8>, Fail> {
    let script = script_of(alloc, text)?;
    lines_of(alloc, script.events.as_slice())
}

#[test]
fn events_are_written_as_they_were_read(rt: HostRuntime) -> Result<(), Fail> {
    let lines = written_again(rt.alloc(), EVENTS)?;
    ensure(lines.as_slice() == WRITTEN, "events have these lines")
}

const SCRIPT_FAULTS: [(ScriptFault, u8, &str); 6] = [
    (ScriptFault::TooLong, 1, "input too long"),
    (ScriptFault::BadLine(7), 2, "line 7: not understood"),
    (ScriptFault::NoZone, 3, "no zone"),
    (ScriptFault::NoDefaultPool, 4, "no default pool"),
    (ScriptFault::Stream, 5, "stream failed"),
    (ScriptFault::Memory, 6, "out of memory"),
];

const RUN_FAULTS: [(RunFault, u8, &str); 5] = [
    (RunFault::Memory(0), 1, "out of memory"),
    (RunFault::Memory(3), 1, "step 3: out of memory"),
    (RunFault::Closed(4), 2, "step 4: closed"),
    (RunFault::Stream, 3, "stream failed"),
    (RunFault::WrongPools, 4, "wrong pools"),
];

/// Faults of scripts have these numbers and texts.
fn compare_script_faults(alloc: Global) -> Result<(), Fail> {
    for (fault, number, text) in SCRIPT_FAULTS {
        ensure_of(text, fault.number() == number, "it has its number")?;
        ensure_of(text, is_printed(alloc, &fault, text)?, "it has its text")?;
    }
    Ok(())
}

/// Faults of runs have these numbers and texts.
fn compare_run_faults(alloc: Global) -> Result<(), Fail> {
    for (fault, number, text) in RUN_FAULTS {
        ensure_of(text, fault.number() == number, "it has its number")?;
        ensure_of(text, is_printed(alloc, &fault, text)?, "it has its text")?;
    }
    Ok(())
}

#[test]
fn faults_have_numbers_and_texts(rt: HostRuntime) -> Result<(), Fail> {
    compare_script_faults(rt.alloc())?;
    compare_run_faults(rt.alloc())
}
