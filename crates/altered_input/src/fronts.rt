//! A script that is cut at each of its octets.

use crate::counts::Counts;
use anyhow::{Result, bail};
use script::{Input, ScriptFault, read_script};
use std::alloc::Global;

/// Two endpoints register, one calls the other, and a turn is made.
const SCRIPT: &str = "zone gk 10.0.0.1:1719
set limit 3000
set call_limit 2000

pool step 2500 64 for 10.0.0.0/8
pool fixed 2500
at 0 from 10.0.0.5:1719 0C800001060008914A00020001000A00000506B801000A00000506B7\
    02000101004340B5000000
at 0 from 10.0.0.6:1719 0C800001060008914A00020001000A00000606B801000A00000606B7\
    02000101004350B5000000
at 20 from 10.0.0.5:1719 2680000200C0003000300030003101010043500101004344050000011\
    111111111111111111111111111111100E00100110011111111111111111111111111111111
turn 10000
";

/// What comes of the script's fronts.
#[derive(Drop)]
struct Readings {
    /// How many of them are scripts.
    scripts: u64,
    /// Why others are none.
    faults: Counts<ScriptFault>,
}

fn read_front(alloc: Global, front: &[u8], readings: &mut Readings) -> Result<()> {
    match read_script(alloc, &mut Input::new(front)) {
        Ok(_) => readings.scripts = readings.scripts.saturating_add(1),
        Err(fault @ (ScriptFault::Stream | ScriptFault::Memory)) => bail!("{fault}"),
        Err(fault) => readings.faults.add(fault)?,
    }
    Ok(())
}

/// Reads each front of the script, from none of its octets to all of them, and prints what came of
/// that.
pub fn try_all(rt: &impl Print, alloc: Global) -> Result<()> {
    let octets = SCRIPT.as_bytes();
    let mut readings = Readings {
        scripts: 0,
        faults: Counts::new(alloc),
    };
    for end in 0..=octets.len() {
        read_front(alloc, &octets[..end], &mut readings)?;
    }
    println!(rt; "a script of {} octets, cut at each of them", octets.len())?;
    println!(rt; "still a script: {}", readings.scripts)?;
    for (fault, count) in readings.faults.entries() {
        println!(rt; "{fault}: {count}")?;
    }
    Ok(())
}
