//! Lines of outcomes, read and written again.

use script::{ShownOutcome, outcome_of, write_outcome};
use std::alloc::Global;
use std::test::Fail;

/// The line of an outcome, without its end.
fn line_of(alloc: Global, shown: &ShownOutcome) -> Result<Vec<u8>, Fail> {
    let mut out = Vec::new(alloc);
    write_outcome(shown.number as usize, &shown.outcome, &mut out)?;
    out.pop();
    Ok(out)
}

/// Whether a line shows an outcome whose line it is.
fn is_written_again(alloc: Global, line: &str) -> Result<bool, Fail> {
    let Some(shown) = outcome_of(alloc, line.as_bytes())? else {
        return Ok(false);
    };
    let again = line_of(alloc, &shown)?;
    Ok(again.as_slice() == line.as_bytes())
}

/// Lines of outcomes.
const LINES: [&str; 27] = [
    "1 served > 10.0.0.5:1719 400008",
    "3 served lent 1280 > 10.0.0.5:1719 2A000002",
    "5 served refused > 10.0.0.5:1719 2C000620",
    "6 served wait dropped 4 > 10.0.0.5:1719 2C000620",
    "7 kept > 255.255.255.255:65535 00",
    "8 ignored too-long",
    "9 ignored unreadable",
    "10 ignored not-served",
    "11 ignored busy",
    "12 ignored unknown-endpoint",
    "13 done registration-over 0001",
    "14 done interrogate 0001 > 10.0.0.5:1719 56",
    "15 done silent 0001",
    "16 done retry 18446744073709551615 lent 1",
    "17 done kept-over 0",
    "18 done pool-turn",
    "19 idle",
    "20 replaced 0",
    "21 replaced 18446744073709551615",
    "22 done kept-over 18446744073709551615",
    "23 done retry 0",
    "24 done retry 7 refused",
    "25 done retry 7 dropped 1280",
    "26 done retry 7 lent 4294967295 dropped 18446744073709551615",
    "27 served wait dropped 0 > 10.0.0.255:1719 0480AF",
    "28 served",
    "29 kept",
];

#[test]
fn lines_of_outcomes_are_written_as_they_were_read(rt: HostRuntime) -> Result<(), Fail> {
    for line in &LINES {
        let is_same = is_written_again(rt.alloc(), line)?;
        assert!(rt; is_same, "{line}");
    }
    Ok(())
}
