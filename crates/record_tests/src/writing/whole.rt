//! Records that are written to their end, or up to their bound.

use crate::writing::fixtures::{
    Call, LINES_OF_THE_ZONE, STEPS, audited, empty_record, record_call, record_within,
};
use record_audit::Audited;
use recording::{End, Recorded};
use std::alloc::Global;
use std::test::Fail;

/// What the audit of a record of these steps comes to, behind which other lines stand.
fn of_steps(steps: u64, others: u64) -> Audited {
    Audited {
        steps,
        lines: LINES_OF_THE_ZONE
            .saturating_add(steps.saturating_mul(2))
            .saturating_add(others),
        is_cut_off: false,
    }
}

#[test]
fn a_record_passes_its_audit(rt: HostRuntime) -> Result<(), Fail> {
    let (text, call) = record_within(rt.alloc(), u64::MAX)?;
    assert!(rt; call.count(Some(Recorded::Written)) == STEPS);
    assert!(rt; audited(rt.alloc(), &text) == Ok(of_steps(7, 0)));
    let head = b"zone gk 10.0.0.1:1719\nset limit 3000\nset call_limit 2000\n";
    assert!(rt; text.starts_with(head));
    let step = b"\npool fixed 2500\nat 0 from 10.0.0.5:1719 ";
    assert!(rt; text.windows(step.len()).any(|part| part == step.as_slice()));
    Ok(())
}

/// The last line of a full record.
fn last_line(alloc: Global, steps: usize, most: usize) -> Result<String, Fail> {
    Ok(format!(in alloc;
        "# the record ends here: it has {steps} steps, and another would pass its bound of {most} octets\n"
    )?)
}

/// How many steps the record of a call has within a bound that cuts it off. It is the front of the
/// whole record with a last line, and passes its audit.
fn ended_steps(alloc: Global, whole: &[u8], most: usize) -> Result<u64, Fail> {
    let (text, call) = record_within(alloc, most as u64)?;
    let steps = call.count(Some(Recorded::Written));
    let line = last_line(alloc, steps, most)?;
    if !text.ends_with(line.as_bytes()) {
        return Err("the last line of a full record".into());
    }
    let front = &text[..text.len().saturating_sub(line.len())];
    if front.len() > most || !whole.starts_with(front) {
        return Err("the front of the record".into());
    }
    let audited = audited(alloc, &text).map_err(|_| "a record that passes")?;
    if audited.steps != steps as u64 || audited.is_cut_off {
        return Err("as many steps as were written".into());
    }
    Ok(audited.steps)
}

/// Whether one step filled a record, and none was written behind it; but for the zone's lines.
fn ends_once(call: &Call) -> bool {
    let full = call.count(Some(Recorded::Ended(End::Full)));
    let steps = call.count(Some(Recorded::Written)).saturating_add(full);
    full <= 1 && steps.saturating_add(call.count(Some(Recorded::Closed))) == STEPS
}

#[test]
fn a_record_ends_at_its_bound(rt: HostRuntime) -> Result<(), Fail> {
    let (whole, _) = record_within(rt.alloc(), u64::MAX)?;
    let all = whole.len();
    let (same, _) = record_within(rt.alloc(), all as u64)?;
    assert!(rt; same == whole);
    assert!(rt; ended_steps(rt.alloc(), &whole, all.saturating_sub(1))? == 6);
    for most in [0, 1, 100, 300, 500, 700, 900, 1_100, 1_300] {
        let steps = ended_steps(rt.alloc(), &whole, most)?;
        assert!(rt; steps < 7, "{most}");
        let (_, call) = record_within(rt.alloc(), most as u64)?;
        assert!(rt; ends_once(&call), "{most}");
    }
    Ok(())
}

/// How many steps a record tells before a call and behind it. None: it isn't open.
fn steps_told(alloc: Global) -> Result<Option<(u64, u64)>, Fail> {
    let mut record = empty_record(alloc, Vec::new(alloc), u64::MAX)?;
    if !record.is_open() {
        return Ok(None);
    }
    let before = record.steps();
    record_call(alloc, &mut record)?;
    Ok(Some((before, record.steps())))
}

#[test]
fn a_record_tells_how_far_it_is(rt: HostRuntime) -> Result<(), Fail> {
    let told = steps_told(rt.alloc())?;
    assert!(rt; told == Some((0, 7)));
    Ok(())
}
