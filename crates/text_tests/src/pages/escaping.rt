//! Texts of strangers.

use escapes::{html, json_string, label};
use std::test::Fail;

/// Half of a pair, a pair (U+1F600), the second half, and a letter.
const HALVES: [u16; 5] = [0xD83D, 0xD83D, 0xDE00, 0xDE00, 0x61];

#[test]
fn halves_and_pairs_in_a_label(rt: HostRuntime) -> Result<(), Fail> {
    let mut text = String::from_str(rt.alloc(), "before ")?;
    label(&mut text, &HALVES)?;
    assert!(rt; text.as_str() == "before \u{FFFD}\u{1F600}\u{FFFD}a");
    Ok(())
}

#[test]
fn nothing_stays_nothing(rt: HostRuntime) -> Result<(), Fail> {
    let mut text = String::new(rt.alloc());
    html(&mut text, &[])?;
    json_string(&mut text, &[])?;
    label(&mut text, &[])?;
    assert!(rt; text.as_str() == "");
    Ok(())
}
