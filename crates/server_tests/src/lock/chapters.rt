//! Chapters that are cut from a history.

use crate::lock::acts::{Act, Row};
use crate::lock::audits::find_altered_chapters;
use crate::lock::fixtures::{Looked, Request, zone};
use crate::lock::locks::{Deed, Left, NOTHING, compare, make};

/// A step, a chapter, a step and two chapters follow one another.
const ROWS: [Row; 5] = [
    ("the first step", 0, Act::Apply(Request::Discovery, 0, 0)),
    ("a chapter of it", 0, Act::Cut(0, 1)),
    ("the second step", 0, Act::Apply(Request::Rejected, 1, 1)),
    ("a chapter of it alone", 0, Act::Cut(1, 1)),
    ("a chapter without a step", 0, Act::Cut(2, 0)),
];

/// What is left begins behind the chapters, with their totals.
const LEFT: Left = Left {
    first: 2,
    datagrams: 2,
    ..NOTHING
};

#[test]
fn chapters_follow_one_another(rt: HostRuntime) -> Looked {
    let alloc = rt.alloc();
    let mut made = make(&rt, alloc, zone(alloc), 1, Deed::Acts(&ROWS))?;
    let looked = compare(&made, &LEFT).and(find_altered_chapters(&mut made));
    drop(made);
    looked
}
