//! A history in which a loan went back in the step that took it.

use crate::lock::acts::{Act, Row};
use crate::lock::fixtures::{CALL, Looked, REST, Request, scarce_zone};
use crate::lock::locks::{Left, NOTHING, try_acts};

/// A first call has its units. A second one, for which the rest was lent, is denied.
const ROWS: [Row; 4] = [
    ("0001 registers", 0, Act::Apply(Request::First, 0, 0)),
    ("0002 registers", 0, Act::Apply(Request::Second, 1, 1)),
    ("the first call opens", 0, Act::Apply(Request::Call, 2, 2)),
    ("the second is denied", 0, Act::Apply(Request::Denied, 3, 3)),
];

/// The units of both calls count as lent, and those of the second one as returned. Those of the
/// first one are in use.
const LEFT: Left = Left {
    entries: 4,
    datagrams: 4,
    lent: CALL + REST,
    returned: REST,
    in_use: CALL,
    ..NOTHING
};

#[test]
fn a_loan_that_went_back_is_counted_as_lent_and_as_returned(rt: HostRuntime) -> Looked {
    let alloc = rt.alloc();
    try_acts(&rt, alloc, scarce_zone(alloc), 1, &ROWS, &LEFT)
}
