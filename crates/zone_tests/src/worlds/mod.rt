//! Tests of worlds: orders in which workers act, full rings, and refusals. Two calls come that
//! their pool can't carry together.

mod acts;
mod orders;
mod refusals;
mod replacing;
