//! Moments by which things are due, and which of them comes first.
//!
//! proved: a finite map, of which the earliest is told (`Deadlines`)
//! tested: long runs of changes
#![tactic(auto)]

mod due;
mod heap;
mod table;

pub use table::Deadlines;
