//! Tests of the status page that no server can show: escapes, what requests ask for, lists over a
//! zone in memory, and the texts of its pages.

mod asking;
mod escaping;
mod lists;
mod memory_zone;
mod texts;
