//! Tests of recorded steps. The book of a worked call is run again, and each change of an entry is
//! found.

mod accepted;
mod changes;
mod recorded;
