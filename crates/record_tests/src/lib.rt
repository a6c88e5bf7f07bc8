//! Tests of records: what was recorded of a zone is audited, whole, cut off and in pieces, and so
//! is each record that is written.
#![tactic(auto)]

#[cfg(test)]
mod audits;
#[cfg(test)]
mod shared;
#[cfg(test)]
mod writing;
