//! Tests of audits: of a record up to where it is cut off, in pieces, and of a read that fails.

mod cut_off;
mod fixtures;
