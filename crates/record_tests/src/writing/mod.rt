//! Tests of records that are written: each is audited.

mod entries;
mod failing;
mod fixtures;
mod whole;
mod zones;
