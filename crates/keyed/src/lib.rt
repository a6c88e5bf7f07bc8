//! What the tables share: definitions of finite maps, and lemmas. There are lemmas for each way to
//! store rows that have keys of their own.
//!
//! proved: definitions and lemmas alone
#![tactic(auto)]
