//! Tests of pools and of sets of pools, with pools of its own. There are worked examples, pools
//! behind boxes, and what no contract says of them.

mod deeds;
mod kinds;
mod own_pool;
mod replacing;
mod sets;
