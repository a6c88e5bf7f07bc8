//! Laws of all steps and runs, whatever code makes them. From a sound state each step leads to a
//! sound one. Nothing here makes a step.
//!
//! proved: each state of a run from a sound one is within the limit, if its moments are below 2^53
//! (`every_state_of_a_run_is_within_the_limit`)
#![tactic(auto)]

mod laws;

pub use laws::{
    each_step_leads_to_a_sound_state, every_state_between_two_sound_ones_is_within_the_limit,
    every_state_of_a_run_is_within_the_limit,
};
