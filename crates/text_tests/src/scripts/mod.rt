//! Tests of scripts and outcomes: what is read and written, wrong pools, and streams that fail.

mod fixtures;
mod outcome_lines;
mod outcomes;
mod printing;
mod reading;
mod replacing;
mod running;
