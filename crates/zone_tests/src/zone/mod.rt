//! Tests of the zone, with pools that count their calls.

mod calls;
mod endpoints;
mod least_grant;
mod replacing;
mod requests;
mod runs;
mod settings;
mod standing;
mod steps;
mod turns;
mod waiting;
