//! Tests of what a running zone tells, over the public calls of `zone_view`.

mod counts;
mod steps;
