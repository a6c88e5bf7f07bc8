//! Tests of a zone's lock with its history: seats, lists, chapters, and threads.

mod acts;
mod audits;
mod chapters;
mod discarding;
mod fixtures;
mod handing;
mod least_grant;
mod listing;
mod locks;
mod replacing;
mod seats;
mod threads;
mod turns;
mod unrecorded;
