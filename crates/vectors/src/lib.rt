//! Worked messages, octet for octet. They were worked by hand from ITU-T H.225.0 and X.691, for
//! the tests of the crates above, which read them, write them and send them.
#![tactic(auto)]

pub mod replies;
pub mod requests;
