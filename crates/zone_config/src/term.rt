//! For how long replies are kept.

/// Until when a reply is kept, and when and how often a request that waits is served again.
#[derive(Clone, Copy)]
pub struct Term {
    pub until: u64,
    pub retry: u64,
    pub times: u64,
}
