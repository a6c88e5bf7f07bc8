//! How long an endpoint in a call may be silent.

/// When an endpoint in a call is asked for a sign of life (H.225.0, InfoRequest), and how often.
/// Times are in milliseconds.
#[derive(Clone, Copy, Debug, PartialEq, Eq)]
pub struct Times {
    /// How long after it was heard it is asked.
    pub silence: u64,
    /// How often it is asked before it counts as silent.
    pub asks: u8,
    /// How long after a question it is asked again, or counts as silent.
    pub ask_wait: u64,
}
