//! Figures of a zone, and of the server that serves it.

/// The figures of a zone at one moment. Bandwidth is in units of 100 bit/s (H.225.0, BandWidth).
#[derive(Clone, Copy, Debug, PartialEq, Eq)]
pub struct ZoneFigures {
    /// The zone's clock: the milliseconds since it began to be served.
    pub clock: u64,
    /// How many steps were made.
    pub steps: u64,
    /// How many endpoints are registered.
    pub endpoints: usize,
    /// How many calls are open.
    pub calls: usize,
    /// How many replies are kept, or being made.
    pub kept: usize,
    /// The bandwidth in use: the sum over the open calls.
    pub in_use: u64,
    /// The most bandwidth that may be in use at one time.
    pub limit: u64,
}

/// What a server counted so far, beside the steps of its zone. A count at `u64::MAX` stays there.
#[derive(Clone, Copy, Debug, Default, PartialEq, Eq)]
pub struct ServerFigures {
    /// Datagrams that were received.
    pub received: u64,
    /// Replies that were sent.
    pub sent: u64,
    /// Replies that found no place on their way to the sender.
    pub dropped: u64,
    /// Steps that weren't made for want of memory.
    pub refused: u64,
    /// Receives that failed.
    pub receive_faults: u64,
    /// Sends that failed.
    pub send_faults: u64,
}
