//! How a server runs.

ghost use Rattle.std.specs.Prelude.{◌≡◌};
ghost use Rattle.udp_server.specs.Plans.{has_history};

/// How a server runs.
#[derive(Clone, Copy)]
pub struct Plan {
    /// How many replies of each worker may wait to be sent: 1 to 4,096.
    pub ring: usize,
    /// After how many failed receives in a row a worker stops: 1 to 1,000.
    pub faults: u64,
    /// How long it is from one look at what is due to the next, in milliseconds: 1 to 60,000.
    pub tick: u64,
    /// With how many entries or more, after a turn, a chapter of the history ends; 0: none ends.
    pub chapter: usize,
    /// How many of the latest chapters the report has; those before are let go. If it has none, a
    /// chapter isn't made: its entries are let go, and the state of the zone isn't copied. If it
    /// has no receipts either, there are no entries: steps are made without a record.
    pub latest: usize,
    /// Whether the report has a receipt of each step.
    pub receipts: bool,
    /// Whether steps are recorded for one who takes their entries while the server runs, though the
    /// report has none of them. At most 65,536 entries wait to be taken; then no further step is
    /// recorded.
    pub hands_out: bool,
}

impl Plan {
    /// Whether steps are recorded: for receipts, for chapters that are kept, or for a history that
    /// isn't parted. Otherwise nothing is kept of a step but what it adds to the totals.
    pub(crate) fn is_recorded(&self) -> bool
        ensures { result ≡ has_history self.now }
    {
        self.receipts || self.chapter == 0 || self.latest > 0
    }
}
