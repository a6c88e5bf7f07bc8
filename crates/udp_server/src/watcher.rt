//! One who looks at a server while it runs.

use crate::history::RunningHistory;
use zone_view::RunningZone;

/// One who looks at a server while it runs, in a thread of its own. If the plan hands entries out,
/// one of those who look takes them.
pub trait Watcher: Drop {
    /// Looks at a zone until it is served no longer, or for as long as it wants. The server ends
    /// only after that.
    fn watch<Z: RunningZone + RunningHistory>(self, zone: &Z);
}

/// Nobody: `serve` and `serve_zone` name this type, and make none.
#[derive(Drop)]
pub struct NoWatcher;

impl Watcher for NoWatcher {
    fn watch<Z: RunningZone + RunningHistory>(self, _zone: &Z) {}
}
