//! What came of a run of a server.

ghost use Rattle.std.specs.Prelude.{◌≡◌};
ghost use Rattle.udp_server.specs.Faults.{serve_fault_number};

use books::{Chapter, Finished, Receipt};
use pools::Pool;
use thiserror::Error;

/// What came of a run. Each count stays at `u64::MAX` once it is there.
pub struct Report<P: Pool> {
    /// How many datagrams made a step.
    pub datagrams: u64,
    /// How many turns of the timers were made, idle ones too.
    pub turns: u64,
    /// In how many steps a fresh pool took the place of another one.
    pub changes: u64,
    /// How many replies were sent.
    pub sent: u64,
    /// How many replies found no place in their ring.
    pub dropped: u64,
    /// How many steps weren't made, those of orders too, and how many chapters didn't end, for want
    /// of memory.
    pub refused: u64,
    /// How many receives failed.
    pub receive_faults: u64,
    /// How many sends failed; their replies are lost.
    pub send_faults: u64,
    /// The zone as it is left, with its history since the last chapter.
    pub finished: Finished<P>,
    /// The latest chapters, in order.
    pub chapters: Vec<Chapter>,
    /// The receipts of all steps, seat by seat, if the plan asks for them.
    pub receipts: Vec<Receipt>,
    /// For each order, in their order, the pool's number and the pool that came back: true beside
    /// it, if that is the old one; false, if it is the fresh one, which didn't take its place.
    pub boxes: Vec<(usize, P, bool)>,
}

// Written by hand, so that whoever owns a report makes one call at each exit.
impl<P: Pool> Drop for Report<P> {
    fn drop(self) {
        let Report {
            datagrams: _,
            turns: _,
            changes: _,
            sent: _,
            dropped: _,
            refused: _,
            receive_faults: _,
            send_faults: _,
            finished: _,
            chapters: _,
            receipts: _,
            boxes: _,
        } = self;
    }
}

/// Why there is no report.
#[derive(Clone, Copy, PartialEq, Eq, Debug, Error)]
pub enum ServeFault {
    /// There has to be one seat more than receiving ends, and a clock for each seat.
    #[error("wrong counts")]
    WrongCounts,
    /// Memory is refused, or a thread.
    #[error("out of memory")]
    Memory,
    /// The lock didn't give its zone back.
    #[error("not finished")]
    NotFinished,
}

impl ServeFault {
    /// The number of the fault.
    pub fn number(&self) -> u8
        ensures { result ≡ serve_fault_number self.now }
    {
        match self {
            ServeFault::WrongCounts => 1,
            ServeFault::Memory => 2,
            ServeFault::NotFinished => 3,
        }
    }
}
