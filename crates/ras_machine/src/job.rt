//! Requests that are being served.

ghost use Rattle.std.specs.Prelude.{◌≡◌};
ghost use Rattle.ras_machine.specs.Keeping.{dropped_for, waits};
ghost use Rattle.ras_machine.specs.Machine.{note_at};

use kept_replies::KeptKey;
use pools::Lend;
use zone_events::{DueItem, Note};

/// A request that is being served, by the datagram that it came in.
#[derive(Drop)]
pub struct Job {
    pub key: KeptKey,
    pub occasion: Occasion,
}

/// When a request is served.
#[derive(Clone, Copy)]
pub enum Occasion {
    /// As it comes, and nothing is kept for its datagram. If its reply finds no place else, the
    /// kept entry with this birth is dropped.
    First { dropped: Option<u64> },
    /// As it comes. What is kept for its datagram doesn't answer it any more, and its reply takes
    /// that place.
    Anew,
    /// After a wait: its kept entry has this birth, and it is served `left` times more at most.
    Again { born: u64, left: u64 },
}

impl Occasion {
    /// What happened in a step in which a request was served so.
    pub fn note(self) -> Note
        ensures { result ≡ note_at self }
    {
        match self {
            Occasion::First { .. } | Occasion::Anew => Note::Served,
            Occasion::Again { born, .. } => Note::Done(DueItem::Retry(born)),
        }
    }

    /// The birth of the kept entry that is dropped.
    pub fn dropped(self) -> Option<u64>
        ensures { result ≡ dropped_for self }
    {
        match self {
            Occasion::First { dropped } => dropped,
            Occasion::Anew | Occasion::Again { .. } => None,
        }
    }

    /// Whether a request with this answer of its pool is to wait: not if it waited for the last
    /// time.
    pub fn waits(self, answer: Lend) -> bool
        ensures { result ≡ waits self answer }
    {
        match (answer, self) {
            (Lend::Wait, Occasion::First { .. } | Occasion::Anew) => true,
            (Lend::Wait, Occasion::Again { left, .. }) => 1 < left,
            _ => false,
        }
    }
}
