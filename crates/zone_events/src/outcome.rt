//! What comes of a step.

ghost use Rattle.std.specs.Prelude.{◌≡◌, ◌≤◌, [], IfSome, None, length, vec_capacity};
ghost use Rattle.zone_events.specs.Events.{cause_number, noted_outcome};

use crate::due_item::DueItem;
use pools::Lend;
use ras_module::{EndpointId, Octets, Source};

/// Octets that go to an address.
#[derive(PartialEq, Eq, Debug, Drop)]
pub struct Datagram {
    pub to: Source,
    pub bytes: Octets,
}

impl Datagram {
    /// An equal datagram, whose octets stand in this empty buffer. This takes no memory.
    pub fn copy_into(&self, buffer: Vec<u8>) -> Self
        requires empty { buffer.items ≡ [] }
        requires room { length self.now.bytes ≤ vec_capacity buffer }
        ensures { result ≡ self.now }
    {
        let mut bytes = buffer;
        bytes.extend_from_slice(self.bytes.as_slice()).unwrap();
        Datagram {
            to: self.to,
            bytes: Octets::from_vec(bytes),
        }
    }
}

/// Why a datagram was ignored: nothing is sent for it, and nothing but the clock and the number of
/// steps changes.
#[derive(Clone, Copy, Debug, PartialEq, Eq)]
pub enum IgnoredCause {
    /// It has more than 4,096 octets.
    TooLong,
    /// Its octets are no RAS message of the profile.
    Unreadable,
    /// It is a message that the gatekeeper doesn't serve.
    NotServed,
    /// The limit of kept replies is reached, and none of them is over.
    Busy,
    /// It is a sign of life of an endpoint that isn't registered.
    UnknownEndpoint,
}

impl IgnoredCause {
    /// The number of the cause.
    pub fn number(&self) -> u8
        ensures { result ≡ cause_number self.now }
    {
        match self {
            IgnoredCause::TooLong => 1,
            IgnoredCause::Unreadable => 2,
            IgnoredCause::NotServed => 3,
            IgnoredCause::Busy => 4,
            IgnoredCause::UnknownEndpoint => 5,
        }
    }
}

/// What happened in a step.
#[derive(Clone, Copy, PartialEq, Eq)]
pub enum Note {
    /// The datagram's request was served, or the endpoint's sign of life was heard.
    Served,
    /// The datagram came before: its kept reply was sent again.
    Kept,
    /// The datagram was ignored.
    Ignored(IgnoredCause),
    /// This was due, and was done.
    Done(DueItem),
    /// Nothing was due.
    Idle,
    /// A fresh pool took the place of the pool with this number.
    Replaced(usize),
}

/// What a step did: the answer of the pool that was asked; what is sent; what happened; the birth
/// of the kept entry that was dropped for a reply; and the identifier that was handed out to a new
/// endpoint.
#[derive(PartialEq, Eq)]
pub struct Outcome {
    pub answer: Option<Lend>,
    pub output: Option<Datagram>,
    pub note: Note,
    pub dropped: Option<u64>,
    pub given: Option<EndpointId>,
}

// By hand, so that it is one call where one is dropped.
impl Drop for Outcome {
    fn drop(self) {
        let Outcome {
            answer: _,
            output: _,
            note: _,
            dropped: _,
            given: _,
        } = self;
    }
}

impl Outcome {
    /// The outcome of a step in which no request was served.
    ///
    /// promise noted-outcome-has-nothing-else: Such an outcome has its note and what is sent, and
    /// nothing else (`noted_outcome`).
    pub fn noted(note: Note, output: Option<Datagram>) -> Self
        ensures { result ≡ noted_outcome note output }
    {
        Outcome {
            answer: None,
            output,
            note,
            dropped: None,
            given: None,
        }
    }

    /// Makes it the outcome of a step in which no request was served.
    pub fn be_noted(&mut self, note: Note, output: Option<Datagram>)
        ensures { self.new ≡ noted_outcome note output }
    {
        self.answer = None;
        self.output = output;
        self.note = note;
        self.dropped = None;
        self.given = None;
    }

    /// An equal outcome. The octets that are sent stand in this empty buffer. This takes no memory.
    pub fn copy_into(&self, buffer: Vec<u8>) -> Self
        requires empty { buffer.items ≡ [] }
        requires room { IfSome self.now.output
            (λ output. length output.bytes ≤ vec_capacity buffer) }
        ensures { result ≡ self.now }
    {
        let output = match &self.output {
            Some(output) => Some(output.copy_into(buffer)),
            None => None,
        };
        Outcome {
            answer: self.answer,
            output,
            note: self.note,
            dropped: self.dropped,
            given: self.given,
        }
    }

    /// The outcome of a step in which a datagram was ignored.
    pub fn ignored(cause: IgnoredCause) -> Self
        ensures { result ≡ noted_outcome (Note.Ignored cause) None }
    {
        Outcome::noted(Note::Ignored(cause), None)
    }
}
