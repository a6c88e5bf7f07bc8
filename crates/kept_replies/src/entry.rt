//! What is kept of a reply.

ghost use Rattle.std.specs.Prelude.{◌≡◌, IfOk};
ghost use Rattle.std.specs.Option.{option_copied};
ghost use Rattle.kept_replies.specs.Kept.{is_over, is_retry, named_by};

use crate::in_progress::InProgress;
use crate::kept_reply::KeptReply;
use crate::told_id::ToldId;
use ras_module::Request;
use std::alloc::AllocError;

/// What is kept of the reply to a datagram. Moments are in milliseconds.
#[derive(PartialEq, Eq)]
pub struct KeptEntry {
    /// How many steps the gatekeeper had made before. No two entries share this number.
    pub born: u64,
    /// How far the request is.
    pub state: KeptState,
}

// By hand, so that it is one call where one is dropped.
impl Drop for KeptEntry {
    fn drop(self) {
        let KeptEntry { born: _, state: _ } = self;
    }
}

/// How far a request is.
#[derive(PartialEq, Eq, Drop)]
pub enum KeptState {
    /// It was answered, and the reply is kept until a moment.
    Done {
        reply: KeptReply,
        until: u64,
    },
    /// It was told to wait, by `reply` (H.225.0, RequestInProgress). It is served again at the
    /// moment `retry`, and at most `left` times in all; `left` is at least 1.
    Pending {
        request: Request,
        reply: InProgress,
        retry: u64,
        left: u64,
    },
}

impl KeptState {
    /// An equal state.
    pub fn copy(&self) -> Result<Self, AllocError>
        ensures { IfOk result (λ copy. copy ≡ self.now) }
    {
        match self {
            KeptState::Done { reply, until } => Ok(KeptState::Done {
                reply: reply.copy()?,
                until: *until,
            }),
            KeptState::Pending {
                request,
                reply,
                retry,
                left,
            } => Ok(KeptState::Pending {
                request: request.copy()?,
                reply: reply.copy(),
                retry: *retry,
                left: *left,
            }),
        }
    }
}

impl KeptEntry {
    /// Whether the time for which the reply is kept has ended.
    pub fn is_over(&self, now: u64) -> bool
        ensures { result ≡ is_over now self.now }
    {
        match &self.state {
            KeptState::Done { until, .. } => *until <= now,
            KeptState::Pending { .. } => false,
        }
    }

    /// Whether the moment has come at which the request is served again.
    pub fn is_retry(&self, now: u64) -> bool
        ensures { result ≡ is_retry now self.now }
    {
        match &self.state {
            KeptState::Done { .. } => false,
            KeptState::Pending { retry, .. } => *retry <= now,
        }
    }

    /// The identifier that it tells an endpoint, if its reply is a RegistrationConfirm.
    pub fn identifier(&self) -> Option<&ToldId>
        ensures { option_copied result ≡ named_by self.now }
    {
        match &self.state {
            KeptState::Done { reply, .. } => reply.identifier(),
            KeptState::Pending { reply, .. } => reply.identifier(),
        }
    }

    /// An equal entry.
    pub fn copy(&self) -> Result<Self, AllocError>
        ensures { IfOk result (λ copy. copy ≡ self.now) }
    {
        Ok(KeptEntry {
            born: self.born,
            state: self.state.copy()?,
        })
    }
}
