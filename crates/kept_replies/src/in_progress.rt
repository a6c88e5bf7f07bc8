//! What a request that waits was told.

ghost use Rattle.std.specs.Prelude.{◌≡◌};
ghost use Rattle.std.specs.Cmp.{decided, partial_equiv_from_equiv};
ghost use Rattle.std.specs.Option.{option_copied};
ghost use Rattle.ras_module.specs.declared.reply.Reply.TheVariants.{Rip};
ghost use Rattle.ras_module.proofs.Deciding.{reply_decides};
ghost use Rattle.ras_writing.specs.Encoded.{same_reply};
ghost use Rattle.kept_replies.specs.Told.{identifier_in};

use crate::told_id::ToldId;
use ras_module::{Delay, Reply, RequestSeqNum};
use std::marker::Model;

/// A RequestInProgress (H.225.0). It takes a hundredth of the memory of a [`Reply`], and each kept
/// entry has room for one. Contracts see the reply.
#[derive(Drop)]
pub struct InProgress {
    seq: RequestSeqNum,
    delay: Delay,
}

impl Model for InProgress {
    ghost use Rattle.ras_module.specs.declared.reply.Reply.{Reply};
    ghost use Rattle.ras_module.specs.declared.reply.Reply.TheVariants.{Rip};

    ghost Value = { Reply };

    ghost view = { λ p. Rip p.seq p.delay };
}

impl InProgress {
    /// The reply to the request with this number: do not ask again for the time `delay`.
    pub fn new(seq: RequestSeqNum, delay: Delay) -> Self
        ensures { result ≡ Rip seq delay }
    {
        InProgress { seq, delay }
    }

    /// The reply.
    pub fn reply(&self) -> Reply
        ensures { result ≡ self.now }
    {
        Reply::Rip {
            seq: self.seq,
            delay: self.delay,
        }
    }

    /// The identifier that it tells an endpoint: none, since it is no RegistrationConfirm.
    pub(crate) fn identifier(&self) -> Option<&ToldId>
        ensures { option_copied result ≡ identifier_in self.now }
    {
        // with a look at a field, the prover takes the reply for what it is
        let _seq = self.seq;
        None
    }

    /// An equal reply.
    pub(crate) fn copy(&self) -> Self
        ensures { result ≡ self.now }
    {
        InProgress {
            seq: self.seq,
            delay: self.delay,
        }
    }
}

impl PartialEq for InProgress {
    ghost eq = { same_reply };

    ghost laws = { partial_equiv_from_equiv (decided same_reply reply_decides) };

    fn eq(&self, other: &Self) -> bool {
        self.seq == other.seq && self.delay == other.delay
    }
}

impl Eq for InProgress {
    ghost laws = { decided same_reply reply_decides };
}
