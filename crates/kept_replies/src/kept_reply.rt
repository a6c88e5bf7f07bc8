//! Replies as they are kept.

ghost use Rattle.std.specs.Prelude.{◌≡◌, ◌≤◌, [], IfOk, None, length, vec_capacity};
ghost use Rattle.std.specs.Cmp.{decided, partial_equiv_from_equiv};
ghost use Rattle.std.specs.Option.{option_copied};
ghost use Rattle.ras_module.proofs.Deciding.{reply_decides};
ghost use Rattle.ras_module.specs.declared.reply.Reply.TheVariants.{Rcf};
ghost use Rattle.ras_writing.specs.Encoded.{same_reply};
ghost use Rattle.ras_writing.specs.Properties.{ReadsBack};
ghost use Rattle.ras_writing.specs.Replies.{encoding_of};
ghost use Rattle.kept_replies.specs.Told.{identifier_in};

use crate::told_id::ToldId;
use ras_module::Reply;
use ras_writing::{EncodedReply, LentConfirm};
use std::alloc::{AllocError, Global};
use std::marker::Model;

/// A reply as it is kept: the octets that are sent again, and the identifier that they tell if it
/// is a RegistrationConfirm. Contracts see the reply.
pub struct KeptReply {
    encoded: EncodedReply,
    told: Option<ToldId>,
}

// By hand, so that it is one call where one is dropped.
impl Drop for KeptReply {
    fn drop(self) {
        let KeptReply {
            encoded: _,
            told: _,
        } = self;
    }
}

impl Model for KeptReply {
    ghost use Rattle.std.specs.Prelude.{◌≡◌};
    ghost use Rattle.ras_module.specs.declared.reply.Reply.{Reply};
    ghost use Rattle.kept_replies.specs.Told.{identifier_in};

    ghost Value = { Reply };

    ghost view = { λ r. r.encoded };

    ghost invariant = { λ r. r.told ≡ identifier_in r.encoded };
}

impl KeptReply {
    /// A reply for which these octets were written.
    pub fn new(alloc: Global, reply: &Reply, octets: &[u8]) -> Result<Self, AllocError>
        requires written { octets.now ≡ encoding_of reply.now }
        requires few { length octets.now ≤ Reply.MOST }
        requires reads_back { ReadsBack reply.now }
        ensures { IfOk result (λ kept. kept ≡ reply.now) }
    {
        let buffer = Vec::with_capacity(alloc, octets.len())?;
        let told = told_by(alloc, reply)?;
        Ok(KeptReply {
            encoded: EncodedReply::new(buffer, reply, octets),
            told,
        })
    }

    /// A RegistrationConfirm whose values are lent, for which these octets were written.
    pub fn of_confirm(
        alloc: Global,
        confirm: &LentConfirm<'_>,
        octets: &[u8],
    ) -> Result<Self, AllocError>
        requires written { octets.now ≡ encoding_of (Rcf confirm.now) }
        requires few { length octets.now ≤ Reply.MOST }
        requires reads_back { ReadsBack (Rcf confirm.now) }
        ensures { IfOk result (λ kept. kept ≡ Rcf confirm.now) }
    {
        let room = octets.len();
        let buffer = Vec::with_capacity(alloc, room)?;
        let told = ToldId::of(alloc, confirm.endpoint)?;
        Ok(KeptReply {
            encoded: EncodedReply::of_confirm(buffer, confirm, octets),
            told: Some(told),
        })
    }

    /// A reply that tells no identifier, for which these octets were written. They are copied into
    /// this empty buffer, which takes no memory.
    pub fn in_buffer(buffer: Vec<u8>, reply: &Reply, octets: &[u8]) -> Self
        requires empty { buffer.items ≡ [] }
        requires room { length octets.now ≤ vec_capacity buffer }
        requires bounded { vec_capacity buffer ≤ Reply.MOST }
        requires written { octets.now ≡ encoding_of reply.now }
        requires few { length octets.now ≤ Reply.MOST }
        requires reads_back { ReadsBack reply.now }
        requires untold { identifier_in reply.now ≡ None }
        ensures { result ≡ reply.now }
    {
        let encoded = EncodedReply::new(buffer, reply, octets);
        KeptReply {
            encoded,
            told: None,
        }
    }

    /// The octets that are sent for it.
    pub fn as_slice(&self) -> &[u8]
        ensures octets { result.now ≡ encoding_of self.now }
        ensures few { length result.now ≤ Reply.MOST }
    {
        self.encoded.as_slice()
    }

    /// The identifier that it tells an endpoint, if it is a RegistrationConfirm.
    pub(crate) fn identifier(&self) -> Option<&ToldId>
        ensures { option_copied result ≡ identifier_in self.now }
    {
        self.told.as_ref()
    }

    /// An equal reply.
    pub(crate) fn copy(&self) -> Result<Self, AllocError>
        ensures { IfOk result (λ copy. copy ≡ self.now) }
    {
        let told = match &self.told {
            Some(told) => Some(told.copy()?),
            None => None,
        };
        Ok(KeptReply {
            encoded: self.encoded.copy()?,
            told,
        })
    }
}

/// The identifier that a reply tells an endpoint, if it is a RegistrationConfirm.
fn told_by(alloc: Global, reply: &Reply) -> Result<Option<ToldId>, AllocError>
    ensures { IfOk result (λ told. told ≡ identifier_in reply.now) }
{
    match reply {
        Reply::Rcf(confirm) => Ok(Some(ToldId::of(alloc, &confirm.get().endpoint)?)),
        _ => Ok(None),
    }
}

impl PartialEq for KeptReply {
    ghost eq = { same_reply };

    ghost laws = { partial_equiv_from_equiv (decided same_reply reply_decides) };

    // what is told follows from the reply
    fn eq(&self, other: &Self) -> bool {
        self.encoded == other.encoded
    }
}

impl Eq for KeptReply {
    ghost laws = { decided same_reply reply_decides };
}
