//! Replies that stand as their octets.

ghost use Rattle.std.specs.Prelude.{◌≡◌, ◌≤◌, ◌↔◌, [], IfOk, IsTrue, length, vec_capacity};
ghost use Rattle.std.specs.Cmp.{decided, partial_equiv_from_equiv};
ghost use Rattle.ras_module.proofs.Deciding.{reply_decides};
ghost use Rattle.ras_module.specs.declared.reply.Reply.TheVariants.{Rcf};
ghost use Rattle.ras_writing.specs.Encoded.{same_reply, reply_of};
ghost use Rattle.ras_writing.specs.Properties.{ReadsBack};
ghost use Rattle.ras_writing.specs.Replies.{encoding_of};

use crate::confirm::LentConfirm;
use ras_module::Reply;
use std::alloc::AllocError;
use std::marker::Model;

/// A reply, as the octets that are sent for it (ITU-T H.225.0). A RegistrationConfirm takes a tenth
/// of the memory so, and none takes more than `Reply::MOST` octets. Contracts see the reply.
#[derive(Drop)]
pub struct EncodedReply {
    octets: Vec<u8>,
}

impl Model for EncodedReply {
    ghost use Rattle.std.specs.Prelude.{◌≤◌, vec_capacity};
    ghost use Rattle.ras_module.specs.declared.reply.Reply.{Reply};
    ghost use Rattle.ras_module.specs.declared.reply.TheConstants.Reply as reply_octets;
    ghost use Rattle.ras_writing.specs.Encoded.{IsEncoded, reply_of};

    ghost Value = { Reply };

    ghost view = { λ e. reply_of e.octets.items };

    ghost invariant = { λ e. IsEncoded e.octets.items × (vec_capacity e.octets ≤ reply_octets.MOST) };
}

impl EncodedReply {
    /// A reply for which these octets were written. They are copied into this empty buffer, which
    /// takes no memory.
    ///
    /// promise encoded-reply-is-its-reply: A reply that stands as octets is the one as which they
    /// are read, and two are equal if and only if the replies are (`IsEncoded`, `reply_of`).
    pub fn new(buffer: Vec<u8>, reply: &Reply, octets: &[u8]) -> Self
        requires empty { buffer.items ≡ [] }
        requires room { length octets.now ≤ vec_capacity buffer }
        requires bounded { vec_capacity buffer ≤ Reply.MOST }
        requires written { octets.now ≡ encoding_of reply.now }
        requires few { length octets.now ≤ Reply.MOST }
        requires reads_back { ReadsBack reply.now }
        ensures { result ≡ reply.now }
    {
        EncodedReply {
            octets: filled(buffer, octets),
        }
    }

    /// The same of a RegistrationConfirm whose values are lent.
    pub fn of_confirm(buffer: Vec<u8>, confirm: &LentConfirm<'_>, octets: &[u8]) -> Self
        requires empty { buffer.items ≡ [] }
        requires room { length octets.now ≤ vec_capacity buffer }
        requires bounded { vec_capacity buffer ≤ Reply.MOST }
        requires written { octets.now ≡ encoding_of (Rcf confirm.now) }
        requires few { length octets.now ≤ Reply.MOST }
        requires reads_back { ReadsBack (Rcf confirm.now) }
        ensures { result ≡ Rcf confirm.now }
    {
        let _ = confirm;
        EncodedReply {
            octets: filled(buffer, octets),
        }
    }

    /// The octets that are sent for it.
    pub fn as_slice(&self) -> &[u8]
        ensures octets { result.now ≡ encoding_of self.now }
        ensures read { reply_of result.now ≡ self.now }
        ensures few { length result.now ≤ Reply.MOST }
    {
        &self.octets
    }

    /// An equal reply.
    pub fn copy(&self) -> Result<Self, AllocError>
        ensures { IfOk result (λ copy. copy ≡ self.now) }
    {
        let buffer = Vec::with_capacity(*self.octets.allocator(), self.octets.len())?;
        Ok(EncodedReply {
            octets: filled(buffer, &self.octets),
        })
    }
}

impl PartialEq for EncodedReply {
    ghost eq = { same_reply };

    ghost laws = { partial_equiv_from_equiv (decided same_reply reply_decides) };

    fn eq(&self, other: &Self) -> bool {
        are_same(self.as_slice(), other.as_slice())
    }
}

impl Eq for EncodedReply {
    ghost laws = { decided same_reply reply_decides };
}

/// The buffer with these octets in it, as large as before.
fn filled(buffer: Vec<u8>, octets: &[u8]) -> Vec<u8>
    requires empty { buffer.items ≡ [] }
    requires room { length octets.now ≤ vec_capacity buffer }
    ensures items { result.items ≡ octets.now }
    ensures capacity { vec_capacity result ≡ vec_capacity buffer }
{
    let mut filled = buffer;
    for octet in octets {
        filled.push_reserved(*octet);
    }
    filled
}

/// Whether these are the same octets.
fn are_same(octets: &[u8], others: &[u8]) -> bool
    ensures { IsTrue result ↔ (octets.now ≡ others.now) }
{
    octets == others
}
