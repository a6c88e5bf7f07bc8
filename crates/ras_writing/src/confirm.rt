//! RegistrationConfirms whose values are lent.

ghost use Rattle.std.specs.Prelude.{◌≡◌, ◌≤◌};
ghost use Rattle.ras_module.specs.declared.reply.Reply.TheVariants as reply;
ghost use Rattle.ras_module.specs.Rooms.{room_of};

use ras_module::{
    Address, EndpointId, Name, RegistrationConfirm, Reply, ReplyAliases, RequestSeqNum, TimeToLive,
    text_room,
};
use std::marker::Model;

/// A RegistrationConfirm (H.225.0, RCF) whose values are lent from where they stand, so that it is
/// written without a copy of them. Contracts see the confirm.
#[derive(Drop)]
pub struct LentConfirm<'a> {
    pub seq: RequestSeqNum,
    pub call_signal: Address,
    pub aliases: &'a ReplyAliases,
    pub gatekeeper: &'a Name,
    pub endpoint: &'a EndpointId,
    /// The time to live.
    pub granted: TimeToLive,
}

impl<'a> Model for LentConfirm<'a> {
    ghost use Rattle.ras_module.specs.declared.reply.RegistrationConfirm.{RegistrationConfirm};

    ghost Value = { RegistrationConfirm };

    ghost view = { λ c. record {
      seq = c.seq;
      call_signal = c.call_signal;
      aliases = c.aliases.now;
      gatekeeper = c.gatekeeper.now;
      endpoint = c.endpoint.now;
      granted = c.granted;
    } };
}

impl<'a> LentConfirm<'a> {
    /// The same confirm, lent.
    pub fn of(confirm: &'a RegistrationConfirm) -> Self
        ensures { result ≡ confirm.now }
    {
        LentConfirm {
            seq: confirm.seq,
            call_signal: confirm.call_signal,
            aliases: &confirm.aliases,
            gatekeeper: &confirm.gatekeeper,
            endpoint: &confirm.endpoint,
            granted: confirm.granted,
        }
    }

    /// Octets that are enough for its encoding: at most `Reply::MOST`.
    pub fn room(&self) -> usize
        ensures room { result ≡ room_of (reply.Rcf self.now) }
        ensures most { result ≤ Reply.MOST }
    {
        let names = text_room(self.gatekeeper.as_slice()) + text_room(self.endpoint.as_slice());
        Reply::SHORT + names + self.aliases.room()
    }
}
