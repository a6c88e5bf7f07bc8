//! What the gatekeeper says.

ghost use Rattle.std.specs.Prelude.{◌≡◌, ◌≤◌, IfOk};
ghost use Rattle.ras_module.specs.Rooms.{room_of};
ghost use Rattle.ras_module.specs.declared.reply.Reply.TheVariants as reply;

use crate::address::Address;
use crate::alias_list::ReplyAliases;
use crate::bmp_string::Name;
use crate::boxed::Boxed;
use crate::endpoint_id::EndpointId;
use crate::number::{Delay, RequestSeqNum, TimeToLive};
use crate::reason::{
    AdmissionRejectReason, BandRejectReason, DisengageRejectReason, GatekeeperRejectReason,
    RegistrationRejectReason, UnregRejectReason,
};
use crate::texts::text_room;
use std::alloc::AllocError;

/// A message of the gatekeeper, with what differs from one such message to the next. `seq` is the
/// number of the request; an IRQ has a number of the gatekeeper's own. Bandwidth is in units of 100
/// bit/s. The two that tell identifiers stand in boxes, so that a reply has some 40 octets where it
/// is moved.
#[derive(PartialEq, Eq)]
pub enum Reply {
    Gcf(Boxed<GatekeeperConfirm>),
    /// GatekeeperReject.
    Grj {
        seq: RequestSeqNum,
        reason: GatekeeperRejectReason,
    },
    Rcf(Boxed<RegistrationConfirm>),
    /// RegistrationReject.
    Rrj {
        seq: RequestSeqNum,
        reason: RegistrationRejectReason,
    },
    /// UnregistrationConfirm.
    Ucf {
        seq: RequestSeqNum,
    },
    /// UnregistrationReject.
    Urj {
        seq: RequestSeqNum,
        reason: UnregRejectReason,
    },
    /// AdmissionConfirm, with the address that is to be called.
    Acf {
        seq: RequestSeqNum,
        units: u32,
        dest: Address,
    },
    /// AdmissionReject.
    Arj {
        seq: RequestSeqNum,
        reason: AdmissionRejectReason,
    },
    /// BandwidthConfirm.
    Bcf {
        seq: RequestSeqNum,
        units: u32,
    },
    /// BandwidthReject, with the bandwidth that is allowed.
    Brj {
        seq: RequestSeqNum,
        reason: BandRejectReason,
        allowed: u32,
    },
    /// DisengageConfirm.
    Dcf {
        seq: RequestSeqNum,
    },
    /// DisengageReject.
    Drj {
        seq: RequestSeqNum,
        reason: DisengageRejectReason,
    },
    /// InfoRequest: are you there?
    Irq {
        seq: RequestSeqNum,
    },
    /// RequestInProgress: do not ask again for the time `delay`.
    Rip {
        seq: RequestSeqNum,
        delay: Delay,
    },
}

// By hand, so that it is one call where one is dropped.
impl Drop for Reply {
    fn drop(self) {
        match self {
            Reply::Gcf(_)
            | Reply::Grj { seq: _, reason: _ }
            | Reply::Rcf(_)
            | Reply::Rrj { seq: _, reason: _ }
            | Reply::Ucf { seq: _ }
            | Reply::Urj { seq: _, reason: _ }
            | Reply::Acf {
                seq: _,
                units: _,
                dest: _,
            }
            | Reply::Arj { seq: _, reason: _ }
            | Reply::Bcf { seq: _, units: _ }
            | Reply::Brj {
                seq: _,
                reason: _,
                allowed: _,
            }
            | Reply::Dcf { seq: _ }
            | Reply::Drj { seq: _, reason: _ }
            | Reply::Irq { seq: _ }
            | Reply::Rip { seq: _, delay: _ } => {}
        }
    }
}

/// A GatekeeperConfirm (H.225.0, GCF): this gatekeeper, and its address for RAS messages.
#[derive(Clone, Copy, PartialEq, Eq)]
pub struct GatekeeperConfirm {
    pub seq: RequestSeqNum,
    pub gatekeeper: Name,
    pub ras: Address,
}

/// A RegistrationConfirm (H.225.0, RCF): what is registered, and for how long it is.
#[derive(PartialEq, Eq)]
pub struct RegistrationConfirm {
    pub seq: RequestSeqNum,
    pub call_signal: Address,
    pub aliases: ReplyAliases,
    pub gatekeeper: Name,
    pub endpoint: EndpointId,
    /// The time to live.
    pub granted: TimeToLive,
}

// By hand, so that it is one call where one is dropped.
impl Drop for RegistrationConfirm {
    fn drop(self) {
        let RegistrationConfirm {
            seq: _,
            call_signal: _,
            aliases: _,
            gatekeeper: _,
            endpoint: _,
            granted: _,
        } = self;
    }
}

impl RegistrationConfirm {
    /// Octets that are enough for its encoding: at most `Reply::MOST`.
    pub fn room(&self) -> usize
        ensures room { result ≡ room_of (reply.Rcf self.now) }
        ensures most { result ≤ Reply.MOST }
    {
        let names = text_room(self.gatekeeper.as_slice()) + text_room(self.endpoint.as_slice());
        Reply::SHORT + names + self.aliases.room()
    }

    /// An equal confirm.
    pub fn copy(&self) -> Result<RegistrationConfirm, AllocError>
        ensures { IfOk result (λ copy. copy ≡ self.now) }
    {
        Ok(RegistrationConfirm {
            seq: self.seq,
            call_signal: self.call_signal,
            aliases: self.aliases.copy()?,
            gatekeeper: self.gatekeeper,
            endpoint: self.endpoint,
            granted: self.granted,
        })
    }
}

impl Reply {
    /// Octets that are enough for the encoding of any reply.
    pub const MOST: usize = 20_000;

    /// Octets that are enough for the encoding of a reply without aliases and names.
    pub const SHORT: usize = 64;

    /// Octets that are enough for the encoding of this reply: at most `MOST`.
    ///
    /// promise reply-room-is-bounded: The room of a reply is as defined, and at most 20,000 octets
    /// (`room_of`).
    pub fn room(&self) -> usize
        ensures room { result ≡ room_of self.now }
        ensures most { result ≤ Self.MOST }
    {
        match self {
            Reply::Gcf(confirm) => Self::SHORT + text_room(confirm.get().gatekeeper.as_slice()),
            Reply::Rcf(confirm) => confirm.get().room(),
            Reply::Rrj {
                reason: RegistrationRejectReason::DuplicateAlias(held),
                ..
            } => Self::SHORT + held.room(),
            _ => Self::SHORT,
        }
    }

    /// An equal reply.
    pub fn copy(&self) -> Result<Reply, AllocError>
        ensures { IfOk result (λ copy. copy ≡ self.now) }
    {
        Ok(match *self {
            Reply::Gcf(ref confirm) => Reply::Gcf(confirm.copy()?),
            Reply::Grj { seq, reason } => Reply::Grj { seq, reason },
            Reply::Rcf(ref confirm) => {
                Reply::Rcf(Boxed::new(confirm.allocator(), confirm.get().copy()?)?)
            }
            Reply::Rrj { seq, ref reason } => Reply::Rrj {
                seq,
                reason: reason.copy()?,
            },
            Reply::Ucf { seq } => Reply::Ucf { seq },
            Reply::Urj { seq, reason } => Reply::Urj { seq, reason },
            Reply::Acf { seq, units, dest } => Reply::Acf { seq, units, dest },
            Reply::Arj { seq, reason } => Reply::Arj { seq, reason },
            Reply::Bcf { seq, units } => Reply::Bcf { seq, units },
            Reply::Brj {
                seq,
                reason,
                allowed,
            } => Reply::Brj {
                seq,
                reason,
                allowed,
            },
            Reply::Dcf { seq } => Reply::Dcf { seq },
            Reply::Drj { seq, reason } => Reply::Drj { seq, reason },
            Reply::Irq { seq } => Reply::Irq { seq },
            Reply::Rip { seq, delay } => Reply::Rip { seq, delay },
        })
    }
}
