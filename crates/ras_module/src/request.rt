//! What an endpoint asks of the gatekeeper: the requests of H.225.0, each with what the gatekeeper
//! looks at.

ghost use Rattle.std.specs.Prelude.{◌≡◌, IfOk};

use crate::address::Address;
use crate::alias_list::AliasList;
use crate::bmp_string::Name;
use crate::boxed::Boxed;
use crate::call_key::CallKey;
use crate::endpoint_id::EndpointId;
use crate::number::{RequestSeqNum, TimeToLive};
use std::alloc::AllocError;

/// A request of an endpoint, with what the gatekeeper looks at. An address is the first ipAddress
/// of its list, if there is one. Aliases are the dialled digits and h323-IDs of their list, in
/// order, doubles included. Bandwidth is in units of 100 bit/s, for both directions of a call.
#[derive(PartialEq, Eq, Drop)]
pub enum Request {
    Grq(Boxed<GatekeeperRequest>),
    Rrq(Boxed<RegistrationRequest>),
    Urq(Boxed<UnregistrationRequest>),
    Arq(Boxed<AdmissionRequest>),
    Brq(Boxed<BandwidthRequest>),
    Drq(Boxed<DisengageRequest>),
    Irr(Boxed<InfoRequestResponse>),
}

/// A GatekeeperRequest (H.225.0, GRQ): which gatekeeper is there?
#[derive(Clone, Copy, PartialEq, Eq)]
pub struct GatekeeperRequest {
    pub seq: RequestSeqNum,
    pub gatekeeper: Option<Name>,
}

/// A RegistrationRequest (H.225.0, RRQ): to register, or to keep a registration alive.
#[derive(PartialEq, Eq, Drop)]
pub struct RegistrationRequest {
    pub seq: RequestSeqNum,
    pub call_signal: Option<Address>,
    pub ras: Option<Address>,
    pub aliases: AliasList,
    pub gatekeeper: Option<Name>,
    pub time_to_live: Option<TimeToLive>,
    pub keep_alive: bool,
    pub endpoint: Option<EndpointId>,
}

/// An UnregistrationRequest (H.225.0, URQ): to leave the zone.
#[derive(Clone, Copy, PartialEq, Eq)]
pub struct UnregistrationRequest {
    pub seq: RequestSeqNum,
    pub call_signal: Option<Address>,
    pub endpoint: Option<EndpointId>,
}

/// An AdmissionRequest (H.225.0, ARQ): to open a call, or to answer one if `answer` is set.
#[derive(PartialEq, Eq, Drop)]
pub struct AdmissionRequest {
    pub seq: RequestSeqNum,
    pub endpoint: EndpointId,
    pub dest: AliasList,
    pub dest_address: Option<Address>,
    pub asked: u32,
    pub call: CallKey,
    pub answer: bool,
}

/// A BandwidthRequest (H.225.0, BRQ): another bandwidth for a call.
#[derive(Clone, Copy, PartialEq, Eq)]
pub struct BandwidthRequest {
    pub seq: RequestSeqNum,
    pub endpoint: EndpointId,
    pub call: CallKey,
    pub asked: u32,
}

/// A DisengageRequest (H.225.0, DRQ): to leave a call.
#[derive(Clone, Copy, PartialEq, Eq)]
pub struct DisengageRequest {
    pub seq: RequestSeqNum,
    pub endpoint: EndpointId,
    pub call: CallKey,
}

/// An InfoRequestResponse (H.225.0, IRR): a sign of life, which has no reply.
#[derive(Clone, Copy, PartialEq, Eq)]
pub struct InfoRequestResponse {
    pub seq: RequestSeqNum,
    pub endpoint: EndpointId,
}

impl Request {
    /// The octets that the datagram of a request has at most: a longer one isn't read.
    pub const MOST: usize = 4_096;

    /// An equal request.
    ///
    /// promise request-copy-is-equal: A copy of a request equals it; likewise copies of replies,
    /// events, outcomes and settings.
    pub fn copy(&self) -> Result<Request, AllocError>
        ensures { IfOk result (λ copy. copy ≡ self.now) }
    {
        match self {
            Request::Grq(q) => Ok(Request::Grq(q.copy()?)),
            Request::Rrq(q) => Ok(Request::Rrq(Boxed::new(q.allocator(), q.get().copy()?)?)),
            Request::Urq(q) => Ok(Request::Urq(q.copy()?)),
            Request::Arq(q) => Ok(Request::Arq(Boxed::new(q.allocator(), q.get().copy()?)?)),
            Request::Brq(q) => Ok(Request::Brq(q.copy()?)),
            Request::Drq(q) => Ok(Request::Drq(q.copy()?)),
            Request::Irr(q) => Ok(Request::Irr(q.copy()?)),
        }
    }
}

impl RegistrationRequest {
    /// An equal request.
    pub fn copy(&self) -> Result<RegistrationRequest, AllocError>
        ensures { IfOk result (λ copy. copy ≡ self.now) }
    {
        Ok(RegistrationRequest {
            seq: self.seq,
            call_signal: self.call_signal,
            ras: self.ras,
            aliases: self.aliases.copy()?,
            gatekeeper: self.gatekeeper,
            time_to_live: self.time_to_live,
            keep_alive: self.keep_alive,
            endpoint: self.endpoint,
        })
    }
}

impl AdmissionRequest {
    /// An equal request.
    pub fn copy(&self) -> Result<AdmissionRequest, AllocError>
        ensures { IfOk result (λ copy. copy ≡ self.now) }
    {
        Ok(AdmissionRequest {
            seq: self.seq,
            endpoint: self.endpoint,
            dest: self.dest.copy()?,
            dest_address: self.dest_address,
            asked: self.asked,
            call: self.call,
            answer: self.answer,
        })
    }
}
