//! What a request comes to, before anything is chosen for it.

ghost use Rattle.std.specs.Prelude.{◌≡◌, IfOk};
ghost use Rattle.ras_requests.specs.Planned.{settlement_under, may_return_units_by};

use ras_module::{
    Boxed, EndpointId, Name, RegistrationConfirm, Reply, ReplyAliases, RequestSeqNum, TimeToLive,
};
use registrations::Registration;
use std::alloc::{AllocError, Global};
use zone_config::Moment;
use zone_tables::{CallChange, Change, EndpointChange, Entry, UnitRequest};

/// What settles a request: the reply, and what changes.
#[derive(Drop)]
pub struct Settlement {
    pub reply: Reply,
    pub change: Change,
}

impl Settlement {
    /// A reply, and nothing changes.
    pub fn reply(reply: Reply) -> Self
        ensures { result ≡ record { reply = reply; change = Change.Nothing } }
    {
        Settlement {
            reply,
            change: Change::Nothing,
        }
    }

    /// A reply to a request that changes the calls.
    pub fn calls(reply: Reply, change: CallChange) -> Self
        ensures { result ≡ record { reply = reply; change = Change.Calls change } }
    {
        Settlement {
            reply,
            change: Change::Calls(change),
        }
    }
}

/// A new endpoint: what its registration and its RegistrationConfirm need, but for the identifier.
#[derive(Drop)]
pub struct Newcomer {
    pub seq: RequestSeqNum,
    pub entry: Entry,
    /// The aliases that the RegistrationConfirm tells.
    pub told: ReplyAliases,
    pub gatekeeper: Name,
    pub granted: TimeToLive,
    /// When the registration ends, in milliseconds.
    pub deadline: u64,
    pub heard: Moment,
}

impl Newcomer {
    /// The registration under this identifier, with its RegistrationConfirm.
    ///
    /// promise newcomer-has-its-registration: A new endpoint under an identifier is its
    /// registration, with its RCF (`settlement_under`).
    pub fn under(self, alloc: Global, identifier: &EndpointId) -> Result<Settlement, AllocError>
        ensures { IfOk result (λ settlement. settlement ≡ settlement_under self identifier.now) }
    {
        let Entry {
            call_signal,
            ras,
            aliases,
        } = self.entry;
        let confirm = Boxed::new(
            alloc,
            RegistrationConfirm {
                seq: self.seq,
                call_signal,
                aliases: self.told,
                gatekeeper: self.gatekeeper,
                endpoint: *identifier,
                granted: self.granted,
            },
        )?;
        let registration = Boxed::new(
            alloc,
            Registration {
                identifier: *identifier,
                call_signal,
                ras,
                aliases,
                deadline: self.deadline,
                heard: self.heard.milliseconds(),
                tries: 0,
                asked: 0,
            },
        )?;
        Ok(Settlement {
            reply: Reply::Rcf(confirm),
            change: Change::Endpoint(EndpointChange::Addition(registration)),
        })
    }
}

/// A registration that is kept alive (H.225.0, RRQ with keepAlive): a new time to live for the
/// endpoint that the request names. What its RegistrationConfirm tells stands in the registration.
#[derive(Clone, Copy)]
pub struct GrantedTime {
    pub seq: RequestSeqNum,
    pub granted: TimeToLive,
    /// When the registration ends, in milliseconds.
    pub deadline: u64,
}

/// How a request is served: it is settled at once; or a registration is kept alive; or an unused
/// identifier is chosen for a new endpoint; or a pool is asked for units.
#[derive(Drop)]
pub enum Plan {
    Settled(Settlement),
    Renewing(GrantedTime),
    Naming(Boxed<Newcomer>),
    Asking(UnitRequest),
}

impl Plan {
    /// Whether units may come back to a pool as the request is served so.
    pub fn may_return_units(&self) -> bool
        ensures { result ≡ may_return_units_by self.now }
    {
        match self {
            Plan::Settled(settlement) => settlement.change.may_return_units(),
            Plan::Renewing(_) | Plan::Naming(_) | Plan::Asking(_) => false,
        }
    }
}
