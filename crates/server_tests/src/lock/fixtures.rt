//! The zone of the worked examples, and what the endpoint asks of it.

pub use crate::shared::{CALL, Looked, all_hold};
use pools::{FixedPool, Lend};
use ras_core::{Datagram, Event, Moment, Outcome, Prepared, Zone, prepare};
use ras_module::Octets;
use std::alloc::Global;
use vectors::replies::{ACF_1280, ARJ, GCF, GRJ, RCF_0001, RCF_0002};
use vectors::requests::{ARQ, ARQ_OF_A_SECOND_CALL, GRQ, GRQ_OF_XX, RRQ_101, RRQ_102};
use worked_zone::{ENDPOINT, zone_of};
pub use worked_zone::{CALL_LIMIT, LIMIT, POOL, zone};

/// What is left for a second call in a zone of as many units as a call may have.
pub const REST: u64 = CALL_LIMIT - CALL;

/// A zone of as many units as a call may have. None for want of memory.
pub fn scarce_zone(alloc: Global) -> Option<Zone<FixedPool>> {
    zone_of(alloc, CALL_LIMIT, 1_000)
}

/// What the endpoint asks.
#[derive(Clone, Copy)]
pub enum Request {
    /// A discovery that is confirmed.
    Discovery,
    /// A discovery that is rejected.
    Rejected,
    /// The registration of 0001.
    First,
    /// The registration of 0002.
    Second,
    /// The admission of a call of 0001.
    Call,
    /// That of a second call, for which there is less than it asks for: it is denied, and what was
    /// lent for it goes back.
    Denied,
}

impl Request {
    fn octets(self) -> &'static [u8] {
        match self {
            Request::Discovery => &GRQ,
            Request::Rejected => &GRQ_OF_XX,
            Request::First => &RRQ_101,
            Request::Second => &RRQ_102,
            Request::Call => &ARQ,
            Request::Denied => &ARQ_OF_A_SECOND_CALL,
        }
    }

    fn reply(self) -> &'static [u8] {
        match self {
            Request::Discovery => &GCF,
            Request::Rejected => &GRJ,
            Request::First => &RCF_0001,
            Request::Second => &RCF_0002,
            Request::Call => &ACF_1280,
            Request::Denied => &ARJ,
        }
    }

    /// What the pool answers, if it is asked.
    fn answer(self) -> Option<Lend> {
        match self {
            Request::Call => Some(Lend::Lent(CALL)),
            Request::Denied => Some(Lend::Lent(REST)),
            _ => None,
        }
    }
}

/// A datagram of the endpoint with these octets, read.
pub fn datagram(alloc: Global, bytes: &[u8]) -> Option<Prepared> {
    let bytes = Octets::from_vec(bytes.to_vec(alloc).ok()?);
    prepare(alloc, Event::Datagram(ENDPOINT, bytes, Moment::START)).ok()
}

/// A request, read.
pub fn prepared(alloc: Global, request: Request) -> Option<Prepared> {
    datagram(alloc, request.octets())
}

/// Whether this is a datagram that goes to the endpoint, with these octets.
pub fn is_sent(datagram: &Datagram, octets: &[u8]) -> bool {
    datagram.to == ENDPOINT && datagram.bytes.as_slice() == octets
}

/// Whether the outcome is that of this request: its reply goes to the endpoint, and the pool was
/// asked so, or not at all.
pub fn is_answered(outcome: &Outcome, request: Request) -> bool {
    match &outcome.output {
        Some(output) => is_sent(output, request.reply()) && outcome.answer == request.answer(),
        None => false,
    }
}
