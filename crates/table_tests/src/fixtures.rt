//! What the tables are filled with, and how they are changed.

use admission::{CallFault, Calls, Leg};
use facts::ensure_of;
use kept_replies::{InProgress, Kept, KeptEntry, KeptKey, KeptReply, KeptState, RequestOctets};
use ras_module::{
    Address, Alias, AliasList, BandwidthRequest, BmpString, Boxed, CallKey, Delay, DialledDigits,
    EndpointId, Reply, ReplyAliases, Request, RequestSeqNum,
};
use ras_writing::write_into;
use registrations::{AddFault, Registration, Registrations};
use std::alloc::{AllocError, Global};
use std::test::Fail;

/// Fails with the name of a row of a table of cases and the first of these facts of it that doesn't
/// hold.
pub fn all_hold_of(row: &str, facts: &[(bool, &str)]) -> Result<(), Fail> {
    for (holds, fact) in facts {
        ensure_of(row, *holds, fact)?;
    }
    Ok(())
}

/// An identifier of four digits, of which the last is given.
pub fn endpoint(last: u8) -> EndpointId {
    EndpointId::new(BmpString::new(&[48, 48, 48, u16::from(last)]).unwrap())
}

/// The address that ends so.
pub fn address(last: u8) -> Address {
    Address {
        ip: [10, 0, 0, last],
        port: 1720,
    }
}

pub fn digits(text: &[u16]) -> Option<Alias> {
    Some(Alias::Digits(DialledDigits::new(BmpString::new(text)?)?))
}

pub fn no_alias(alloc: Global) -> Option<ReplyAliases> {
    ReplyAliases::new(AliasList::new(alloc)).ok()?
}

pub fn seq(number: u16) -> RequestSeqNum {
    RequestSeqNum::new(number).unwrap_or(RequestSeqNum::new(1).unwrap())
}

/// A registration with no alias, which wasn't heard yet.
pub fn registration(
    alloc: Global,
    identifier: EndpointId,
    at: Address,
    deadline: u64,
) -> Result<Registration, Fail> {
    Ok(Registration {
        identifier,
        call_signal: at,
        ras: at,
        aliases: no_alias(alloc).ok_or("no alias is few")?,
        deadline,
        heard: 0,
        tries: 0,
        asked: 0,
    })
}

/// Enters a registration, if neither it nor its address is registered.
pub fn enter(table: &mut Registrations, new: Registration) -> Result<(), Fail> {
    if table.get(&new.identifier).is_some() || table.by_address(new.call_signal).is_some() {
        return Err(Fail::from("the endpoint is registered"));
    }
    table.insert(new)?;
    Ok(())
}

/// Adds a registration under an unused identifier that isn't taken; None if its address is
/// registered.
pub fn add(
    table: &mut Registrations,
    new: Registration,
    taken: &[EndpointId],
) -> Option<Result<EndpointId, AddFault>> {
    if table.by_address(new.call_signal).is_some() {
        return None;
    }
    Some(table.add(new, taken))
}

/// What changes in a registration.
#[derive(Clone, Copy)]
pub enum Change {
    /// Its time to live ends at this moment.
    Renew(u64),
    /// It is heard at this moment.
    Hear(u64),
    /// It is asked for a sign of life at this moment.
    Ask(u64),
    /// It is asked no more.
    Calm,
}

/// Changes a registration, if it is there and may be asked once more.
pub fn alter(table: &mut Registrations, id: &EndpointId, change: Change) -> Result<(), Fail> {
    match table.get(id) {
        Some(row) if row.tries < 16 => {}
        _ => return Err(Fail::from("an endpoint that may be asked is registered")),
    }
    match change {
        Change::Renew(end) => table.renew(id, end),
        Change::Hear(now) => table.hear(id, now),
        Change::Ask(now) => table.asked(id, now),
        Change::Calm => table.calm(id),
    }
    Ok(())
}

/// Counts one leg more of a registered endpoint. Whether it is one.
pub fn has_leg_come(table: &mut Registrations, id: &EndpointId) -> bool {
    match table.legs(id) {
        Some(legs) if legs <= 20_000 => {}
        _ => return false,
    }
    table.leg_comes(id);
    true
}

/// Counts one leg fewer of an endpoint that has one. Whether it had one.
pub fn has_leg_gone(table: &mut Registrations, id: &EndpointId) -> bool {
    match table.legs(id) {
        Some(legs) if legs >= 1 => {}
        _ => return false,
    }
    table.leg_goes(id);
    true
}

/// Opens a call; None if one has its key.
pub fn open(
    calls: &mut Calls,
    key: CallKey,
    pool: usize,
    units: u32,
    leg: Leg,
) -> Option<Result<(), CallFault>> {
    if calls.get(&key).is_some() {
        return None;
    }
    Some(calls.open(key, pool, units, leg))
}

/// The leg of an endpoint that was told to call the address that ends so.
pub fn leg(last: u8, told: u8) -> Leg {
    Leg {
        endpoint: endpoint(last),
        told: address(told),
    }
}

/// These octets, as a key has them.
pub fn request_octets(octets: Vec<u8>) -> Result<RequestOctets, Fail> {
    RequestOctets::new(octets)?.map_err(|_| Fail::from("no request has so many octets"))
}

/// Where all datagrams come from.
pub const SOURCE: Address = Address {
    ip: [10, 0, 0, 5],
    port: 1719,
};

/// A datagram of these octets, made once more if memory for it was refused.
pub fn datagram(alloc: Global, octets: &[u8]) -> Result<KeptKey, Fail> {
    let octets = match Vec::from_slice(alloc, octets) {
        Ok(octets) => octets,
        Err(_) => Vec::from_slice(alloc, octets)?,
    };
    Ok(KeptKey {
        source: SOURCE,
        bytes: request_octets(octets)?,
    })
}

/// Keeps a reply until a moment, if there is a place for it, and no other has its birth.
pub fn keep(
    kept: &mut Kept,
    key: KeptKey,
    born: u64,
    reply: KeptReply,
    until: u64,
) -> Result<(), Fail> {
    if kept.is_full() && kept.find(&key).is_none() {
        return Err(Fail::from("there is no place"));
    }
    if !kept.is_free(&key, born) {
        return Err(Fail::from("another entry has that birth"));
    }
    kept.reserve(until)?;
    kept.keep(key, born, reply, until);
    Ok(())
}

/// Keeps the DisengageConfirm with this number as the reply to a datagram of these octets.
pub fn keep_confirm(
    alloc: Global,
    kept: &mut Kept,
    octets: &[u8],
    number: u16,
    born: u64,
    until: u64,
) -> Result<(), Fail> {
    let key = datagram(alloc, octets)?;
    let reply = kept_reply(alloc, &confirm(number))?;
    keep(kept, key, born, reply, until)
}

fn request(alloc: Global) -> Result<Request, AllocError> {
    let request = BandwidthRequest {
        seq: seq(7),
        endpoint: endpoint(b'1'),
        call: CallKey { octets: [17; 16] },
        asked: 1280,
    };
    Ok(Request::Brq(Boxed::new(alloc, request)?))
}

/// Lets a request wait, if there is a place for it, and no other has its birth: it is served again
/// from a moment on, and at most as often as is left.
pub fn pend(
    alloc: Global,
    kept: &mut Kept,
    key: KeptKey,
    born: u64,
    retry: u64,
    left: u64,
) -> Result<(), Fail> {
    kept.reserve(retry)?;
    if kept.is_full() && kept.find(&key).is_none() {
        return Err(Fail::from("there is no place"));
    }
    if !kept.is_free(&key, born) || left == 0 {
        return Err(Fail::from("no entry is like this"));
    }
    let request = request(alloc)?;
    let progress = InProgress::new(seq(7), Delay::new(1500).unwrap());
    kept.pend(key, born, request, progress, retry, left);
    Ok(())
}

pub fn confirm(number: u16) -> Reply {
    Reply::Dcf { seq: seq(number) }
}

/// The reply as it is kept. What is refused for want of memory is made once more.
pub fn kept_reply(alloc: Global, reply: &Reply) -> Result<KeptReply, AllocError> {
    match kept_at_once(alloc, reply) {
        Err(_) => kept_at_once(alloc, reply),
        kept => kept,
    }
}

fn kept_at_once(alloc: Global, reply: &Reply) -> Result<KeptReply, AllocError> {
    let mut octets = Vec::new(alloc);
    write_into(reply, &mut octets)?;
    KeptReply::new(alloc, reply, &octets)
}

/// The octets of the DisengageConfirm with this number (H.225.0): the alternative 16 of RasMessage
/// without options, and the number less 1.
pub fn confirm_octets(number: u16) -> [u8; 3] {
    let [high, low] = number.saturating_sub(1).to_be_bytes();
    [0x40, high, low]
}

/// Whether the request was answered by the DisengageConfirm with this number.
pub fn is_confirmed(entry: &KeptEntry, number: u16) -> bool {
    match &entry.state {
        KeptState::Done { reply, .. } => reply.as_slice() == confirm_octets(number).as_slice(),
        KeptState::Pending { .. } => false,
    }
}
