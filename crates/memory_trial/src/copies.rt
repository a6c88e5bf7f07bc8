//! The copies of values that take memory, made again if they were refused.

use ras_module::{
    AdmissionRequest, Alias, AliasList, BmpString, Boxed, CallKey, DialledDigits, EndpointId,
    Octets, RegistrationRejectReason, Reply, ReplyAliases, Request, RequestSeqNum,
};
use std::alloc::{AllocError, Global};

const TWICE: &str = "a copy was refused twice";

const OTHERWISE: &str = "a copy is another value";

/// A list of one alias, twice.
fn doubled(alloc: Global) -> Result<AliasList, &'static str> {
    let text = BmpString::new(&[49, 50]).ok_or("no text")?;
    let alias = Alias::Digits(DialledDigits::new(text).ok_or("no digits")?);
    let mut list = AliasList::new(alloc);
    for _ in 0..2 {
        if list.push(alias).is_err() {
            list.push(alias).map_err(|_| TWICE)?;
        }
    }
    Ok(list)
}

fn octets(alloc: Global) -> Result<(), &'static str> {
    let bytes = [1, 2]
        .to_vec(alloc)
        .or_else(|_| [1, 2].to_vec(alloc))
        .map_err(|_| TWICE)?;
    let octets = Octets::from_vec(bytes);
    let copy = octets.copy().or_else(|_| octets.copy()).map_err(|_| TWICE)?;
    if copy != octets {
        return Err(OTHERWISE);
    }
    Ok(())
}

/// An AdmissionRequest in its box. If its memory is refused, the list is let go.
fn admission(
    alloc: Global,
    seq: RequestSeqNum,
    endpoint: EndpointId,
    dest: AliasList,
) -> Result<Request, AllocError> {
    let request = AdmissionRequest {
        seq,
        endpoint,
        dest,
        dest_address: None,
        asked: 1280,
        call: CallKey { octets: [1; 16] },
        answer: false,
    };
    Ok(Request::Arq(Boxed::new(alloc, request)?))
}

fn request(alloc: Global, seq: RequestSeqNum) -> Result<(), &'static str> {
    let endpoint = EndpointId::new(BmpString::new(&[48]).ok_or("no text")?);
    let request = match admission(alloc, seq, endpoint, doubled(alloc)?) {
        Ok(request) => request,
        Err(_) => admission(alloc, seq, endpoint, doubled(alloc)?).map_err(|_| TWICE)?,
    };
    let copy = request
        .copy()
        .or_else(|_| request.copy())
        .map_err(|_| TWICE)?;
    if copy != request {
        return Err(OTHERWISE);
    }
    Ok(())
}

fn reply(alloc: Global, seq: RequestSeqNum) -> Result<(), &'static str> {
    let Ok(Some(held)) = ReplyAliases::new(doubled(alloc)?) else {
        return Err(OTHERWISE);
    };
    let reply = Reply::Rrj {
        seq,
        reason: RegistrationRejectReason::DuplicateAlias(held),
    };
    let copy = reply.copy().or_else(|_| reply.copy()).map_err(|_| TWICE)?;
    if copy != reply {
        return Err(OTHERWISE);
    }
    Ok(())
}

/// A datagram's octets, a request and a reply with aliases are copied.
pub fn copies(alloc: Global) -> Result<(), &'static str> {
    let seq = RequestSeqNum::new(1).ok_or("no number")?;
    octets(alloc)?;
    request(alloc, seq)?;
    reply(alloc, seq)
}
