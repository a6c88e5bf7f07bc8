//! The values of messages: copies, orders, and what is refused.

use facts::{all_hold, ensure};
use ras_module::{
    Address, AdmissionRequest, Alias, AliasList, BandRejectReason, BandwidthRequest, BmpString,
    Boxed, CallKey, Delay, DialledDigits, DisengageRequest, EndpointId, GatekeeperConfirm,
    GatekeeperRequest, InfoRequestResponse, Name, Octets, RegistrationConfirm,
    RegistrationRejectReason, RegistrationRequest, Reply, ReplyAliases, Request, RequestSeqNum,
    TimeToLive, UnregistrationRequest,
};
use std::alloc::{AllocError, Global};
use std::test::Fail;

fn name(text: &str) -> Result<Name, Fail> {
    let mut characters = [0u16; 128];
    for (place, octet) in characters.iter_mut().zip(text.bytes()) {
        *place = u16::from(octet);
    }
    let count = text.len().min(128);
    Ok(Name::new(&characters[..count]).ok_or("a name has 1 to 128 characters")?)
}

fn digits(text: &str) -> Result<Alias, Fail> {
    let digits = DialledDigits::new(name(text)?).ok_or("digits")?;
    Ok(Alias::Digits(digits))
}

fn seq() -> RequestSeqNum {
    RequestSeqNum::new(7).unwrap()
}

/// A gatekeeper's name, `gk`.
fn gatekeeper() -> Name {
    Name::new(&[103, 107]).unwrap()
}

/// An endpoint's identifier, `0001`.
fn endpoint() -> EndpointId {
    EndpointId::new(Name::new(&[48, 48, 48, 49]).unwrap())
}

const ADDRESS: Address = Address {
    ip: [10, 0, 0, 5],
    port: 1720,
};

const CALL: CallKey = CallKey { octets: [17; 16] };

/// A list that has an alias `count` times.
fn aliases(alloc: Global, alias: &Alias, count: usize) -> Result<AliasList, AllocError> {
    let mut list = AliasList::new(alloc);
    for _ in 0..count {
        list.push(*alias)?;
    }
    Ok(list)
}

fn discovery(alloc: Global) -> Result<Request, AllocError> {
    let request = GatekeeperRequest {
        seq: seq(),
        gatekeeper: Some(gatekeeper()),
    };
    Ok(Request::Grq(Boxed::new(alloc, request)?))
}

/// A registration that has an alias twice.
fn registration(alloc: Global, alias: &Alias) -> Result<Request, AllocError> {
    let request = RegistrationRequest {
        seq: seq(),
        call_signal: Some(ADDRESS),
        ras: None,
        aliases: aliases(alloc, alias, 2)?,
        gatekeeper: None,
        time_to_live: TimeToLive::new(60),
        keep_alive: true,
        endpoint: Some(endpoint()),
    };
    Ok(Request::Rrq(Boxed::new(alloc, request)?))
}

fn unregistration(alloc: Global) -> Result<Request, AllocError> {
    let request = UnregistrationRequest {
        seq: seq(),
        call_signal: None,
        endpoint: Some(endpoint()),
    };
    Ok(Request::Urq(Boxed::new(alloc, request)?))
}

/// The admission of a call to an alias.
fn admission(alloc: Global, alias: &Alias) -> Result<Request, AllocError> {
    let request = AdmissionRequest {
        seq: seq(),
        endpoint: endpoint(),
        dest: aliases(alloc, alias, 1)?,
        dest_address: Some(ADDRESS),
        asked: 1280,
        call: CALL,
        answer: true,
    };
    Ok(Request::Arq(Boxed::new(alloc, request)?))
}

fn more_bandwidth(alloc: Global) -> Result<Request, AllocError> {
    let request = BandwidthRequest {
        seq: seq(),
        endpoint: endpoint(),
        call: CALL,
        asked: 2000,
    };
    Ok(Request::Brq(Boxed::new(alloc, request)?))
}

fn end_of_call(alloc: Global) -> Result<Request, AllocError> {
    let request = DisengageRequest {
        seq: seq(),
        endpoint: endpoint(),
        call: CALL,
    };
    Ok(Request::Drq(Boxed::new(alloc, request)?))
}

fn sign_of_life(alloc: Global) -> Result<Request, AllocError> {
    let response = InfoRequestResponse {
        seq: seq(),
        endpoint: endpoint(),
    };
    Ok(Request::Irr(Boxed::new(alloc, response)?))
}

/// A request of each kind.
fn requests(alloc: Global) -> Result<Vec<Request>, Fail> {
    let alias = digits("101")?;
    let mut all = Vec::new(alloc);
    push_requests(alloc, &mut all, &alias)?;
    Ok(all)
}

fn push_requests(alloc: Global, all: &mut Vec<Request>, alias: &Alias) -> Result<(), AllocError> {
    all.push(discovery(alloc)?)?;
    all.push(registration(alloc, alias)?)?;
    all.push(unregistration(alloc)?)?;
    all.push(admission(alloc, alias)?)?;
    all.push(more_bandwidth(alloc)?)?;
    all.push(end_of_call(alloc)?)?;
    all.push(sign_of_life(alloc)?)?;
    Ok(())
}

/// Compares the copy of each request with the request, which it equals, and with all others.
fn tell_requests_apart(all: &[Request]) -> Result<(), Fail> {
    for (i, one) in all.iter().enumerate() {
        for (k, other) in all.iter().enumerate() {
            let is_same = one.copy()? == *other;
            if is_same != (i == k) {
                return Err(Fail::new(format_args!("copy {i} against request {k}")));
            }
        }
    }
    Ok(())
}

#[test]
fn a_request_equals_its_copy_and_no_other(rt: HostRuntime) -> Result<(), Fail> {
    let all = requests(rt.alloc())?;
    let ended = tell_requests_apart(&all);
    drop(all);
    ended
}

fn gatekeeper_confirm() -> GatekeeperConfirm {
    GatekeeperConfirm {
        seq: seq(),
        gatekeeper: gatekeeper(),
        ras: ADDRESS,
    }
}

fn registration_confirm(aliases: ReplyAliases) -> RegistrationConfirm {
    RegistrationConfirm {
        seq: seq(),
        call_signal: ADDRESS,
        aliases,
        gatekeeper: gatekeeper(),
        endpoint: endpoint(),
        granted: TimeToLive::new(60).unwrap(),
    }
}

/// As many aliases as a reply may have.
fn reply_aliases(alloc: Global) -> Result<ReplyAliases, Fail> {
    let list = aliases(alloc, &digits("101")?, 32)?;
    Ok(ReplyAliases::new(list)?.ok_or("32 aliases are few")?)
}

fn replies(alloc: Global) -> Result<[Reply; 5], Fail> {
    let few = reply_aliases(alloc)?;
    let held = few.copy()?;
    Ok([
        Reply::Gcf(Boxed::new(alloc, gatekeeper_confirm())?),
        Reply::Rcf(Boxed::new(alloc, registration_confirm(few))?),
        Reply::Rrj {
            seq: seq(),
            reason: RegistrationRejectReason::DuplicateAlias(held),
        },
        Reply::Brj {
            seq: seq(),
            reason: BandRejectReason::InsufficientResources,
            allowed: 1280,
        },
        Reply::Rip {
            seq: seq(),
            delay: Delay::new(500).unwrap(),
        },
    ])
}

/// Compares the copy of each reply with the reply, which it equals, and with all others.
fn tell_replies_apart(all: &[Reply]) -> Result<(), Fail> {
    for (i, one) in all.iter().enumerate() {
        for (k, other) in all.iter().enumerate() {
            let is_same = one.copy()? == *other;
            if is_same != (i == k) {
                return Err(Fail::new(format_args!("copy {i} against reply {k}")));
            }
        }
    }
    Ok(())
}

#[test]
fn a_reply_equals_its_copy_and_no_other(rt: HostRuntime) -> Result<(), Fail> {
    let all = replies(rt.alloc())?;
    let told_apart = tell_replies_apart(&all);
    let are_short = all.iter().all(|reply| reply.room() <= 20_000);
    drop(all);
    told_apart?;
    assert!(rt; are_short, "each reply has room in 20,000 octets");
    Ok(())
}

/// Whether the copy of a confirm equals the confirm.
fn equals_its_copy(confirm: &RegistrationConfirm) -> Result<bool, AllocError> {
    Ok(confirm.copy()? == *confirm)
}

#[test]
fn a_registration_confirm_equals_its_copy(rt: HostRuntime) -> Result<(), Fail> {
    let confirm = registration_confirm(reply_aliases(rt.alloc())?);
    let is_equal = equals_its_copy(&confirm);
    drop(confirm);
    assert!(rt; is_equal?);
    Ok(())
}

/// A boxed confirm, its copy off the heap, and whether the two were equal.
#[derive(Clone, Copy)]
struct BoxedTwice {
    value: GatekeeperConfirm,
    copy: GatekeeperConfirm,
    are_equal: bool,
}

/// Boxes a confirm, and copies it.
fn box_twice(alloc: Global, confirm: GatekeeperConfirm) -> Result<BoxedTwice, AllocError> {
    let boxed = Boxed::new(alloc, confirm)?;
    let copy = boxed.copy()?;
    let are_equal = copy == boxed;
    Ok(BoxedTwice {
        value: *boxed.get(),
        copy: copy.into_inner(),
        are_equal,
    })
}

#[test]
fn a_boxed_value_comes_and_goes(rt: HostRuntime) -> Result<(), Fail> {
    let confirm = gatekeeper_confirm();
    let boxed = box_twice(rt.alloc(), confirm)?;
    all_hold(&[
        (boxed.are_equal, "a boxed value equals its copy"),
        (boxed.value == confirm, "it is the value that was boxed"),
        (boxed.copy == confirm, "so is its copy, off the heap"),
    ])
}

#[test]
fn a_33rd_alias_is_too_many(rt: HostRuntime) -> Result<(), Fail> {
    let many = aliases(rt.alloc(), &digits("101")?, 33)?;
    assert!(rt; ReplyAliases::new(many)?.is_none());
    Ok(())
}

/// One alias, in memory for many.
fn few_in_much_memory(alloc: Global, alias: Alias) -> Result<ReplyAliases, Fail> {
    let mut items = Vec::with_capacity(alloc, 1350)?;
    items.push(alias)?;
    Ok(ReplyAliases::new(AliasList::from_vec(items))?.ok_or("one alias is few")?)
}

#[test]
fn one_alias_of_a_list_with_memory_for_many_is_kept(rt: HostRuntime) -> Result<(), Fail> {
    let few = few_in_much_memory(rt.alloc(), digits("101")?)?;
    ensure(
        few.as_slice() == [digits("101")?].as_slice(),
        "the alias is kept",
    )
}

#[test]
fn a_text_in_the_array_that_keeps_it(rt: HostRuntime) {
    let text: BmpString<4> = BmpString::of_padded([103, 107, 0, 0], 2);
    assert!(rt; text.as_slice() == [103, 107].as_slice());
}

/// Whether a text may be dialled.
fn is_dialled(text: &str) -> Result<bool, Fail> {
    Ok(DialledDigits::new(name(text)?).is_some())
}

#[test]
fn what_may_be_dialled(rt: HostRuntime) -> Result<(), Fail> {
    for other in ["/", ":", "+", "-", "a", "."] {
        let is_dialled = is_dialled(other)?;
        assert!(rt; !is_dialled, "{other}");
    }
    ensure(
        is_dialled("0123456789#*,")?,
        "digits, hashes, asterisks and commas may be dialled",
    )
}

/// Whether the identifier that is written first stands before the other one.
fn is_before(first: &str, second: &str) -> Result<bool, Fail> {
    Ok(EndpointId::new(name(first)?) < EndpointId::new(name(second)?))
}

#[test]
fn identifiers_are_ordered_by_their_characters(rt: HostRuntime) -> Result<(), Fail> {
    assert!(rt; is_before("0009", "001")?);
    assert!(rt; is_before("001", "0010")?);
    Ok(())
}

/// Whether a copy of octets equals them, and the octets of the copy.
fn copied(alloc: Global, octets: &[u8]) -> Result<(bool, Vec<u8>), AllocError> {
    let octets = Octets::from_vec(octets.to_vec(alloc)?);
    let copy = octets.copy()?;
    let are_equal = copy == octets;
    Ok((are_equal, copy.into_vec()))
}

#[test]
fn octets_come_and_go_as_vectors(rt: HostRuntime) -> Result<(), Fail> {
    let (are_equal, octets) = copied(rt.alloc(), &[1, 2, 3])?;
    all_hold(&[
        (are_equal, "octets equal their copy"),
        (
            octets.as_slice() == [1, 2, 3].as_slice(),
            "the copy is of the same octets",
        ),
    ])
}
