//! Replies: octets that were written by hand from the standards.

use facts::{all_hold, ensure};
use ras_codec::{LentConfirm, write_confirm, write_into, write_reserved};
use ras_module::{
    Address, AdmissionRejectReason, Alias, AliasList, BandRejectReason, BmpString, Boxed, Delay,
    DialledDigits, DisengageRejectReason, EndpointId, GatekeeperConfirm, GatekeeperRejectReason,
    H323Id, Name, RegistrationConfirm, RegistrationRejectReason, Reply, ReplyAliases,
    RequestSeqNum, TimeToLive, UnregRejectReason,
};
use std::alloc::{AllocError, Global};
use std::test::Fail;
use vectors::replies::{
    ACF_900, ACF_1220, ACF_1280, ARJ, BCF, BRJ, DCF, DRJ, GCF, GRJ, IRQ, RCF_0001, RCF_0002, RIP,
    RRJ_DUPLICATE, RRJ_FULL, UCF, URJ,
};

fn seq(number: u16) -> RequestSeqNum {
    RequestSeqNum::new(number).unwrap_or(RequestSeqNum::new(1).unwrap())
}

fn endpoint_address(last: u8) -> Address {
    Address {
        ip: [10, 0, 0, last],
        port: 1720,
    }
}

fn alias_list(alloc: Global, last: u8) -> Result<ReplyAliases, Fail> {
    let text = BmpString::new(&[49, 48, u16::from(last)]).unwrap();
    let mut list = AliasList::new(alloc);
    if let Some(digits) = DialledDigits::new(text) {
        list.push(Alias::Digits(digits))?;
    }
    Ok(ReplyAliases::new(list)?.ok_or("one alias is few")?)
}

/// Appends a reply to one octet that was there.
fn written(alloc: Global, reply: &Reply) -> Result<Vec<u8>, AllocError> {
    let mut octets = Vec::new(alloc);
    octets.push(0xAA)?;
    write_into(reply, &mut octets)?;
    Ok(octets)
}

/// Whether these octets are written, behind one octet that was there.
fn is_written(alloc: Global, reply: Reply, expected: &[u8]) -> Result<bool, AllocError> {
    let octets = written(alloc, &reply)?;
    match octets.split_first() {
        Some((first, others)) => Ok(*first == 0xAA && others == expected),
        None => Ok(false),
    }
}

/// The gatekeeper gk answers a discovery.
fn gatekeeper_confirm(alloc: Global) -> Result<Reply, AllocError> {
    let confirm = GatekeeperConfirm {
        seq: seq(1),
        gatekeeper: Name::new(&[0x67, 0x6B]).unwrap(),
        ras: Address {
            ip: [10, 0, 0, 1],
            port: 1719,
        },
    };
    Ok(Reply::Gcf(Boxed::new(alloc, confirm)?))
}

fn gatekeeper_reject() -> Reply {
    Reply::Grj {
        seq: seq(1),
        reason: GatekeeperRejectReason::TerminalExcluded,
    }
}

#[test]
fn replies_about_the_gatekeeper(rt: HostRuntime) -> Result<(), Fail> {
    let alloc = rt.alloc();
    let confirm = is_written(alloc, gatekeeper_confirm(alloc)?, &GCF)?;
    let reject = is_written(alloc, gatekeeper_reject(), &GRJ)?;
    all_hold(&[
        (confirm, "a gatekeeper is confirmed"),
        (reject, "a terminal is excluded"),
    ])
}

fn confirm_of(alloc: Global, host: u8, last: u8) -> Result<RegistrationConfirm, Fail> {
    Ok(RegistrationConfirm {
        seq: seq(2),
        call_signal: endpoint_address(host),
        aliases: alias_list(alloc, last)?,
        gatekeeper: Name::new(&[0x67, 0x6B]).unwrap(),
        endpoint: EndpointId::new(BmpString::new(&[48, 48, 48, u16::from(last)]).unwrap()),
        granted: TimeToLive::new(60).unwrap(),
    })
}

fn registration_confirm(alloc: Global, host: u8, last: u8) -> Result<Reply, Fail> {
    Ok(Reply::Rcf(Boxed::new(alloc, confirm_of(alloc, host, last)?)?))
}

fn registration_reject(number: u16, reason: RegistrationRejectReason) -> Reply {
    Reply::Rrj {
        seq: seq(number),
        reason,
    }
}

/// Registrations are confirmed.
fn compare_confirms(alloc: Global) -> Result<(), Fail> {
    let first = is_written(alloc, registration_confirm(alloc, 5, b'1')?, &RCF_0001)?;
    let second = is_written(alloc, registration_confirm(alloc, 6, b'2')?, &RCF_0002)?;
    all_hold(&[
        (first, "the endpoint 0001 is confirmed"),
        (second, "the endpoint 0002 is confirmed"),
    ])
}

/// Registrations are rejected.
fn compare_rejects(alloc: Global) -> Result<(), Fail> {
    let reason = RegistrationRejectReason::FullRegistrationRequired;
    let full = is_written(alloc, registration_reject(2, reason), &RRJ_FULL)?;
    let reason = RegistrationRejectReason::DuplicateAlias(alias_list(alloc, b'1')?);
    let duplicate = is_written(alloc, registration_reject(3, reason), &RRJ_DUPLICATE)?;
    all_hold(&[
        (full, "a full registration is required"),
        (duplicate, "an alias is another endpoint's"),
    ])
}

fn unregistration_reject() -> Reply {
    Reply::Urj {
        seq: seq(5),
        reason: UnregRejectReason::CallInProgress,
    }
}

/// The ends of registrations are confirmed and rejected.
fn compare_ends(alloc: Global) -> Result<(), Fail> {
    let confirm = is_written(alloc, Reply::Ucf { seq: seq(6) }, &UCF)?;
    let reject = is_written(alloc, unregistration_reject(), &URJ)?;
    all_hold(&[
        (confirm, "the end of a registration is confirmed"),
        (reject, "an endpoint with a call stays registered"),
    ])
}

#[test]
fn replies_about_a_registration(rt: HostRuntime) -> Result<(), Fail> {
    compare_confirms(rt.alloc())?;
    compare_rejects(rt.alloc())?;
    compare_ends(rt.alloc())
}

/// The admission of an endpoint to a call with 10.0.0.6.
fn admission_confirm(number: u16, units: u32) -> Reply {
    Reply::Acf {
        seq: seq(number),
        units,
        dest: endpoint_address(6),
    }
}

/// The octets of admissions, with their numbers and units.
const ADMISSIONS: [(&[u8], u16, u32); 3] = [
    (&ACF_1280, 3, 1280),
    (&ACF_900, 4, 900),
    (&ACF_1220, 7, 1220),
];

fn admission_reject() -> Reply {
    Reply::Arj {
        seq: seq(7),
        reason: AdmissionRejectReason::RequestDenied,
    }
}

#[test]
fn replies_about_an_admission(rt: HostRuntime) -> Result<(), Fail> {
    for (octets, number, units) in ADMISSIONS {
        let is_same = is_written(rt.alloc(), admission_confirm(number, units), octets)?;
        assert!(rt; is_same, "{units} units");
    }
    let reject = is_written(rt.alloc(), admission_reject(), &ARJ)?;
    ensure(reject, "an admission is denied")
}

fn bandwidth_confirm() -> Reply {
    Reply::Bcf {
        seq: seq(7),
        units: 2000,
    }
}

fn bandwidth_reject() -> Reply {
    Reply::Brj {
        seq: seq(7),
        reason: BandRejectReason::InsufficientResources,
        allowed: 1280,
    }
}

fn disengage_reject() -> Reply {
    Reply::Drj {
        seq: seq(10),
        reason: DisengageRejectReason::RequestToDropOther,
    }
}

#[test]
fn replies_about_the_bandwidth_and_the_end_of_a_call(rt: HostRuntime) -> Result<(), Fail> {
    let alloc = rt.alloc();
    let more = is_written(alloc, bandwidth_confirm(), &BCF)?;
    let no_more = is_written(alloc, bandwidth_reject(), &BRJ)?;
    let end = is_written(alloc, Reply::Dcf { seq: seq(9) }, &DCF)?;
    let other = is_written(alloc, disengage_reject(), &DRJ)?;
    all_hold(&[
        (more, "more bandwidth is confirmed"),
        (no_more, "more bandwidth is rejected"),
        (end, "the end of a call is confirmed"),
        (other, "the end of another's call is rejected"),
    ])
}

/// A request is delayed by half a second.
fn delay() -> Reply {
    Reply::Rip {
        seq: seq(7),
        delay: Delay::new(500).unwrap(),
    }
}

#[test]
fn an_info_request_and_a_delay(rt: HostRuntime) -> Result<(), Fail> {
    let ask = is_written(rt.alloc(), Reply::Irq { seq: seq(1) }, &IRQ)?;
    let wait = is_written(rt.alloc(), delay(), &RIP)?;
    all_hold(&[
        (ask, "an endpoint is asked for its state"),
        (wait, "a request is delayed"),
    ])
}

/// A confirm with as many aliases as a reply may have, each of its texts and numbers at its
/// greatest.
fn longest_confirm(alloc: Global) -> Result<Reply, Fail> {
    let mut list = AliasList::new(alloc);
    for _ in 0..ReplyAliases::MOST {
        list.push(Alias::H323Id(H323Id::new(&[0xFFFF; 256]).unwrap()))?;
    }
    let Some(aliases) = ReplyAliases::new(list)? else {
        return Err(Fail::from("a reply may have 32 aliases"));
    };
    let confirm = RegistrationConfirm {
        seq: seq(65535),
        call_signal: endpoint_address(255),
        aliases,
        gatekeeper: Name::new(&[0xFFFF; 128]).unwrap(),
        endpoint: EndpointId::new(BmpString::new(&[0xFFFF; 128]).unwrap()),
        granted: TimeToLive::new(4_294_967_295).unwrap(),
    };
    Ok(Reply::Rcf(Boxed::new(alloc, confirm)?))
}

/// The octets of a reply for which there is room.
fn reserved(alloc: Global, reply: &Reply) -> Result<Vec<u8>, AllocError> {
    let mut octets = Vec::new(alloc);
    octets.reserve(reply.room())?;
    write_reserved(reply, &mut octets);
    Ok(octets)
}

#[test]
fn a_reply_that_has_its_room(rt: HostRuntime) -> Result<(), Fail> {
    let octets = reserved(rt.alloc(), &Reply::Ucf { seq: seq(6) })?;
    let expected: &[u8] = &UCF;
    assert!(rt; octets.as_slice() == expected);
    Ok(())
}

/// The octets of a RegistrationConfirm whose values are lent, for which there is room.
fn lent(alloc: Global, confirm: &RegistrationConfirm) -> Result<Vec<u8>, AllocError> {
    let confirm = LentConfirm::of(confirm);
    let mut octets = Vec::with_capacity(alloc, confirm.room())?;
    write_confirm(&confirm, &mut octets);
    Ok(octets)
}

#[test]
fn a_confirm_whose_values_are_lent(rt: HostRuntime) -> Result<(), Fail> {
    let confirm = confirm_of(rt.alloc(), 5, b'1')?;
    let octets = lent(rt.alloc(), &confirm);
    drop(confirm);
    let expected: &[u8] = &RCF_0001;
    assert!(rt; octets?.as_slice() == expected);
    Ok(())
}

/// How many octets a reply has.
fn length(alloc: Global, reply: &Reply) -> Result<usize, AllocError> {
    let mut octets = Vec::new(alloc);
    write_into(reply, &mut octets)?;
    Ok(octets.len())
}

// 19 octets up to the call signal address, one for the count of the aliases, 514 for each of them
// (its choice, its length, 256 characters), 257 for each identifier, and 10 for the additions.
#[test]
fn the_longest_reply(rt: HostRuntime) -> Result<(), Fail> {
    let reply = longest_confirm(rt.alloc())?;
    let length = length(rt.alloc(), &reply);
    drop(reply);
    assert!(rt; length? == 19 + 1 + 32 * 514 + 2 * 257 + 10);
    Ok(())
}
