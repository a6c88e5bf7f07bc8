//! Requests of endpoints: octets that were written by hand from the standards, with their values.

use facts::{all_hold, ensure};
use ras_codec::{ReadFault, read};
use ras_module::{
    Address, AdmissionRequest, Alias, AliasList, BandwidthRequest, BmpString, Boxed, CallKey,
    DialledDigits, DisengageRequest, EndpointId, GatekeeperRequest, InfoRequestResponse, Name,
    RegistrationRequest, Request, RequestSeqNum, UnregistrationRequest,
};
use std::alloc::{AllocError, Global};
use std::test::Fail;
use vectors::requests::{
    ARQ, ARQ_ANSWER, ARQ_OF_A_SECOND_CALL, BRQ, DRQ, GRQ, GRQ_OF_XX, IRR, KEEP_ALIVE, RRQ_101,
    RRQ_102, RRQ_109_101, URQ,
};

fn seq(number: u16) -> RequestSeqNum {
    RequestSeqNum::new(number).unwrap_or(RequestSeqNum::new(1).unwrap())
}

fn address(last: u8, port: u16) -> Address {
    Address {
        ip: [10, 0, 0, last],
        port,
    }
}

/// An identifier of four digits, of which the last is given.
fn endpoint(last: u8) -> EndpointId {
    EndpointId::new(BmpString::new(&[48, 48, 48, u16::from(last)]).unwrap())
}

/// An alias of three digits, 1, 0 and the last.
fn alias(last: u8) -> Option<Alias> {
    let text = BmpString::new(&[49, 48, u16::from(last)]).unwrap();
    DialledDigits::new(text).map(Alias::Digits)
}

fn aliases(alloc: Global, last: &[u8]) -> Result<AliasList, AllocError> {
    let mut list = AliasList::new(alloc);
    for digit in last {
        if let Some(alias) = alias(*digit) {
            list.push(alias)?;
        }
    }
    Ok(list)
}

/// Whether these octets are read as this request.
pub fn is_read(alloc: Global, octets: &[u8], expected: Request) -> Result<bool, ReadFault> {
    match read(alloc, octets)? {
        Some(request) => Ok(request == expected),
        None => Ok(false),
    }
}

/// A discovery of this gatekeeper, or of any.
fn discovery(alloc: Global, gatekeeper: Option<Name>) -> Result<Request, AllocError> {
    let request = GatekeeperRequest {
        seq: seq(1),
        gatekeeper,
    };
    Ok(Request::Grq(Boxed::new(alloc, request)?))
}

#[test]
fn gatekeeper_requests(rt: HostRuntime) -> Result<(), Fail> {
    let alloc = rt.alloc();
    let any = is_read(alloc, &GRQ, discovery(alloc, None)?)?;
    let named = discovery(alloc, Name::new(&[0x78, 0x78]))?;
    let other = is_read(alloc, &GRQ_OF_XX, named)?;
    all_hold(&[
        (any, "any gatekeeper is asked for"),
        (other, "the gatekeeper xx is asked for"),
    ])
}

fn registration(alloc: Global, number: u16, host: u8, last: &[u8]) -> Result<Request, AllocError> {
    let request = RegistrationRequest {
        seq: seq(number),
        call_signal: Some(address(host, 1720)),
        ras: Some(address(host, 1719)),
        aliases: aliases(alloc, last)?,
        gatekeeper: None,
        time_to_live: None,
        keep_alive: false,
        endpoint: None,
    };
    Ok(Request::Rrq(Boxed::new(alloc, request)?))
}

/// A registration that is to be kept alive.
fn keep_alive(alloc: Global) -> Result<Request, AllocError> {
    let request = RegistrationRequest {
        seq: seq(2),
        call_signal: Some(address(5, 1720)),
        ras: Some(address(5, 1719)),
        aliases: AliasList::new(alloc),
        gatekeeper: None,
        time_to_live: None,
        keep_alive: true,
        endpoint: Some(endpoint(b'9')),
    };
    Ok(Request::Rrq(Boxed::new(alloc, request)?))
}

/// Octets of registrations, with their number, the last octet of their address, and the last digit
/// of each of their aliases.
const REGISTRATIONS: [(&[u8], u16, u8, &[u8]); 3] = [
    (&RRQ_101, 2, 5, b"1"),
    (&RRQ_102, 2, 6, b"2"),
    (&RRQ_109_101, 3, 7, b"91"),
];

#[test]
fn registration_requests(rt: HostRuntime) -> Result<(), Fail> {
    let alloc = rt.alloc();
    for (octets, number, host, last) in REGISTRATIONS {
        let expected = registration(alloc, number, host, last)?;
        let is_same = is_read(alloc, octets, expected)?;
        assert!(rt; is_same, "the registration of 10.0.0.{host}");
    }
    let is_kept = is_read(alloc, &KEEP_ALIVE, keep_alive(alloc)?)?;
    ensure(is_kept, "a registration is kept alive")
}

/// A registration that is to end.
fn unregistration(alloc: Global) -> Result<Request, AllocError> {
    let request = UnregistrationRequest {
        seq: seq(5),
        call_signal: Some(address(5, 1720)),
        endpoint: Some(endpoint(b'1')),
    };
    Ok(Request::Urq(Boxed::new(alloc, request)?))
}

#[test]
fn unregistration_requests(rt: HostRuntime) -> Result<(), Fail> {
    let is_same = is_read(rt.alloc(), &URQ, unregistration(rt.alloc())?)?;
    ensure(is_same, "the end of a registration is asked for")
}

/// A call with 102 to which an endpoint asks to be admitted.
#[derive(Clone, Copy)]
struct Admission {
    number: u16,
    /// The last digit of its identifier.
    endpoint: u8,
    units: u32,
    /// The octet of which the call's identifier consists.
    call: u8,
    answer: bool,
}

impl Admission {
    fn request(self, alloc: Global) -> Result<Request, AllocError> {
        let request = AdmissionRequest {
            seq: seq(self.number),
            endpoint: endpoint(self.endpoint),
            dest: aliases(alloc, b"2")?,
            dest_address: None,
            asked: self.units,
            call: CallKey {
                octets: [self.call; 16],
            },
            answer: self.answer,
        };
        Ok(Request::Arq(Boxed::new(alloc, request)?))
    }
}

/// Octets of admissions, and what they ask for.
const ADMISSIONS: [(&[u8], Admission); 3] = [
    (
        &ARQ,
        Admission {
            number: 3,
            endpoint: b'1',
            units: 1280,
            call: 0x11,
            answer: false,
        },
    ),
    (
        &ARQ_ANSWER,
        Admission {
            number: 4,
            endpoint: b'2',
            units: 900,
            call: 0x11,
            answer: true,
        },
    ),
    (
        &ARQ_OF_A_SECOND_CALL,
        Admission {
            number: 7,
            endpoint: b'1',
            units: 1280,
            call: 0x22,
            answer: false,
        },
    ),
];

#[test]
fn admission_requests(rt: HostRuntime) -> Result<(), Fail> {
    for (octets, admission) in ADMISSIONS {
        let expected = admission.request(rt.alloc())?;
        let is_same = is_read(rt.alloc(), octets, expected)?;
        assert!(rt; is_same, "the admission of number {}", admission.number);
    }
    Ok(())
}

/// The worked call.
const CALL: CallKey = CallKey { octets: [0x11; 16] };

/// A request for more bandwidth of the worked call.
fn more_bandwidth(alloc: Global) -> Result<Request, AllocError> {
    let request = BandwidthRequest {
        seq: seq(7),
        endpoint: endpoint(b'1'),
        call: CALL,
        asked: 2000,
    };
    Ok(Request::Brq(Boxed::new(alloc, request)?))
}

/// A request to leave the worked call.
fn end_of_call(alloc: Global) -> Result<Request, AllocError> {
    let request = DisengageRequest {
        seq: seq(9),
        endpoint: endpoint(b'1'),
        call: CALL,
    };
    Ok(Request::Drq(Boxed::new(alloc, request)?))
}

#[test]
fn requests_about_a_call(rt: HostRuntime) -> Result<(), Fail> {
    let alloc = rt.alloc();
    let more = is_read(alloc, &BRQ, more_bandwidth(alloc)?)?;
    let end = is_read(alloc, &DRQ, end_of_call(alloc)?)?;
    all_hold(&[
        (more, "more bandwidth is asked for"),
        (end, "the end of the call is asked for"),
    ])
}

/// A sign of life.
fn alive(alloc: Global) -> Result<Request, AllocError> {
    let response = InfoRequestResponse {
        seq: seq(1),
        endpoint: endpoint(b'1'),
    };
    Ok(Request::Irr(Boxed::new(alloc, response)?))
}

#[test]
fn a_sign_of_life(rt: HostRuntime) -> Result<(), Fail> {
    let is_alive = is_read(rt.alloc(), &IRR, alive(rt.alloc())?)?;
    ensure(is_alive, "a sign of life is read")
}

/// The octets of `RRQ_101` with an alias of another kind before its own.
const RRQ_101_BEHIND_ANOTHER: [u8; 43] = [
    0x0C, 0x80, 0x00, 0x01, 0x06, 0x00, 0x08, 0x91, 0x4A, 0x00, 0x02, 0x00, 0x01, 0x00, 0x0A, 0x00,
    0x00, 0x05, 0x06, 0xB8, 0x01, 0x00, 0x0A, 0x00, 0x00, 0x05, 0x06, 0xB7, 0x02, 0x00, 0x02, 0x80,
    0x02, 0xAA, 0xBB, 0x01, 0x00, 0x43, 0x40, 0xB5, 0x00, 0x00, 0x00,
];

#[test]
fn an_alias_of_another_kind_is_passed_over(rt: HostRuntime) -> Result<(), Fail> {
    let alloc = rt.alloc();
    let expected = registration(alloc, 2, 5, b"1")?;
    assert!(rt; is_read(alloc, &RRQ_101_BEHIND_ANOTHER, expected)?);
    Ok(())
}

/// The octets of `DRQ` with a call identifier of zeros.
fn without_identifier() -> [u8; 50] {
    let mut octets = DRQ;
    octets[34..].copy_from_slice(&[0; 16]);
    octets
}

#[test]
fn a_call_identifier_of_zeros_is_none(rt: HostRuntime) -> Result<(), Fail> {
    let octets = without_identifier();
    let is_same = is_read(rt.alloc(), &octets, end_of_call(rt.alloc())?)?;
    ensure(is_same, "the call is that of the conference")
}
