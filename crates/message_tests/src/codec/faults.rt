//! Octets that are cut short, changed, late, or not as short as they could be.

use crate::codec::requests::is_read;
use facts::all_hold;
use ras_codec::{ReadFault, read};
use ras_module::{Boxed, GatekeeperRequest, Request, RequestSeqNum};
use std::alloc::{AllocError, Global};
use std::test::Fail;
use vectors::requests::{
    ARQ, ARQ_ANSWER, ARQ_OF_A_SECOND_CALL, BRQ, DRQ, GRQ, GRQ_OF_XX, IRR, KEEP_ALIVE, RRQ_101,
    RRQ_102, RRQ_109_101, URQ,
};

/// Whether each shorter prefix, of less than `count` octets, ends too early.
fn is_cut_short(alloc: Global, octets: &[u8], count: usize) -> bool {
    for end in 0..count {
        if end <= octets.len() {
            match read(alloc, &octets[..end]) {
                Err(ReadFault::Truncated) => {}
                _ => return false,
            }
        }
    }
    true
}

/// The octets of messages, and how many of them are needed.
const MESSAGES: [(&str, &[u8], usize); 13] = [
    ("GRQ", &GRQ, 20),
    ("GRQ of xx", &GRQ_OF_XX, 25),
    ("RRQ of 101", &RRQ_101, 39),
    ("keep-alive", &KEEP_ALIVE, 48),
    ("RRQ of 102", &RRQ_102, 39),
    ("ARQ", &ARQ, 66),
    ("ARQ of the answer", &ARQ_ANSWER, 66),
    ("ARQ of a second call", &ARQ_OF_A_SECOND_CALL, 66),
    ("BRQ", &BRQ, 53),
    ("DRQ", &DRQ, 50),
    ("URQ", &URQ, 21),
    ("RRQ of 109 and 101", &RRQ_109_101, 42),
    ("IRR", &IRR, 15),
];

#[test]
fn shorter_prefixes_are_truncated(rt: HostRuntime) {
    for (message, octets, count) in MESSAGES {
        assert!(rt; is_cut_short(rt.alloc(), octets, count), "{message}");
    }
}

/// Whether both are read as the same request.
fn are_read_alike(alloc: Global, one: &[u8], other: &[u8]) -> Result<bool, ReadFault> {
    let first = read(alloc, one)?;
    let second = read(alloc, other)?;
    Ok(first == second)
}

#[test]
fn what_follows_is_not_read(rt: HostRuntime) -> Result<(), Fail> {
    for end in 15..30 {
        assert!(rt; are_read_alike(rt.alloc(), &IRR[..end], &IRR)?);
    }
    Ok(())
}

/// The fault of these octets with one of them, counted from 1, changed.
fn fault_at<const N: usize>(
    alloc: Global,
    octets: [u8; N],
    place: usize,
    changed: u8,
) -> Option<ReadFault> {
    let mut other = octets;
    if place >= 1 && place <= N {
        other[place - 1] = changed;
    }
    read(alloc, &other).err()
}

/// An octet of `BRQ`, what is in its place, and why the message isn't read then.
const LENGTHS: [(usize, u8, ReadFault); 6] = [
    (36, 0x12, ReadFault::Truncated),
    (36, 0x10, ReadFault::Truncated),
    (36, 0x00, ReadFault::Truncated),
    (36, 0x91, ReadFault::Truncated),
    (36, 0xC1, ReadFault::Fragmented),
    (35, 0x81, ReadFault::TooMany),
];

#[test]
fn lengths_that_lie(rt: HostRuntime) -> Result<(), Fail> {
    let alloc = rt.alloc();
    for (place, changed, fault) in LENGTHS {
        let told = fault_at(alloc, BRQ, place, changed);
        assert!(rt; told == Some(fault), "{changed} at {place}");
    }
    let alias = fault_at(alloc, RRQ_101, 34, 0x4D);
    let address = fault_at(alloc, GRQ, 12, 0x70);
    all_hold(&[
        (
            alias == Some(ReadFault::BadCharacter),
            "an alias has no such digit",
        ),
        (
            address == Some(ReadFault::BadChoice),
            "an address has no such kind",
        ),
    ])
}

/// The octets of `BRQ` with a length in two octets, though one is enough.
fn with_long_length() -> [u8; 54] {
    let mut longer = [0; 54];
    longer[..35].copy_from_slice(&BRQ[..35]);
    longer[35] = 0x80;
    longer[36..].copy_from_slice(&BRQ[35..]);
    longer
}

#[test]
fn a_length_in_more_octets_is_read(rt: HostRuntime) -> Result<(), Fail> {
    let is_read = are_read_alike(rt.alloc(), &with_long_length(), &BRQ)?;
    assert!(rt; is_read);
    Ok(())
}

/// The octets of `BRQ` with a bandwidth of 2000 in four octets, though two are enough.
fn with_long_number() -> [u8; 55] {
    let mut longer = [0; 55];
    longer[..31].copy_from_slice(&BRQ[..31]);
    longer[31..36].copy_from_slice(&[0xC0, 0x00, 0x00, 0x07, 0xD0]);
    longer[36..].copy_from_slice(&BRQ[34..]);
    longer
}

#[test]
fn a_number_in_more_octets_is_read(rt: HostRuntime) -> Result<(), Fail> {
    let is_read = are_read_alike(rt.alloc(), &with_long_number(), &BRQ)?;
    assert!(rt; is_read);
    Ok(())
}

/// Why octets aren't read, if they aren't.
fn fault_of(alloc: Global, octets: &[u8]) -> Option<ReadFault> {
    read(alloc, octets).err()
}

/// The octets of `GRQ` with 0xFF and this octet as its number less one.
fn with_number(last: u8) -> [u8; 20] {
    let mut octets = GRQ;
    octets[2] = 0xFF;
    octets[3] = last;
    octets
}

/// The request of `GRQ` with the greatest number.
fn last_request(alloc: Global) -> Result<Request, AllocError> {
    let request = GatekeeperRequest {
        seq: RequestSeqNum::new(65535).unwrap(),
        gatekeeper: None,
    };
    Ok(Request::Grq(Boxed::new(alloc, request)?))
}

#[test]
fn numbers_at_the_end_of_their_range(rt: HostRuntime) -> Result<(), Fail> {
    let fault = fault_of(rt.alloc(), &with_number(0xFF));
    let last = last_request(rt.alloc())?;
    let is_last = is_read(rt.alloc(), &with_number(0xFE), last)?;
    all_hold(&[
        (fault == Some(ReadFault::BadLength), "65536 is no number"),
        (is_last, "65535 is one"),
    ])
}

/// Whether octets are read as a message that isn't served.
fn is_not_served(alloc: Global, octets: &[u8]) -> bool {
    matches!(read(alloc, octets), Ok(None))
}

#[test]
fn messages_that_are_not_served(rt: HostRuntime) -> Result<(), Fail> {
    let alloc = rt.alloc();
    all_hold(&[
        (
            is_not_served(alloc, &[0x04]),
            "a GatekeeperConfirm isn't served",
        ),
        (
            is_not_served(alloc, &[0x80]),
            "a message behind the extension marker isn't served",
        ),
        (
            is_not_served(alloc, &[0x60]),
            "an unknownMessageResponse isn't served",
        ),
        (
            fault_of(alloc, &[0x64]) == Some(ReadFault::BadChoice),
            "no root alternative has the index 25",
        ),
        (
            fault_of(alloc, &[]) == Some(ReadFault::Truncated),
            "no octets are no message",
        ),
    ])
}
