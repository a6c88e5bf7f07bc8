//! The octets of a key: at most as many as a request has.

use crate::fixtures::request_octets;
use facts::{all_hold, ensure};
use kept_replies::RequestOctets;
use std::alloc::{AllocError, Global};
use std::test::Fail;

/// A vector of this many octets, each of this value, with room for as many as are given.
fn octets(alloc: Global, len: usize, value: u8, room: usize) -> Result<Vec<u8>, AllocError> {
    let mut octets = Vec::with_capacity(alloc, room)?;
    octets.resize(len, value)?;
    Ok(octets)
}

/// The most octets that a key has, and a value of each.
const MOST: usize = 4_096;

const VALUE: u8 = 7;

/// The room of a large buffer.
const LARGE: usize = 5_000;

/// Whether these octets have this length, and each has this value.
fn is_all(octets: &[u8], len: usize, value: u8) -> bool {
    octets.len() == len && octets.iter().all(|octet| *octet == value)
}

/// Compares the longest key, the octets that it gives, and its copy.
fn compare_longest(longest: &RequestOctets) -> Result<(), Fail> {
    let given = longest.octets()?;
    let copy = longest.copy()?;
    all_hold(&[
        (
            is_all(longest.as_slice(), MOST, VALUE),
            "the key has its octets",
        ),
        (is_all(given.as_slice(), MOST, VALUE), "it gives them"),
        (copy == *longest, "it equals its copy"),
    ])
}

#[test]
fn a_key_has_4_096_octets(rt: HostRuntime) -> Result<(), Fail> {
    let longest = request_octets(octets(rt.alloc(), MOST, VALUE, MOST)?)?;
    compare_longest(&longest)
}

#[test]
fn a_key_has_no_4_097_octets(rt: HostRuntime) -> Result<(), Fail> {
    match RequestOctets::new(octets(rt.alloc(), MOST + 1, VALUE, LARGE)?)? {
        Ok(_) => Err(Fail::from("no request has 4,097 octets")),
        Err(returned) => { ensure(is_all(&returned, MOST + 1, VALUE), "the octets come back") }
    }
}

#[test]
fn few_octets_of_a_large_buffer_are_taken(rt: HostRuntime) -> Result<(), Fail> {
    let few = request_octets(octets(rt.alloc(), 3, 9, LARGE)?)?;
    let others = request_octets(octets(rt.alloc(), 3, 8, 3)?)?;
    all_hold(&[
        (is_all(few.as_slice(), 3, 9), "the octets are taken"),
        (few != others, "they equal no others"),
    ])
}
