//! What a probe asks, and what is told of its answers.

use facts::all_hold;
use probing::{DiscoveryReply, RejectReason, discovery_request, push_told, read_reply};
use ras_module::Address;
use std::alloc::{AllocError, Global};
use std::test::Fail;
use vectors::replies::{ACF_1280, GCF, GRJ};
use vectors::requests::GRQ;

const A: Address = Address {
    ip: [10, 0, 0, 5],
    port: 1719,
};

#[test]
fn request(rt: HostRuntime) -> Result<(), Fail> {
    assert!(rt; discovery_request(A) == GRQ);
    Ok(())
}

/// What is told of an answer after 12,345 microseconds, and whether it confirms.
fn told(alloc: Global, octets: &[u8]) -> Result<(String, bool), AllocError> {
    let mut words = String::new(alloc);
    let is_found = push_told(alloc, &mut words, octets, 12_345)?;
    Ok((words, is_found))
}

/// Whether these words are told of an answer, and whether it confirms.
fn is_told(alloc: Global, octets: &[u8], text: &str, confirms: bool) -> Result<bool, AllocError> {
    let (words, is_found) = told(alloc, octets)?;
    Ok(is_found == confirms && words.as_str() == text)
}

/// A confirm that names no gatekeeper.
const WITHOUT_A_NAME: [u8; 18] = [
    0x04, 0x00, 0x00, 0x00, 0x06, 0x00, 0x08, 0x91, 0x4A, 0x00, 0x02, 0x00, 0x0A, 0x00, 0x00, 0x01,
    0x06, 0xB7,
];

#[test]
fn confirms(rt: HostRuntime) -> Result<(), Fail> {
    let words = "gk at 10.0.0.1:1719 answers after 12.3 ms\n";
    let named = is_told(rt.alloc(), &GCF, words, true)?;
    let words = "a gatekeeper without a name at 10.0.0.1:1719 answers after 12.3 ms\n";
    let bare = is_told(rt.alloc(), &WITHOUT_A_NAME, words, true)?;
    all_hold(&[
        (named, "a gatekeeper is told by its name"),
        (bare, "one without a name is told"),
    ])
}

/// Whether an answer rejects for this reason.
fn rejects_for(reply: &DiscoveryReply, reason: RejectReason) -> bool {
    match reply {
        DiscoveryReply::Reject(reject) => reject.reason == reason,
        _ => false,
    }
}

/// securityDenial, the first reason behind the extension marker.
const DENIED: [u8; 14] = [
    0x08, 0x00, 0x00, 0x00, 0x06, 0x00, 0x08, 0x91, 0x4A, 0x00, 0x02, 0x80, 0x01, 0x00,
];

/// Whether octets are read as an answer that rejects for this reason.
fn is_reject(alloc: Global, octets: &[u8], reason: RejectReason) -> bool {
    match read_reply(alloc, octets) {
        Ok(reply) => rejects_for(&reply, reason),
        Err(_) => false,
    }
}

#[test]
fn rejects(rt: HostRuntime) -> Result<(), Fail> {
    let words = "rejected: terminalExcluded\n";
    let excluded = is_told(rt.alloc(), &GRJ, words, false)?;
    let denied = is_reject(rt.alloc(), &DENIED, RejectReason::SecurityDenial);
    all_hold(&[
        (excluded, "the reason is told"),
        (denied, "a reason behind the extension marker is read"),
    ])
}

#[test]
fn others(rt: HostRuntime) -> Result<(), Fail> {
    let mut of_another = GCF;
    of_another[3] = 1;
    for (answer, octets) in [
        ("another message", &ACF_1280[..]),
        ("a confirm of another request", &of_another[..]),
        ("a confirm that is cut short", &GCF[..22]),
        ("no octets", &[]),
    ] {
        let is_told = is_told(rt.alloc(), octets, "not a confirm\n", false)?;
        assert!(rt; is_told, "{answer}");
    }
    Ok(())
}
