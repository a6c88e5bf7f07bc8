//! Requests of many endpoints: those of the worked examples, with other addresses, digits, numbers
//! and keys.

ghost use Rattle.std.specs.Prelude.{◌<◌};

use ras_module::{EndpointId, Octets};
use std::alloc::{AllocError, Global};
use vectors::requests::{ARQ, ARQ_ANSWER, BRQ, DRQ, GRQ, IRR, KEEP_ALIVE, RRQ_101, URQ};

/// An endpoint that is registered.
#[derive(Clone, Copy)]
pub struct Endpoint {
    /// Its number, from 0, which has five digits at most. Its address and its digits come of it.
    pub number: u16,
    pub identifier: EndpointId,
}

/// The address of the endpoint with this number.
pub fn address_of(number: u16) -> [u8; 4] {
    let [high, low] = number.to_be_bytes();
    [10, 1, high, low]
}

/// A digit in four bits, as a dialled number has it.
fn digit_of(number: u16) -> u8
    ensures { result < 13 }
{
    (number % 10) as u8 + 3
}

/// The five digits of the endpoint with this number, as an alias.
fn alias_of(number: u16) -> [u8; 5] {
    let first = digit_of(number / 10_000) * 16 + digit_of(number / 1_000);
    let second = digit_of(number / 100) * 16 + digit_of(number / 10);
    [0x02, 0x00, first, second, digit_of(number) * 16]
}

/// The characters of an identifier, each in two octets.
fn characters_of(alloc: Global, identifier: &EndpointId) -> Result<Vec<u8>, AllocError> {
    let mut octets = Vec::new(alloc);
    for code in identifier.as_slice() {
        octets.extend_from_slice(&code.to_be_bytes())?;
    }
    Ok(octets)
}

/// The number of its characters, of 1 to 128, as seven bits encode it: one less (X.691 10.5).
fn count_of(identifier: &EndpointId) -> u8 {
    (identifier.as_slice().len() as u8).saturating_sub(1)
}

/// The parts, one behind the other.
fn joined(alloc: Global, parts: &[&[u8]]) -> Result<Octets, AllocError> {
    let mut octets = Vec::new(alloc);
    for part in parts {
        octets.extend_from_slice(part)?;
    }
    Ok(Octets::from_vec(octets))
}

/// A GatekeeperRequest.
pub fn discovery(seq: u16) -> [u8; 20] {
    let mut octets = GRQ;
    octets[2..4].copy_from_slice(&seq.to_be_bytes());
    octets
}

/// A RegistrationRequest of the endpoint with this number.
pub fn registration(alloc: Global, number: u16) -> Result<Octets, AllocError> {
    registration_with(alloc, number, u16::from_be_bytes([RRQ_101[2], RRQ_101[3]]))
}

/// The same with this requestSeqNum, less one.
pub fn registration_with(alloc: Global, number: u16, seq: u16) -> Result<Octets, AllocError> {
    let address = address_of(number);
    joined(
        alloc,
        &[
            &RRQ_101[..2],
            &seq.to_be_bytes(),
            &RRQ_101[4..14],
            &address,
            &RRQ_101[18..22],
            &address,
            &RRQ_101[26..31],
            &alias_of(number),
            &RRQ_101[35..],
        ],
    )
}

/// A RegistrationRequest with keepAlive.
pub fn keep_alive(alloc: Global, endpoint: &Endpoint, seq: u16) -> Result<Octets, AllocError> {
    let address = address_of(endpoint.number);
    let identifier = characters_of(alloc, &endpoint.identifier)?;
    // The identifier stands in an open type, behind seven bits of its own and one that pads them.
    let length = u8::try_from(identifier.len())
        .unwrap_or(u8::MAX)
        .saturating_add(1);
    joined(
        alloc,
        &[
            &KEEP_ALIVE[..2],
            &seq.to_be_bytes(),
            &KEEP_ALIVE[4..14],
            &address,
            &KEEP_ALIVE[18..22],
            &address,
            &KEEP_ALIVE[26..38],
            &[length, count_of(&endpoint.identifier) << 1],
            &identifier,
        ],
    )
}

/// An AdmissionRequest to call the endpoint with that number, for 1,280 units. The octets of `call`
/// begin the keys of the call.
pub fn admission(
    alloc: Global,
    endpoint: &Endpoint,
    seq: u16,
    called: u16,
    call: u64,
) -> Result<Octets, AllocError> {
    admission_as(&ARQ, alloc, endpoint, seq, called, call)
}

/// An AdmissionRequest of the endpoint with that number, which answers the call.
pub fn answer(
    alloc: Global,
    endpoint: &Endpoint,
    seq: u16,
    call: u64,
) -> Result<Octets, AllocError> {
    admission_as(&ARQ_ANSWER, alloc, endpoint, seq, endpoint.number, call)
}

/// An AdmissionRequest that is otherwise this one.
fn admission_as(
    form: &[u8; 66],
    alloc: Global,
    endpoint: &Endpoint,
    seq: u16,
    called: u16,
    call: u64,
) -> Result<Octets, AllocError> {
    let identifier = characters_of(alloc, &endpoint.identifier)?;
    // Three bits of the type of call, then seven of the identifier, and six that pad them.
    let count = u16::from(count_of(&endpoint.identifier)) << 6;
    joined(
        alloc,
        &[
            &form[..2],
            &seq.to_be_bytes(),
            &count.to_be_bytes(),
            &identifier,
            &form[14..15],
            &alias_of(called),
            &form[19..28],
            &call.to_be_bytes(),
            &form[36..50],
            &call.to_be_bytes(),
            &form[58..],
        ],
    )
}

/// A BandwidthRequest for 2,000 units of that call.
pub fn bandwidth(
    alloc: Global,
    endpoint: &Endpoint,
    seq: u16,
    call: u64,
) -> Result<Octets, AllocError> {
    let identifier = characters_of(alloc, &endpoint.identifier)?;
    joined(
        alloc,
        &[
            &BRQ[..2],
            &seq.to_be_bytes(),
            &[count_of(&endpoint.identifier) << 1],
            &identifier,
            &call.to_be_bytes(),
            &BRQ[21..37],
            &call.to_be_bytes(),
            &BRQ[45..],
        ],
    )
}

/// A DisengageRequest for that call.
pub fn disengage(
    alloc: Global,
    endpoint: &Endpoint,
    seq: u16,
    call: u64,
) -> Result<Octets, AllocError> {
    let identifier = characters_of(alloc, &endpoint.identifier)?;
    joined(
        alloc,
        &[
            &DRQ[..1],
            &seq.to_be_bytes(),
            &[count_of(&endpoint.identifier) << 1],
            &identifier,
            &call.to_be_bytes(),
            &DRQ[20..34],
            &call.to_be_bytes(),
            &DRQ[42..],
        ],
    )
}

/// An UnregistrationRequest of the endpoint with this number, by its call signal address.
pub fn unregistration(alloc: Global, number: u16, seq: u16) -> Result<Octets, AllocError> {
    let address = address_of(number);
    joined(
        alloc,
        &[
            &URQ[..1],
            // No bit for an identifier.
            &[0],
            &seq.to_be_bytes(),
            &URQ[4..6],
            &address,
            &URQ[10..12],
        ],
    )
}

/// An InfoRequestResponse.
pub fn response(alloc: Global, endpoint: &Endpoint, seq: u16) -> Result<Octets, AllocError> {
    let identifier = characters_of(alloc, &endpoint.identifier)?;
    // Three bits of the type of endpoint, then seven of the identifier, and six that pad them.
    let count = u16::from(count_of(&endpoint.identifier)) << 6;
    joined(
        alloc,
        &[
            &IRR[..2],
            &seq.to_be_bytes(),
            &IRR[4..5],
            &count.to_be_bytes(),
            &identifier,
            &IRR[15..],
        ],
    )
}
