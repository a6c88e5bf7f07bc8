//! The answers to a discovery (H.225.0).

ghost use Rattle.std.specs.Prelude.{◌≡◌, ◌≤◌, IfOk};
ghost use Rattle.ras_grammar.specs.Addresses.{ip_address};
ghost use Rattle.ras_grammar.specs.Faults.{front_of, of_octets, IsUnlessMemory};
ghost use Rattle.ras_grammar.specs.Grammar.{bits, each, octets, optional, skipped};
ghost use Rattle.ras_grammar.specs.Sequences.{identifier, octet_string, request_seq_num};
ghost use Rattle.ras_module.specs.Texts.{IsPadded};
ghost use Rattle.ras_reading.specs.Parsing.{Parses, ParsesUnlessMemory};
ghost use Rattle.probing.specs.Replies.{discovery_reply, gatekeeper_confirm, gatekeeper_reject};
ghost use Rattle.probing.specs.Replies.{h221_identifier, later_reason, non_standard_data};
ghost use Rattle.probing.specs.Replies.{ras_address, reject_reason, reply_reading, root_reason};
ghost use Rattle.probing.specs.Replies.{root_reply};

use ras_grammar::{Decoder, ReadFault};
use ras_module::{Address, Boxed, Name, RequestSeqNum};
use std::alloc::Global;

/// Why a discovery is rejected (H.225.0, GatekeeperRejectReason).
#[derive(Clone, Copy, Debug, PartialEq, Eq)]
pub enum RejectReason {
    ResourceUnavailable,
    TerminalExcluded,
    InvalidRevision,
    UndefinedReason,
    SecurityDenial,
    GenericDataReason,
    NeededFeatureNotSupported,
    /// One of a later edition.
    Later,
}

/// A GatekeeperConfirm: the number of the request, the gatekeeper's name, if it tells one, and its
/// address.
#[derive(Drop)]
pub struct Confirm {
    pub seq: RequestSeqNum,
    pub gatekeeper: Option<Boxed<Name>>,
    pub ras: Address,
}

/// A GatekeeperReject: the number of the request, and the reason.
#[derive(Clone, Copy)]
pub struct Reject {
    pub seq: RequestSeqNum,
    pub reason: RejectReason,
}

/// A message, as an answer to a discovery.
#[derive(Drop)]
pub enum DiscoveryReply {
    Confirm(Confirm),
    Reject(Reject),
    /// Another message.
    Other,
}

fn request_seq_num(decoder: &mut Decoder<'_>) -> Result<RequestSeqNum, ReadFault>
    ensures { Parses request_seq_num.reading decoder.old result decoder.new }
{
    let number = decoder.whole(1, 65535)?;
    Ok(RequestSeqNum::new(number as u16).unwrap())
}

fn octet_string<'a>(decoder: &mut Decoder<'a>) -> Result<&'a [u8], ReadFault>
    ensures { Parses octet_string.reading decoder.old (of_octets result) decoder.new }
{
    let count = decoder.length()?;
    decoder.octets(count as usize)
}

/// Characters of 16 bits, with zeros after them.
fn characters(decoder: &mut Decoder<'_>, count: usize) -> Result<[u16; 128], ReadFault>
    requires some { 1 ≤ count }
    requires few { count ≤ 128 }
    ensures gives { Parses (each count (bits 16)).reading decoder.old
        (front_of count result) decoder.new }
    ensures padded { IfOk result (λ characters. IsPadded 128 characters count) }
{
    let mut characters = [0; 128];
    for i in 0..count {
        characters[i] = decoder.bits(16)? as u16;
    }
    Ok(characters)
}

#[tactic(auto, unfolding(ras_grammar::specs::Sequences::bmp_string))]
fn identifier(decoder: &mut Decoder<'_>) -> Result<Name, ReadFault>
    ensures { Parses identifier.reading decoder.old result decoder.new }
{
    let count = decoder.whole(1, 128)? as usize;
    decoder.align();
    let characters = characters(decoder, count)?;
    Ok(Name::of_padded(characters, count))
}

/// An identifier that is OPTIONAL.
fn optional_identifier(
    alloc: Global,
    decoder: &mut Decoder<'_>,
    present: bool,
) -> Result<Option<Boxed<Name>>, ReadFault>
    ensures { ParsesUnlessMemory (optional present identifier).reading decoder.old result
        decoder.new }
{
    if !present {
        return Ok(None);
    }
    let name = identifier(decoder)?;
    Ok(Some(Boxed::new(alloc, name)?))
}

/// H221NonStandard, without additions.
fn h221_identifier(decoder: &mut Decoder<'_>) -> Result<(), ReadFault>
    ensures { Parses h221_identifier.reading decoder.old result decoder.new }
{
    if decoder.boolean()? {
        return Err(ReadFault::BadChoice);
    }
    decoder.whole(0, 255)?;
    decoder.whole(0, 255)?;
    decoder.whole(0, 65535)?;
    Ok(())
}

/// NonStandardParameter, whose identifier is one of those before the extension marker.
fn non_standard_data(decoder: &mut Decoder<'_>) -> Result<(), ReadFault>
    ensures { Parses non_standard_data.reading decoder.old result decoder.new }
{
    if decoder.boolean()? {
        return Err(ReadFault::BadChoice);
    }
    if decoder.choice_index(1)? == 0 {
        octet_string(decoder)?;
    } else {
        h221_identifier(decoder)?;
    }
    octet_string(decoder)?;
    Ok(())
}

fn skip_non_standard_data(decoder: &mut Decoder<'_>, present: bool) -> Result<(), ReadFault>
    ensures { Parses (skipped present non_standard_data).reading decoder.old result decoder.new }
{
    if present {
        return non_standard_data(decoder);
    }
    Ok(())
}

#[tactic(auto, unfolding(ras_grammar::specs::Addresses::ip_address))]
fn ip_address(decoder: &mut Decoder<'_>) -> Result<Address, ReadFault>
    ensures { Parses ip_address.reading decoder.old result decoder.new }
{
    let mut ip = [0; 4];
    ip.copy_from_slice(decoder.octets(4)?);
    let port = decoder.whole(0, 65535)? as u16;
    Ok(Address { ip, port })
}

/// TransportAddress: only an ipAddress is read.
fn ras_address(decoder: &mut Decoder<'_>) -> Result<Address, ReadFault>
    ensures { Parses ras_address.reading decoder.old result decoder.new }
{
    if decoder.boolean()? {
        return Err(ReadFault::BadChoice);
    }
    if decoder.choice_index(6)? != 0 {
        return Err(ReadFault::BadChoice);
    }
    ip_address(decoder)
}

fn root_reason(index: u32) -> RejectReason
    ensures { result ≡ root_reason index }
{
    match index {
        0 => RejectReason::ResourceUnavailable,
        1 => RejectReason::TerminalExcluded,
        2 => RejectReason::InvalidRevision,
        _ => RejectReason::UndefinedReason,
    }
}

fn later_reason(index: u32) -> RejectReason
    ensures { result ≡ later_reason index }
{
    match index {
        0 => RejectReason::SecurityDenial,
        1 => RejectReason::GenericDataReason,
        2 => RejectReason::NeededFeatureNotSupported,
        _ => RejectReason::Later,
    }
}

fn reject_reason(decoder: &mut Decoder<'_>) -> Result<RejectReason, ReadFault>
    ensures { Parses reject_reason.reading decoder.old result decoder.new }
{
    if decoder.boolean()? {
        let index = decoder.small()?;
        decoder.open_type()?;
        return Ok(later_reason(index));
    }
    let index = decoder.choice_index(3)?;
    Ok(root_reason(index))
}

/// GatekeeperConfirm. Its additions are not read.
#[tactic(auto, unfolding(crate::specs::Replies::gatekeeper_confirm))]
fn gatekeeper_confirm(alloc: Global, decoder: &mut Decoder<'_>) -> Result<Confirm, ReadFault>
    ensures { ParsesUnlessMemory gatekeeper_confirm.reading decoder.old result decoder.new }
{
    decoder.boolean()?;
    let has_non_standard_data = decoder.boolean()?;
    let has_gatekeeper = decoder.boolean()?;
    let seq = request_seq_num(decoder)?;
    octet_string(decoder)?;
    skip_non_standard_data(decoder, has_non_standard_data)?;
    let gatekeeper = optional_identifier(alloc, decoder, has_gatekeeper)?;
    let ras = ras_address(decoder)?;
    Ok(Confirm {
        seq,
        gatekeeper,
        ras,
    })
}

/// GatekeeperReject. Its additions are not read.
#[tactic(auto, unfolding(crate::specs::Replies::gatekeeper_reject))]
fn gatekeeper_reject(alloc: Global, decoder: &mut Decoder<'_>) -> Result<Reject, ReadFault>
    ensures { ParsesUnlessMemory gatekeeper_reject.reading decoder.old result decoder.new }
{
    decoder.boolean()?;
    let has_non_standard_data = decoder.boolean()?;
    let has_gatekeeper = decoder.boolean()?;
    let seq = request_seq_num(decoder)?;
    octet_string(decoder)?;
    skip_non_standard_data(decoder, has_non_standard_data)?;
    optional_identifier(alloc, decoder, has_gatekeeper)?;
    let reason = reject_reason(decoder)?;
    Ok(Reject { seq, reason })
}

fn root_reply(alloc: Global, decoder: &mut Decoder<'_>) -> Result<DiscoveryReply, ReadFault>
    ensures { ParsesUnlessMemory root_reply.reading decoder.old result decoder.new }
{
    match decoder.choice_index(24)? {
        1 => Ok(DiscoveryReply::Confirm(gatekeeper_confirm(alloc, decoder)?)),
        2 => Ok(DiscoveryReply::Reject(gatekeeper_reject(alloc, decoder)?)),
        _ => Ok(DiscoveryReply::Other),
    }
}

#[tactic(auto, unfolding(crate::specs::Replies::discovery_reply))]
fn discovery_reply(alloc: Global, decoder: &mut Decoder<'_>) -> Result<DiscoveryReply, ReadFault>
    ensures { ParsesUnlessMemory discovery_reply.reading decoder.old result decoder.new }
{
    if decoder.boolean()? {
        return Ok(DiscoveryReply::Other);
    }
    root_reply(alloc, decoder)
}

/// The answer to a discovery that octets begin with. What follows is not read.
///
/// promise discovery-replies-are-read-exactly: Answers to a discovery are read as the grammar says
/// (`reply_reading`).
#[tactic(auto, unfolding(crate::specs::Replies::reply_reading))]
pub fn read_reply(alloc: Global, octets: &[u8]) -> Result<DiscoveryReply, ReadFault>
    ensures { IsUnlessMemory (reply_reading octets.now) result }
{
    let mut decoder = Decoder::new(octets);
    discovery_reply(alloc, &mut decoder)
}
