//! Transport addresses (H.225.0, TransportAddress).

ghost use Rattle.ras_reading.specs.Parsing.{Parses};
ghost use Rattle.ras_grammar.specs.Grammar.{each_skipped, octets};
ghost use Rattle.ras_grammar.specs.Addresses.{ip_address, ip_source_route, ipx_address};
ghost use Rattle.ras_grammar.specs.Addresses.{ip6_address, net_bios, nsap, transport_address};
ghost use Rattle.ras_grammar.specs.Addresses.{root_address, first_each, address_list};
ghost use Rattle.ras_grammar.specs.Addresses.{optional_address};

use crate::additions::skip_additions;
use crate::sequence::{
    non_standard_parameter, octet_array, sized_octet_string, skip_null_choice, unknown_alternative,
};
use ras_grammar::{Decoder, ReadFault};
use ras_module::Address;

/// ipAddress.
#[tactic(auto, unfolding(ras_grammar::specs::Addresses::ip_address))]
fn ip_address(decoder: &mut Decoder<'_>) -> Result<Address, ReadFault>
    ensures { Parses ip_address.reading decoder.old result decoder.new }
{
    let ip = octet_array(decoder)?;
    let port = decoder.whole(0, 65535)? as u16;
    Ok(Address { ip, port })
}

/// Passes over this many addresses of a route.
fn skip_route(decoder: &mut Decoder<'_>, count: u32) -> Result<(), ReadFault>
    ensures { Parses (each_skipped count (octets 4)).reading decoder.old result decoder.new }
{
    for _ in 0..count {
        decoder.octets(4)?;
    }
    Ok(())
}

/// ipSourceRoute.
#[tactic(auto, unfolding(ras_grammar::specs::Addresses::ip_source_route))]
fn ip_source_route(decoder: &mut Decoder<'_>) -> Result<(), ReadFault>
    ensures { Parses ip_source_route.reading decoder.old result decoder.new }
{
    let extended = decoder.boolean()?;
    decoder.octets(4)?;
    decoder.whole(0, 65535)?;
    let count = decoder.length()?;
    skip_route(decoder, count)?;
    skip_null_choice(decoder, 1)?;
    skip_additions(decoder, extended)
}

/// ipxAddress.
#[tactic(auto, unfolding(ras_grammar::specs::Addresses::ipx_address))]
fn ipx_address(decoder: &mut Decoder<'_>) -> Result<(), ReadFault>
    ensures { Parses ipx_address.reading decoder.old result decoder.new }
{
    decoder.octets(6)?;
    decoder.octets(4)?;
    decoder.bits(16)?;
    Ok(())
}

/// ip6Address.
#[tactic(auto, unfolding(ras_grammar::specs::Addresses::ip6_address))]
fn ip6_address(decoder: &mut Decoder<'_>) -> Result<(), ReadFault>
    ensures { Parses ip6_address.reading decoder.old result decoder.new }
{
    let extended = decoder.boolean()?;
    decoder.octets(16)?;
    decoder.whole(0, 65535)?;
    skip_additions(decoder, extended)
}

/// netBios.
#[tactic(auto, unfolding(ras_grammar::specs::Addresses::net_bios))]
fn net_bios(decoder: &mut Decoder<'_>) -> Result<(), ReadFault>
    ensures { Parses net_bios.reading decoder.old result decoder.new }
{
    decoder.octets(16)?;
    Ok(())
}

/// nsap.
#[tactic(auto, unfolding(ras_grammar::specs::Addresses::nsap))]
fn nsap(decoder: &mut Decoder<'_>) -> Result<(), ReadFault>
    ensures { Parses nsap.reading decoder.old result decoder.new }
{
    sized_octet_string(decoder, 1, 20)?;
    Ok(())
}

/// The address of a root alternative.
fn root_address(decoder: &mut Decoder<'_>, index: u32) -> Result<Option<Address>, ReadFault>
    ensures { Parses (root_address index).reading decoder.old result decoder.new }
{
    match index {
        0 => return Ok(Some(ip_address(decoder)?)),
        1 => ip_source_route(decoder)?,
        2 => ipx_address(decoder)?,
        3 => ip6_address(decoder)?,
        4 => net_bios(decoder)?,
        5 => nsap(decoder)?,
        _ => non_standard_parameter(decoder)?,
    }
    Ok(None)
}

/// An address, or None for one that is no ipAddress.
#[tactic(auto, unfolding(ras_grammar::specs::Addresses::transport_address))]
pub fn transport_address(decoder: &mut Decoder<'_>) -> Result<Option<Address>, ReadFault>
    ensures { Parses transport_address.reading decoder.old result decoder.new }
{
    if decoder.boolean()? {
        unknown_alternative(decoder)?;
        return Ok(None);
    }
    let index = decoder.choice_index(6)?;
    root_address(decoder, index)
}

/// The first ipAddress of this many addresses.
fn first_address(decoder: &mut Decoder<'_>, count: u32) -> Result<Option<Address>, ReadFault>
    ensures { Parses (first_each count).reading decoder.old result decoder.new }
{
    let mut first = None;
    for _ in 0..count {
        let address = transport_address(decoder)?;
        first = first.or(address);
    }
    Ok(first)
}

/// The first ipAddress of a list.
#[tactic(auto, unfolding(ras_grammar::specs::Addresses::address_list))]
pub fn address_list(decoder: &mut Decoder<'_>) -> Result<Option<Address>, ReadFault>
    ensures { Parses address_list.reading decoder.old result decoder.new }
{
    let count = decoder.length()?;
    first_address(decoder, count)
}

/// An address that is OPTIONAL.
pub fn optional_address(
    decoder: &mut Decoder<'_>,
    present: bool,
) -> Result<Option<Address>, ReadFault>
    ensures { Parses (optional_address present).reading decoder.old result decoder.new }
{
    if present {
        transport_address(decoder)
    } else {
        Ok(None)
    }
}
