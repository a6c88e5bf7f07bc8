//! What an endpoint is (H.225.0, EndpointType). It is read and dropped.

ghost use Rattle.ras_reading.specs.Parsing.{Parses};
ghost use Rattle.ras_grammar.specs.Grammar.{each_skipped, skipped};
ghost use Rattle.ras_grammar.specs.Sequences.{sized_octet_string};
ghost use Rattle.ras_reading.specs.EndpointTypes.{vendor_identifier, node_info, protocols};
ghost use Rattle.ras_reading.specs.EndpointTypes.{supported_protocols, gateway_info};
ghost use Rattle.ras_reading.specs.EndpointTypes.{endpoint_type};

use crate::additions::skip_additions;
use crate::sequence::{
    h221_non_standard, non_standard_parameter, sized_octet_string, skip_non_standard_data,
    unknown_alternative,
};
use ras_grammar::{Decoder, ReadFault};

/// productId or versionId.
fn skip_product(decoder: &mut Decoder<'_>, present: bool) -> Result<(), ReadFault>
    ensures { Parses (skipped present (sized_octet_string 1 256)).reading decoder.old result
        decoder.new }
{
    if present {
        sized_octet_string(decoder, 1, 256)?;
    }
    Ok(())
}

/// VendorIdentifier.
#[tactic(auto, unfolding(crate::specs::EndpointTypes::vendor_identifier))]
pub fn vendor_identifier(decoder: &mut Decoder<'_>) -> Result<(), ReadFault>
    ensures { Parses vendor_identifier.reading decoder.old result decoder.new }
{
    let extended = decoder.boolean()?;
    let has_product = decoder.boolean()?;
    let has_version = decoder.boolean()?;
    h221_non_standard(decoder)?;
    skip_product(decoder, has_product)?;
    skip_product(decoder, has_version)?;
    skip_additions(decoder, extended)
}

fn skip_vendor(decoder: &mut Decoder<'_>, present: bool) -> Result<(), ReadFault>
    ensures { Parses (skipped present vendor_identifier).reading decoder.old result decoder.new }
{
    if present {
        vendor_identifier(decoder)?;
    }
    Ok(())
}

/// GatekeeperInfo, McuInfo, TerminalInfo, and the types that say that a protocol is supported.
#[tactic(auto, unfolding(crate::specs::EndpointTypes::node_info))]
fn node_info(decoder: &mut Decoder<'_>) -> Result<(), ReadFault>
    ensures { Parses node_info.reading decoder.old result decoder.new }
{
    let extended = decoder.boolean()?;
    let has_non_standard_data = decoder.boolean()?;
    skip_non_standard_data(decoder, has_non_standard_data)?;
    skip_additions(decoder, extended)
}

fn skip_node_info(decoder: &mut Decoder<'_>, present: bool) -> Result<(), ReadFault>
    ensures { Parses (skipped present node_info).reading decoder.old result decoder.new }
{
    if present {
        node_info(decoder)?;
    }
    Ok(())
}

/// SupportedProtocols.
#[tactic(auto, unfolding(crate::specs::EndpointTypes::supported_protocols))]
fn supported_protocols(decoder: &mut Decoder<'_>) -> Result<(), ReadFault>
    ensures { Parses supported_protocols.reading decoder.old result decoder.new }
{
    if decoder.boolean()? {
        unknown_alternative(decoder)?;
    } else if decoder.choice_index(8)? == 0 {
        non_standard_parameter(decoder)?;
    } else {
        node_info(decoder)?;
    }
    Ok(())
}

/// This many supported protocols.
fn skip_protocols(decoder: &mut Decoder<'_>, count: u32) -> Result<(), ReadFault>
    ensures { Parses (each_skipped count supported_protocols).reading decoder.old result
        decoder.new }
{
    for _ in 0..count {
        supported_protocols(decoder)?;
    }
    Ok(())
}

/// The supported protocols of a gateway.
#[tactic(auto, unfolding(crate::specs::EndpointTypes::protocols))]
fn protocols(decoder: &mut Decoder<'_>, present: bool) -> Result<(), ReadFault>
    ensures { Parses (skipped present protocols).reading decoder.old result decoder.new }
{
    if !present {
        return Ok(());
    }
    let count = decoder.length()?;
    skip_protocols(decoder, count)
}

/// GatewayInfo.
#[tactic(auto, unfolding(crate::specs::EndpointTypes::gateway_info))]
fn gateway_info(decoder: &mut Decoder<'_>) -> Result<(), ReadFault>
    ensures { Parses gateway_info.reading decoder.old result decoder.new }
{
    let extended = decoder.boolean()?;
    let has_protocol = decoder.boolean()?;
    let has_non_standard_data = decoder.boolean()?;
    protocols(decoder, has_protocol)?;
    skip_non_standard_data(decoder, has_non_standard_data)?;
    skip_additions(decoder, extended)
}

fn skip_gateway(decoder: &mut Decoder<'_>, present: bool) -> Result<(), ReadFault>
    ensures { Parses (skipped present gateway_info).reading decoder.old result decoder.new }
{
    if present {
        gateway_info(decoder)?;
    }
    Ok(())
}

/// EndpointType.
#[tactic(auto, unfolding(crate::specs::EndpointTypes::endpoint_type))]
pub fn endpoint_type(decoder: &mut Decoder<'_>) -> Result<(), ReadFault>
    ensures { Parses endpoint_type.reading decoder.old result decoder.new }
{
    let extended = decoder.boolean()?;
    let has_non_standard_data = decoder.boolean()?;
    let has_vendor = decoder.boolean()?;
    let has_gatekeeper = decoder.boolean()?;
    let has_gateway = decoder.boolean()?;
    let has_mcu = decoder.boolean()?;
    let has_terminal = decoder.boolean()?;
    skip_non_standard_data(decoder, has_non_standard_data)?;
    skip_vendor(decoder, has_vendor)?;
    skip_node_info(decoder, has_gatekeeper)?;
    skip_gateway(decoder, has_gateway)?;
    skip_node_info(decoder, has_mcu)?;
    skip_node_info(decoder, has_terminal)?;
    decoder.boolean()?;
    decoder.boolean()?;
    skip_additions(decoder, extended)
}
