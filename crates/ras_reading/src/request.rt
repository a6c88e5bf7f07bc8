//! The requests of endpoints (H.225.0).

ghost use Rattle.std.specs.Prelude.{◌≡◌, None};
ghost use Rattle.ras_grammar.specs.Grammar.{boolean};
ghost use Rattle.ras_grammar.specs.Sequences.{addition, identifier, time_to_live};
ghost use Rattle.ras_reading.specs.Parsing.{Parses, ParsesUnlessMemory, placed};
ghost use Rattle.ras_reading.specs.Requests.{gatekeeper_request, registration_additions};
ghost use Rattle.ras_reading.specs.Requests.{registration_request, unregistration_request};
ghost use Rattle.ras_reading.specs.Requests.{admission_preamble, admission_request};
ghost use Rattle.ras_reading.specs.Requests.{bandwidth_request, disengage_request};
ghost use Rattle.ras_reading.specs.Requests.{info_request_response};

use crate::additions::{PresentAdditions, additions, skip_addition};
use crate::address::{address_list, optional_address, transport_address};
use crate::alias::{optional_aliases, skip_aliases};
use crate::call::{
    call_identifier_at, call_key, call_type, disengage_reason, skip_call_model, skip_call_services,
    skip_call_type,
};
use crate::endpoint_type::{endpoint_type, vendor_identifier};
use crate::sequence::{
    endpoint_identifier, octet_array, octet_string, optional_identifier, request_seq_num,
    skip_non_standard_data,
};
use ras_grammar::{Decoder, ReadFault};
use ras_module::{
    AdmissionRequest, BandwidthRequest, Boxed, DisengageRequest, EndpointId, GatekeeperRequest,
    InfoRequestResponse, RegistrationRequest, TimeToLive, UnregistrationRequest,
};
use std::alloc::Global;

/// GatekeeperRequest. What stands after gatekeeperIdentifier is not read.
#[tactic(auto, unfolding(crate::specs::Requests::gatekeeper_request))]
pub fn gatekeeper_request(
    alloc: Global,
    decoder: &mut Decoder<'_>,
) -> Result<Boxed<GatekeeperRequest>, ReadFault>
    ensures { ParsesUnlessMemory gatekeeper_request.reading decoder.old result decoder.new }
{
    let _extended = decoder.boolean()?;
    let has_non_standard_data = decoder.boolean()?;
    let has_gatekeeper = decoder.boolean()?;
    let _has_call_services = decoder.boolean()?;
    let _has_endpoint_alias = decoder.boolean()?;
    let seq = request_seq_num(decoder)?;
    let _protocol = octet_string(decoder)?;
    skip_non_standard_data(decoder, has_non_standard_data)?;
    let _ras = transport_address(decoder)?;
    endpoint_type(decoder)?;
    let mut gatekeeper = None;
    optional_identifier(decoder, has_gatekeeper, &mut gatekeeper)?;
    Ok(Boxed::new(alloc, GatekeeperRequest { seq, gatekeeper })?)
}

/// What is read of the additions of a RegistrationRequest.
#[derive(Clone, Copy)]
struct RegistrationAdditions {
    time_to_live: Option<TimeToLive>,
    keep_alive: bool,
    endpoint: Option<EndpointId>,
}

fn time_to_live_at(
    decoder: &mut Decoder<'_>,
    present: &PresentAdditions,
    index: usize,
) -> Result<Option<TimeToLive>, ReadFault>
    ensures { Parses (addition present.now index time_to_live).reading decoder.old result
        decoder.new }
{
    if !present.is_present(index) {
        return Ok(None);
    }
    let octets = decoder.open_type()?;
    let seconds = Decoder::new(octets).whole(1, 4_294_967_295)?;
    Ok(Some(TimeToLive::new(seconds).unwrap()))
}

fn boolean_at(
    decoder: &mut Decoder<'_>,
    present: &PresentAdditions,
    index: usize,
) -> Result<Option<bool>, ReadFault>
    ensures { Parses (addition present.now index boolean).reading decoder.old result decoder.new }
{
    if !present.is_present(index) {
        return Ok(None);
    }
    let octets = decoder.open_type()?;
    let bit = Decoder::new(octets).boolean()?;
    Ok(Some(bit))
}

/// An endpointIdentifier among the additions, read into its place, where there is none yet.
fn endpoint_at(
    decoder: &mut Decoder<'_>,
    present: &PresentAdditions,
    index: usize,
    place: &mut Option<EndpointId>,
) -> Result<(), ReadFault>
    requires { place.old ≡ None }
    ensures { Parses (addition present.now index identifier).reading decoder.old
        (placed place.new result) decoder.new }
{
    if present.is_present(index) {
        let octets = decoder.open_type()?;
        *place = Some(endpoint_identifier(&mut Decoder::new(octets))?);
    }
    Ok(())
}

/// The additions of a RegistrationRequest, read into their place, where no identifier is yet.
#[tactic(auto, unfolding(crate::specs::Requests::registration_additions))]
fn registration_additions(
    decoder: &mut Decoder<'_>,
    extended: bool,
    more: &mut RegistrationAdditions,
) -> Result<(), ReadFault>
    requires { more.old.endpoint ≡ None }
    ensures { Parses (registration_additions extended).reading decoder.old
        (placed more.new result) decoder.new }
{
    let present = additions(decoder, extended)?;
    skip_addition(decoder, &present, 0)?;
    more.time_to_live = time_to_live_at(decoder, &present, 1)?;
    skip_addition(decoder, &present, 2)?;
    skip_addition(decoder, &present, 3)?;
    skip_addition(decoder, &present, 4)?;
    let keep_alive = boolean_at(decoder, &present, 5)?;
    more.keep_alive = keep_alive.unwrap_or(false);
    endpoint_at(decoder, &present, 6, &mut more.endpoint)
}

/// RegistrationRequest.
#[tactic(auto, unfolding(crate::specs::Requests::registration_request))]
pub fn registration_request(
    alloc: Global,
    decoder: &mut Decoder<'_>,
) -> Result<Boxed<RegistrationRequest>, ReadFault>
    ensures { ParsesUnlessMemory registration_request.reading decoder.old result decoder.new }
{
    let extended = decoder.boolean()?;
    let has_non_standard_data = decoder.boolean()?;
    let has_aliases = decoder.boolean()?;
    let has_gatekeeper = decoder.boolean()?;
    let seq = request_seq_num(decoder)?;
    octet_string(decoder)?;
    skip_non_standard_data(decoder, has_non_standard_data)?;
    decoder.boolean()?;
    let call_signal = address_list(decoder)?;
    let ras = address_list(decoder)?;
    endpoint_type(decoder)?;
    let aliases = optional_aliases(alloc, decoder, has_aliases)?;
    let mut gatekeeper = None;
    optional_identifier(decoder, has_gatekeeper, &mut gatekeeper)?;
    vendor_identifier(decoder)?;
    let mut more = RegistrationAdditions {
        time_to_live: None,
        keep_alive: false,
        endpoint: None,
    };
    registration_additions(decoder, extended, &mut more)?;
    Ok(Boxed::new(
        alloc,
        RegistrationRequest {
            seq,
            call_signal,
            ras,
            aliases,
            gatekeeper,
            time_to_live: more.time_to_live,
            keep_alive: more.keep_alive,
            endpoint: more.endpoint,
        },
    )?)
}

/// UnregistrationRequest. Its additions are not read.
#[tactic(auto, unfolding(crate::specs::Requests::unregistration_request))]
pub fn unregistration_request(
    alloc: Global,
    decoder: &mut Decoder<'_>,
) -> Result<Boxed<UnregistrationRequest>, ReadFault>
    ensures { ParsesUnlessMemory unregistration_request.reading decoder.old result decoder.new }
{
    let _extended = decoder.boolean()?;
    let has_aliases = decoder.boolean()?;
    let has_non_standard_data = decoder.boolean()?;
    let has_endpoint = decoder.boolean()?;
    let seq = request_seq_num(decoder)?;
    let call_signal = address_list(decoder)?;
    skip_aliases(decoder, has_aliases)?;
    skip_non_standard_data(decoder, has_non_standard_data)?;
    let mut endpoint = None;
    optional_identifier(decoder, has_endpoint, &mut endpoint)?;
    Ok(Boxed::new(
        alloc,
        UnregistrationRequest {
            seq,
            call_signal,
            endpoint: endpoint.map(EndpointId::new),
        },
    )?)
}

/// The extension bit of an AdmissionRequest, and which of its components are there.
#[derive(Clone, Copy)]
struct AdmissionPreamble {
    extended: bool,
    has_call_model: bool,
    has_dest: bool,
    has_dest_address: bool,
    has_dest_extra: bool,
    has_src_address: bool,
    has_non_standard_data: bool,
    has_call_services: bool,
}

#[tactic(auto, unfolding(crate::specs::Requests::admission_preamble))]
fn admission_preamble(decoder: &mut Decoder<'_>) -> Result<AdmissionPreamble, ReadFault>
    ensures { Parses admission_preamble.reading decoder.old result decoder.new }
{
    Ok(AdmissionPreamble {
        extended: decoder.boolean()?,
        has_call_model: decoder.boolean()?,
        has_dest: decoder.boolean()?,
        has_dest_address: decoder.boolean()?,
        has_dest_extra: decoder.boolean()?,
        has_src_address: decoder.boolean()?,
        has_non_standard_data: decoder.boolean()?,
        has_call_services: decoder.boolean()?,
    })
}

/// AdmissionRequest.
#[tactic(auto, unfolding(crate::specs::Requests::admission_request))]
pub fn admission_request(
    alloc: Global,
    decoder: &mut Decoder<'_>,
) -> Result<Boxed<AdmissionRequest>, ReadFault>
    ensures { ParsesUnlessMemory admission_request.reading decoder.old result decoder.new }
{
    let there = admission_preamble(decoder)?;
    let seq = request_seq_num(decoder)?;
    call_type(decoder)?;
    skip_call_model(decoder, there.has_call_model)?;
    let endpoint = endpoint_identifier(decoder)?;
    let dest = optional_aliases(alloc, decoder, there.has_dest)?;
    let dest_address = optional_address(decoder, there.has_dest_address)?;
    skip_aliases(decoder, there.has_dest_extra)?;
    skip_aliases(decoder, true)?;
    optional_address(decoder, there.has_src_address)?;
    let asked = decoder.whole(0, 4_294_967_295)?;
    decoder.whole(0, 65535)?;
    skip_non_standard_data(decoder, there.has_non_standard_data)?;
    skip_call_services(decoder, there.has_call_services)?;
    let conference = octet_array(decoder)?;
    decoder.boolean()?;
    let answer = decoder.boolean()?;
    let present = additions(decoder, there.extended)?;
    skip_addition(decoder, &present, 0)?;
    let guid = call_identifier_at(decoder, &present, 1)?;
    Ok(Boxed::new(
        alloc,
        AdmissionRequest {
            seq,
            endpoint,
            dest,
            dest_address,
            asked,
            call: call_key(conference, guid),
            answer,
        },
    )?)
}

/// BandwidthRequest.
#[tactic(auto, unfolding(crate::specs::Requests::bandwidth_request))]
pub fn bandwidth_request(
    alloc: Global,
    decoder: &mut Decoder<'_>,
) -> Result<Boxed<BandwidthRequest>, ReadFault>
    ensures { ParsesUnlessMemory bandwidth_request.reading decoder.old result decoder.new }
{
    let extended = decoder.boolean()?;
    let has_call_type = decoder.boolean()?;
    let has_non_standard_data = decoder.boolean()?;
    let seq = request_seq_num(decoder)?;
    let endpoint = endpoint_identifier(decoder)?;
    let conference = octet_array(decoder)?;
    decoder.whole(0, 65535)?;
    skip_call_type(decoder, has_call_type)?;
    let asked = decoder.whole(0, 4_294_967_295)?;
    skip_non_standard_data(decoder, has_non_standard_data)?;
    let present = additions(decoder, extended)?;
    let guid = call_identifier_at(decoder, &present, 0)?;
    Ok(Boxed::new(
        alloc,
        BandwidthRequest {
            seq,
            endpoint,
            call: call_key(conference, guid),
            asked,
        },
    )?)
}

/// DisengageRequest.
#[tactic(auto, unfolding(crate::specs::Requests::disengage_request))]
pub fn disengage_request(
    alloc: Global,
    decoder: &mut Decoder<'_>,
) -> Result<Boxed<DisengageRequest>, ReadFault>
    ensures { ParsesUnlessMemory disengage_request.reading decoder.old result decoder.new }
{
    let extended = decoder.boolean()?;
    let has_non_standard_data = decoder.boolean()?;
    let seq = request_seq_num(decoder)?;
    let endpoint = endpoint_identifier(decoder)?;
    let conference = octet_array(decoder)?;
    decoder.whole(0, 65535)?;
    disengage_reason(decoder)?;
    skip_non_standard_data(decoder, has_non_standard_data)?;
    let present = additions(decoder, extended)?;
    let guid = call_identifier_at(decoder, &present, 0)?;
    Ok(Boxed::new(
        alloc,
        DisengageRequest {
            seq,
            endpoint,
            call: call_key(conference, guid),
        },
    )?)
}

/// InfoRequestResponse. What stands after endpointIdentifier is not read.
#[tactic(auto, unfolding(crate::specs::Requests::info_request_response))]
pub fn info_request_response(
    alloc: Global,
    decoder: &mut Decoder<'_>,
) -> Result<Boxed<InfoRequestResponse>, ReadFault>
    ensures { ParsesUnlessMemory info_request_response.reading decoder.old result decoder.new }
{
    let _extended = decoder.boolean()?;
    let has_non_standard_data = decoder.boolean()?;
    let _has_endpoint_alias = decoder.boolean()?;
    let _has_per_call_info = decoder.boolean()?;
    skip_non_standard_data(decoder, has_non_standard_data)?;
    let seq = request_seq_num(decoder)?;
    endpoint_type(decoder)?;
    let endpoint = endpoint_identifier(decoder)?;
    Ok(Boxed::new(alloc, InfoRequestResponse { seq, endpoint })?)
}
