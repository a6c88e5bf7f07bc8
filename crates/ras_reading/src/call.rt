//! What names and describes a call (H.225.0).

ghost use Rattle.std.specs.Prelude.{◌≡◌, nat_eq};
ghost use Rattle.std.specs.List.{list_all};
ghost use Rattle.ras_reading.specs.Parsing.{Parses};
ghost use Rattle.per_bits.specs.Bits.{bits_of};
ghost use Rattle.ras_grammar.specs.Grammar.{skipped};
ghost use Rattle.ras_grammar.specs.Sequences.{addition, call_identifier};
ghost use Rattle.ras_reading.specs.Requests.{call_type, call_model, q954_details};
ghost use Rattle.ras_reading.specs.Requests.{qseries_options, disengage_reason, call_key};

use crate::additions::{PresentAdditions, skip_additions};
use crate::sequence::{octet_array, skip_null_choice};
use ras_grammar::{Decoder, ReadFault};
use ras_module::CallKey;

/// CallIdentifier, without its additions.
#[tactic(auto, unfolding(ras_grammar::specs::Sequences::call_identifier))]
fn call_identifier(decoder: &mut Decoder<'_>) -> Result<[u8; 16], ReadFault>
    ensures { Parses call_identifier.reading decoder.old result decoder.new }
{
    decoder.boolean()?;
    octet_array(decoder)
}

/// The callIdentifier among the additions of a message.
pub fn call_identifier_at(
    decoder: &mut Decoder<'_>,
    present: &PresentAdditions,
    index: usize,
) -> Result<Option<[u8; 16]>, ReadFault>
    ensures { Parses (addition present.now index call_identifier).reading decoder.old result
        decoder.new }
{
    if !present.is_present(index) {
        return Ok(None);
    }
    let octets = decoder.open_type()?;
    let guid = call_identifier(&mut Decoder::new(octets))?;
    Ok(Some(guid))
}

/// The key of a call, by its conferenceID and its callIdentifier.
pub fn call_key(conference: [u8; 16], guid: Option<[u8; 16]>) -> CallKey
    ensures { result ≡ call_key conference guid }
{
    match guid {
        Some(guid) if !is_all_zero(&guid) => CallKey { octets: guid },
        _ => CallKey { octets: conference },
    }
}

fn is_all_zero(octets: &[u8]) -> bool
    ensures { result ≡ list_all (λ octet. nat_eq octet 0) octets.now }
{
    octets.iter().all(|octet| *octet == 0)
}

/// CallType.
#[tactic(auto, unfolding(crate::specs::Requests::call_type))]
pub fn call_type(decoder: &mut Decoder<'_>) -> Result<(), ReadFault>
    ensures { Parses call_type.reading decoder.old result decoder.new }
{
    skip_null_choice(decoder, 3)
}

/// CallType, if it is there.
pub fn skip_call_type(decoder: &mut Decoder<'_>, present: bool) -> Result<(), ReadFault>
    ensures { Parses (skipped present call_type).reading decoder.old result decoder.new }
{
    if present {
        call_type(decoder)?;
    }
    Ok(())
}

/// CallModel, if it is there.
#[tactic(auto, unfolding(crate::specs::Requests::call_model))]
pub fn skip_call_model(decoder: &mut Decoder<'_>, present: bool) -> Result<(), ReadFault>
    ensures { Parses (skipped present call_model).reading decoder.old result decoder.new }
{
    if present {
        skip_null_choice(decoder, 1)?;
    }
    Ok(())
}

/// Q954Details.
#[tactic(auto, unfolding(crate::specs::Requests::q954_details))]
fn q954_details(decoder: &mut Decoder<'_>) -> Result<(), ReadFault>
    ensures { Parses q954_details.reading decoder.old result decoder.new }
{
    let extended = decoder.boolean()?;
    decoder.boolean()?;
    decoder.boolean()?;
    skip_additions(decoder, extended)
}

/// QseriesOptions.
#[tactic(auto, unfolding(crate::specs::Requests::qseries_options))]
fn qseries_options(decoder: &mut Decoder<'_>) -> Result<(), ReadFault>
    ensures { Parses qseries_options.reading decoder.old result decoder.new }
{
    let extended = decoder.boolean()?;
    decoder.boolean()?;
    decoder.boolean()?;
    decoder.boolean()?;
    decoder.boolean()?;
    decoder.boolean()?;
    decoder.boolean()?;
    decoder.boolean()?;
    q954_details(decoder)?;
    skip_additions(decoder, extended)
}

/// callServices, if they are there.
pub fn skip_call_services(decoder: &mut Decoder<'_>, present: bool) -> Result<(), ReadFault>
    ensures { Parses (skipped present qseries_options).reading decoder.old result decoder.new }
{
    if present {
        qseries_options(decoder)?;
    }
    Ok(())
}

/// DisengageReason.
#[tactic(auto, unfolding(crate::specs::Requests::disengage_reason))]
pub fn disengage_reason(decoder: &mut Decoder<'_>) -> Result<(), ReadFault>
    ensures { Parses disengage_reason.reading decoder.old result decoder.new }
{
    skip_null_choice(decoder, 2)
}
