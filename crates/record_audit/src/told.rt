//! The identifier that a RegistrationConfirm tells.

ghost use Rattle.std.specs.Prelude.{◌≡◌, ◌≤◌, IfOk, true};
ghost use Rattle.ras_module.specs.Texts.{IsPadded};
ghost use Rattle.ras_grammar.specs.Faults.{front_of};
ghost use Rattle.ras_grammar.specs.Grammar.{bits, each, each_skipped, skipped};
ghost use Rattle.ras_grammar.specs.Sequences.{identifier, octet_string};
ghost use Rattle.ras_reading.specs.Parsing.{Parses};
ghost use Rattle.record_audit.specs.Told.{absent, confirmed_identifier, passed_address};
ghost use Rattle.record_audit.specs.Told.{passed_alias, passed_aliases, passed_digits, passed_text};
ghost use Rattle.record_audit.specs.Told.{told_identifier, told_in};

use ras_grammar::{Decoder, ReadFault};
use ras_module::{BmpString, EndpointId};

/// The characters that an identifier has at most.
const MOST: usize = 128;

/// Refuses what this gatekeeper doesn't write.
fn absent(decoder: &Decoder<'_>, present: bool) -> Result<(), ReadFault>
    ensures { Parses (absent present).reading decoder.now result decoder.now }
{
    let _ = decoder;
    if present {
        Err(ReadFault::BadChoice)
    } else {
        Ok(())
    }
}

fn skip_half_octet(decoder: &mut Decoder<'_>, present: bool) -> Result<(), ReadFault>
    ensures { Parses (skipped present (bits 4)).reading decoder.old result decoder.new }
{
    if present {
        decoder.bits(4)?;
    }
    Ok(())
}

#[tactic(auto, unfolding(crate::specs::Told::passed_digits))]
fn skip_digits(decoder: &mut Decoder<'_>) -> Result<(), ReadFault>
    ensures { Parses passed_digits.reading decoder.old result decoder.new }
{
    let count = decoder.whole(1, 128)? as usize;
    decoder.align();
    decoder.octets(count / 2)?;
    skip_half_octet(decoder, count % 2 == 1)
}

#[tactic(auto, unfolding(crate::specs::Told::passed_text))]
fn skip_text(decoder: &mut Decoder<'_>, most: u32) -> Result<(), ReadFault>
    requires some { 1 ≤ most }
    requires few { most ≤ 256 }
    ensures { Parses (passed_text most).reading decoder.old result decoder.new }
{
    let count = decoder.whole(1, most)? as usize;
    decoder.octets(2 * count)?;
    Ok(())
}

#[tactic(auto, unfolding(crate::specs::Told::passed_alias))]
fn skip_alias(decoder: &mut Decoder<'_>) -> Result<(), ReadFault>
    ensures { Parses passed_alias.reading decoder.old result decoder.new }
{
    let extended = decoder.boolean()?;
    absent(decoder, extended)?;
    let index = decoder.choice_index(1)?;
    if index == 0 {
        skip_digits(decoder)
    } else {
        skip_text(decoder, 256)
    }
}

fn skip_each_alias(decoder: &mut Decoder<'_>, count: u32) -> Result<(), ReadFault>
    ensures { Parses (each_skipped count passed_alias).reading decoder.old result decoder.new }
{
    for _ in 0..count {
        skip_alias(decoder)?;
    }
    Ok(())
}

#[tactic(auto, unfolding(crate::specs::Told::passed_aliases))]
fn skip_aliases(decoder: &mut Decoder<'_>, present: bool) -> Result<(), ReadFault>
    ensures { Parses (skipped present passed_aliases).reading decoder.old result decoder.new }
{
    if !present {
        return Ok(());
    }
    let count = decoder.length()?;
    skip_each_alias(decoder, count)
}

/// Passes over a list of one ipAddress.
#[tactic(auto, unfolding(crate::specs::Told::passed_address))]
fn skip_address(decoder: &mut Decoder<'_>) -> Result<(), ReadFault>
    ensures { Parses passed_address.reading decoder.old result decoder.new }
{
    let count = decoder.length()?;
    absent(decoder, count != 1)?;
    let extended = decoder.boolean()?;
    absent(decoder, extended)?;
    let index = decoder.choice_index(6)?;
    absent(decoder, index != 0)?;
    decoder.octets(4)?;
    decoder.whole(0, 65535)?;
    Ok(())
}

fn skip_protocol(decoder: &mut Decoder<'_>) -> Result<(), ReadFault>
    ensures { Parses (skipped true octet_string).reading decoder.old result decoder.new }
{
    let count = decoder.length()?;
    decoder.octets(count as usize)?;
    Ok(())
}

fn skip_gatekeeper(decoder: &mut Decoder<'_>, present: bool) -> Result<(), ReadFault>
    ensures { Parses (skipped present (passed_text 128)).reading decoder.old result decoder.new }
{
    if present {
        skip_text(decoder, 128)?;
    }
    Ok(())
}

/// Characters of 16 bits, with zeros after them.
fn characters(decoder: &mut Decoder<'_>, count: usize) -> Result<[u16; MOST], ReadFault>
    requires some { 1 ≤ count }
    requires few { count ≤ 128 }
    ensures gives { Parses (each count (bits 16)).reading decoder.old
        (front_of count result) decoder.new }
    ensures padded { IfOk result (λ characters. IsPadded 128 characters count) }
{
    let mut characters = [0; MOST];
    for i in 0..count {
        characters[i] = decoder.bits(16)? as u16;
    }
    Ok(characters)
}

#[tactic(auto, unfolding(ras_grammar::specs::Sequences::bmp_string))]
fn endpoint_identifier(decoder: &mut Decoder<'_>) -> Result<EndpointId, ReadFault>
    ensures { Parses identifier.reading decoder.old result decoder.new }
{
    let count = decoder.whole(1, 128)? as usize;
    decoder.align();
    let characters = characters(decoder, count)?;
    Ok(EndpointId::new(BmpString::of_padded(characters, count)))
}

#[tactic(auto, unfolding(crate::specs::Told::confirmed_identifier))]
fn confirmed_identifier(decoder: &mut Decoder<'_>) -> Result<EndpointId, ReadFault>
    ensures { Parses confirmed_identifier.reading decoder.old result decoder.new }
{
    let _extended = decoder.boolean()?;
    let has_non_standard_data = decoder.boolean()?;
    let has_aliases = decoder.boolean()?;
    let has_gatekeeper = decoder.boolean()?;
    decoder.whole(1, 65535)?;
    skip_protocol(decoder)?;
    absent(decoder, has_non_standard_data)?;
    skip_address(decoder)?;
    skip_aliases(decoder, has_aliases)?;
    skip_gatekeeper(decoder, has_gatekeeper)?;
    endpoint_identifier(decoder)
}

#[tactic(auto, unfolding(crate::specs::Told::told_identifier))]
fn told_identifier(decoder: &mut Decoder<'_>) -> Result<EndpointId, ReadFault>
    ensures { Parses told_identifier.reading decoder.old result decoder.new }
{
    let extended = decoder.boolean()?;
    absent(decoder, extended)?;
    let index = decoder.choice_index(24)?;
    absent(decoder, index != 4)?;
    confirmed_identifier(decoder)
}

/// The identifier of the endpoint that a RegistrationConfirm of this gatekeeper tells, by the
/// octets of the message; None if they are no such message.
#[tactic(auto, unfolding(crate::specs::Told::told_in))]
pub(crate) fn told_in(octets: &[u8]) -> Option<EndpointId>
    ensures { result ≡ told_in octets.now }
{
    let mut decoder = Decoder::new(octets);
    match told_identifier(&mut decoder) {
        Ok(identifier) => Some(identifier),
        Err(_) => None,
    }
}
