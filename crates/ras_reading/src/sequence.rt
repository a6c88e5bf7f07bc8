//! Small types that many messages share (H.225.0).

ghost use Rattle.std.specs.Prelude.{◌≡◌, ◌≤◌, ◌<◌, length, take, IfOk, None};
ghost use Rattle.ras_reading.specs.Parsing.{Parses, placed};
ghost use Rattle.ras_grammar.specs.Grammar.{skipped, optional, each, bits, octets};
ghost use Rattle.ras_grammar.specs.Sequences.{non_standard_parameter, non_standard_identifier};
ghost use Rattle.ras_grammar.specs.Sequences.{h221_non_standard, octet_string, sized_octet_string};
ghost use Rattle.ras_grammar.specs.Sequences.{unknown_alternative, null_choice, identifier};
ghost use Rattle.ras_grammar.specs.Sequences.{bmp_string, request_seq_num};
ghost use Rattle.ras_grammar.specs.Faults.{of_octets, front_of};
ghost use Rattle.ras_module.specs.Texts.{IsPadded};

use crate::additions::skip_additions;
use ras_grammar::{Decoder, ReadFault};
use ras_module::{BmpString, EndpointId, RequestSeqNum};

/// RequestSeqNum.
pub fn request_seq_num(decoder: &mut Decoder<'_>) -> Result<RequestSeqNum, ReadFault>
    ensures { Parses request_seq_num.reading decoder.old result decoder.new }
{
    let number = decoder.whole(1, 65535)?;
    Ok(RequestSeqNum::new(number as u16).unwrap())
}

/// OCTET STRING without a size.
pub fn octet_string<'a>(decoder: &mut Decoder<'a>) -> Result<&'a [u8], ReadFault>
    ensures { Parses octet_string.reading decoder.old (of_octets result) decoder.new }
{
    let count = decoder.length()?;
    decoder.octets(count as usize)
}

/// OCTET STRING (SIZE(lo..hi)).
pub fn sized_octet_string<'a>(
    decoder: &mut Decoder<'a>,
    lo: u32,
    hi: u32,
) -> Result<&'a [u8], ReadFault>
    requires { lo ≤ hi }
    ensures { Parses (sized_octet_string lo hi).reading decoder.old (of_octets result) decoder.new }
{
    let count = decoder.whole(lo, hi)?;
    decoder.octets(count as usize)
}

/// Characters of 16 bits, with zeros after them.
// this and the next two are inlined, so that a text is not copied from each to the caller of it
#[inline(always)]
fn characters<const MOST: usize>(
    decoder: &mut Decoder<'_>,
    count: usize,
) -> Result<[u16; MOST], ReadFault>
    requires some { 1 ≤ count }
    requires few { count ≤ MOST }
    ensures gives { Parses (each count (bits 16)).reading decoder.old
        (front_of count result) decoder.new }
    ensures padded { IfOk result (λ characters. IsPadded MOST characters count) }
{
    let mut characters = [0; MOST];
    for i in 0..count {
        characters[i] = decoder.bits(16)? as u16;
    }
    Ok(characters)
}

/// BMPString (SIZE(1..MOST)).
#[tactic(auto, unfolding(ras_grammar::specs::Sequences::bmp_string))]
#[inline(always)]
pub fn bmp_string<const MOST: usize>(
    decoder: &mut Decoder<'_>,
) -> Result<BmpString<MOST>, ReadFault>
    requires some { 1 ≤ MOST }
    requires few { MOST ≤ 256 }
    ensures { Parses (bmp_string MOST).reading decoder.old result decoder.new }
{
    let count = decoder.whole(1, MOST as u32)? as usize;
    decoder.align();
    let characters: [u16; MOST] = characters(decoder, count)?;
    Ok(BmpString::of_padded(characters, count))
}

/// EndpointIdentifier.
#[inline(always)]
pub fn endpoint_identifier(decoder: &mut Decoder<'_>) -> Result<EndpointId, ReadFault>
    ensures { Parses identifier.reading decoder.old result decoder.new }
{
    Ok(EndpointId::new(bmp_string(decoder)?))
}

/// An identifier that is OPTIONAL, read into its place, where there is none yet.
pub fn optional_identifier(
    decoder: &mut Decoder<'_>,
    present: bool,
    place: &mut Option<BmpString<128>>,
) -> Result<(), ReadFault>
    requires { place.old ≡ None }
    ensures { Parses (optional present identifier).reading decoder.old (placed place.new result)
        decoder.new }
{
    if present {
        *place = Some(bmp_string(decoder)?);
    }
    Ok(())
}

/// An alternative that is no root alternative, whatever it is.
pub fn unknown_alternative(decoder: &mut Decoder<'_>) -> Result<(), ReadFault>
    ensures { Parses (unknown_alternative tt).reading decoder.old result decoder.new }
{
    decoder.small()?;
    decoder.open_type()?;
    Ok(())
}

/// A CHOICE of NULLs, by the index of its last root alternative.
pub fn skip_null_choice(decoder: &mut Decoder<'_>, last: u32) -> Result<(), ReadFault>
    ensures { Parses (null_choice last).reading decoder.old result decoder.new }
{
    if decoder.boolean()? {
        unknown_alternative(decoder)?;
    } else {
        decoder.choice_index(last)?;
    }
    Ok(())
}

/// H221NonStandard (H.225.0).
#[tactic(auto, unfolding(ras_grammar::specs::Sequences::h221_non_standard))]
pub fn h221_non_standard(decoder: &mut Decoder<'_>) -> Result<(), ReadFault>
    ensures { Parses h221_non_standard.reading decoder.old result decoder.new }
{
    let extended = decoder.boolean()?;
    decoder.whole(0, 255)?;
    decoder.whole(0, 255)?;
    decoder.whole(0, 65535)?;
    skip_additions(decoder, extended)
}

/// NonStandardIdentifier (H.225.0).
#[tactic(auto, unfolding(ras_grammar::specs::Sequences::non_standard_identifier))]
fn non_standard_identifier(decoder: &mut Decoder<'_>) -> Result<(), ReadFault>
    ensures { Parses non_standard_identifier.reading decoder.old result decoder.new }
{
    if decoder.boolean()? {
        unknown_alternative(decoder)?;
    } else if decoder.choice_index(1)? == 0 {
        octet_string(decoder)?;
    } else {
        h221_non_standard(decoder)?;
    }
    Ok(())
}

/// NonStandardParameter (H.225.0).
#[tactic(auto, unfolding(ras_grammar::specs::Sequences::non_standard_parameter))]
pub fn non_standard_parameter(decoder: &mut Decoder<'_>) -> Result<(), ReadFault>
    ensures { Parses non_standard_parameter.reading decoder.old result decoder.new }
{
    non_standard_identifier(decoder)?;
    octet_string(decoder)?;
    Ok(())
}

/// nonStandardData, if it is there.
pub fn skip_non_standard_data(decoder: &mut Decoder<'_>, present: bool) -> Result<(), ReadFault>
    ensures { Parses (skipped present non_standard_parameter).reading decoder.old result
        decoder.new }
{
    if present {
        non_standard_parameter(decoder)
    } else {
        Ok(())
    }
}

/// A fixed number of octets.
pub fn octet_array<const N: usize>(decoder: &mut Decoder<'_>) -> Result<[u8; N], ReadFault>
    ensures { Parses (octets N).reading decoder.old result decoder.new }
{
    let mut array = [0; N];
    array.copy_from_slice(decoder.octets(N)?);
    Ok(array)
}
