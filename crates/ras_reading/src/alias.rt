//! Aliases (H.225.0, AliasAddress).

ghost use Rattle.std.specs.Prelude.{◌≡◌, ◌≤◌, ◌<◌, ◌^◌, length, IfOk, OnOk, IsTrue};
ghost use Rattle.ras_reading.specs.Parsing.{Parses, ParsesUnlessMemory};
ghost use Rattle.ras_module.specs.DialledDigits.{is_dialled, AreDialled};
ghost use Rattle.ras_module.specs.Texts.{IsPadded};
ghost use Rattle.ras_grammar.specs.Faults.{front_of};
ghost use Rattle.ras_grammar.specs.Grammar.{each, each_skipped, skipped};
ghost use Rattle.ras_grammar.specs.Aliases.{digit_of, digit, dialled_digits, root_alias};
ghost use Rattle.ras_grammar.specs.Aliases.{alias_address, skipped_aliases, keeping, served_each};
ghost use Rattle.ras_grammar.specs.Aliases.{alias_list, optional_aliases};

use crate::sequence::{bmp_string, unknown_alternative};
use ras_grammar::{Decoder, ReadFault};
use ras_module::{Alias, AliasList, BmpString, DialledDigits};
use std::alloc::{AllocError, Global};

/// The character of a code.
fn digit_of(code: u32) -> u16
    requires { code ≤ 12 }
    ensures value { result ≡ digit_of code }
    ensures dialled { IsTrue (is_dialled result) }
{
    match code {
        0 => 35,
        1 => 42,
        2 => 44,
        _ => code as u16 + 45,
    }
}

/// A character that may be dialled.
#[tactic(auto, unfolding(ras_grammar::specs::Aliases::digit))]
fn digit(decoder: &mut Decoder<'_>) -> Result<u16, ReadFault>
    ensures gives { Parses digit.reading decoder.old result decoder.new }
    ensures dialled { IfOk result (λ character. IsTrue (is_dialled character)) }
{
    let code = decoder.bits(4)?;
    if code > 12 {
        return Err(ReadFault::BadCharacter);
    }
    Ok(digit_of(code))
}

/// This many characters that may be dialled, with zeros after them.
fn digits(decoder: &mut Decoder<'_>, count: usize) -> Result<[u16; 128], ReadFault>
    requires some { 1 ≤ count }
    requires few { count ≤ 128 }
    ensures gives { Parses (each count digit).reading decoder.old
        (front_of count result) decoder.new }
    ensures dialled { IfOk (front_of count result) AreDialled }
    ensures padded { IfOk result (λ digits. IsPadded 128 digits count) }
{
    let mut digits = [0; 128];
    for i in 0..count {
        digits[i] = digit(decoder)?;
    }
    Ok(digits)
}

/// dialledDigits.
#[tactic(auto, unfolding(ras_grammar::specs::Aliases::dialled_digits))]
fn dialled_digits(decoder: &mut Decoder<'_>) -> Result<DialledDigits, ReadFault>
    ensures { Parses dialled_digits.reading decoder.old result decoder.new }
{
    let count = decoder.whole(1, 128)? as usize;
    decoder.align();
    let digits = digits(decoder, count)?;
    Ok(DialledDigits::new(BmpString::of_padded(digits, count)).unwrap())
}

fn root_alias(decoder: &mut Decoder<'_>, index: u32) -> Result<Option<Alias>, ReadFault>
    ensures { Parses (root_alias index).reading decoder.old result decoder.new }
{
    if index == 0 {
        Ok(Some(Alias::Digits(dialled_digits(decoder)?)))
    } else {
        Ok(Some(Alias::H323Id(bmp_string(decoder)?)))
    }
}

/// An alias, or None for one of another kind.
#[tactic(auto, unfolding(ras_grammar::specs::Aliases::alias_address))]
pub fn alias_address(decoder: &mut Decoder<'_>) -> Result<Option<Alias>, ReadFault>
    ensures { Parses alias_address.reading decoder.old result decoder.new }
{
    if decoder.boolean()? {
        unknown_alternative(decoder)?;
        return Ok(None);
    }
    let index = decoder.choice_index(1)?;
    root_alias(decoder, index)
}

fn skip_each_alias(decoder: &mut Decoder<'_>, count: u32) -> Result<(), ReadFault>
    ensures { Parses (each_skipped count alias_address).reading decoder.old result decoder.new }
{
    for _ in 0..count {
        alias_address(decoder)?;
    }
    Ok(())
}

/// Passes over a list of aliases, if it is there.
#[tactic(auto, unfolding(ras_grammar::specs::Aliases::skipped_aliases))]
pub fn skip_aliases(decoder: &mut Decoder<'_>, present: bool) -> Result<(), ReadFault>
    ensures { Parses (skipped present skipped_aliases).reading decoder.old result decoder.new }
{
    if !present {
        return Ok(());
    }
    let count = decoder.length()?;
    skip_each_alias(decoder, count)
}

/// Adds an alias, if it is served. Room is made for the first one alone, since most lists have one.
fn keep(alloc: Global, aliases: &mut AliasList, alias: Option<Alias>) -> Result<(), AllocError>
    ensures { OnOk result (aliases.new ≡ keeping aliases.old alias) }
{
    let Some(alias) = alias else {
        return Ok(());
    };
    if aliases.is_empty() {
        *aliases = AliasList::from_vec(Vec::from_slice(alloc, &[alias])?);
        return Ok(());
    }
    aliases.push(alias)
}

/// The served aliases among this many. Memory for an alias is asked for after the alias has been
/// read.
fn served_aliases(
    alloc: Global,
    decoder: &mut Decoder<'_>,
    count: u32,
) -> Result<AliasList, ReadFault>
    ensures { ParsesUnlessMemory (served_each count).reading decoder.old result decoder.new }
{
    let mut aliases = AliasList::new(alloc);
    for _ in 0..count {
        let alias = alias_address(decoder)?;
        keep(alloc, &mut aliases, alias)?;
    }
    Ok(aliases)
}

/// The served aliases of a list. There are none if the list isn't there.
#[tactic(auto, unfolding(ras_grammar::specs::Aliases::alias_list))]
pub fn optional_aliases(
    alloc: Global,
    decoder: &mut Decoder<'_>,
    present: bool,
) -> Result<AliasList, ReadFault>
    ensures { ParsesUnlessMemory (optional_aliases present).reading decoder.old result decoder.new }
{
    if !present {
        return Ok(AliasList::new(alloc));
    }
    let count = decoder.length()?;
    served_aliases(alloc, decoder, count)
}
