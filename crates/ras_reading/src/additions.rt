//! The additions of a SEQUENCE after its extension marker (X.691).

ghost use Rattle.std.specs.Prelude.{◌≡◌, ◌≤◌};
ghost use Rattle.ras_reading.specs.Parsing.{Parses};
ghost use Rattle.ras_grammar.specs.Faults.{front_of};
ghost use Rattle.ras_grammar.specs.Grammar.{boolean, each, skipped, open_type};
ghost use Rattle.ras_grammar.specs.Sequences.{additions, is_present, skipped_addition};
ghost use Rattle.ras_grammar.specs.Sequences.{skipped_additions, skipped_each};

use ras_grammar::{Decoder, ReadFault};
use std::marker::Model;

/// Which additions are there, by their indexes: at most 64. Contracts see the list.
#[derive(Drop)]
pub struct PresentAdditions {
    present: [bool; 64],
    count: usize,
}

impl Model for PresentAdditions {
    ghost use Rattle.std.specs.Prelude.{List, Bool, take, ◌≤◌};

    ghost Value = { List Bool };

    ghost view = { λ a. take a.count a.present };

    ghost invariant = { λ a. a.count ≤ 64 };
}

impl PresentAdditions {
    /// Whether the addition of an index is there.
    pub fn is_present(&self, index: usize) -> bool
        ensures { result ≡ is_present self.now index }
    {
        index < self.count && self.present[index]
    }

    fn as_slice(&self) -> &[bool]
        ensures { result.now ≡ self.now }
    {
        &self.present[..self.count]
    }
}

/// This many presence bits.
fn presence_bits(decoder: &mut Decoder<'_>, count: usize) -> Result<[bool; 64], ReadFault>
    requires { count ≤ 64 }
    ensures { Parses (each count boolean).reading decoder.old (front_of count result) decoder.new }
{
    let mut present = [false; 64];
    for i in 0..count {
        present[i] = decoder.boolean()?;
    }
    Ok(present)
}

/// The additions that are there. There are none if the extension bit is not set.
pub fn additions(decoder: &mut Decoder<'_>, extended: bool) -> Result<PresentAdditions, ReadFault>
    ensures { Parses (additions extended).reading decoder.old result decoder.new }
{
    if !extended {
        return Ok(PresentAdditions {
            present: [false; 64],
            count: 0,
        });
    }
    let count = decoder.small()? as usize + 1;
    let present = presence_bits(decoder, count)?;
    Ok(PresentAdditions { present, count })
}

fn skip_open_type(decoder: &mut Decoder<'_>, present: bool) -> Result<(), ReadFault>
    ensures { Parses (skipped present open_type).reading decoder.old result decoder.new }
{
    if present {
        decoder.open_type()?;
    }
    Ok(())
}

/// Passes over the addition of an index.
pub fn skip_addition(
    decoder: &mut Decoder<'_>,
    additions: &PresentAdditions,
    index: usize,
) -> Result<(), ReadFault>
    ensures { Parses (skipped_addition additions.now index).reading decoder.old result decoder.new }
{
    skip_open_type(decoder, additions.is_present(index))
}

fn skip_each(decoder: &mut Decoder<'_>, additions: &PresentAdditions) -> Result<(), ReadFault>
    ensures { Parses (skipped_each additions.now).reading decoder.old result decoder.new }
{
    for present in additions.as_slice() {
        skip_open_type(decoder, *present)?;
    }
    Ok(())
}

/// Passes over all additions.
pub fn skip_additions(decoder: &mut Decoder<'_>, extended: bool) -> Result<(), ReadFault>
    ensures { Parses (skipped_additions extended).reading decoder.old result decoder.new }
{
    let additions = additions(decoder, extended)?;
    skip_each(decoder, &additions)
}
