//! Reading the forms of X.691, with the faults of messages.

ghost use Rattle.std.specs.Prelude.{◌≡◌, ◌≤◌, ◌<◌, ◌^◌, length, IfOk};
ghost use Rattle.per_bits.specs.Bits.{bits_of};
ghost use Rattle.per_bits.specs.Readings.{Gives, aligned};
ghost use Rattle.ras_grammar.specs.Grammar as grammar;
ghost use Rattle.ras_grammar.specs.Faults.{of_octets};

use crate::fault::ReadFault;
use per_bits::BitReader;
use std::marker::Model;

/// Octets of which some bits at the front have been read. It is seen as the bits that are left.
#[derive(Drop)]
pub struct Decoder<'a> {
    bits: BitReader<'a>,
}

impl<'a> Model for Decoder<'a> {
    ghost use Rattle.std.specs.Prelude.{List, Bool};

    ghost Value = { List Bool };

    ghost view = { λ d. d.bits };
}

impl<'a> Decoder<'a> {
    pub fn new(octets: &'a [u8]) -> Self
        ensures { result ≡ bits_of octets.now }
    {
        Decoder {
            bits: BitReader::new(octets),
        }
    }

    /// BOOLEAN, or a bit of a preamble.
    pub fn boolean(&mut self) -> Result<bool, ReadFault>
        ensures { Gives grammar.boolean.reading self.old result self.new }
    {
        Ok(self.bits.bit()?)
    }

    /// A number in this many bits.
    pub fn bits(&mut self, count: u32) -> Result<u32, ReadFault>
        requires { count ≤ 32 }
        ensures gives { Gives (grammar.bits count).reading self.old result self.new }
        ensures fits { IfOk result (λ n. n < 2 ^ count) }
    {
        Ok(self.bits.bits(count)?)
    }

    /// A constrained whole number.
    ///
    /// promise decoder-follows-grammar: A read gives what the grammar of its form gives; likewise
    /// the other reads (`Gives`, `Grammar`).
    pub fn whole(&mut self, lo: u32, hi: u32) -> Result<u32, ReadFault>
        requires { lo ≤ hi }
        ensures gives { Gives (grammar.whole lo hi).reading self.old result self.new }
        ensures range { IfOk result (λ n. (lo ≤ n) × (n ≤ hi)) }
    {
        Ok(self.bits.whole(lo, hi)?)
    }

    /// The index of a root alternative.
    pub fn choice_index(&mut self, last: u32) -> Result<u32, ReadFault>
        ensures gives { Gives (grammar.choice_index last).reading self.old result self.new }
        ensures range { IfOk result (λ n. n ≤ last) }
    {
        match self.bits.whole(0, last) {
            Ok(index) => Ok(index),
            Err(per_bits::ReadFault::BadLength) => Err(ReadFault::BadChoice),
            Err(fault) => Err(ReadFault::from(fault)),
        }
    }

    /// An unconstrained length.
    pub fn length(&mut self) -> Result<u32, ReadFault>
        ensures gives { Gives grammar.length.reading self.old result self.new }
        ensures small { IfOk result (λ n. n < 16384) }
    {
        Ok(self.bits.length()?)
    }

    /// A normally small number, up to 63.
    pub fn small(&mut self) -> Result<u32, ReadFault>
        ensures gives { Gives grammar.small.reading self.old result self.new }
        ensures small { IfOk result (λ n. n < 64) }
    {
        Ok(self.bits.small()?)
    }

    /// Passes over what is left of an octet that has been begun.
    pub fn align(&mut self)
        ensures { self.new ≡ aligned self.old }
    {
        self.bits.align();
    }

    /// This many octets, from the next octet on.
    #[tactic(auto, using(crate::proofs::Octets::octets_read))]
    pub fn octets(&mut self, count: usize) -> Result<&'a [u8], ReadFault>
        ensures len { IfOk result (λ octets. length octets.now ≡ count) }
        ensures gives { Gives (grammar.octets count).reading self.old (of_octets result) self.new }
    {
        Ok(self.bits.octets(count)?)
    }

    /// The octets of an open type.
    pub fn open_type(&mut self) -> Result<&'a [u8], ReadFault>
        ensures { Gives grammar.open_type.reading self.old (of_octets result) self.new }
    {
        Ok(self.bits.open_type()?)
    }
}
