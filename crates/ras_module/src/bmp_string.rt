//! Texts of 16-bit characters.

ghost use Rattle.std.specs.Prelude.{◌≡◌, ◌≤◌, ◌-◌, ◌++◌, ◌<◌, ◌^◌, ℕ, List, length, nat_eq};
ghost use Rattle.std.specs.Prelude.{replicate, take, SomeIff};
ghost use Rattle.std.proofs.Common.{rules};
ghost use Rattle.std.specs.Cmp.Lexicographic.{slice_cmp, pointwise};
ghost use Rattle.std.specs.Cmp.Rules.{comparing, hashing};
ghost use Rattle.std.specs.Hash as fed;
ghost use Rattle.std.specs.Cmp.{partial_order_from_own_ties};
ghost use Rattle.std.specs.Ordering.{nat_cmp, as_partial_cmp};
ghost use Rattle.ras_module.specs.Texts.{IsText, IsPadded};

use std::cmp::Ordering;
use std::hash::{Hash, Hasher};
use std::marker::Model;

/// A text of 1 to `MOST` characters of 16 bits each (X.680, BMPString). It is a copy of its own,
/// and takes no memory. Contracts see the list of its characters.
#[derive(Clone, Copy)]
pub struct BmpString<const MOST: usize> {
    // zeros stand after the last character, so that two equal texts have equal fields
    characters: [u16; MOST],
    count: usize,
}

/// A GatekeeperIdentifier (H.225.0): 1 to 128 characters.
pub type Name = BmpString<128>;

/// An h323-ID of an AliasAddress (H.225.0): 1 to 256 characters.
pub type H323Id = BmpString<256>;

impl<const MOST: usize> Model for BmpString<MOST> {
    ghost use Rattle.std.specs.Prelude.{ℕ, List, length, take, replicate, ◌++◌, ◌-◌};
    ghost use Rattle.ras_module.specs.Texts.{IsPadded, padded_again};

    ghost Value = { List ℕ };

    ghost view = { λ a. take a.count a.characters };

    ghost invariant = { λ a. IsPadded MOST a.characters a.count };

    ghost inverse = { λ t.
        record { characters = t ++ replicate (MOST - length t) 0; count = length t } };

    ghost inverse_ok = { λ a h i. record {
      characters = (padded_again MOST a.characters a.count h).0 i;
      count = (padded_again MOST a.characters a.count h).1 i;
    } };
}

impl<const MOST: usize> BmpString<MOST> {
    /// The text of these characters. None if and only if there is none of them, or more than
    /// `MOST`.
    ///
    /// promise text-has-its-length: A text is accepted if and only if it has 1 to `MOST` characters
    /// (`IsText`).
    #[tactic(auto, using(crate::proofs::Pads::is_padded, crate::proofs::Pads::front_of_padded))]
    pub fn new(text: &[u16]) -> Option<Self>
        ensures { SomeIff result (IsText MOST text.now) text.now }
    {
        if text.is_empty() || text.len() > MOST {
            return None;
        }
        Some(BmpString {
            characters: padded(text),
            count: text.len(),
        })
    }

    /// The text of the first characters of an array that has zeros after them, made in the array
    /// that keeps it.
    #[inline(always)]
    pub fn of_padded(characters: [u16; MOST], count: usize) -> Self
        requires { IsPadded MOST characters count }
        ensures { result ≡ take count characters.entry }
    {
        BmpString { characters, count }
    }

    /// The characters.
    pub fn as_slice(&self) -> &[u16]
        ensures items { result.now ≡ self.now }
        ensures text { IsText MOST self.now }
    {
        &self.characters[..self.count]
    }
}

impl<const MOST: usize> PartialEq for BmpString<MOST> {
    ghost eq = { pointwise nat_eq };

    ghost laws = { Prim.search (comparing, rules) };

    fn eq(&self, other: &Self) -> bool {
        self.as_slice() == other.as_slice()
    }
}

impl<const MOST: usize> Eq for BmpString<MOST> {
    ghost laws = { Prim.search (comparing, rules) };
}

impl<const MOST: usize> Ord for BmpString<MOST> {
    ghost cmp = { slice_cmp nat_cmp };

    ghost total = { Prim.search (comparing, rules) };

    ghost matches_partial_cmp = { Prim.search (comparing, rules) };

    ghost matches_eq = { Prim.search (comparing, rules) };

    /// promise identifiers-are-ordered: Texts are in a total order.
    fn cmp(&self, other: &Self) -> Ordering {
        self.as_slice().cmp(other.as_slice())
    }
}

impl<const MOST: usize> PartialOrd for BmpString<MOST> {
    ghost partial_cmp = { as_partial_cmp (slice_cmp nat_cmp) };

    ghost laws = { partial_order_from_own_ties
        (Prim.search (comparing, rules)) (Prim.search (comparing, rules)) };

    fn partial_cmp(&self, other: &Self) -> Option<Ordering> {
        Some(self.cmp(other))
    }
}

impl<const MOST: usize> Hash for BmpString<MOST> {
    ghost hash_input = { fed.slice fed.u16 };

    ghost respects_eq = { Prim.search (hashing, rules) };

    fn hash<H: Hasher>(&self, state: &mut H) {
        self.as_slice().hash(state);
    }
}

/// The characters in an array, with zeros after them.
fn padded<const MOST: usize>(text: &[u16]) -> [u16; MOST]
    requires { length text.now ≤ MOST }
    ensures { result ≡ text.now ++ replicate (MOST - length text.now) 0 }
{
    let mut characters = [0; MOST];
    characters[..text.len()].copy_from_slice(text);
    characters
}
