//! Numbers as they are dialled.

ghost use Rattle.std.specs.Prelude.{◌≡◌, SomeIff};
ghost use Rattle.std.specs.List.{list_all};
ghost use Rattle.ras_module.specs.Texts.{IsText};
ghost use Rattle.ras_module.specs.DialledDigits.{AreDialled, is_dialled};

use crate::bmp_string::BmpString;
use std::marker::Model;

/// Dialled digits of an AliasAddress (H.225.0): 1 to 128 of the characters `0123456789#*,`.
/// Contracts see the list of their codes.
#[derive(Clone, Copy, PartialEq, Eq, PartialOrd, Ord, Hash)]
pub struct DialledDigits {
    characters: BmpString<128>,
}

impl Model for DialledDigits {
    ghost use Rattle.std.specs.Prelude.{ℕ, List};
    ghost use Rattle.ras_module.specs.DialledDigits.{AreDialled};

    ghost Value = { List ℕ };

    ghost view = { λ d. d.characters };

    ghost invariant = { λ d. AreDialled d.characters };

    ghost inverse = { λ t. record { characters = t } };
}

fn is_dialled(character: u16) -> bool
    ensures { result ≡ is_dialled character }
{
    (48..=57).contains(&character) || character == 35 || character == 42 || character == 44
}

/// Whether each character may be dialled.
fn are_dialled(text: &[u16]) -> bool
    ensures { result ≡ list_all is_dialled text.now }
{
    text.iter().all(|c| is_dialled(*c))
}

impl DialledDigits {
    /// The digits of this text. None if and only if a character is none of `0123456789#*,`.
    ///
    /// promise digits-can-be-dialled: A text is accepted as digits if and only if each character
    /// can be dialled (`AreDialled`).
    pub fn new(characters: BmpString<128>) -> Option<Self>
        ensures { SomeIff result (AreDialled characters) characters }
    {
        if are_dialled(characters.as_slice()) {
            Some(DialledDigits { characters })
        } else {
            None
        }
    }

    /// The characters' codes.
    pub fn as_slice(&self) -> &[u16]
        ensures items { result.now ≡ self.now }
        ensures text { IsText 128 self.now }
        ensures digits { AreDialled self.now }
    {
        self.characters.as_slice()
    }
}
