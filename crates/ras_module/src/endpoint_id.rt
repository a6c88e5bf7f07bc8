//! Identifiers of registered endpoints.

ghost use Rattle.std.specs.Prelude.{◌≡◌};
ghost use Rattle.ras_module.specs.Texts.{IsText};

use crate::bmp_string::BmpString;
use std::marker::Model;

/// An EndpointIdentifier (H.225.0): 1 to 128 characters, handed out by the gatekeeper. Contracts
/// see the list of its characters; identifiers are ordered character by character, a prefix before
/// what it begins.
#[derive(Clone, Copy, PartialEq, Eq, PartialOrd, Ord, Hash)]
pub struct EndpointId {
    characters: BmpString<128>,
}

impl Model for EndpointId {
    ghost use Rattle.std.specs.Prelude.{ℕ, List};

    ghost Value = { List ℕ };

    ghost view = { λ e. e.characters };

    ghost inverse = { λ t. record { characters = t } };
}

impl EndpointId {
    /// The identifier with these characters.
    #[inline(always)]
    pub fn new(characters: BmpString<128>) -> Self
        ensures { result ≡ characters }
    {
        EndpointId { characters }
    }

    /// The characters.
    pub fn as_slice(&self) -> &[u16]
        ensures items { result.now ≡ self.now }
        ensures text { IsText 128 self.now }
    {
        self.characters.as_slice()
    }
}
