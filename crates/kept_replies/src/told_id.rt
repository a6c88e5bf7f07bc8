//! The identifier that a kept RegistrationConfirm tells.

ghost use Rattle.std.specs.Prelude.{◌≡◌, IfOk};
ghost use Rattle.ras_module.specs.Texts.{IsText};

use ras_module::{BmpString, EndpointId};
use std::alloc::{AllocError, Global};
use std::marker::Model;

/// The most characters of an identifier that stands in its place and takes no memory. The
/// gatekeeper hands out longer ones only after a hundred million.
const MOST_IN_PLACE: usize = 8;

/// An identifier in a few octets, where an [`EndpointId`] has 264. Contracts see the list of its
/// characters.
#[derive(Drop)]
pub struct ToldId {
    text: ToldText,
}

/// The characters: a few of them in their place, more in memory of their own length.
#[derive(Drop)]
pub(crate) enum ToldText {
    InPlace(BmpString<MOST_IN_PLACE>),
    Apart(Vec<u16>),
}

impl Model for ToldId {
    ghost use Rattle.std.specs.Prelude.{ℕ, List};
    ghost use Rattle.ras_module.specs.Texts.{IsText};
    ghost use Rattle.kept_replies.specs.inside.ToldTexts.{characters_of};

    ghost Value = { List ℕ };

    ghost view = { λ t. characters_of t.text };

    ghost invariant = { λ t. IsText 128 (characters_of t.text) };
}

impl ToldId {
    /// The same identifier.
    pub(crate) fn of(alloc: Global, id: &EndpointId) -> Result<Self, AllocError>
        ensures { IfOk result (λ told. told ≡ id.now) }
    {
        let characters = id.as_slice();
        let text = match BmpString::new(characters) {
            Some(text) => ToldText::InPlace(text),
            None => ToldText::Apart(Vec::from_slice(alloc, characters)?),
        };
        Ok(ToldId { text })
    }

    /// The characters.
    pub(crate) fn as_slice(&self) -> &[u16]
        ensures items { result.now ≡ self.now }
        ensures text { IsText 128 self.now }
    {
        match &self.text {
            ToldText::InPlace(text) => text.as_slice(),
            ToldText::Apart(characters) => characters,
        }
    }

    /// The identifier as endpoints are looked up by it. This takes no memory.
    pub fn id(&self) -> EndpointId
        ensures { result ≡ self.now }
    {
        EndpointId::new(BmpString::new(self.as_slice()).unwrap())
    }

    /// An equal identifier.
    pub(crate) fn copy(&self) -> Result<Self, AllocError>
        ensures { IfOk result (λ copy. copy ≡ self.now) }
    {
        let text = match &self.text {
            ToldText::InPlace(text) => ToldText::InPlace(*text),
            ToldText::Apart(characters) => {
                ToldText::Apart(Vec::from_slice(*characters.allocator(), characters)?)
            }
        };
        Ok(ToldId { text })
    }
}
