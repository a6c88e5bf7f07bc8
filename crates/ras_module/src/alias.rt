//! Aliases of endpoints.

ghost use Rattle.std.specs.Prelude.{◌≡◌, ◌≤◌};
ghost use Rattle.std.proofs.Common.{ap};
ghost use Rattle.std.specs.Cmp.{decided, partial_equiv_from_equiv};
ghost use Rattle.ras_module.specs.Aliases.{same_alias, fed_alias, characters_of};
ghost use Rattle.ras_module.specs.Rooms.{text_room};
ghost use Rattle.ras_module.specs.Same.{alias_decides};

use crate::bmp_string::H323Id;
use crate::dialled_digits::DialledDigits;
use crate::texts::text_room;
use std::hash::{Hash, Hasher};

/// A name by which an endpoint may be called: the two kinds of AliasAddress (H.225.0) that are
/// served. Two aliases are equal if their kinds and their characters are.
#[derive(Clone, Copy)]
pub enum Alias {
    Digits(DialledDigits),
    H323Id(H323Id),
}

impl Alias {
    /// Octets that are enough for it in a reply: at most 524.
    pub fn room(&self) -> usize
        ensures room { result ≡ text_room (characters_of self.now) }
        ensures most { result ≤ 524 }
    {
        match self {
            Alias::Digits(digits) => text_room(digits.as_slice()),
            Alias::H323Id(id) => text_room(id.as_slice()),
        }
    }
}

impl PartialEq for Alias {
    ghost eq = { same_alias };

    ghost laws = { partial_equiv_from_equiv (decided same_alias alias_decides) };

    /// promise aliases-are-compared: Two aliases are equal if and only if their kinds and
    /// characters are, which is an equivalence; likewise other values of messages (`same_alias`).
    fn eq(&self, other: &Self) -> bool {
        match (self, other) {
            (Alias::Digits(digits), Alias::Digits(others)) => digits == others,
            (Alias::H323Id(id), Alias::H323Id(other_id)) => id == other_id,
            _ => false,
        }
    }
}

impl Eq for Alias {
    ghost laws = { decided same_alias alias_decides };
}

// the characters tell apart nearly all aliases of a zone, so the hasher isn't fed the kind
impl Hash for Alias {
    ghost hash_input = { fed_alias };

    ghost respects_eq = { λ a b same. ap fed_alias ((alias_decides a b).0 same) };

    fn hash<H: Hasher>(&self, state: &mut H) {
        match self {
            Alias::Digits(digits) => digits.hash(state),
            Alias::H323Id(id) => id.hash(state),
        }
    }
}
