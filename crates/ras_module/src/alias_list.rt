//! Lists of aliases.

ghost use Rattle.std.specs.Prelude.{◌≡◌, ◌↔◌, ◌++◌, ◌∷◌, ◌≤◌, [], length, IfOk};
ghost use Rattle.std.specs.Prelude.{OnOk, OnErr, IsTrue, MatchOption, ◌<◌, ◌*◌, vec_capacity};
ghost use Rattle.std.specs.Cmp.Lexicographic.{pointwise};
ghost use Rattle.ras_module.specs.Aliases.{same_alias};
ghost use Rattle.ras_module.specs.Rooms.{aliases_room};
ghost use Rattle.ras_module.specs.Same.{aliases_equivalence, aliases_partial_equivalence};

use crate::alias::Alias;
use std::alloc::{AllocError, Global};
use std::marker::Model;

/// Aliases in order, doubles included. Contracts see the list.
#[derive(Drop)]
pub struct AliasList {
    items: Vec<Alias>,
}

impl Model for AliasList {
    ghost use Rattle.std.specs.Prelude.{List};
    ghost use Rattle.ras_module.specs.declared.alias.Alias.{Alias};

    ghost Value = { List Alias };

    ghost view = { λ a. a.items.items };
}

impl AliasList {
    /// No alias. This takes no memory.
    pub fn new(alloc: Global) -> Self
        ensures { result ≡ [] }
    {
        AliasList {
            items: Vec::new(alloc),
        }
    }

    /// The aliases of a vector. This takes no memory.
    pub fn from_vec(items: Vec<Alias>) -> Self
        ensures { result ≡ items.items }
    {
        AliasList { items }
    }

    /// The vector of the aliases. This takes no memory.
    pub fn into_vec(self) -> Vec<Alias>
        ensures { result.items ≡ self }
    {
        let AliasList { items } = self;
        items
    }

    pub fn len(&self) -> usize
        ensures { result ≡ length self.now }
    {
        self.items.len()
    }

    pub fn is_empty(&self) -> bool
        ensures { IsTrue result ↔ (self.now ≡ []) }
    {
        self.items.is_empty()
    }

    /// The aliases, in order.
    pub fn as_slice(&self) -> &[Alias]
        ensures { result.now ≡ self.now }
    {
        &self.items
    }

    /// Adds an alias at the end. For want of memory it fails, and the list stays as it is.
    pub fn push(&mut self, alias: Alias) -> Result<(), AllocError>
        ensures ok { OnOk result (self.new ≡ self.old ++ alias ∷ []) }
        ensures err { OnErr result (self.new ≡ self.old) }
    {
        self.items.push(alias)?;
        Ok(())
    }

    /// An equal list.
    pub fn copy(&self) -> Result<Self, AllocError>
        ensures { IfOk result (λ copy. copy ≡ self.now) }
    {
        let items = Vec::from_slice(*self.items.allocator(), &self.items)?;
        Ok(AliasList { items })
    }
}

impl PartialEq for AliasList {
    ghost eq = { pointwise same_alias };

    ghost laws = { aliases_partial_equivalence };

    fn eq(&self, other: &Self) -> bool {
        self.as_slice() == other.as_slice()
    }
}

impl Eq for AliasList {
    ghost laws = { aliases_equivalence };
}

/// The aliases of a reply or of a registration, in order: at most `MOST` of them, in memory for no
/// more than that. Contracts see the list.
#[derive(Drop)]
pub struct ReplyAliases {
    items: Vec<Alias>,
}

impl Model for ReplyAliases {
    ghost use Rattle.std.specs.Prelude.{List, vec_capacity, ◌≤◌};
    ghost use Rattle.ras_module.specs.declared.alias.Alias.{Alias};
    ghost use Rattle.ras_module.specs.declared.alias_list.TheConstants.ReplyAliases.{MOST};

    ghost Value = { List Alias };

    ghost view = { λ a. a.items.items };

    ghost invariant = { λ a. vec_capacity a.items ≤ MOST };
}

impl ReplyAliases {
    /// The most aliases of a reply.
    pub const MOST: usize = 32;

    /// These aliases. None if and only if there are more than `MOST`. A list that has memory for
    /// more is copied, so that what is kept takes no more than it may.
    ///
    /// promise reply-aliases-are-bounded: Aliases of a reply are accepted if and only if they are
    /// at most 32.
    pub fn new(list: AliasList) -> Result<Option<Self>, AllocError>
        ensures { IfOk result (λ found. MatchOption found (Self.MOST < length list)
            (λ few. (few ≡ list) × (length list ≤ Self.MOST))) }
    {
        if list.len() > Self::MOST {
            return Ok(None);
        }
        let AliasList { items } = list;
        if items.capacity() <= Self::MOST {
            return Ok(Some(ReplyAliases { items }));
        }
        let items = fitting(*items.allocator(), &items)?;
        Ok(Some(ReplyAliases { items }))
    }

    /// The aliases, in order.
    pub fn as_slice(&self) -> &[Alias]
        ensures items { result.now ≡ self.now }
        ensures few { length self.now ≤ Self.MOST }
    {
        self.items.as_slice()
    }

    /// Octets that are enough for them in a reply: at most 524 for each.
    pub fn room(&self) -> usize
        ensures room { result ≡ aliases_room self.now }
        ensures most { result ≤ 524 * Self.MOST }
    {
        let mut room = 0;
        for alias in self.as_slice() {
            room += alias.room();
        }
        room
    }

    /// An equal list.
    pub fn copy(&self) -> Result<Self, AllocError>
        ensures { IfOk result (λ copy. copy ≡ self.now) }
    {
        let items = fitting(*self.items.allocator(), &self.items)?;
        Ok(ReplyAliases { items })
    }
}

/// Copies of these aliases, in memory for no more than these.
fn fitting(alloc: Global, aliases: &[Alias]) -> Result<Vec<Alias>, AllocError>
    ensures items { IfOk result (λ copy. copy.items ≡ aliases.now) }
    ensures capacity { IfOk result (λ copy. vec_capacity copy ≡ length aliases.now) }
{
    let mut copy = Vec::with_capacity(alloc, aliases.len())?;
    for alias in aliases {
        copy.push_reserved(*alias);
    }
    Ok(copy)
}

impl PartialEq for ReplyAliases {
    ghost eq = { pointwise same_alias };

    ghost laws = { aliases_partial_equivalence };

    fn eq(&self, other: &Self) -> bool {
        self.as_slice() == other.as_slice()
    }
}

impl Eq for ReplyAliases {
    ghost laws = { aliases_equivalence };
}
