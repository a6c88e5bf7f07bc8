//! The table of the aliases.

ghost use Rattle.std.specs.Prelude.{◌≡◌, ◌≢◌, ◌≤◌, ◌<◌, ◌+◌, ◌↔◌, Some, Err, IsOk};
ghost use Rattle.std.specs.Prelude.{IfOk, IfErr, OnOk, OnErr, length, Contains};
ghost use Rattle.std.specs.Prelude.{not, nat_eq};
ghost use Rattle.std.specs.Cmp.Lexicographic.{pointwise};
ghost use Rattle.ras_module.specs.declared.alias.Alias.{Alias};
ghost use Rattle.std.specs.Option.{option_copied};
ghost use Rattle.std.specs.FinMap as map;
ghost use Rattle.aliases.specs.Held.{holder_of, conflicts, is_elsewhere, is_held_by};
ghost use Rattle.aliases.specs.Held.{without_holder, without_alias, without_aliases};
ghost use Rattle.aliases.specs.Held.{with_alias, with_aliases, IsHeldByAnother, Becomes};
ghost use Rattle.aliases.specs.inside.Stored.{OthersLeft};

use crate::fault::SetFault;
use crate::holder::Holder;
use indexmap::IndexMap;
use ras_module::{Address, Alias, AliasList, EndpointId};
use std::alloc::{AllocError, Global};
use std::marker::Model;

/// Who holds each alias, with the call signal address of its holder. Contracts see a finite map.
pub struct AliasTable {
    rows: IndexMap<Alias, Holder>,
}

// By hand, so that it is one call where such a table is dropped: a derived one is written out at
// each exit of each function that owns a table, field by field down to the buffers.
impl Drop for AliasTable {
    fn drop(self) {
        let AliasTable { rows: _ } = self;
    }
}

impl Model for AliasTable {
    ghost use Rattle.std.specs.Coded.{codes};
    ghost use Rattle.std.specs.FinMap as map;
    ghost use Rattle.indexmap.specs.IndexMap.{spare};
    ghost use Rattle.keyed.specs.Places.{AreApart, row_in};
    ghost use Rattle.aliases.specs.Held.{HeldAliases};
    ghost use Rattle.aliases.specs.inside.Stored.{key_of, held_of};

    ghost Value = { HeldAliases };

    ghost coded = { Prim.hlevel (codes, map.code) };

    ghost view = { λ t. record { held = held_of t.rows.entries; room = spare t.rows } };

    ghost invariant = { λ t. AreApart key_of (row_in t.rows.entries) };
}

impl AliasTable {
    /// No alias is held. This takes no memory.
    pub fn new(alloc: Global) -> Self
        ensures { result.held ≡ map.empty }
    {
        AliasTable {
            rows: IndexMap::new(alloc),
        }
    }

    /// An equal table.
    pub fn copy(&self) -> Result<Self, AllocError>
        ensures { IfOk result (λ copy. copy.held ≡ self.now.held) }
    {
        let rows = self.rows.clone()?;
        Ok(AliasTable { rows })
    }

    /// Who holds the alias.
    ///
    /// promise aliases-are-a-finite-map: A look-up returns what the map has.
    pub fn holder(&self, alias: &Alias) -> Option<&EndpointId>
        ensures { option_copied result ≡ holder_of self.now.held alias.now }
    {
        let row = self.rows.get(alias)?;
        Some(&row.id)
    }

    /// Those of these aliases that an endpoint with another call signal address holds: in the order
    /// of the list, repeats included.
    ///
    /// promise conflicts-are-told-in-order: Conflicts are the aliases held at another call signal
    /// address, in the request's order.
    pub fn conflicts(&self, aliases: &[Alias], address: Address) -> Result<AliasList, AllocError>
        ensures { IfOk result (λ list. list ≡ conflicts self.now.held address aliases.now) }
    {
        let mut list = AliasList::new(*self.rows.allocator());
        for alias in aliases {
            if self.is_elsewhere(alias, address) {
                list.push(*alias)?;
            }
        }
        Ok(list)
    }

    /// Whether an endpoint with another call signal address holds the alias.
    fn is_elsewhere(&self, alias: &Alias, address: Address) -> bool
        ensures { result ≡ is_elsewhere address (map.get self.now.held alias.now) }
    {
        match self.rows.get(alias) {
            None => false,
            Some(row) => row.address != address,
        }
    }

    /// Whether this endpoint holds the alias.
    fn is_held_by(&self, alias: &Alias, holder: &EndpointId) -> bool
        ensures { result ≡ is_held_by holder.now (map.get self.now.held alias.now) }
    {
        match self.holder(alias) {
            None => false,
            Some(id) => *id == *holder,
        }
    }

    /// Makes room for this many more.
    pub fn reserve(&mut self, more: usize) -> Result<(), AllocError>
        ensures held { self.new.held ≡ self.old.held }
        ensures ok { OnOk result (more ≤ self.new.room) }
        ensures room { self.old.room ≤ self.new.room }
        ensures succeeds { more ≤ self.old.room → IsOk result }
    {
        self.rows.reserve(more)
    }

    /// Enters an alias for its holder, in place of what was entered for it there. It is refused if
    /// another endpoint holds it, and for want of memory; the alias then comes back. It never fails
    /// for want of memory if there is room, or if this endpoint holds the alias already.
    ///
    /// promise alias-has-one-holder: An alias is refused as a duplicate if and only if another
    /// endpoint holds it.
    pub fn set(
        &mut self,
        alias: Alias,
        holder: EndpointId,
        address: Address,
    ) -> Result<(), (Alias, SetFault)>
        ensures ok { OnOk result (self.new.held ≡ with_alias self.old.held alias holder address) }
        ensures room { OnOk result (self.old.room ≤ self.new.room + 1) }
        ensures duplicate { (result ≡ Err (alias, SetFault.Duplicate))
            ↔ IsHeldByAnother self.old.held alias holder }
        ensures reserved { 0 < self.old.room → result ≢ Err (alias, SetFault.Memory) }
        ensures replaces { holder_of self.old.held alias ≡ Some holder → IsOk result }
        ensures alias { IfErr result (λ e. e.0 ≡ alias) }
        ensures err { OnErr result (Becomes self.old self.new self.old.held) }
    {
        if let Some(id) = self.holder(&alias) {
            if *id != holder {
                return Err((alias, SetFault::Duplicate));
            }
        }
        let row = Holder {
            id: holder,
            address,
        };
        match self.rows.insert(alias, row) {
            Ok(_) => Ok(()),
            Err(_) => Err((alias, SetFault::Memory)),
        }
    }

    /// Enters each of these aliases for its holder, within the room that was made. No other
    /// endpoint may hold one of them. This takes no memory.
    pub fn set_all(&mut self, aliases: &[Alias], holder: EndpointId, address: Address)
        requires room { length aliases.now ≤ self.old.room }
        requires free { (alias : Alias) → Contains aliases.now alias
            → IsHeldByAnother self.old.held alias holder → ⊥ }
        ensures held { self.new.held ≡ with_aliases self.old.held aliases.now holder address }
        ensures room { self.old.room ≤ self.new.room + length aliases.now }
    {
        for alias in aliases {
            self.set(*alias, holder, address).unwrap();
        }
    }

    /// Takes out all aliases of an endpoint.
    pub fn drop_holder(&mut self, holder: &EndpointId)
        ensures { Becomes self.old self.new (without_holder self.old.held holder.now) }
    {
        retain_others(&mut self.rows, holder);
    }

    /// Takes out each of these aliases that this endpoint holds. The time grows only with the
    /// length of the list.
    pub fn drop_all(&mut self, aliases: &[Alias], holder: &EndpointId)
        ensures { Becomes self.old self.new
            (without_aliases self.old.held aliases.now holder.now) }
    {
        for alias in aliases {
            self.drop_one(alias, holder);
        }
    }

    /// Takes out an alias, if this endpoint holds it.
    fn drop_one(&mut self, alias: &Alias, holder: &EndpointId)
        ensures { Becomes self.old self.new (without_alias self.old.held alias.now holder.now) }
    {
        if self.is_held_by(alias, holder) {
            self.rows.swap_remove(alias);
        }
    }
}

/// Keeps the rows of all other endpoints.
fn retain_others(rows: &mut IndexMap<Alias, Holder>, holder: &EndpointId)
    ensures { OthersLeft rows.old rows.new holder.now }
{
    rows.retain(
        |_alias: &Alias, row: &mut Holder| -> bool
            ensures { (result ≡ not (pointwise nat_eq row.old.holder holder.entry.now))
                × (row.new ≡ row.old) }
        { row.id != *holder },
    );
}
