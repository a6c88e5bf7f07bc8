//! How often kept RegistrationConfirms tell each identifier.

ghost use Rattle.std.specs.Prelude.{◌≡◌, ◌<◌, ◌≤◌, ◌+◌, ◌^◌, ℕ, List, [], Some, None, false};
ghost use Rattle.std.specs.Prelude.{IfSome, IsSome, IsTrue};
ghost use Rattle.std.specs.List.{list_any};
ghost use Rattle.std.specs.Option.{option_copied, ForSome};
ghost use Rattle.std.specs.Map.{lookup};
ghost use Rattle.indexmap.specs.IndexMap.{get, spare, Updates};
ghost use Rattle.kept_replies.specs.Kept.{named_by};
ghost use Rattle.kept_replies.specs.Keys.{same_key};
ghost use Rattle.kept_replies.specs.inside.Stored.{is_named_by};
ghost use Rattle.kept_replies.specs.inside.Told.{AreTold, IsCounted, MayRise, same_id};
ghost use Rattle.kept_replies.specs.inside.Told.{count_of, times, once};
ghost use Rattle.kept_replies.specs.declared.entry.KeptEntry.{KeptEntry};

use crate::entry::KeptEntry;
use crate::key::KeptKey;
use crate::searches::is_named_in;
use crate::told_id::ToldId;
use indexmap::IndexMap;
use ras_module::{BmpString, EndpointId};
use std::alloc::Global;
use std::marker::Model;

/// An identifier in a fifth of the memory of an [`EndpointId`]. Each that the gatekeeper hands out
/// is such: its number has at most 20 digits.
type ShortId = BmpString<20>;

/// Identifiers by how often they are told. It is whole unless memory was refused, or an identifier
/// is too long: then rows are searched, until it can be whole again.
#[derive(Drop)]
pub(crate) struct ToldCounts {
    counts: IndexMap<ShortId, usize>,
    is_whole: bool,
}

impl Model for ToldCounts {
    ghost use Rattle.indexmap.specs.IndexMap.{spare};
    ghost use Rattle.kept_replies.specs.inside.Told.{ToldTable};

    ghost Value = { ToldTable };

    ghost view = { λ t. record {
      counts = t.counts.entries;
      is_whole = t.is_whole;
      room = spare t.counts;
    } };
}

impl ToldCounts {
    /// No identifier. This takes no memory.
    pub(crate) fn new(alloc: Global) -> Self
        ensures { AreTold [] result }
    {
        ToldCounts {
            counts: IndexMap::new(alloc),
            is_whole: true,
        }
    }

    /// The identifiers that these rows tell.
    pub(crate) fn of(alloc: Global, rows: &IndexMap<KeptKey, KeptEntry>) -> Self
        ensures { AreTold rows.now.entries result }
    {
        let mut all = ToldCounts::new(alloc);
        // one more than the rows, since to replace a reply another is added first
        let _room = all.counts.reserve(rows.len().saturating_add(1));
        for (_key, entry) in rows.iter() {
            all.add(entry.identifier());
        }
        all
    }

    /// Makes it whole again, and ready for one more row, if there is memory for it.
    pub(crate) fn prepare(&mut self, rows: &IndexMap<KeptKey, KeptEntry>)
        requires { AreTold rows.now.entries self.old }
        ensures { AreTold rows.now.entries self.new }
    {
        if !self.is_whole {
            *self = ToldCounts::of(*rows.allocator(), rows);
        }
        // for a reply that comes, and for one that replaces another, which is added first
        let _room = self.counts.reserve(2);
    }

    /// Whether a row tells this identifier.
    pub(crate) fn is_told(&self, rows: &IndexMap<KeptKey, KeptEntry>, id: &EndpointId) -> bool
        requires { AreTold rows.now.entries self.now }
        ensures { result ≡ list_any (λ row. is_named_by id.now row.1) rows.now.entries }
    {
        match self.key_of(id) {
            Some(key) => times_of(&self.counts, &key) > 0,
            None => is_named_in(rows, id),
        }
    }

    /// The key of an identifier, if how often it is told can be read from the counts.
    fn key_of(&self, id: &EndpointId) -> Option<ShortId>
        ensures key { IfSome result (λ key. key ≡ id.now) }
        ensures whole { IsSome result → IsTrue self.now.is_whole }
    {
        if !self.is_whole {
            return None;
        }
        ShortId::new(id.as_slice())
    }

    /// Counts one more kept reply, which may tell an identifier. This takes no memory: it is whole
    /// no more if the identifier is new and there is no room, and stays whole if there is.
    pub(crate) fn add(&mut self, named: Option<&ToldId>)
        ensures still { IsTrue self.new.is_whole → IsTrue self.old.is_whole }
        ensures full { self.old.room ≡ 0 → ForSome named.entry (λ id.
            lookup (same_id id.now) self.old.counts ≡ None → self.new.is_whole ≡ false) }
        ensures whole { IsTrue self.old.is_whole → 0 < self.old.room
            → ForSome named.entry (λ id. MayRise self.old id.now) → IsTrue self.new.is_whole }
        ensures times { IsTrue self.new.is_whole → (id : List ℕ)
            → times self.new id ≡ times self.old id + once (option_copied named.entry) id }
    {
        let Some(id) = named else {
            return;
        };
        let Some(key) = ShortId::new(id.as_slice()) else {
            self.is_whole = false;
            return;
        };
        self.is_whole = self.is_whole && raise(&mut self.counts, &key);
    }

    /// Takes a reply, which may tell an identifier, out of the counts. They stay whole if it was
    /// counted.
    pub(crate) fn take_out(&mut self, named: Option<&ToldId>)
        ensures still { IsTrue self.new.is_whole → IsTrue self.old.is_whole }
        ensures whole { IsTrue self.old.is_whole
            → ForSome named.entry (λ id. IsCounted self.old id.now) → IsTrue self.new.is_whole }
        ensures times { IsTrue self.new.is_whole → (id : List ℕ)
            → times self.new id + once (option_copied named.entry) id ≡ times self.old id }
        ensures none { IsTrue self.new.is_whole → ForSome named.entry (λ id.
            times self.new id.now ≡ 0 → lookup (same_id id.now) self.new.counts ≡ None) }
    {
        let Some(id) = named else {
            return;
        };
        let Some(key) = ShortId::new(id.as_slice()) else {
            self.is_whole = false;
            return;
        };
        match lower(&mut self.counts, &key) {
            None => self.is_whole = false,
            Some(0) => {
                self.counts.swap_remove(&key);
            }
            Some(_left) => {}
        }
    }

    /// Counts another reply, which may tell an identifier, in place of that of the entry under this
    /// key. This takes no memory.
    pub(crate) fn replace(
        &mut self,
        rows: &IndexMap<KeptKey, KeptEntry>,
        key: &KeptKey,
        named: Option<&ToldId>,
    )
        ensures still { IsTrue self.new.is_whole → IsTrue self.old.is_whole }
        ensures times { (was : KeptEntry) → get same_key rows.now key.now ≡ Some was
            → IsTrue self.new.is_whole → (id : List ℕ)
            → times self.new id + once (named_by was) id
            ≡ times self.old id + once (option_copied named.entry) id }
    {
        if let Some(was) = rows.get(key) {
            self.add(named);
            self.take_out(was.identifier());
        }
    }
}

fn times_of(counts: &IndexMap<ShortId, usize>, id: &ShortId) -> usize
    ensures { result ≡ count_of (get same_id counts.now id.now) }
{
    counts.get(id).copied().unwrap_or(0)
}

/// Counts an identifier once more, and returns whether there was room for it. This takes no memory.
fn raise(counts: &mut IndexMap<ShortId, usize>, id: &ShortId) -> bool
    ensures raised { IsTrue result → Updates same_id counts.old counts.new id.now
        (Some (count_of (get same_id counts.old id.now) + 1)) }
    ensures full { spare counts.old ≡ 0 → get same_id counts.old id.now ≡ None → result ≡ false }
    ensures fits { 0 < spare counts.old → count_of (get same_id counts.old id.now) + 1 < 2 ^ 64
        → IsTrue result }
{
    if let Some(count) = counts.get_mut(id) {
        let Some(raised) = count.checked_add(1) else {
            return false;
        };
        *count = raised;
        return true;
    }
    counts.len() < counts.capacity() && counts.insert(*id, 1).is_ok()
}

/// Counts an identifier once less, and returns how often it is told then. None if it isn't told.
fn lower(counts: &mut IndexMap<ShortId, usize>, id: &ShortId) -> Option<usize>
    ensures lowered { IfSome result
        (λ left. Updates same_id counts.old counts.new id.now (Some left)) }
    ensures fewer { IfSome result
        (λ left. count_of (get same_id counts.old id.now) ≡ left + 1) }
    ensures told { 0 < count_of (get same_id counts.old id.now) → IsSome result }
{
    let count = counts.get_mut(id)?;
    let left = count.checked_sub(1)?;
    *count = left;
    Some(left)
}
