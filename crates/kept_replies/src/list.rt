//! Lists of what is kept.

ghost use Rattle.std.specs.Prelude.{◌≡◌, IfOk};
ghost use Rattle.std.specs.FinMap as map;
ghost use Rattle.keyed.specs.Places.{AreApart, row_in, entries_of};
ghost use Rattle.kept_replies.specs.Kept.{birth_of, itself, births_of};

use crate::entry::KeptEntry;
use crate::key::KeptKey;
use indexmap::IndexMap;
use std::alloc::{AllocError, Global};
use std::marker::Model;

/// Kept replies in order, each with its datagram. Contracts see the list.
#[derive(Drop)]
pub struct KeptList {
    items: Vec<(KeptKey, KeptEntry)>,
}

impl Model for KeptList {
    ghost use Rattle.std.specs.Prelude.{List};
    ghost use Rattle.kept_replies.specs.declared.key.KeptKey.{KeptKey};
    ghost use Rattle.kept_replies.specs.declared.entry.KeptEntry.{KeptEntry};

    ghost Value = { List (KeptKey × KeptEntry) };

    ghost view = { λ l. l.items.items };
}

impl KeptList {
    /// The kept replies of a vector. This takes no memory.
    pub fn from_vec(items: Vec<(KeptKey, KeptEntry)>) -> Self
        ensures { result ≡ items.items }
    {
        KeptList { items }
    }

    /// The vector of the kept replies. This takes no memory.
    pub fn into_vec(self) -> Vec<(KeptKey, KeptEntry)>
        ensures { result.items ≡ self }
    {
        let KeptList { items } = self;
        items
    }

    /// The kept replies, in order.
    pub fn as_slice(&self) -> &[(KeptKey, KeptEntry)]
        ensures { result.now ≡ self.now }
    {
        &self.items
    }
}

/// Copies of these rows, by rising birth.
pub(crate) fn rising(
    alloc: Global,
    rows: &IndexMap<KeptKey, KeptEntry>,
) -> Result<KeptList, AllocError>
    requires { AreApart birth_of (row_in rows.now.entries) }
    ensures { IfOk result
        (λ list. entries_of birth_of itself list ≡ map.entries (births_of rows.now.entries)) }
{
    let mut copies = copies_of(alloc, rows)?;
    copies.sort_unstable_by_key(|row| row.1.born);
    Ok(KeptList { items: copies })
}

fn copies_of(
    alloc: Global,
    rows: &IndexMap<KeptKey, KeptEntry>,
) -> Result<Vec<(KeptKey, KeptEntry)>, AllocError>
    ensures { IfOk result (λ copies. copies.items ≡ rows.now.entries) }
{
    let mut copies = Vec::new(alloc);
    copies.reserve(rows.len())?;
    for (key, entry) in rows.iter() {
        copies.push((key.copy()?, entry.copy()?))?;
    }
    Ok(copies)
}
