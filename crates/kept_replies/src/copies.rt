//! Copies of what a table of kept replies stores.

ghost use Rattle.std.specs.Prelude.{◌≡◌, IfOk, OnOk};
ghost use Rattle.indexmap.specs.IndexMap.{insert_entry};
ghost use Rattle.kept_replies.specs.Keys.{same_key};

use crate::entry::KeptEntry;
use crate::key::KeptKey;
use indexmap::IndexMap;
use std::alloc::{AllocError, Global};

/// The same entries for the same datagrams, in their order.
pub(crate) fn copies_of(
    alloc: Global,
    rows: &IndexMap<KeptKey, KeptEntry>,
) -> Result<IndexMap<KeptKey, KeptEntry>, AllocError>
    ensures { IfOk result (λ copies. copies.entries ≡ rows.now.entries) }
{
    let mut copies = IndexMap::new(alloc);
    copies.reserve(rows.len())?;
    for i in 0..rows.len() {
        let (key, entry) = rows.get_index(i).unwrap();
        put(&mut copies, key.copy()?, entry.copy()?)?;
    }
    Ok(copies)
}

fn put(
    rows: &mut IndexMap<KeptKey, KeptEntry>,
    key: KeptKey,
    entry: KeptEntry,
) -> Result<(), AllocError>
    ensures { OnOk result (rows.new.entries ≡ insert_entry same_key rows.old.entries key entry) }
{
    match rows.insert(key, entry) {
        Ok(_) => Ok(()),
        Err(_) => Err(AllocError),
    }
}
