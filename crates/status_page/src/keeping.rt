//! The lowest entries of many.

ghost use Rattle.std.specs.Prelude.{◌≡◌, ◌≤◌, IfOk, OnOk};
ghost use Rattle.std.specs.BTreeMap.{IsOrdered, btree_map_len, values};
ghost use Rattle.status_page.specs.Keeping.{IsKept};

use std::alloc::{AllocError, Global};
use std::collections::BTreeMap;

/// Puts an entry in, in the place of one with an equal key if there is one, and lets the last entry
/// go if there are more than `most` then. Returns whether one went.
pub(crate) fn keep<K, V>(
    alloc: Global,
    entries: &mut BTreeMap<K, Box<V>>,
    most: usize,
    key: K,
    value: V,
) -> Result<bool, AllocError>
where
    K: Ord + Drop,
    V: Drop,
    requires few { btree_map_len entries.old ≤ most }
    ensures kept { IfOk result (
        IsKept K.cmp most entries.old.entries key value entries.new.entries) }
    ensures ordered { OnOk result (IsOrdered K.cmp entries.new) }
    ensures few { OnOk result (btree_map_len entries.new ≤ most) }
{
    let kept = Box::new(alloc, value)?;
    entries.insert(key, kept)?;
    if entries.len() <= most {
        return Ok(false);
    }
    let _last = entries.pop_last();
    Ok(true)
}

/// The values, by rising keys.
pub(crate) fn values_of<K, V>(alloc: Global, entries: BTreeMap<K, V>) -> Result<Vec<V>, AllocError>
where
    K: Ord + Drop,
    V: Drop,
    ensures { IfOk result (λ rows. rows.items ≡ values entries) }
{
    entries.into_values().collect(alloc)
}
