//! Copies of what a table of calls stores.

ghost use Rattle.std.specs.Prelude.{◌≡◌, IfOk, OnOk};
ghost use Rattle.keyed.specs.Places.{AreApart, row_in};
ghost use Rattle.indexmap.specs.IndexMap.{insert_entry};
ghost use Rattle.ras_module.specs.CallKeys.{same_call_key};
ghost use Rattle.admission.specs.Calls.{key_of};

use crate::call::Call;
use indexmap::IndexMap;
use ras_module::CallKey;
use std::alloc::{AllocError, Global};

/// The same calls under the same keys, in their order.
pub(crate) fn copies_of(
    alloc: Global,
    calls: &IndexMap<CallKey, Call>,
) -> Result<IndexMap<CallKey, Call>, AllocError>
    requires { AreApart key_of (row_in calls.now.entries) }
    ensures { IfOk result (λ copies. copies.entries ≡ calls.now.entries) }
{
    let mut copies = IndexMap::new(alloc);
    copies.reserve(calls.len())?;
    for i in 0..calls.len() {
        let (key, call) = calls.get_index(i).unwrap();
        put(&mut copies, *key, call.copy())?;
    }
    Ok(copies)
}

fn put(calls: &mut IndexMap<CallKey, Call>, key: CallKey, call: Call) -> Result<(), AllocError>
    ensures { OnOk result
        (calls.new.entries ≡ insert_entry same_call_key calls.old.entries key call) }
{
    match calls.insert(key, call) {
        Ok(_) => Ok(()),
        Err(_) => Err(AllocError),
    }
}
