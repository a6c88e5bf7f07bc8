//! Lists of calls.

ghost use Rattle.std.specs.Prelude.{◌≡◌, IfOk};
ghost use Rattle.std.specs.FinMap as map;
ghost use Rattle.keyed.specs.Places.{AreApart, row_in};
ghost use Rattle.std.proofs.Common.{rules};
ghost use Rattle.std.specs.Cmp.Lexicographic.{pointwise};
ghost use Rattle.std.specs.Cmp.Rules.{comparing};
ghost use Rattle.admission.specs.Calls.{key_of, open_calls_of, same_entry};

use crate::call::Call;
use indexmap::IndexMap;
use ras_module::CallKey;
use std::alloc::{AllocError, Global};
use std::marker::Model;

/// Calls in order, each with its key. Contracts see the list.
#[derive(Drop)]
pub struct CallList {
    items: Vec<(CallKey, Call)>,
}

impl Model for CallList {
    ghost use Rattle.std.specs.Prelude.{List};
    ghost use Rattle.ras_module.specs.declared.call_key.CallKey.{CallKey};
    ghost use Rattle.admission.specs.declared.call.Call.{Call};

    ghost Value = { List (CallKey × Call) };

    ghost view = { λ a. a.items.items };
}

impl CallList {
    /// The calls of a vector. This takes no memory.
    pub fn from_vec(items: Vec<(CallKey, Call)>) -> Self
        ensures { result ≡ items.items }
    {
        CallList { items }
    }

    /// The vector of the calls. This takes no memory.
    pub fn into_vec(self) -> Vec<(CallKey, Call)>
        ensures { result.items ≡ self }
    {
        let CallList { items } = self;
        items
    }

    /// The calls, in order.
    pub fn as_slice(&self) -> &[(CallKey, Call)]
        ensures { result.now ≡ self.now }
    {
        &self.items
    }
}

impl PartialEq for CallList {
    ghost eq = { pointwise same_entry };

    ghost laws = { Prim.search (comparing, rules) depth 14 };

    fn eq(&self, other: &Self) -> bool {
        self.as_slice() == other.as_slice()
    }
}

impl Eq for CallList {
    ghost laws = { Prim.search (comparing, rules) depth 14 };
}

/// Copies of these calls, by rising key.
pub(crate) fn rising(alloc: Global, calls: &IndexMap<CallKey, Call>) -> Result<CallList, AllocError>
    requires { AreApart key_of (row_in calls.now.entries) }
    ensures { IfOk result (λ list. list ≡ map.entries (open_calls_of calls.now.entries)) }
{
    let mut copies = copies_of(alloc, calls)?;
    copies.sort_unstable_by_key(|entry| entry.0);
    Ok(CallList { items: copies })
}

fn copies_of(
    alloc: Global,
    calls: &IndexMap<CallKey, Call>,
) -> Result<Vec<(CallKey, Call)>, AllocError>
    ensures { IfOk result (λ copies. copies.items ≡ calls.now.entries) }
{
    let mut copies = Vec::new(alloc);
    copies.reserve(calls.len())?;
    for (key, call) in calls.iter() {
        copies.push((*key, call.copy()))?;
    }
    Ok(copies)
}
