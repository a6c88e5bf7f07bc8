//! Searches of what is stored.

ghost use Rattle.std.specs.Prelude.{◌≡◌, IfOk, nat_eq, position};
ghost use Rattle.std.specs.List.{list_any};
ghost use Rattle.indexmap.specs.IndexMap.{values};
ghost use Rattle.kept_replies.specs.inside.Stored.{identifiers_of, is_named_by};

use crate::entry::KeptEntry;
use crate::key::KeptKey;
use indexmap::IndexMap;
use ras_module::EndpointId;
use std::alloc::{AllocError, Global};

/// The place of the row with this birth.
pub(crate) fn place_of(rows: &IndexMap<KeptKey, KeptEntry>, born: u64) -> Option<usize>
    ensures { result ≡ position (λ entry. nat_eq entry.born born) (values rows.now) }
{
    rows.values().position(|entry| entry.born == born)
}

/// Whether a row's RegistrationConfirm tells this identifier.
pub(crate) fn is_named_in(rows: &IndexMap<KeptKey, KeptEntry>, id: &EndpointId) -> bool
    ensures { result ≡ list_any (λ row. is_named_by id.now row.1) rows.now.entries }
{
    for (_key, entry) in rows.iter() {
        if let Some(other) = entry.identifier() {
            if other.as_slice() == id.as_slice() {
                return true;
            }
        }
    }
    false
}

/// The identifiers that the rows' RegistrationConfirms tell.
pub(crate) fn identifiers_in(
    alloc: Global,
    rows: &IndexMap<KeptKey, KeptEntry>,
) -> Result<Vec<EndpointId>, AllocError>
    ensures { IfOk result (λ ids. ids.items ≡ identifiers_of rows.now.entries) }
{
    let mut ids = Vec::new(alloc);
    for (_key, entry) in rows.iter() {
        if let Some(id) = entry.identifier() {
            ids.push(id.id())?;
        }
    }
    Ok(ids)
}
