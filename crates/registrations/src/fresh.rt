//! Identifiers that may be handed out.

ghost use Rattle.std.specs.Prelude.{◌≡◌, ◌≤◌, ◌+◌, length, nat_eq};
ghost use Rattle.std.specs.List.{list_any};
ghost use Rattle.std.specs.Cmp.Lexicographic.{pointwise};
ghost use Rattle.std.specs.FinMap as map;
ghost use Rattle.ras_module.specs.Texts.{IsText};
ghost use Rattle.registrations.specs.Numbers.{IsFoundFrom};
ghost use Rattle.registrations.specs.Registry.{IsUnused};

use crate::number::{after, numbered};
use crate::table::Registrations;
use ras_module::EndpointId;

/// An identifier that no registration has, and that is not taken: the first such number, counted
/// from this one.
pub(crate) fn unused_from(table: &Registrations, taken: &[EndpointId], start: u64) -> EndpointId
    requires few { map.len table.now.live ≤ Registrations.MOST }
    ensures unused { IsUnused table.now.live taken.now result }
    ensures from { IsFoundFrom start (map.len table.now.live + length taken.now) result }
{
    let mut number = start;
    for _tries in 0..table.len() + taken.len() + 1 {
        let id = numbered(number);
        if table.is_unused(&id, taken) {
            return id;
        }
        number = after(number);
    }
    unreachable!()
}

/// Whether the identifier is taken.
pub(crate) fn is_taken(taken: &[EndpointId], id: &EndpointId) -> bool
    ensures taken { result ≡ list_any (λ i. pointwise nat_eq i id.now) taken.now }
    ensures text { IsText 128 id.now }
{
    let characters = id.as_slice();
    taken.iter().any(|other| other.as_slice() == characters)
}
