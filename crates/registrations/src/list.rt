//! Lists of registrations.

ghost use Rattle.std.specs.Prelude.{◌≡◌};
ghost use Rattle.std.specs.FinMap as map;
ghost use Rattle.keyed.specs.Places.{AreApart, row_in};
ghost use Rattle.registrations.specs.Registry.{entries_of, live_of, identifier_of};

use crate::registration::Registration;
use std::marker::Model;

/// Registrations in order. Contracts see the list.
#[derive(Drop)]
pub struct RegistrationList {
    items: Vec<Registration>,
}

impl Model for RegistrationList {
    ghost use Rattle.std.specs.Prelude.{List};
    ghost use Rattle.registrations.specs.declared.registration.Registration.{Registration};

    ghost Value = { List Registration };

    ghost view = { λ a. a.items.items };
}

impl RegistrationList {
    /// The registrations of a vector. This takes no memory.
    pub fn from_vec(items: Vec<Registration>) -> Self
        ensures { result ≡ items.items }
    {
        RegistrationList { items }
    }

    /// The vector of the registrations. This takes no memory.
    pub fn into_vec(self) -> Vec<Registration>
        ensures { result.items ≡ self }
    {
        let RegistrationList { items } = self;
        items
    }

    /// The registrations, in order.
    pub fn as_slice(&self) -> &[Registration]
        ensures { result.now ≡ self.now }
    {
        &self.items
    }
}

/// These registrations by rising identifier.
pub(crate) fn rising(mut rows: Vec<Registration>) -> RegistrationList
    requires { AreApart identifier_of (row_in rows.items) }
    ensures { entries_of result ≡ map.entries (live_of rows.items) }
{
    rows.sort_unstable_by_key(|registration| registration.identifier);
    RegistrationList { items: rows }
}
