//! Who holds an alias.

use ras_module::{Address, EndpointId};
use std::marker::Model;

/// The endpoint that holds an alias, with its call signal address. Contracts see the holding.
#[derive(Clone, Copy)]
pub struct Holder {
    /// Its identifier.
    pub id: EndpointId,
    /// Its call signal address.
    pub address: Address,
}

impl Model for Holder {
    ghost use Rattle.aliases.specs.Held.{Holding};

    ghost Value = { Holding };

    ghost view = { λ h. record { holder = h.id; address = h.address } };

    ghost inverse = { λ h. record { id = h.holder; address = h.address } };
}
