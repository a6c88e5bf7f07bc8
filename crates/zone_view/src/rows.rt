//! Rows of what a zone has.

ghost use Rattle.std.specs.Prelude.{◌≡◌, ◌≤◌, length, take};

use ras_module::{Address, Alias, CallKey, EndpointId, H323Id};
use std::marker::Model;

/// How many aliases of an endpoint are shown.
const SHOWN: usize = 8;

/// The first aliases of an endpoint: eight of them if it has more. Contracts see the list.
#[derive(Drop)]
pub struct ShownAliases {
    items: [Alias; SHOWN],
    count: usize,
}

impl Model for ShownAliases {
    ghost use Rattle.std.specs.Prelude.{◌≤◌, List, take};
    ghost use Rattle.ras_module.specs.declared.alias.Alias.{Alias};

    ghost Value = { List Alias };

    ghost view = { λ a. take a.count a.items };

    ghost invariant = { λ a. a.count ≤ 8 };
}

impl ShownAliases {
    /// The first of these aliases.
    pub fn first_of(aliases: &[Alias]) -> Self
        ensures { result ≡ take 8 aliases.now }
    {
        let shown = front_of(aliases);
        ShownAliases {
            items: padded(shown),
            count: shown.len(),
        }
    }

    /// The aliases, in the order of the endpoint's last full RegistrationRequest.
    pub fn as_slice(&self) -> &[Alias]
        ensures { result.now ≡ self.now }
    {
        &self.items[..self.count]
    }
}

/// The first of these aliases, as many as are shown.
fn front_of(aliases: &[Alias]) -> &[Alias]
    ensures front { result.now ≡ take 8 aliases.now }
    ensures few { length result.now ≤ 8 }
{
    if aliases.len() > SHOWN {
        &aliases[..SHOWN]
    } else {
        aliases
    }
}

/// These aliases, with others behind.
fn padded(shown: &[Alias]) -> [Alias; SHOWN]
    requires { length shown.now ≤ 8 }
    ensures { take (length shown.now) result ≡ shown.now }
{
    let mut items = [filler(); SHOWN];
    items[..shown.len()].copy_from_slice(shown);
    items
}

/// What stands where no alias is shown.
fn filler() -> Alias {
    Alias::H323Id(H323Id::new(&[0]).unwrap())
}

/// A registered endpoint. Moments are milliseconds of the zone's clock.
#[derive(Drop)]
pub struct EndpointRow {
    pub identifier: EndpointId,
    /// Its address for call signalling.
    pub call_signal: Address,
    /// Its address for RAS messages.
    pub ras: Address,
    /// Its first aliases.
    pub aliases: ShownAliases,
    /// How many aliases it has: 0 to 32.
    pub alias_count: usize,
    /// In how many calls it takes part.
    pub legs: usize,
    /// When its registration ends, unless it is renewed.
    pub deadline: u64,
    /// When it was last heard.
    pub heard: u64,
}

/// An open call. Bandwidth is in units of 100 bit/s (H.225.0, BandWidth).
#[derive(Drop)]
pub struct CallRow {
    pub key: CallKey,
    /// The place of the pool that lent its bandwidth.
    pub pool: usize,
    /// The bandwidth that it may use.
    pub units: u32,
    /// The endpoint that was admitted first.
    pub first: EndpointId,
    /// The other endpoint, if it was admitted too.
    pub second: Option<EndpointId>,
}
