//! Networks of IPv4 addresses.

ghost use Rattle.std.specs.Prelude.{◌≡◌, IfOk};
ghost use Rattle.std.specs.List.{list_any, position};
ghost use Rattle.std.specs.Option.{option_eq};
ghost use Rattle.std.specs.Cmp.Lexicographic.{pointwise};
ghost use Rattle.std.specs.Cmp.Rules.{comparing};
ghost use Rattle.std.proofs.Common.{rules};
ghost use Rattle.zone_config.specs.Networks.{same_network};
ghost use Rattle.zone_config.specs.Networks.{front_bits, has_default, holds};
ghost use Rattle.zone_config.specs.Networks.{is_too_long, pool_of, serves};

use std::alloc::AllocError;
use std::marker::Model;

/// The IPv4 addresses that begin with the same bits.
#[derive(Clone, Copy, Debug, PartialEq, Eq)]
pub struct Network {
    /// An address of the network, the first octet of the dotted form first.
    pub ip: [u8; 4],
    /// How many bits from its front all the addresses share: 0 to 32.
    pub bits: u8,
}

impl PartialEq for Networks {
    ghost eq = { pointwise (option_eq same_network) };

    ghost laws = { Prim.search (comparing, rules) depth 9 };

    fn eq(&self, other: &Self) -> bool {
        self.as_slice() == other.as_slice()
    }
}

impl Eq for Networks {
    ghost laws = { Prim.search (comparing, rules) depth 9 };
}

/// This many bits of an address, from its front.
fn front_bits(bits: u8, ip: [u8; 4]) -> u64
    ensures { result ≡ front_bits bits ip }
{
    u64::from(u32::from_be_bytes(ip)) >> 32u32.saturating_sub(u32::from(bits))
}

impl Network {
    /// Whether the address is one of the network's.
    pub fn holds(&self, ip: [u8; 4]) -> bool
        ensures { result ≡ holds self.now ip }
    {
        front_bits(self.bits, self.ip) == front_bits(self.bits, ip)
    }
}

/// The networks of a zone's pools, in the pools' order. Contracts see the list.
#[derive(Drop)]
pub struct Networks {
    items: Vec<Option<Network>>,
}

impl Model for Networks {
    ghost use Rattle.std.specs.Prelude.{List, Option};
    ghost use Rattle.zone_config.specs.declared.network.Network.{Network};

    ghost Value = { List (Option Network) };

    ghost view = { λ n. n.items.items };
}

impl Networks {
    /// The networks of a vector: one for each pool, and None for a pool that serves every address.
    /// This takes no memory.
    pub fn from_vec(items: Vec<Option<Network>>) -> Self
        ensures { result ≡ items.items }
    {
        Networks { items }
    }

    /// The networks, in order.
    pub fn as_slice(&self) -> &[Option<Network>]
        ensures { result.now ≡ self.now }
    {
        &self.items
    }

    /// An equal list.
    pub fn copy(&self) -> Result<Self, AllocError>
        ensures { IfOk result (λ copy. copy ≡ self.now) }
    {
        let items = Vec::from_slice(*self.items.allocator(), &self.items)?;
        Ok(Networks { items })
    }

    /// The place of the first pool that serves the address.
    ///
    /// promise first-network-gives-the-pool: The pool of an address is the first without a network
    /// or whose network holds it (`pool_of`).
    pub fn pool_of(&self, ip: [u8; 4]) -> usize
        ensures { result ≡ pool_of self.now ip }
    {
        first_serving(&self.items, ip).unwrap_or(0)
    }

    /// Whether there is a pool, and the last one has no network.
    pub(crate) fn have_default(&self) -> bool
        ensures { result ≡ has_default self.now }
    {
        match self.items.last() {
            Some(network) => network.is_none(),
            None => false,
        }
    }

    /// Whether a network has more bits than an address.
    pub(crate) fn are_too_long(&self) -> bool
        ensures { result ≡ list_any is_too_long self.now }
    {
        any_too_long(&self.items)
    }
}

fn serves(network: &Option<Network>, ip: [u8; 4]) -> bool
    ensures { result ≡ serves network.now ip }
{
    match network {
        None => true,
        Some(network) => network.holds(ip),
    }
}

fn first_serving(networks: &[Option<Network>], ip: [u8; 4]) -> Option<usize>
    ensures { result ≡ position (λ network. serves network ip) networks.now }
{
    networks.iter().position(|network| serves(network, ip))
}

fn is_too_long(network: &Option<Network>) -> bool
    ensures { result ≡ is_too_long network.now }
{
    match network {
        None => false,
        Some(network) => network.bits > 32,
    }
}

fn any_too_long(networks: &[Option<Network>]) -> bool
    ensures { result ≡ list_any is_too_long networks.now }
{
    networks.iter().any(is_too_long)
}
