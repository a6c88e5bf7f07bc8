//! The tables `[[pool]]`.

ghost use Rattle.std.specs.Prelude.{◌≡◌, ◌≢◌, ◌≤◌, codes, map, vec_len, Err, IfErr, IfOk};
ghost use Rattle.std.specs.Prelude.{false, true};
ghost use Rattle.std.specs.List.{list_all, list_any};
ghost use Rattle.toml.specs.Data.{get_member};
ghost use Rattle.toml.specs.View.{array_view, items_view, table_view, view};
ghost use Rattle.value_texts.specs.Texts as texts;
ghost use Rattle.zone_config.specs.Networks.{is_too_long};
ghost use Rattle.settings.specs.declared.setting_key.SettingKey.TheVariants as key;
ghost use Rattle.settings.specs.Pools.{kind_of, network_of, pool_in, pool_of, pools_from, pools_of};
ghost use Rattle.settings.specs.Pools.{spec_of};
ghost use Rattle.settings.specs.Ranges.{is_limited};
ghost use Rattle.settings.specs.Values.{required_number, text_in};

use crate::fault::Refusal;
use crate::setting_key::SettingKey;
use crate::value::{member, required_number};
use pools::{NonZeroUnits, PoolSpec, PoolSpecs};
use std::alloc::{AllocError, Global};
use std::marker::Model;
use toml::{Table, Value};
use value_texts::{PoolKind, network_of};
use zone_config::{Network, Networks};

/// The pools that a zone has at most.
const MOST_POOLS: usize = 16;

/// The greatest limit of a pool.
const MOST_LIMIT: u64 = 1_000_000_000_000;

/// The greatest step or burst of a pool.
const MOST_UNITS: u64 = 4_294_967_295;

/// A pool, with the network that it serves; None: every address. Contracts see the pair.
#[derive(Clone, Copy)]
pub(crate) struct PoolTable {
    spec: PoolSpec,
    network: Option<Network>,
}

impl Model for PoolTable {
    ghost use Rattle.settings.specs.Ranges.{IsPoolEntry, PoolEntry};

    ghost Value = { PoolEntry };

    ghost view = { λ p. (p.spec, p.network) };

    ghost invariant = { λ p. IsPoolEntry (p.spec, p.network) };

    ghost inverse = { λ p. record { spec = p.0; network = p.1 } };
}

impl PoolTable {
    fn spec(&self) -> PoolSpec
        ensures value { result ≡ self.now.0 }
        ensures limit { is_limited result ≡ true }
    {
        self.spec
    }

    fn network(&self) -> Option<Network>
        ensures value { result ≡ self.now.1 }
        ensures bits { is_too_long result ≡ false }
    {
        self.network
    }
}

fn kind_in(value: &Value) -> Result<PoolKind, Refusal>
    ensures { result ≡ text_in key.PoolKind texts.kind_of (view value.now) }
{
    match value.as_str() {
        Some(text) => {
            PoolKind::named(text.as_bytes()).ok_or(Refusal::OutOfRange(SettingKey::PoolKind))
        }
        None => Err(Refusal::WrongKind(SettingKey::PoolKind)),
    }
}

fn kind_of(pool: &Table) -> Result<PoolKind, Refusal>
    ensures { result ≡ kind_of (table_view pool.now) }
{
    match member(pool, "kind") {
        Some(value) => kind_in(value),
        None => Err(Refusal::Missing(SettingKey::PoolKind)),
    }
}

/// The units that stand under a name: a step or a burst.
fn units_of(pool: &Table, name: &str, key: SettingKey) -> Result<NonZeroUnits, Refusal>
    ensures { result
        ≡ required_number key 1 4294967295 (get_member name.now (table_view pool.now)) }
{
    match required_number(pool, name, key, 1, MOST_UNITS) {
        Ok(units) => NonZeroUnits::new(units as u32).ok_or(Refusal::OutOfRange(key)),
        Err(refusal) => Err(refusal),
    }
}

/// The pool of this kind, with the number that it needs besides its limit.
fn spec_of(pool: &Table, kind: PoolKind, limit: u64) -> Result<PoolSpec, Refusal>
    requires { limit ≤ 1000000000000 }
    ensures value { result ≡ spec_of (table_view pool.now) kind limit }
    ensures limit { IfOk result (λ spec. is_limited spec ≡ true) }
{
    match kind {
        PoolKind::Fixed => Ok(PoolSpec::Fixed { limit }),
        PoolKind::Step => {
            let step = units_of(pool, "step", SettingKey::PoolStep)?;
            Ok(PoolSpec::Step { limit, step })
        }
        PoolKind::Paced => {
            let burst = units_of(pool, "burst", SettingKey::PoolBurst)?;
            Ok(PoolSpec::Paced { limit, burst })
        }
    }
}

fn network_in(value: &Value) -> Result<Network, Refusal>
    ensures value { result ≡ text_in key.PoolNetwork texts.network_of (view value.now) }
    ensures bits { IfOk result (λ network. network.bits ≤ 32) }
{
    match value.as_str() {
        Some(text) => match network_of(text.as_bytes()) {
            Some(network) => Ok(network),
            None => Err(Refusal::OutOfRange(SettingKey::PoolNetwork)),
        },
        None => Err(Refusal::WrongKind(SettingKey::PoolNetwork)),
    }
}

/// The network that the pool serves; None: every address.
fn served_network(pool: &Table) -> Result<Option<Network>, Refusal>
    ensures value { result ≡ network_of (table_view pool.now) }
    ensures bits { IfOk result (λ network. is_too_long network ≡ false) }
{
    match member(pool, "network") {
        Some(value) => match network_in(value) {
            Ok(network) => Ok(Some(network)),
            Err(refusal) => Err(refusal),
        },
        None => Ok(None),
    }
}

#[tactic(auto, unfolding(crate::specs::Pools::pool_in))]
fn pool_in(pool: &Table) -> Result<PoolTable, Refusal>
    ensures { result ≡ pool_in (table_view pool.now) }
{
    let kind = kind_of(pool)?;
    let limit = required_number(pool, "limit", SettingKey::PoolLimit, 0, MOST_LIMIT)?;
    let spec = spec_of(pool, kind, limit)?;
    let network = served_network(pool)?;
    Ok(PoolTable { spec, network })
}

#[tactic(auto, unfolding(crate::specs::Pools::pool_of))]
fn pool_of(value: &Value) -> Result<PoolTable, Refusal>
    ensures { result ≡ pool_of (view value.now) }
{
    match value.as_table() {
        Some(pool) => pool_in(pool),
        None => Err(Refusal::WrongKind(SettingKey::Pools)),
    }
}

/// The pools of these tables, in order; at most 16, of which each is tested before a further one is
/// refused.
fn pools_in(alloc: Global, values: &[Value]) -> Result<Vec<PoolTable>, Refusal>
    ensures ok { IfOk result (λ pools. pools_from (items_view values.now) 16 ≡ Ok pools.items) }
    ensures err { IfErr result (λ refusal. refusal ≢ Refusal.Memory
        → pools_from (items_view values.now) 16 ≡ Err refusal) }
    ensures few { IfOk result (λ pools. vec_len pools ≤ 16) }
{
    let mut pools = Vec::new(alloc);
    for value in values {
        if pools.len() == MOST_POOLS {
            return Err(Refusal::OutOfRange(SettingKey::Pools));
        }
        match pool_of(value) {
            Ok(pool) => pools.push(pool)?,
            Err(refusal) => return Err(refusal),
        }
    }
    Ok(pools)
}

/// The pools that are set.
#[tactic(auto, unfolding(crate::specs::Pools::pools_of))]
pub(crate) fn pools_of(alloc: Global, document: &Table) -> Result<Vec<PoolTable>, Refusal>
    ensures ok { IfOk result (λ pools.
        pools_of (get_member (codes "pool") (table_view document.now)) ≡ Ok pools.items) }
    ensures err { IfErr result (λ refusal. refusal ≢ Refusal.Memory
        → pools_of (get_member (codes "pool") (table_view document.now)) ≡ Err refusal) }
    ensures few { IfOk result (λ pools. vec_len pools ≤ 16) }
{
    match member(document, "pool") {
        Some(value) => match value.as_array() {
            Some(values) => pools_in(alloc, values),
            None => Err(Refusal::WrongKind(SettingKey::Pools)),
        },
        None => Ok(Vec::new(alloc)),
    }
}

/// The networks of the pools, in their order.
pub(crate) fn networks_of(alloc: Global, pools: &[PoolTable]) -> Result<Networks, AllocError>
    ensures value { IfOk result (λ networks. networks ≡ map (λ p. p.1) pools.now) }
    ensures bits { IfOk result (λ networks. list_any is_too_long networks ≡ false) }
{
    let mut networks = Vec::new(alloc);
    for pool in pools {
        networks.push(pool.network()).map_err(AllocError::from)?;
    }
    Ok(Networks::from_vec(networks))
}

/// What pools are to be made, in their order.
pub(crate) fn specs_of(alloc: Global, pools: &[PoolTable]) -> Result<PoolSpecs, AllocError>
    ensures value { IfOk result (λ specs. specs ≡ map (λ p. p.0) pools.now) }
    ensures limits { IfOk result (λ specs. list_all is_limited specs ≡ true) }
{
    let mut specs = Vec::new(alloc);
    for pool in pools {
        specs.push(pool.spec()).map_err(AllocError::from)?;
    }
    Ok(PoolSpecs::from_vec(specs))
}
