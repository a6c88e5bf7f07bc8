//! The pools that lines of a script describe.

ghost use Rattle.std.specs.Prelude.{◌≡◌, IfSome, false};
ghost use Rattle.zone_config.specs.Networks.{is_too_long};
ghost use Rattle.value_texts.specs.Texts.{number_of};
ghost use Rattle.script.specs.Pools.{PoolEntry, fixed_pool, paced_pool, pool_of, pool_with_network};
ghost use Rattle.script.specs.Pools.{fresh_pool, served_network, step_pool};

use crate::words::Words;
use pools::{NonZeroUnits, PoolSpec};
use ras_core::Network;
use std::marker::Model;
use value_texts::{PoolKind, is_word, network_of, number_of};

/// A pool, with the network that it serves, if it doesn't serve every address. Contracts see
/// the pair.
#[derive(Drop)]
pub struct PoolLine {
    spec: PoolSpec,
    network: Option<Network>,
}

impl Model for PoolLine {
    ghost use Rattle.std.specs.Prelude.{◌≡◌, false};
    ghost use Rattle.zone_config.specs.Networks.{is_too_long};
    ghost use Rattle.script.specs.Pools.{PoolEntry};

    ghost Value = { PoolEntry };

    ghost view = { λ p. (p.spec, p.network) };

    ghost invariant = { λ p. is_too_long p.network ≡ false };
}

impl PoolLine {
    /// The pool that the words behind `pool` describe.
    pub fn new(mut words: Words) -> Option<PoolLine>
        ensures { result ≡ pool_of words.entry }
    {
        let kind = words.next_word()?;
        match PoolKind::named(kind)? {
            PoolKind::Fixed => fixed_pool(words),
            PoolKind::Step => step_pool(words),
            PoolKind::Paced => paced_pool(words),
        }
    }

    /// The pool.
    pub fn spec(&self) -> PoolSpec
        ensures { result ≡ self.now.0 }
    {
        self.spec
    }

    /// The network that it serves; None: every address.
    pub fn network(&self) -> Option<Network>
        ensures same { result ≡ self.now.1 }
        ensures bits { is_too_long result ≡ false }
    {
        self.network
    }
}

fn limit_of(word: &[u8]) -> Option<u64>
    ensures { result ≡ number_of 0 1000000000000 word.now }
{
    number_of(0, 1_000_000_000_000, word)
}

fn units_of(word: &[u8]) -> Option<NonZeroUnits>
    ensures { result ≡ number_of 1 4294967295 word.now }
{
    match number_of(1, 4_294_967_295, word) {
        Some(number) => NonZeroUnits::new(number as u32),
        None => None,
    }
}

fn served_network(mut words: Words) -> Option<Option<Network>>
    ensures value { result ≡ served_network words.entry }
    ensures bits { IfSome result (λ network. is_too_long network ≡ false) }
{
    let Some(mark) = words.next_word() else {
        return Some(None);
    };
    let network = words.next_word()?;
    match words.next_word() {
        Some(_) => None,
        None if is_word(mark, "for") => Some(Some(network_of(network)?)),
        None => None,
    }
}

/// This pool, with the network that the words name.
fn pool_with_network(spec: PoolSpec, words: Words) -> Option<PoolLine>
    ensures { result ≡ pool_with_network spec words.entry }
{
    let network = served_network(words)?;
    Some(PoolLine { spec, network })
}

fn fixed_pool(mut words: Words) -> Option<PoolLine>
    ensures { result ≡ fixed_pool words.entry }
{
    let limit = limit_of(words.next_word()?)?;
    pool_with_network(PoolSpec::Fixed { limit }, words)
}

fn step_pool(mut words: Words) -> Option<PoolLine>
    ensures { result ≡ step_pool words.entry }
{
    let limit = words.next_word()?;
    let step = words.next_word()?;
    let spec = PoolSpec::Step {
        limit: limit_of(limit)?,
        step: units_of(step)?,
    };
    pool_with_network(spec, words)
}

fn paced_pool(mut words: Words) -> Option<PoolLine>
    ensures { result ≡ paced_pool words.entry }
{
    let limit = words.next_word()?;
    let burst = words.next_word()?;
    let spec = PoolSpec::Paced {
        limit: limit_of(limit)?,
        burst: units_of(burst)?,
    };
    pool_with_network(spec, words)
}

/// The pool that the words describe, if they name no network.
pub fn fresh_pool(words: Words) -> Option<PoolSpec>
    ensures { result ≡ fresh_pool words.entry }
{
    let line = PoolLine::new(words)?;
    match line.network() {
        None => Some(line.spec()),
        Some(_) => None,
    }
}
