//! The zone that a record begins with.

ghost use Rattle.std.specs.Prelude.{◌≡◌};
ghost use Rattle.std.specs.List.{list_all};
ghost use Rattle.zone_config.specs.declared.network.Network.{Network};
ghost use Rattle.recording.specs.Zones.{are_script_pools, has_script_limit, is_one_word};
ghost use Rattle.recording.specs.Zones.{is_word_character, recorded_zone};

use pools::{PoolSpec, PoolSpecs};
use ras_core::{Config, Network};
use ras_module::Name;
use std::marker::Model;
use thiserror::Error;

/// The pools that a zone has at most.
const MOST_POOLS: usize = 16;

/// The greatest limit that a script gives a pool, in units of 100 bit/s.
const MOST_UNITS: u64 = 1_000_000_000_000;

/// Why a zone can't be described by the lines of a script.
#[derive(Clone, Copy, Debug, PartialEq, Eq, Error)]
pub enum ZoneFault {
    /// Its name isn't one word: it has a space, an end of a line, or half of a surrogate pair.
    #[error("the zone's name is not one word")]
    Name,
    /// There aren't as many pools as networks, or more than 16, or the limit of one is greater than
    /// 10^12 units.
    #[error("the zone's pools are not those of a script")]
    Pools,
}

/// A zone that the lines of a script describe: its settings, and its pools, one for each network of
/// the settings. Contracts see both.
#[derive(Drop)]
pub struct RecordedZone {
    config: Config,
    pools: PoolSpecs,
}

impl Model for RecordedZone {
    ghost use Rattle.recording.specs.Zones.{ZoneParts};

    ghost Value = { ZoneParts };

    ghost view = { λ z. record { config = z.config; pools = z.pools } };
}

fn is_word_character(code: u16) -> bool
    ensures { result ≡ is_word_character code }
{
    code != 0x20 && code != 0x0A && !(0xD800 <= code && code <= 0xDFFF)
}

/// Whether a name is one word of a line.
fn is_one_word(name: &Name) -> bool
    ensures { result ≡ is_one_word name.now }
{
    name.as_slice().iter().all(|code| is_word_character(*code))
}

fn has_script_limit(pool: &PoolSpec) -> bool
    ensures { result ≡ has_script_limit pool.now }
{
    match pool {
        PoolSpec::Fixed { limit } => *limit <= MOST_UNITS,
        PoolSpec::Step { limit, step: _ } => *limit <= MOST_UNITS,
        PoolSpec::Paced { limit, burst: _ } => *limit <= MOST_UNITS,
    }
}

fn have_script_limits(pools: &[PoolSpec]) -> bool
    ensures { result ≡ list_all has_script_limit pools.now }
{
    pools.iter().all(|pool| has_script_limit(pool))
}

/// Whether a script can have these pools, one for each of the networks.
fn are_script_pools(pools: &[PoolSpec], networks: &[Option<Network>]) -> bool
    ensures { result ≡ are_script_pools pools.now networks.now }
{
    pools.len() == networks.len() && pools.len() <= MOST_POOLS && have_script_limits(pools)
}

impl RecordedZone {
    /// A zone of these settings over these pools. The fault tells of its name first.
    ///
    /// promise recorded-zone-fits-a-script: A zone is taken if and only if a script can describe
    /// it; else why not is told (`recorded_zone`).
    pub fn new(config: Config, pools: PoolSpecs) -> Result<Self, ZoneFault>
        ensures { result ≡ recorded_zone config pools }
    {
        let parts = config.parts();
        if !is_one_word(&parts.identifier) {
            return Err(ZoneFault::Name);
        }
        if !are_script_pools(pools.as_slice(), parts.networks.as_slice()) {
            return Err(ZoneFault::Pools);
        }
        Ok(RecordedZone { config, pools })
    }

    /// Its settings.
    pub fn config(&self) -> &Config
        ensures { result.now ≡ self.now.config }
    {
        &self.config
    }

    /// Its pools, in order.
    pub fn pools(&self) -> &[PoolSpec]
        ensures { result.now ≡ self.now.pools }
    {
        self.pools.as_slice()
    }
}
