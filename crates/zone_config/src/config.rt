//! What is set for a zone.

ghost use Rattle.std.specs.Prelude.{◌↔◌, IsTrue};
ghost use Rattle.std.specs.Prelude.{◌≡◌, ◌≤◌, ◌<◌, ◌^◌, IfOk, None};
ghost use Rattle.std.specs.List.{find};
ghost use Rattle.std.specs.Option.{option_copied};
ghost use Rattle.zone_config.specs.Ranges.{config_fault_number, is_outside, range_fault};
ghost use Rattle.zone_config.specs.Ranges.{IsConfig, IsConfigAnswer};
ghost use Rattle.zone_config.specs.Defaults.{default_parts};
ghost use Rattle.zone_config.specs.Terms.{term_of};

use crate::key::Key;
use crate::moment::Moment;
use crate::network::Networks;
use crate::term::Term;
use ras_module::{Address, Delay, Name, TimeToLive};
use std::alloc::AllocError;
use std::marker::Model;
use thiserror::Error;

/// The settings of a zone, before their ranges are tested. Bandwidth is in units of 100 bit/s, for
/// both directions of a call. Times are in milliseconds, except `time_to_live`. `Key` has the range
/// and the default of each number.
#[derive(PartialEq, Eq)]
pub struct ConfigParts {
    /// The GatekeeperIdentifier of the zone.
    pub identifier: Name,
    /// The RAS address of the gatekeeper.
    pub address: Address,
    /// The bandwidth of all calls together.
    pub limit: u64,
    /// The bandwidth of one call.
    pub call_limit: u64,
    /// For how long a registration lives, in seconds.
    pub time_to_live: u64,
    /// How many endpoints there may be.
    pub endpoints: u64,
    /// How many calls there may be.
    pub calls: u64,
    /// How many replies may be kept.
    pub kept: u64,
    /// For how long a reply is kept.
    pub window: u64,
    /// After how long a silent endpoint in a call is asked for its state.
    pub silence: u64,
    /// After how long a request in progress is served again.
    pub delay: u64,
    /// How often a request in progress is served again at most.
    pub retries: u64,
    /// How often a silent endpoint is asked.
    pub asks: u64,
    /// How long the gatekeeper waits for the answer of an endpoint that it asked.
    pub ask_wait: u64,
    /// How long it is from one turn of the pools to the next.
    pub pool_turn: u64,
    /// The least bandwidth with which a pool's loan may leave a call, if the call wants as much.
    pub least_grant: u64,
    /// The networks of the pools, in their order. A call has its units from the first pool that has
    /// no network, or whose network holds the call signal address of the endpoint that opens the
    /// call. The last pool has none.
    pub networks: Networks,
}

// By hand, so that it is one call where one is dropped.
impl Drop for ConfigParts {
    fn drop(self) {
        let ConfigParts {
            identifier: _,
            address: _,
            limit: _,
            call_limit: _,
            time_to_live: _,
            endpoints: _,
            calls: _,
            kept: _,
            window: _,
            silence: _,
            delay: _,
            retries: _,
            asks: _,
            ask_wait: _,
            pool_turn: _,
            least_grant: _,
            networks: _,
        } = self;
    }
}

impl ConfigParts {
    /// The settings of a zone of which only the name, the address and the networks of the pools are
    /// set.
    pub fn new(identifier: Name, address: Address, networks: Networks) -> Self
        ensures { result ≡ default_parts identifier address networks }
    {
        ConfigParts {
            identifier,
            address,
            limit: Key::Limit.default(),
            call_limit: Key::CallLimit.default(),
            time_to_live: Key::TimeToLive.default(),
            endpoints: Key::Endpoints.default(),
            calls: Key::Calls.default(),
            kept: Key::Kept.default(),
            window: Key::Window.default(),
            silence: Key::Silence.default(),
            delay: Key::Delay.default(),
            retries: Key::Retries.default(),
            asks: Key::Asks.default(),
            ask_wait: Key::AskWait.default(),
            pool_turn: Key::PoolTurn.default(),
            least_grant: Key::LeastGrant.default(),
            networks,
        }
    }

    /// Equal settings.
    pub fn copy(&self) -> Result<Self, AllocError>
        ensures { IfOk result (λ copy. copy ≡ self.now) }
    {
        let networks = self.networks.copy()?;
        Ok(ConfigParts {
            identifier: self.identifier,
            address: self.address,
            limit: self.limit,
            call_limit: self.call_limit,
            time_to_live: self.time_to_live,
            endpoints: self.endpoints,
            calls: self.calls,
            kept: self.kept,
            window: self.window,
            silence: self.silence,
            delay: self.delay,
            retries: self.retries,
            asks: self.asks,
            ask_wait: self.ask_wait,
            pool_turn: self.pool_turn,
            least_grant: self.least_grant,
            networks,
        })
    }
}

/// Why settings make no zone.
#[derive(Clone, Copy, Debug, PartialEq, Eq, Error)]
pub enum ConfigFault {
    /// The number under this key is outside its range. The key is `pool.network` if a network has
    /// more than 32 bits.
    #[error("{0} is outside its range")]
    OutOfRange(&'static str),
    /// There is no pool, or the last one has a network, so that some calls have no pool.
    #[error("no default pool: the last pool has to serve every network")]
    NoDefaultPool,
}

impl ConfigFault {
    /// The number of the fault.
    pub fn number(&self) -> u8
        ensures { result ≡ config_fault_number self.now }
    {
        match self {
            ConfigFault::OutOfRange(_) => 1,
            ConfigFault::NoDefaultPool => 2,
        }
    }
}

/// The settings of a zone, each within its range. Contracts see the settings.
pub struct Config {
    parts: ConfigParts,
}

// By hand, so that it is one call where one is dropped.
impl Drop for Config {
    fn drop(self) {
        let Config { parts: _ } = self;
    }
}

impl Model for Config {
    ghost use Rattle.zone_config.specs.declared.config.ConfigParts.{ConfigParts};
    ghost use Rattle.zone_config.specs.Ranges.{IsConfig};

    ghost Value = { ConfigParts };

    ghost view = { λ c. c.parts };

    ghost invariant = { λ c. IsConfig c.parts };
}

/// The first of the keys whose number is outside its range.
fn first_outside<'a>(keys: &'a [Key], parts: &ConfigParts) -> Option<&'a Key>
    ensures { option_copied result ≡ find (λ key. is_outside parts.now key) keys.now }
{
    keys.iter().find(|key| !key.takes(key.get(parts)))
}

/// The path of the first key whose number is outside its range.
#[tactic(auto, unfolding(crate::specs::Ranges::range_fault))]
fn range_fault(parts: &ConfigParts) -> Option<&'static str>
    ensures { option_copied result ≡ range_fault parts.now }
{
    match first_outside(&Key::ALL, parts) {
        Some(key) => Some(key.path()),
        None if parts.networks.are_too_long() => Some("pool.network"),
        None => None,
    }
}

impl Config {
    /// The most endpoints that a zone may be set to have.
    pub const MOST_ENDPOINTS: u64 = 20_000;

    /// The most calls that it may be set to have.
    pub const MOST_CALLS: u64 = 20_000;

    /// The most replies that it may be set to keep.
    pub const MOST_KEPT: u64 = 65_536;

    /// These settings, if each number is in its range and the last pool has no network. Otherwise
    /// the fault names the first key, in the order of the fields, whose number is out of range, and
    /// after the keys a network with too many bits. If there is none of these, the fault is that
    /// there is no default pool.
    ///
    /// promise settings-are-in-range: Settings are accepted if and only if all are in their ranges
    /// and there is a default pool; else the first key out of range, or the missing pool, is named
    /// (`IsConfigAnswer`, `range_fault`).
    pub fn new(parts: ConfigParts) -> Result<Self, ConfigFault>
        ensures { IsConfigAnswer parts result }
    {
        if let Some(key) = range_fault(&parts) {
            return Err(ConfigFault::OutOfRange(key));
        }
        if !parts.networks.have_default() {
            return Err(ConfigFault::NoDefaultPool);
        }
        Ok(Config { parts })
    }

    /// The settings.
    pub fn parts(&self) -> &ConfigParts
        ensures same { result.now ≡ self.now }
        ensures ranges { IsConfig self.now }
    {
        &self.parts
    }

    /// Whether the other settings are equal.
    pub fn is_same(&self, other: &Self) -> bool
        ensures { IsTrue result ↔ (self.now ≡ other.now) }
    {
        self.parts == other.parts
    }

    /// Equal settings.
    pub fn copy(&self) -> Result<Self, AllocError>
        ensures copy { IfOk result (λ copy. copy ≡ self.now) }
        ensures ranges { IfOk result IsConfig }
    {
        Ok(Config {
            parts: self.parts.copy()?,
        })
    }

    /// The settings, to be changed. This takes no memory.
    pub fn into_parts(self) -> ConfigParts
        ensures same { result ≡ self }
        ensures ranges { IsConfig self }
    {
        let Config { parts } = self;
        parts
    }

    /// The time to live of the zone.
    pub fn time_to_live(&self) -> TimeToLive
        ensures { result ≡ self.now.time_to_live }
    {
        TimeToLive::new(self.parts.time_to_live as u32).unwrap()
    }

    /// How many endpoints there may be.
    pub fn endpoints(&self) -> usize
        ensures same { result ≡ self.now.endpoints }
        ensures few { result ≤ Self.MOST_ENDPOINTS }
    {
        self.parts.endpoints as usize
    }

    /// How many calls there may be.
    pub fn calls(&self) -> usize
        ensures same { result ≡ self.now.calls }
        ensures some { 1 ≤ result }
        ensures few { result ≤ Self.MOST_CALLS }
    {
        self.parts.calls as usize
    }

    /// How many replies may be kept.
    pub fn kept(&self) -> usize
        ensures same { result ≡ self.now.kept }
        ensures some { 1 ≤ result }
        ensures few { result ≤ Self.MOST_KEPT }
    {
        self.parts.kept as usize
    }

    /// After how long a request in progress is served again.
    pub fn delay(&self) -> Delay
        ensures { result ≡ self.now.delay }
    {
        Delay::new(self.parts.delay as u16).unwrap()
    }

    /// Until when the reply to a request of this moment is kept, and when and how often a request
    /// that waits is served again.
    pub fn term(&self, now: Moment) -> Term
        ensures same { result ≡ term_of self.now now }
        ensures some { 1 ≤ result.times }
    {
        let start = now.milliseconds();
        Term {
            until: start + self.parts.window,
            retry: start + self.parts.delay,
            times: self.parts.retries,
        }
    }

    /// How long it is from one turn of the pools to the next.
    pub fn pool_turn(&self) -> u64
        ensures same { result ≡ self.now.pool_turn }
        ensures small { result ≤ 86400000 }
    {
        self.parts.pool_turn
    }

    /// The bandwidth of one call.
    pub fn call_limit(&self) -> u32
        ensures same { result ≡ self.now.call_limit }
        ensures few { result < 2 ^ 32 }
    {
        self.parts.call_limit as u32
    }

    /// The least bandwidth with which a pool's loan may leave a call, if the call wants as much.
    pub fn least_grant(&self) -> u32
        ensures same { result ≡ self.now.least_grant }
        ensures few { result < 2 ^ 32 }
    {
        self.parts.least_grant as u32
    }
}
