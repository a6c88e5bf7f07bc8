//! The whole-number settings of a zone, each with its name, its range and its default.

ghost use Rattle.std.specs.Prelude.{◌≡◌, ◌≤◌, ◌<◌, ◌^◌};
ghost use Rattle.std.specs.List.{find};
ghost use Rattle.std.specs.Option.{option_copied};
ghost use Rattle.std.specs.Str.{bytes_eq};
ghost use Rattle.zone_config.specs.Keys.{all_keys, default_of, has_name, key_of, least_of, most_of};
ghost use Rattle.zone_config.specs.Keys.{name_of, number_in, path_of, takes, with_number};

use crate::config::{Config, ConfigParts};

/// A whole-number setting of a zone.
#[derive(Clone, Copy, Debug, PartialEq, Eq)]
pub enum Key {
    /// The bandwidth of all calls together.
    Limit,
    /// The bandwidth of one call.
    CallLimit,
    /// For how long a registration lives.
    TimeToLive,
    /// How many endpoints there may be.
    Endpoints,
    /// How many calls there may be.
    Calls,
    /// How many replies may be kept.
    Kept,
    /// For how long a reply is kept.
    Window,
    /// After how long a silent endpoint in a call is asked for its state.
    Silence,
    /// After how long a request in progress is served again.
    Delay,
    /// How often a request in progress is served again at most.
    Retries,
    /// How often a silent endpoint is asked.
    Asks,
    /// How long the gatekeeper waits for the answer of an endpoint that it asked.
    AskWait,
    /// How long it is from one turn of the pools to the next.
    PoolTurn,
    /// The least bandwidth with which a pool's loan may leave a call, if the call wants as much.
    LeastGrant,
}

/// The row of a key in the table of settings.
#[derive(Clone, Copy)]
struct Row {
    name: &'static str,
    path: &'static str,
    least: u64,
    most: u64,
    default: u64,
}

impl Row {
    fn new(name: &'static str, path: &'static str, least: u64, most: u64, default: u64) -> Row
        ensures name { result.name.now ≡ name.now }
        ensures path { result.path.now ≡ path.now }
        ensures least { result.least ≡ least }
        ensures most { result.most ≡ most }
        ensures default { result.default ≡ default }
    {
        Row {
            name,
            path,
            least,
            most,
            default,
        }
    }
}

impl Key {
    /// The keys, in the order in which their ranges are tested.
    pub const ALL: [Key; 14] = [
        Key::Limit,
        Key::CallLimit,
        Key::TimeToLive,
        Key::Endpoints,
        Key::Calls,
        Key::Kept,
        Key::Window,
        Key::Silence,
        Key::Delay,
        Key::Retries,
        Key::Asks,
        Key::AskWait,
        Key::PoolTurn,
        Key::LeastGrant,
    ];

    /// Its name, its path, the least and the greatest number that it takes, and its default.
    fn row(self) -> Row
        ensures name { result.name.now ≡ name_of self }
        ensures path { result.path.now ≡ path_of self }
        ensures least { result.least ≡ least_of self }
        ensures most { result.most ≡ most_of self }
        ensures default { result.default ≡ default_of self }
    {
        match self {
            Key::Limit => Row::new("limit", "zone.limit", 1, 1_000_000_000_000, 100_000),
            Key::CallLimit => Row::new("call_limit", "zone.call_limit", 1, 4_294_967_295, 20_000),
            Key::TimeToLive => Row::new("time_to_live", "zone.time_to_live", 1, 4_294_967_295, 60),
            Key::Endpoints => Row::new(
                "endpoints",
                "zone.endpoints",
                1,
                Config::MOST_ENDPOINTS,
                1_000,
            ),
            Key::Calls => Row::new("calls", "zone.calls", 1, Config::MOST_CALLS, 1_000),
            Key::Kept => Row::new("kept", "zone.kept", 1, Config::MOST_KEPT, 4_096),
            Key::Window => Row::new("window", "zone.window", 1, 3_600_000, 10_000),
            Key::Silence => Row::new("silence", "zone.silence", 1, 3_600_000, 30_000),
            Key::Delay => Row::new("delay", "zone.delay", 1, 65_535, 500),
            Key::Retries => Row::new("retries", "zone.retries", 1, 16, 3),
            Key::Asks => Row::new("asks", "zone.asks", 1, 16, 3),
            Key::AskWait => Row::new("ask_wait", "zone.ask_wait", 1, 3_600_000, 5_000),
            Key::PoolTurn => Row::new("pool_turn", "zone.pool_turn", 1, 86_400_000, 1_000),
            Key::LeastGrant => Row::new("least_grant", "zone.least_grant", 0, 4_294_967_295, 0),
        }
    }

    /// Its name among the settings of a zone, as in `limit`.
    pub fn name(self) -> &'static str
        ensures { result.now ≡ name_of self }
    {
        self.row().name
    }

    /// Its name among all settings, as in `zone.limit`.
    pub fn path(self) -> &'static str
        ensures { result.now ≡ path_of self }
    {
        self.row().path
    }

    /// The least number that it takes.
    pub fn least(self) -> u64
        ensures { result ≡ least_of self }
    {
        self.row().least
    }

    /// The greatest number that it takes.
    pub fn most(self) -> u64
        ensures most { result ≡ most_of self }
        ensures small { result < 2 ^ 56 }
    {
        self.row().most
    }

    /// Its number if nothing is set.
    pub fn default(self) -> u64
        ensures { result ≡ default_of self }
    {
        self.row().default
    }

    /// The key of this name.
    pub fn named(word: &[u8]) -> Option<Key>
        ensures { result ≡ key_of word.now }
    {
        first_named(&Key::ALL, word).copied()
    }

    /// Whether the number lies in its range.
    ///
    /// promise keys-stand-in-one-table: A key takes the numbers of its range; name, range and
    /// default stand in one table (`takes`, `row_of`).
    pub fn takes(self, number: u64) -> bool
        ensures { result ≡ takes self number }
    {
        let row = self.row();
        row.least <= number && number <= row.most
    }

    /// Its number in these settings.
    pub fn get(self, parts: &ConfigParts) -> u64
        ensures { result ≡ number_in parts.now self }
    {
        match self {
            Key::Limit => parts.limit,
            Key::CallLimit => parts.call_limit,
            Key::TimeToLive => parts.time_to_live,
            Key::Endpoints => parts.endpoints,
            Key::Calls => parts.calls,
            Key::Kept => parts.kept,
            Key::Window => parts.window,
            Key::Silence => parts.silence,
            Key::Delay => parts.delay,
            Key::Retries => parts.retries,
            Key::Asks => parts.asks,
            Key::AskWait => parts.ask_wait,
            Key::PoolTurn => parts.pool_turn,
            Key::LeastGrant => parts.least_grant,
        }
    }

    /// Sets it to this number.
    pub fn set(self, parts: &mut ConfigParts, number: u64)
        ensures { parts.new ≡ with_number parts.old self number }
    {
        match self {
            Key::Limit => parts.limit = number,
            Key::CallLimit => parts.call_limit = number,
            Key::TimeToLive => parts.time_to_live = number,
            Key::Endpoints => parts.endpoints = number,
            Key::Calls => parts.calls = number,
            Key::Kept => parts.kept = number,
            Key::Window => parts.window = number,
            Key::Silence => parts.silence = number,
            Key::Delay => parts.delay = number,
            Key::Retries => parts.retries = number,
            Key::Asks => parts.asks = number,
            Key::AskWait => parts.ask_wait = number,
            Key::PoolTurn => parts.pool_turn = number,
            Key::LeastGrant => parts.least_grant = number,
        }
    }
}

fn first_named<'a>(keys: &'a [Key], word: &[u8]) -> Option<&'a Key>
    ensures { option_copied result ≡ find (λ key. has_name word.now key) keys.now }
{
    keys.iter().find(|key| word == key.name().as_bytes())
}
