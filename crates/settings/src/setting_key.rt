//! The keys of the settings, by which a fault is told.

ghost use Rattle.std.specs.Prelude.{◌≡◌};
ghost use Rattle.settings.specs.SettingKeys.{path_of};

use crate::serve_key::ServeKey;
use zone_config::Key;

/// A table or a key of the settings.
#[derive(Clone, Copy, Debug, PartialEq, Eq)]
pub(crate) enum SettingKey {
    /// The table `[zone]`.
    ZoneTable,
    /// The identifier of the zone.
    Identifier,
    /// The RAS address of the gatekeeper.
    Address,
    /// A whole number of the zone.
    Zone(Key),
    /// The table `[serve]`.
    ServeTable,
    /// A whole number of the server.
    Serve(ServeKey),
    /// The address of the status page.
    Status,
    /// The tables `[[pool]]`.
    Pools,
    /// The kind of a pool.
    PoolKind,
    /// The limit of a pool.
    PoolLimit,
    /// The step of a step pool.
    PoolStep,
    /// The burst of a paced pool.
    PoolBurst,
    /// The network that a pool serves.
    PoolNetwork,
}

impl SettingKey {
    /// The tables and keys, in the order in which they are tested.
    pub(crate) const ALL: [SettingKey; 30] = [
        SettingKey::ZoneTable,
        SettingKey::Identifier,
        SettingKey::Address,
        SettingKey::Zone(Key::Limit),
        SettingKey::Zone(Key::CallLimit),
        SettingKey::Zone(Key::TimeToLive),
        SettingKey::Zone(Key::Endpoints),
        SettingKey::Zone(Key::Calls),
        SettingKey::Zone(Key::Kept),
        SettingKey::Zone(Key::Window),
        SettingKey::Zone(Key::Silence),
        SettingKey::Zone(Key::Delay),
        SettingKey::Zone(Key::Retries),
        SettingKey::Zone(Key::Asks),
        SettingKey::Zone(Key::AskWait),
        SettingKey::Zone(Key::PoolTurn),
        SettingKey::Zone(Key::LeastGrant),
        SettingKey::ServeTable,
        SettingKey::Serve(ServeKey::Receivers),
        SettingKey::Serve(ServeKey::Ring),
        SettingKey::Serve(ServeKey::Faults),
        SettingKey::Serve(ServeKey::Tick),
        SettingKey::Serve(ServeKey::Buffer),
        SettingKey::Status,
        SettingKey::Pools,
        SettingKey::PoolKind,
        SettingKey::PoolLimit,
        SettingKey::PoolStep,
        SettingKey::PoolBurst,
        SettingKey::PoolNetwork,
    ];

    /// Its name among all settings, as in `pool.limit`.
    pub(crate) fn path(self) -> &'static str
        ensures { result.now ≡ path_of self }
    {
        match self {
            SettingKey::ZoneTable => "zone",
            SettingKey::Identifier => "zone.identifier",
            SettingKey::Address => "zone.address",
            SettingKey::Zone(key) => key.path(),
            SettingKey::ServeTable => "serve",
            SettingKey::Serve(key) => key.path(),
            SettingKey::Status => "serve.status",
            SettingKey::Pools => "pool",
            SettingKey::PoolKind => "pool.kind",
            SettingKey::PoolLimit => "pool.limit",
            SettingKey::PoolStep => "pool.step",
            SettingKey::PoolBurst => "pool.burst",
            SettingKey::PoolNetwork => "pool.network",
        }
    }
}
