//! What is set for the program.

ghost use Rattle.std.specs.Prelude.{◌≡◌, ◌≢◌, ◌≤◌, length, false, IfErr, IfOk, IfSome};
ghost use Rattle.std.specs.List.{list_any};
ghost use Rattle.toml.specs.View.{table_view};
ghost use Rattle.zone_config.specs.Networks.{is_too_long};
ghost use Rattle.zone_config.specs.Ranges.{IsConfig};
ghost use Rattle.settings.specs.Places.{TellsPlace};
ghost use Rattle.settings.specs.Ranges.{HasNumbersInRange};
ghost use Rattle.settings.specs.ServeTables.{AreInRange};
ghost use Rattle.settings.specs.Settings.{AreSettings, config_with, IsAnswer, settings_in};
ghost use Rattle.settings.specs.Settings.{serve_number_in, settings_of, settings_with, zone_in};

use crate::fault::{Refusal, SettingsFault, SyntaxError, fault_of};
use crate::pool::{PoolTable, networks_of, pools_of, specs_of};
use crate::serve::{ServeParts, serve_of};
use crate::serve_key::ServeKey;
use crate::setting_key::SettingKey;
use crate::value::member;
use crate::zone::zone_of;
use pools::PoolSpecs;
use ras_module::Address;
use std::alloc::Global;
use toml::Table;
use zone_config::{Config, ConfigFault, ConfigParts, Networks};

/// What is set for the program, each number within its range.
#[derive(Drop)]
pub struct Settings {
    /// What is set for the zone.
    pub config: Config,
    /// What pools are to be made, one for each network of the zone.
    pub pools: PoolSpecs,
    /// How many threads receive datagrams: 1 to 15.
    pub receivers: usize,
    /// How many replies of one of them may wait to be sent: 1 to 4096.
    pub ring: usize,
    /// After how many failed receives in a row a thread stops: 1 to 1000.
    pub faults: u64,
    /// How long it is from one look at what is due to the next, in milliseconds: 1 to 60000.
    pub tick: u64,
    /// How many octets of datagrams that aren't received yet the system is asked to hold: 1 to
    /// 1073741823, or 0 for as many as it holds by itself.
    pub buffer: u64,
    /// Where the status page is served; None if it isn't.
    pub status: Option<Address>,
}

impl Settings {
    /// The number of a key of the server.
    pub fn get(&self, key: ServeKey) -> u64
        ensures { result ≡ serve_number_in self.now key }
    {
        match key {
            ServeKey::Receivers => self.receivers as u64,
            ServeKey::Ring => self.ring as u64,
            ServeKey::Faults => self.faults,
            ServeKey::Tick => self.tick,
            ServeKey::Buffer => self.buffer,
        }
    }
}

fn zone_in(alloc: Global, document: &Table) -> Result<ConfigParts, Refusal>
    ensures value { result ≡ zone_in (table_view document.now) }
    ensures ranges { IfOk result HasNumbersInRange }
{
    match member(document, "zone") {
        Some(value) => match value.as_table() {
            Some(zone) => zone_of(alloc, zone),
            None => Err(Refusal::WrongKind(SettingKey::ZoneTable)),
        },
        None => Err(Refusal::Missing(SettingKey::ZoneTable)),
    }
}

/// The configuration of these parts and networks; None if the last network is there.
fn config_with(mut parts: ConfigParts, networks: Networks) -> Option<Config>
    requires ranges { HasNumbersInRange parts }
    requires bits { list_any is_too_long networks ≡ false }
    ensures value { result ≡ config_with parts networks }
    ensures ranges { IfSome result IsConfig }
{
    parts.networks = networks;
    match Config::new(parts) {
        Ok(config) => Some(config),
        Err(ConfigFault::NoDefaultPool) => None,
        Err(ConfigFault::OutOfRange(_)) => unreachable!(),
    }
}

fn settings_with(
    alloc: Global,
    parts: ConfigParts,
    serve: ServeParts,
    pools: &[PoolTable],
) -> Result<Settings, Refusal>
    requires zone { HasNumbersInRange parts }
    requires serve { AreInRange serve }
    requires pools { length pools.now ≤ 16 }
    ensures ok { IfOk result (λ settings. settings_with parts serve pools.now ≡ Ok settings) }
    ensures err { IfErr result (λ refusal. refusal ≢ Refusal.Memory
        → settings_with parts serve pools.now ≡ Err refusal) }
    ensures ranges { IfOk result AreSettings }
{
    let networks = networks_of(alloc, pools)?;
    let specs = specs_of(alloc, pools)?;
    let Some(config) = config_with(parts, networks) else {
        return Err(Refusal::NoDefaultPool);
    };
    Ok(Settings {
        config,
        pools: specs,
        receivers: serve.receivers as usize,
        ring: serve.ring as usize,
        faults: serve.faults,
        tick: serve.tick,
        buffer: serve.buffer,
        status: serve.status,
    })
}

/// What a document sets.
#[tactic(auto, unfolding(crate::specs::Settings::settings_in))]
fn settings_in(alloc: Global, document: &Table) -> Result<Settings, Refusal>
    ensures ok { IfOk result (λ settings. settings_in (table_view document.now) ≡ Ok settings) }
    ensures err { IfErr result (λ refusal. refusal ≢ Refusal.Memory
        → settings_in (table_view document.now) ≡ Err refusal) }
    ensures ranges { IfOk result AreSettings }
{
    let parts = zone_in(alloc, document)?;
    let serve = serve_of(document)?;
    let pools = pools_of(alloc, document)?;
    settings_with(alloc, parts, serve, &pools)
}

/// The settings that a TOML document writes (`examples/gatekeeper.toml` shows each key, with its
/// meaning, its range and its default). Keys that aren't known are passed over. A fault names the
/// first key that fails, in the order of that file: those of `[zone]`, then of `[serve]`, then of
/// each `[[pool]]`; the settings are refused as a whole.
///
/// promise settings-files-are-read-exactly: A file is accepted if and only if it is TOML whose keys
/// pass; else the first fault is told. Want of memory is left aside (`settings_of`).
/// promise syntax-faults-tell-their-place: If a text is no TOML document, the fault tells the line
/// and the character at which it is refused (`TellsPlace`).
pub fn read_settings(alloc: Global, text: &str) -> Result<Settings, SettingsFault>
    ensures answer { IsAnswer (settings_of text.now) result }
    ensures ranges { IfOk result AreSettings }
    ensures place { IfErr result (TellsPlace text.now) }
{
    match toml::table_from_str(alloc, text) {
        Ok(document) => match settings_in(alloc, &document) {
            Ok(settings) => Ok(settings),
            Err(refusal) => Err(fault_of(refusal)),
        },
        Err(error) => Err(if error.is_memory() {
            SettingsFault::Memory
        } else {
            SettingsFault::Syntax(SyntaxError::new(text, error))
        }),
    }
}
