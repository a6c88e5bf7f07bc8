//! The table `[zone]`.

ghost use Rattle.std.specs.Prelude.{◌≡◌, [], codes, true, IfOk};
ghost use Rattle.toml.specs.Data.{get_member};
ghost use Rattle.toml.specs.View.{table_view, view};
ghost use Rattle.zone_config.specs.Defaults.{default_parts};
ghost use Rattle.zone_config.specs.Keys.{takes};
ghost use Rattle.value_texts.specs.Texts as texts;
ghost use Rattle.settings.specs.declared.setting_key.SettingKey.TheVariants.{Address, Identifier};
ghost use Rattle.settings.specs.Ranges.{HasNumbersInRange};
ghost use Rattle.settings.specs.Values.{required_text, text_in};
ghost use Rattle.settings.specs.Zones.{with_numbers, zone_number, zone_of};

use crate::fault::Refusal;
use crate::setting_key::SettingKey;
use crate::value::{address_in, member, number_or};
use ras_module::Name;
use std::alloc::Global;
use toml::{Table, Value};
use value_texts::name_of;
use zone_config::{ConfigParts, Key, Networks};

fn identifier_in(value: &Value) -> Result<Name, Refusal>
    ensures { result ≡ text_in Identifier texts.name_of (view value.now) }
{
    match value.as_str() {
        Some(text) => {
            name_of(text.as_bytes()).ok_or(Refusal::OutOfRange(SettingKey::Identifier))
        }
        None => Err(Refusal::WrongKind(SettingKey::Identifier)),
    }
}

fn identifier_of(zone: &Table) -> Result<Name, Refusal>
    ensures { result ≡ required_text Identifier texts.name_of
        (get_member (codes "identifier") (table_view zone.now)) }
{
    match member(zone, "identifier") {
        Some(value) => identifier_in(value),
        None => Err(Refusal::Missing(SettingKey::Identifier)),
    }
}

fn ras_address_of(zone: &Table) -> Result<ras_module::Address, Refusal>
    ensures { result ≡ required_text Address texts.address_of
        (get_member (codes "address") (table_view zone.now)) }
{
    match member(zone, "address") {
        Some(value) => address_in(SettingKey::Address, value),
        None => Err(Refusal::Missing(SettingKey::Address)),
    }
}

fn zone_number(zone: &Table, key: Key) -> Result<u64, Refusal>
    ensures value { result ≡ zone_number (table_view zone.now) key }
    ensures range { IfOk result (λ number. takes key number ≡ true) }
{
    let (least, most) = (key.least(), key.most());
    let name = SettingKey::Zone(key);
    number_or(zone, key.name(), name, least, most, key.default())
}

/// The settings with the numbers that stand under these keys.
fn with_numbers(zone: &Table, keys: &[Key], mut parts: ConfigParts) -> Result<ConfigParts, Refusal>
    requires ranges { HasNumbersInRange parts }
    ensures value { result ≡ with_numbers (table_view zone.now) keys.now parts }
    ensures ranges { IfOk result HasNumbersInRange }
{
    for key in keys {
        match zone_number(zone, *key) {
            Ok(number) => key.set(&mut parts, number),
            Err(refusal) => return Err(refusal),
        }
    }
    Ok(parts)
}

/// The settings of a zone in which no number is set, and that has no pools yet.
fn unset(alloc: Global, identifier: Name, address: ras_module::Address) -> ConfigParts
    ensures value { result ≡ default_parts identifier address [] }
    ensures ranges { HasNumbersInRange result }
{
    ConfigParts::new(identifier, address, Networks::from_vec(Vec::new(alloc)))
}

/// What is set for the zone, of which no pools are known yet.
#[tactic(auto, unfolding(crate::specs::Zones::zone_of))]
pub(crate) fn zone_of(alloc: Global, zone: &Table) -> Result<ConfigParts, Refusal>
    ensures value { result ≡ zone_of (table_view zone.now) }
    ensures ranges { IfOk result HasNumbersInRange }
{
    let identifier = identifier_of(zone)?;
    let address = ras_address_of(zone)?;
    with_numbers(zone, &Key::ALL, unset(alloc, identifier, address))
}
