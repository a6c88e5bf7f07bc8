//! The values that stand under the keys of a table.

ghost use Rattle.std.specs.Prelude.{◌≡◌, ◌≤◌, IfOk, option_map};
ghost use Rattle.toml.specs.Data.{get_member};
ghost use Rattle.toml.specs.View.{table_view, view};
ghost use Rattle.settings.specs.Values.{in_range, number_in, number_or, required_number};
ghost use Rattle.settings.specs.Values.{text_in, whole_number};
ghost use Rattle.value_texts.specs.Texts as texts;

use crate::fault::Refusal;
use crate::setting_key::SettingKey;
use ras_module::Address;
use toml::{Table, Value};
use value_texts::address_of;

/// What stands under a name in a table.
pub(crate) fn member<'a>(table: &'a Table, name: &str) -> Option<&'a Value>
    ensures { option_map (λ v. view v.now) result ≡ get_member name.now (table_view table.now) }
{
    table.get(name)
}

/// This whole number, if it lies from `least` to `most`.
fn whole_number(key: SettingKey, least: u64, most: u64, number: Option<i64>) -> Result<u64, Refusal>
    ensures value { result ≡ whole_number key least most number }
    ensures range { IfOk result (λ n. (least ≤ n) × (n ≤ most)) }
{
    let Some(number) = number else {
        return Err(Refusal::WrongKind(key));
    };
    if number < 0 {
        return Err(Refusal::OutOfRange(key));
    }
    let number = number as u64;
    if least <= number && number <= most {
        Ok(number)
    } else {
        Err(Refusal::OutOfRange(key))
    }
}

/// The whole number that this value is, if it lies from `least` to `most`.
pub(crate) fn number_in(
    key: SettingKey,
    least: u64,
    most: u64,
    value: &Value,
) -> Result<u64, Refusal>
    ensures value { result ≡ number_in key least most (view value.now) }
    ensures range { IfOk result (λ n. (least ≤ n) × (n ≤ most)) }
{
    whole_number(key, least, most, value.as_integer())
}

/// The whole number that stands under a name, which has to be there.
pub(crate) fn required_number(
    table: &Table,
    name: &str,
    key: SettingKey,
    least: u64,
    most: u64,
) -> Result<u64, Refusal>
    ensures value { result
        ≡ required_number key least most (get_member name.now (table_view table.now)) }
    ensures range { IfOk result (λ n. (least ≤ n) × (n ≤ most)) }
{
    match member(table, name) {
        Some(value) => number_in(key, least, most, value),
        None => Err(Refusal::Missing(key)),
    }
}

/// The whole number that stands under a name, or the default if nothing stands there.
pub(crate) fn number_or(
    table: &Table,
    name: &str,
    key: SettingKey,
    least: u64,
    most: u64,
    default: u64,
) -> Result<u64, Refusal>
    ensures value { result
        ≡ number_or key least most default (get_member name.now (table_view table.now)) }
    ensures range { least ≤ default → default ≤ most
        → IfOk result (λ n. (least ≤ n) × (n ≤ most)) }
{
    match member(table, name) {
        Some(value) => number_in(key, least, most, value),
        None => Ok(default),
    }
}

/// The address that this value is.
pub(crate) fn address_in(key: SettingKey, value: &Value) -> Result<Address, Refusal>
    ensures { result ≡ text_in key texts.address_of (view value.now) }
{
    match value.as_str() {
        Some(text) => in_range(key, address_of(text.as_bytes())),
        None => Err(Refusal::WrongKind(key)),
    }
}

/// The address that a text is, if it is one.
fn in_range(key: SettingKey, address: Option<Address>) -> Result<Address, Refusal>
    ensures { result ≡ in_range key address }
{
    match address {
        Some(address) => Ok(address),
        None => Err(Refusal::OutOfRange(key)),
    }
}
