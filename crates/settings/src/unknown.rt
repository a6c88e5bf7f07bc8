//! The keys of a text that are passed over.

ghost use Rattle.std.specs.Prelude.{◌≡◌, ◌==◌, ◌++◌, codes, option_map, string_bytes, All};
ghost use Rattle.std.specs.Prelude.{IfErr, IfOk, OnOk};
ghost use Rattle.std.specs.List.{list_any};
ghost use Rattle.std.specs.Str.{bytes_eq};
ghost use Rattle.toml.specs.Data.{get_member};
ghost use Rattle.toml.specs.View.{items_view, table_view, view};
ghost use Rattle.settings.specs.Nearest.{IsHint};
ghost use Rattle.settings.specs.Places.{TellsPlace};
ghost use Rattle.settings.specs.SettingKeys.{path_of};
ghost use Rattle.settings.specs.Unknown.{is_known, paths_of, unknown_at, unknown_in, unknown_key};
ghost use Rattle.settings.specs.Unknown.{unknown_in_pools, unknown_of_pools, unknown_paths};
ghost use Rattle.settings.specs.Unknown.{unknown_of, unknown_under, IsUnread};

use crate::fault::{SettingsFault, SyntaxError};
use crate::setting_key::SettingKey;
use crate::unknown_key::UnknownKey;
use crate::value::member;
use std::alloc::{AllocError, Global};
use toml::{Table, Value};

/// Whether one of these keys has this path.
fn is_path(keys: &[SettingKey], path: &[u8]) -> bool
    ensures { result ≡ list_any (λ key. bytes_eq path.now (path_of key)) keys.now }
{
    keys.iter().any(|key| path == key.path().as_bytes())
}

fn has_dot(name: &[u8]) -> bool
    ensures { result ≡ list_any (λ c. c == 46) name.now }
{
    name.iter().any(|c| *c == b'.')
}

/// Whether a key is known: no known key has a dot in its name, which a quoted one may have.
#[tactic(auto, unfolding(crate::specs::Unknown::is_known))]
fn is_known(name: &str, path: &str) -> bool
    ensures { result ≡ is_known name.now path.now }
{
    !has_dot(name.as_bytes()) && is_path(&SettingKey::ALL, path.as_bytes())
}

/// The path of a key: the beginning for its table, and its name.
fn path_in(alloc: Global, beginning: &str, name: &str) -> Result<String, AllocError>
    ensures { IfOk result (λ path. string_bytes path ≡ beginning.now ++ name.now) }
{
    let mut path = String::from_str(alloc, beginning)?;
    path.push_str(name)?;
    Ok(path)
}

/// Adds a key to these, if it isn't known.
fn add_key(
    alloc: Global,
    beginning: &str,
    name: &str,
    unknown: &mut Vec<UnknownKey>,
) -> Result<(), AllocError>
    ensures { OnOk result (paths_of unknown.new.items
        ≡ paths_of unknown.old.items ++ unknown_key beginning.now name.now) }
{
    let path = path_in(alloc, beginning, name)?;
    if is_known(name, path.as_str()) {
        return Ok(());
    }
    let key = UnknownKey::new(alloc, path)?;
    unknown.push(key).map_err(AllocError::from)?;
    Ok(())
}

/// Adds the unknown keys of a table, whose keys' paths begin so.
fn add_table(
    alloc: Global,
    beginning: &str,
    table: &Table,
    unknown: &mut Vec<UnknownKey>,
) -> Result<(), AllocError>
    ensures { OnOk result (paths_of unknown.new.items
        ≡ paths_of unknown.old.items ++ unknown_in beginning.now (table_view table.now)) }
{
    for (name, _value) in table.iter() {
        add_key(alloc, beginning, name.as_str(), unknown)?;
    }
    Ok(())
}

/// Adds the unknown keys of a value, if it is a table.
fn add_value(
    alloc: Global,
    beginning: &str,
    value: &Value,
    unknown: &mut Vec<UnknownKey>,
) -> Result<(), AllocError>
    ensures { OnOk result (paths_of unknown.new.items
        ≡ paths_of unknown.old.items ++ unknown_under beginning.now (view value.now)) }
{
    match value.as_table() {
        Some(table) => add_table(alloc, beginning, table, unknown),
        None => Ok(()),
    }
}

/// Adds the unknown keys of the table under this name, if there is one.
fn add_under(
    alloc: Global,
    document: &Table,
    name: &str,
    beginning: &str,
    unknown: &mut Vec<UnknownKey>,
) -> Result<(), AllocError>
    ensures { OnOk result (paths_of unknown.new.items ≡ paths_of unknown.old.items
        ++ unknown_at beginning.now (get_member name.now (table_view document.now))) }
{
    match member(document, name) {
        Some(value) => add_value(alloc, beginning, value, unknown),
        None => Ok(()),
    }
}

/// Adds the unknown keys of these pools, one after the other.
fn add_pools(
    alloc: Global,
    pools: &[Value],
    unknown: &mut Vec<UnknownKey>,
) -> Result<(), AllocError>
    ensures { OnOk result (paths_of unknown.new.items
        ≡ paths_of unknown.old.items ++ unknown_of_pools (items_view pools.now)) }
{
    for pool in pools {
        add_value(alloc, "pool.", pool, unknown)?;
    }
    Ok(())
}

/// Adds the unknown keys of the pools of a document.
fn add_all_pools(
    alloc: Global,
    document: &Table,
    unknown: &mut Vec<UnknownKey>,
) -> Result<(), AllocError>
    ensures { OnOk result (paths_of unknown.new.items ≡ paths_of unknown.old.items
        ++ unknown_in_pools (get_member (codes "pool") (table_view document.now))) }
{
    match member(document, "pool") {
        Some(value) => match value.as_array() {
            Some(pools) => add_pools(alloc, pools, unknown),
            None => Ok(()),
        },
        None => Ok(()),
    }
}

#[tactic(auto, unfolding(crate::specs::Unknown::unknown_paths))]
fn unknown_in(alloc: Global, document: &Table) -> Result<Vec<UnknownKey>, AllocError>
    ensures { IfOk result (λ unknown.
        paths_of unknown.items ≡ unknown_paths (table_view document.now)) }
{
    let mut unknown = Vec::new(alloc);
    add_table(alloc, "", document, &mut unknown)?;
    add_under(alloc, document, "zone", "zone.", &mut unknown)?;
    add_under(alloc, document, "serve", "serve.", &mut unknown)?;
    add_all_pools(alloc, document, &mut unknown)?;
    Ok(unknown)
}

/// The keys of a text that `read_settings` passes over since they aren't known, for a warning:
/// first those outside the tables, then those of `[zone]`, of `[serve]` and of each `[[pool]]`;
/// within a table by the octets of their names, since a TOML table has no order. It returns Syntax
/// if the text is no TOML document, Memory if memory is refused, and no other fault.
///
/// promise unknown-keys-are-listed: The keys that are passed over are listed, exactly these, each
/// with the known key that needs the fewest changes of letters, if two or fewer do
/// (`unknown_paths`, `IsHint`).
pub fn unknown_keys(alloc: Global, text: &str) -> Result<Vec<UnknownKey>, SettingsFault>
    ensures ok { IfOk result (λ unknown.
        Some (paths_of unknown.items) ≡ unknown_of text.now) }
    ensures hints { IfOk result (λ unknown. All (λ key. ∥ IsHint (string_bytes key.path)
        (option_map (λ name. name.now) key.nearest) ∥₁) unknown.items) }
    ensures err { IfErr result (IsUnread text.now) }
    ensures place { IfErr result (TellsPlace text.now) }
{
    match toml::table_from_str(alloc, text) {
        Ok(document) => match unknown_in(alloc, &document) {
            Ok(unknown) => Ok(unknown),
            Err(AllocError) => Err(SettingsFault::Memory),
        },
        Err(error) => Err(if error.is_memory() {
            SettingsFault::Memory
        } else {
            SettingsFault::Syntax(SyntaxError::new(text, error))
        }),
    }
}
