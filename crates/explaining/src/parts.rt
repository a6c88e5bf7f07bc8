//! Parts of the words.

ghost use Rattle.std.specs.Prelude.{◌≡◌, OnOk, codes};
ghost use Rattle.std.specs.String.{string_bytes};
ghost use Rattle.explaining.specs.Parts.{with_address, with_alias, with_aliases, with_each_alias};
ghost use Rattle.explaining.specs.Parts.{with_flag, with_key, with_number, with_optional_address};
ghost use Rattle.explaining.specs.Parts.{with_optional_number, with_optional_text, with_quoted};

use escapes::json_string;
use itoa::Buffer;
use ras_module::{Address, Alias, CallKey, EndpointId, Name, TimeToLive};
use std::alloc::AllocError;

/// Writes a text, and a number behind it.
pub(crate) fn push_number(out: &mut String, before: &str, number: u64) -> Result<(), AllocError>
    ensures { OnOk result (string_bytes out.new
        ≡ with_number (string_bytes out.old) before.now number) }
{
    let mut buffer = Buffer::new();
    out.push_str(before)?;
    out.push_str(buffer.format(number))
}

/// Writes a text, and an address behind it, as in `10.0.0.1:1719`.
fn push_address(out: &mut String, before: &str, address: Address) -> Result<(), AllocError>
    ensures { OnOk result (string_bytes out.new
        ≡ with_address (string_bytes out.old) before.now address) }
{
    push_number(out, before, u64::from(address.ip[0]))?;
    push_number(out, ".", u64::from(address.ip[1]))?;
    push_number(out, ".", u64::from(address.ip[2]))?;
    push_number(out, ".", u64::from(address.ip[3]))?;
    push_number(out, ":", u64::from(address.port))
}

/// The same, if there is an address.
pub(crate) fn push_optional_address(
    out: &mut String,
    before: &str,
    address: Option<Address>,
) -> Result<(), AllocError>
    ensures { OnOk result (string_bytes out.new
        ≡ with_optional_address (string_bytes out.old) before.now address) }
{
    match address {
        Some(address) => push_address(out, before, address),
        None => Ok(()),
    }
}

/// Writes a text that ends with a quote, characters of strangers behind it, as they stand in a
/// string of JSON, and a quote.
#[tactic(auto, unfolding(crate::specs::Parts::with_quoted))]
fn push_quoted(out: &mut String, before: &str, units: &[u16]) -> Result<(), AllocError>
    ensures { OnOk result (string_bytes out.new
        ≡ with_quoted (string_bytes out.old) before.now units.now) }
{
    out.push_str(before)?;
    json_string(out, units)?;
    out.push_str("\"")
}

/// Writes ` endpointIdentifier` with the identifier of an endpoint.
pub(crate) fn push_endpoint(out: &mut String, id: &EndpointId) -> Result<(), AllocError>
    ensures { OnOk result (string_bytes out.new
        ≡ with_quoted (string_bytes out.old) (codes ", endpointIdentifier \"") id.now) }
{
    push_quoted(out, ", endpointIdentifier \"", id.as_slice())
}

/// The same, if there is an identifier.
pub(crate) fn push_optional_endpoint(
    out: &mut String,
    id: &Option<EndpointId>,
) -> Result<(), AllocError>
    ensures { OnOk result (string_bytes out.new
        ≡ with_optional_text (string_bytes out.old) (codes ", endpointIdentifier \"") id.now) }
{
    match id {
        Some(id) => push_endpoint(out, id),
        None => Ok(()),
    }
}

/// Writes ` gatekeeperIdentifier` with the name of a gatekeeper, if there is one.
pub(crate) fn push_optional_gatekeeper(
    out: &mut String,
    name: &Option<Name>,
) -> Result<(), AllocError>
    ensures { OnOk result (string_bytes out.new
        ≡ with_optional_text (string_bytes out.old) (codes ", gatekeeperIdentifier \"") name.now) }
{
    match name {
        Some(name) => push_quoted(out, ", gatekeeperIdentifier \"", name.as_slice()),
        None => Ok(()),
    }
}

/// Writes an alias with its kind.
fn push_alias(out: &mut String, alias: &Alias) -> Result<(), AllocError>
    ensures { OnOk result (string_bytes out.new ≡ with_alias (string_bytes out.old) alias.now) }
{
    match alias {
        Alias::Digits(digits) => push_quoted(out, " dialledDigits \"", digits.as_slice()),
        Alias::H323Id(id) => push_quoted(out, " h323-ID \"", id.as_slice()),
    }
}

/// Writes aliases, in order.
fn push_each_alias(out: &mut String, aliases: &[Alias]) -> Result<(), AllocError>
    ensures { OnOk result (string_bytes out.new
        ≡ with_each_alias (string_bytes out.old) aliases.now) }
{
    for alias in aliases {
        push_alias(out, alias)?;
    }
    Ok(())
}

/// Writes a text, and aliases behind it, if there are any.
#[tactic(auto, unfolding(crate::specs::Parts::with_aliases))]
pub(crate) fn push_aliases(
    out: &mut String,
    before: &str,
    aliases: &[Alias],
) -> Result<(), AllocError>
    ensures { OnOk result (string_bytes out.new
        ≡ with_aliases (string_bytes out.old) before.now aliases.now) }
{
    if aliases.is_empty() {
        return Ok(());
    }
    out.push_str(before)?;
    push_each_alias(out, aliases)
}

/// Writes ` timeToLive` with the seconds, if they are given.
pub(crate) fn push_time_to_live(
    out: &mut String,
    time_to_live: Option<TimeToLive>,
) -> Result<(), AllocError>
    ensures { OnOk result (string_bytes out.new
        ≡ with_optional_number (string_bytes out.old) (codes ", timeToLive ") time_to_live) }
{
    match time_to_live {
        Some(seconds) => push_number(out, ", timeToLive ", u64::from(seconds.get())),
        None => Ok(()),
    }
}

/// Writes a text if this is so.
pub(crate) fn push_flag(out: &mut String, text: &str, is_so: bool) -> Result<(), AllocError>
    ensures { OnOk result (string_bytes out.new
        ≡ with_flag (string_bytes out.old) text.now is_so) }
{
    if is_so {
        return out.push_str(text);
    }
    Ok(())
}

/// Writes ` call` with the key of a call, in 32 digits of base 16.
pub(crate) fn push_key(out: &mut String, key: CallKey) -> Result<(), AllocError>
    ensures { OnOk result (string_bytes out.new ≡ with_key (string_bytes out.old) key) }
{
    let digits = hex::encode(*out.allocator(), key.octets)?;
    out.push_str(", call ")?;
    out.push_str(digits.as_str())
}
