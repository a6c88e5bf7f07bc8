//! Parts of texts.

ghost use Rattle.std.specs.Prelude.{◌≡◌, ◌++◌, OnOk};
ghost use Rattle.std.specs.Fmt.{decimal};
ghost use Rattle.std.specs.String.{string_bytes};
ghost use Rattle.status_page.specs.Texts.{address_text, json_text, key_text, units_of};

use escapes::json_string;
use itoa::Buffer;
use ras_module::{Address, Alias, CallKey};
use std::alloc::AllocError;

/// Writes a text, and a number behind it.
pub(crate) fn push_number(out: &mut String, before: &str, number: u64) -> Result<(), AllocError>
    ensures { OnOk result (string_bytes out.new
        ≡ string_bytes out.old ++ before.now ++ decimal number) }
{
    let mut buffer = Buffer::new();
    out.push_str(before)?;
    out.push_str(buffer.format(number))
}

/// Writes a text, and an address behind it, as in `10.0.0.1:1719`.
#[tactic(auto, unfolding(crate::specs::Texts::address_text))]
pub(crate) fn push_address(
    out: &mut String,
    before: &str,
    address: Address,
) -> Result<(), AllocError>
    ensures { OnOk result (string_bytes out.new
        ≡ string_bytes out.old ++ before.now ++ address_text address) }
{
    push_number(out, before, u64::from(address.ip[0]))?;
    push_number(out, ".", u64::from(address.ip[1]))?;
    push_number(out, ".", u64::from(address.ip[2]))?;
    push_number(out, ".", u64::from(address.ip[3]))?;
    push_number(out, ":", u64::from(address.port))?;
    Ok(())
}

/// Writes a text, and the key of a call behind it, in 32 digits of base 16.
pub(crate) fn push_key(out: &mut String, before: &str, key: CallKey) -> Result<(), AllocError>
    ensures { OnOk result (string_bytes out.new
        ≡ string_bytes out.old ++ before.now ++ key_text key) }
{
    let digits = hex::encode(*out.allocator(), key.octets)?;
    out.push_str(before)?;
    out.push_str(digits.as_str())
}

/// Writes a text, and characters of strangers behind it, as they stand in a string of JSON.
pub(crate) fn push_json(out: &mut String, before: &str, units: &[u16]) -> Result<(), AllocError>
    ensures { OnOk result (string_bytes out.new
        ≡ string_bytes out.old ++ before.now ++ json_text units.now) }
{
    out.push_str(before)?;
    json_string(out, units)
}

/// The characters of an alias.
pub(crate) fn units_of(alias: &Alias) -> &[u16]
    ensures { result.now ≡ units_of alias.now }
{
    match alias {
        Alias::Digits(digits) => digits.as_slice(),
        Alias::H323Id(id) => id.as_slice(),
    }
}
