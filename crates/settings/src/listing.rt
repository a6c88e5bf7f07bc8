//! Writing settings.

ghost use Rattle.std.specs.Prelude.{◌≡◌, OnOk};
ghost use Rattle.std.specs.Io.KnownBytes.{Appends};
ghost use Rattle.std.specs.List.{flat_map, zip};
ghost use Rattle.settings.specs.Listing.{address_line, character_of, character_text, control_text};
ghost use Rattle.settings.specs.Listing.{default_mark, identifier_line, kind_lines, network_line};
ghost use Rattle.settings.specs.Listing.{number_line, pool_listing, serve_listing};
ghost use Rattle.settings.specs.Listing.{serve_number_line, settings_listing, status_line};
ghost use Rattle.settings.specs.Listing.{upper_digit, zone_listing, zone_number_line};

use crate::serve_key::ServeKey;
use crate::settings::Settings;
use pools::PoolSpec;
use ras_module::{Address, Name};
use std::io::{self, Write};
use zone_config::{ConfigParts, Key, Network};

/// What stands behind a number, which may be its key's default.
fn default_mark(is_default: bool) -> &'static str
    ensures { result.now ≡ default_mark is_default }
{
    if is_default { "  # the default" } else { "" }
}

fn write_number<W: Write>(path: &str, number: u64, default: u64, out: &mut W) -> io::Result<()>
    ensures { OnOk result (Appends (W.contents out.old) (W.contents out.new)
        (number_line path.now number default)) }
{
    writeln!(out, "{path} = {number}{}", default_mark(number == default))
}

/// The character with this code; U+FFFD if it has none.
fn character_of(code: u16) -> char
    ensures { result ≡ character_of code }
{
    match char::from_u32(u32::from(code)) {
        Some(character) => character,
        None => char::REPLACEMENT_CHARACTER,
    }
}

/// A digit of base 16: the last one of a number.
fn upper_digit(value: u16) -> u8
    ensures { result ≡ upper_digit value }
{
    b"0123456789ABCDEF"[usize::from(value % 16)]
}

/// Writes a control character of a TOML text.
fn write_control<W: Write>(code: u16, out: &mut W) -> io::Result<()>
    ensures { OnOk result (Appends (W.contents out.old) (W.contents out.new)
        (control_text code)) }
{
    out.write_all(b"\\u00")?;
    out.write_all(&[upper_digit(code / 16), upper_digit(code)])
}

/// Writes a character of a TOML text.
fn write_character<W: Write>(code: u16, out: &mut W) -> io::Result<()>
    ensures { OnOk result (Appends (W.contents out.old) (W.contents out.new)
        (character_text code)) }
{
    if code == 0x22 {
        return out.write_all(b"\\\"");
    }
    if code == 0x5C {
        return out.write_all(b"\\\\");
    }
    if code < 0x20 || code == 0x7F {
        return write_control(code, out);
    }
    write!(out, "{}", character_of(code))
}

fn write_characters<W: Write>(text: &[u16], out: &mut W) -> io::Result<()>
    ensures { OnOk result (Appends (W.contents out.old) (W.contents out.new)
        (flat_map character_text text.now)) }
{
    for code in text {
        write_character(*code, out)?;
    }
    Ok(())
}

fn write_identifier<W: Write>(identifier: &Name, out: &mut W) -> io::Result<()>
    ensures { OnOk result (Appends (W.contents out.old) (W.contents out.new)
        (identifier_line identifier.now)) }
{
    out.write_all(b"zone.identifier = \"")?;
    write_characters(identifier.as_slice(), out)?;
    out.write_all(b"\"\n")
}

fn write_address<W: Write>(path: &str, address: &Address, out: &mut W) -> io::Result<()>
    ensures { OnOk result (Appends (W.contents out.old) (W.contents out.new)
        (address_line path.now address.now)) }
{
    let [a, b, c, d] = address.ip;
    writeln!(out, "{path} = \"{a}.{b}.{c}.{d}:{}\"", address.port)
}

/// Writes the numbers of the zone under these keys.
fn write_zone_numbers<W: Write>(keys: &[Key], parts: &ConfigParts, out: &mut W) -> io::Result<()>
    ensures { OnOk result (Appends (W.contents out.old) (W.contents out.new)
        (flat_map (zone_number_line parts.now) keys.now)) }
{
    for key in keys {
        write_number(key.path(), key.get(parts), key.default(), out)?;
    }
    Ok(())
}

fn write_zone<W: Write>(parts: &ConfigParts, out: &mut W) -> io::Result<()>
    ensures { OnOk result (Appends (W.contents out.old) (W.contents out.new)
        (zone_listing parts.now)) }
{
    write_identifier(&parts.identifier, out)?;
    write_address("zone.address", &parts.address, out)?;
    write_zone_numbers(&Key::ALL, parts, out)
}

/// Writes the numbers of the server under these keys.
fn write_serve_numbers<W: Write>(
    keys: &[ServeKey],
    settings: &Settings,
    out: &mut W,
) -> io::Result<()>
    ensures { OnOk result (Appends (W.contents out.old) (W.contents out.new)
        (flat_map (serve_number_line settings.now) keys.now)) }
{
    for key in keys {
        write_number(key.path(), settings.get(*key), key.default(), out)?;
    }
    Ok(())
}

/// Writes where the status page is served, if it is.
fn write_status<W: Write>(status: &Option<Address>, out: &mut W) -> io::Result<()>
    ensures { OnOk result (Appends (W.contents out.old) (W.contents out.new)
        (status_line status.now)) }
{
    match status {
        Some(address) => write_address("serve.status", address, out),
        None => Ok(()),
    }
}

fn write_serve<W: Write>(settings: &Settings, out: &mut W) -> io::Result<()>
    ensures { OnOk result (Appends (W.contents out.old) (W.contents out.new)
        (serve_listing settings.now)) }
{
    write_serve_numbers(&ServeKey::ALL, settings, out)?;
    write_status(&settings.status, out)
}

fn write_kind<W: Write>(spec: &PoolSpec, out: &mut W) -> io::Result<()>
    ensures { OnOk result (Appends (W.contents out.old) (W.contents out.new)
        (kind_lines spec.now)) }
{
    match spec {
        PoolSpec::Fixed { limit } => writeln!(out, "kind = \"fixed\"\nlimit = {limit}"),
        PoolSpec::Step { limit, step } => {
            let step = step.get();
            writeln!(out, "kind = \"step\"\nlimit = {limit}\nstep = {step}")
        }
        PoolSpec::Paced { limit, burst } => {
            let burst = burst.get();
            writeln!(out, "kind = \"paced\"\nlimit = {limit}\nburst = {burst}")
        }
    }
}

fn write_network<W: Write>(network: &Option<Network>, out: &mut W) -> io::Result<()>
    ensures { OnOk result (Appends (W.contents out.old) (W.contents out.new)
        (network_line network.now)) }
{
    match network {
        Some(network) => {
            let [a, b, c, d] = network.ip;
            writeln!(out, "network = \"{a}.{b}.{c}.{d}/{}\"", network.bits)
        }
        None => Ok(()),
    }
}

fn write_pool<W: Write>(spec: &PoolSpec, network: &Option<Network>, out: &mut W) -> io::Result<()>
    ensures { OnOk result (Appends (W.contents out.old) (W.contents out.new)
        (pool_listing (spec.now, network.now))) }
{
    out.write_all(b"[[pool]]\n")?;
    write_kind(spec, out)?;
    write_network(network, out)
}

fn write_pools<W: Write>(
    specs: &[PoolSpec],
    networks: &[Option<Network>],
    out: &mut W,
) -> io::Result<()>
    ensures { OnOk result (Appends (W.contents out.old) (W.contents out.new)
        (flat_map pool_listing (zip specs.now networks.now))) }
{
    for (spec, network) in specs.iter().zip(networks) {
        write_pool(spec, network, out)?;
    }
    Ok(())
}

/// Writes settings as a TOML document that `read_settings` reads as the same settings: each key
/// with its path and its value, in order, and a comment behind each number that is its key's
/// default; then the pools. That it is read as the same settings is tested, and stated by no clause.
///
/// promise settings-are-written-exactly: What is written is each key with its value, once, and then
/// the pools (`settings_listing`).
pub fn write_settings<W: Write>(settings: &Settings, out: &mut W) -> io::Result<()>
    ensures { OnOk result (Appends (W.contents out.old) (W.contents out.new)
        (settings_listing settings.now)) }
{
    let parts = settings.config.parts();
    write_zone(parts, out)?;
    write_serve(settings, out)?;
    write_pools(settings.pools.as_slice(), parts.networks.as_slice(), out)
}
