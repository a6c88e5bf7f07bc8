//! Writing the lines of a zone.

ghost use Rattle.std.specs.Prelude.{◌≡◌, ◌++◌, OnOk, codes, encode_utf8, map};
ghost use Rattle.std.specs.Fmt.{decimal};
ghost use Rattle.std.specs.Io.KnownBytes.{Appends};
ghost use Rattle.std.specs.List.{zip};
ghost use Rattle.script.specs.EventLines.{pool_text};
ghost use Rattle.script.specs.Prints.{address_text, character_of, identifier_text};
ghost use Rattle.recording.specs.Zones.{network_text, pool_line_text, served_text};
ghost use Rattle.recording.specs.Zones.{setting_text, with_ends, zone_lines, zone_text};

use crate::recorded_zone::RecordedZone;
use pools::PoolSpec;
use ras_core::{ConfigParts, Network};
use ras_module::{Address, Name};
use std::io::{self, Write};
use zone_config::Key;

/// The character with this code; U+FFFD if it has none.
fn character_of(code: u16) -> char
    ensures { result ≡ character_of code }
{
    match char::from_u32(u32::from(code)) {
        Some(character) => character,
        None => char::REPLACEMENT_CHARACTER,
    }
}

fn write_name<W: Write>(name: &Name, out: &mut W) -> io::Result<()>
    ensures { OnOk result (Appends (W.contents out.old) (W.contents out.new)
        (identifier_text name.now)) }
{
    for code in name.as_slice() {
        write!(out, "{}", character_of(*code))?;
    }
    Ok(())
}

/// Writes `A.B.C.D:PORT`.
fn write_address<W: Write>(address: &Address, out: &mut W) -> io::Result<()>
    ensures { OnOk result (Appends (W.contents out.old) (W.contents out.new)
        (address_text address.now)) }
{
    let [a, b, c, d] = address.ip;
    write!(out, "{a}.{b}.{c}.{d}:{}", address.port)
}

/// Writes `A.B.C.D/BITS`.
fn write_network<W: Write>(network: &Network, out: &mut W) -> io::Result<()>
    ensures { OnOk result (Appends (W.contents out.old) (W.contents out.new)
        (network_text network.now)) }
{
    let [a, b, c, d] = network.ip;
    write!(out, "{a}.{b}.{c}.{d}/{}", network.bits)
}

/// Writes `zone NAME ADDRESS`.
fn write_zone_text<W: Write>(parts: &ConfigParts, out: &mut W) -> io::Result<()>
    ensures { OnOk result (Appends (W.contents out.old) (W.contents out.new)
        (zone_text parts.now)) }
{
    out.write_all(b"zone ")?;
    write_name(&parts.identifier, out)?;
    out.write_all(b" ")?;
    write_address(&parts.address, out)
}

/// Writes the line of a zone's name and address.
fn write_zone_line<W: Write>(parts: &ConfigParts, out: &mut W) -> io::Result<()>
    ensures { OnOk result (Appends (W.contents out.old) (W.contents out.new)
        (zone_text parts.now ++ codes "\n")) }
{
    write_zone_text(parts, out)?;
    out.write_all(b"\n")
}

/// Writes the line of a setting: `set KEY NUMBER`.
fn write_setting_line<W: Write>(key: Key, parts: &ConfigParts, out: &mut W) -> io::Result<()>
    ensures { OnOk result (Appends (W.contents out.old) (W.contents out.new)
        (setting_text parts.now key ++ codes "\n")) }
{
    writeln!(out, "set {} {}", key.name(), key.get(parts))
}

/// Writes the lines of settings, in the order of their keys.
fn write_settings<W: Write>(keys: &[Key], parts: &ConfigParts, out: &mut W) -> io::Result<()>
    ensures { OnOk result (Appends (W.contents out.old) (W.contents out.new)
        (with_ends (map (setting_text parts.now) keys.now))) }
{
    for key in keys {
        write_setting_line(*key, parts, out)?;
    }
    Ok(())
}

/// Writes a kind of pool with its numbers.
fn write_kind<W: Write>(pool: &PoolSpec, out: &mut W) -> io::Result<()>
    ensures { OnOk result (Appends (W.contents out.old) (W.contents out.new)
        (pool_text pool.now)) }
{
    match pool {
        PoolSpec::Fixed { limit } => write!(out, "fixed {limit}"),
        PoolSpec::Step { limit, step } => write!(out, "step {limit} {}", step.get()),
        PoolSpec::Paced { limit, burst } => write!(out, "paced {limit} {}", burst.get()),
    }
}

/// Writes ` for NETWORK`, if a pool serves one.
fn write_served<W: Write>(network: &Option<Network>, out: &mut W) -> io::Result<()>
    ensures { OnOk result (Appends (W.contents out.old) (W.contents out.new)
        (served_text network.now)) }
{
    match network {
        None => Ok(()),
        Some(network) => {
            out.write_all(b" for ")?;
            write_network(network, out)
        }
    }
}

/// Writes what stands in the line of a pool.
fn write_pool_text<W: Write>(
    pool: &PoolSpec,
    network: &Option<Network>,
    out: &mut W,
) -> io::Result<()>
    ensures { OnOk result (Appends (W.contents out.old) (W.contents out.new)
        (pool_line_text (pool.now, network.now))) }
{
    out.write_all(b"pool ")?;
    write_kind(pool, out)?;
    write_served(network, out)
}

/// Writes the line of a pool.
fn write_pool_line<W: Write>(
    pool: &PoolSpec,
    network: &Option<Network>,
    out: &mut W,
) -> io::Result<()>
    ensures { OnOk result (Appends (W.contents out.old) (W.contents out.new)
        (pool_line_text (pool.now, network.now) ++ codes "\n")) }
{
    write_pool_text(pool, network, out)?;
    out.write_all(b"\n")
}

/// Writes the lines of pools, each with the network that it serves.
fn write_pools<W: Write>(
    pools: &[PoolSpec],
    networks: &[Option<Network>],
    out: &mut W,
) -> io::Result<()>
    ensures { OnOk result (Appends (W.contents out.old) (W.contents out.new)
        (with_ends (map pool_line_text (zip pools.now networks.now)))) }
{
    for (pool, network) in pools.iter().zip(networks) {
        write_pool_line(pool, network, out)?;
    }
    Ok(())
}

/// Writes the lines of a zone, as a script has them: its name and its address, each setting, and
/// each pool.
pub fn write_zone_lines<W: Write>(zone: &RecordedZone, out: &mut W) -> io::Result<()>
    ensures { OnOk result (Appends (W.contents out.old) (W.contents out.new)
        (zone_lines zone.now)) }
{
    let parts = zone.config().parts();
    write_zone_line(parts, out)?;
    write_settings(&Key::ALL, parts, out)?;
    write_pools(zone.pools(), parts.networks.as_slice(), out)
}
