//! Writing the lines of events.

ghost use Rattle.std.specs.Prelude.{◌≡◌, ◌+◌, ◌++◌, ◌≤◌, OnOk, [], codes, length};
ghost use Rattle.std.specs.Fmt.{decimal};
ghost use Rattle.std.specs.Io.KnownBytes.{Appends};
ghost use Rattle.hex.specs.Hex.{encode_upper};
ghost use Rattle.script.specs.Prints.{address_text};
ghost use Rattle.script.specs.EventLines.{event_line, pool_text};

use crate::event::{Replacement, ScriptEvent};
use crate::print::write_hex;
use crate::short_text::ShortText;
use pools::PoolSpec;
use ras_core::{Event, Moment};
use ras_module::Address;
use std::io;
use std::io::Write;

/// Puts a kind of pool with its numbers before a text.
fn put_pool(pool: &PoolSpec, text: &mut ShortText)
    requires { length text.old + 47 ≤ 352 }
    ensures text { text.new ≡ pool_text pool.now ++ text.old }
    ensures len { length text.new ≤ length text.old + 47 }
{
    match pool {
        PoolSpec::Fixed { limit } => {
            text.put_number(*limit);
            text.put(b"fixed ");
        }
        PoolSpec::Step { limit, step } => {
            text.put_number(u64::from(step.get()));
            text.put_mark(b' ');
            text.put_number(*limit);
            text.put(b"step ");
        }
        PoolSpec::Paced { limit, burst } => {
            text.put_number(u64::from(burst.get()));
            text.put_mark(b' ');
            text.put_number(*limit);
            text.put(b"paced ");
        }
    }
}

/// Puts the line of a replacement before a text.
fn put_replacement(replacement: &Replacement, text: &mut ShortText)
    requires { text.old ≡ [] }
    ensures { text.new ≡ codes "replace " ++ decimal replacement.now.moment ++ codes " "
        ++ decimal replacement.now.pool ++ codes " " ++ pool_text replacement.now.fresh
        ++ codes "\n" }
{
    text.put_mark(b'\n');
    put_pool(&replacement.fresh, text);
    text.put_mark(b' ');
    text.put_number(replacement.pool as u64);
    text.put_mark(b' ');
    text.put_number(replacement.moment.milliseconds());
    text.put(b"replace ");
}

/// Puts what stands before the octets of a datagram before a text.
fn put_source(source: &Address, moment: Moment, text: &mut ShortText)
    requires { text.old ≡ [] }
    ensures { text.new ≡ codes "at " ++ decimal moment ++ codes " from "
        ++ address_text source.now ++ codes " " }
{
    text.put_mark(b' ');
    text.put_address(source);
    text.put(b" from ");
    text.put_number(moment.milliseconds());
    text.put(b"at ");
}

/// Writes what stands before the octets of a datagram.
fn write_source<W: Write>(source: &Address, moment: Moment, out: &mut W) -> io::Result<()>
    ensures { OnOk result (Appends (W.contents out.old) (W.contents out.new)
        (codes "at " ++ decimal moment ++ codes " from " ++ address_text source.now
        ++ codes " ")) }
{
    let mut text = ShortText::new();
    put_source(source, moment, &mut text);
    out.write_all(text.as_slice())
}

fn write_datagram<W: Write>(
    source: &Address,
    octets: &[u8],
    moment: Moment,
    out: &mut W,
) -> io::Result<()>
    ensures { OnOk result (Appends (W.contents out.old) (W.contents out.new)
        (codes "at " ++ decimal moment ++ codes " from " ++ address_text source.now ++ codes " "
        ++ encode_upper octets.now ++ codes "\n")) }
{
    write_source(source, moment, out)?;
    write_hex(octets, out)?;
    out.write_all(b"\n")
}

fn write_turn<W: Write>(moment: Moment, out: &mut W) -> io::Result<()>
    ensures { OnOk result (Appends (W.contents out.old) (W.contents out.new)
        (codes "turn " ++ decimal moment ++ codes "\n")) }
{
    let mut text = ShortText::new();
    text.put_mark(b'\n');
    text.put_number(moment.milliseconds());
    text.put(b"turn ");
    out.write_all(text.as_slice())
}

fn write_replacement<W: Write>(replacement: &Replacement, out: &mut W) -> io::Result<()>
    ensures { OnOk result (Appends (W.contents out.old) (W.contents out.new)
        (event_line (ScriptEvent.Replace replacement.now))) }
{
    let mut text = ShortText::new();
    put_replacement(replacement, &mut text);
    out.write_all(text.as_slice())
}

/// Writes the line of an event, as a script has it.
///
/// promise event-lines-are-written: An event is written as its line exactly (`event_line`).
pub fn write_event<W: Write>(event: &ScriptEvent, out: &mut W) -> io::Result<()>
    ensures { OnOk result (Appends (W.contents out.old) (W.contents out.new)
        (event_line event.now)) }
{
    match event {
        ScriptEvent::Event(Event::Datagram(source, bytes, moment)) => {
            write_datagram(source, bytes.as_slice(), *moment, out)
        }
        ScriptEvent::Event(Event::Turn(moment)) => write_turn(*moment, out),
        ScriptEvent::Replace(replacement) => write_replacement(replacement, out),
    }
}
