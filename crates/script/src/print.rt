//! Printing outcomes.

ghost use Rattle.std.specs.Prelude.{◌≡◌, ◌+◌, ◌++◌, ◌≤◌, IsTrue, OnOk, codes, length, []};
ghost use Rattle.std.specs.Fmt.{decimal};
ghost use Rattle.std.specs.Io.KnownBytes.{Appends};
ghost use Rattle.hex.specs.Hex.{encode_upper};
ghost use Rattle.script.specs.Prints.{character_of, identifier_text, cause_text, item_text};
ghost use Rattle.script.specs.Prints.{note_text, answer_text, dropped_text, address_text};
ghost use Rattle.script.specs.Prints.{output_text, outcome_line, refusal_line};

use crate::hex_digits::put_digits;
use crate::short_text::ShortText;
use pools::{Lend, ReplaceFault};
use ras_core::{Datagram, DueItem, IgnoredCause, Note, Outcome};
use ras_module::{Address, EndpointId};
use std::io;
use std::io::Write;

/// The octets whose digits are written in one piece.
const OCTETS_AT_ONCE: usize = 64;

/// The character with this code; U+FFFD if it has none.
fn character_of(code: u16) -> char
    ensures { result ≡ character_of code }
{
    match char::from_u32(u32::from(code)) {
        Some(character) => character,
        None => char::REPLACEMENT_CHARACTER,
    }
}

/// Writes a number.
fn write_number<W: Write>(number: u64, out: &mut W) -> io::Result<()>
    ensures { OnOk result (Appends (W.contents out.old) (W.contents out.new) (decimal number)) }
{
    let mut text = ShortText::new();
    text.put_number(number);
    out.write_all(text.as_slice())
}

/// Writes a text, and a number behind it.
fn write_named<W: Write>(name: &[u8], number: u64, out: &mut W) -> io::Result<()>
    ensures { OnOk result (Appends (W.contents out.old) (W.contents out.new)
        (name.now ++ decimal number)) }
{
    out.write_all(name)?;
    write_number(number, out)
}

fn write_identifier<W: Write>(id: &EndpointId, out: &mut W) -> io::Result<()>
    ensures { OnOk result (Appends (W.contents out.old) (W.contents out.new)
        (identifier_text id.now)) }
{
    for code in id.as_slice() {
        write!(out, "{}", character_of(*code))?;
    }
    Ok(())
}

fn cause_text(cause: IgnoredCause) -> &'static str
    ensures { result.now ≡ cause_text cause }
{
    match cause {
        IgnoredCause::TooLong => "too-long",
        IgnoredCause::Unreadable => "unreadable",
        IgnoredCause::NotServed => "not-served",
        IgnoredCause::Busy => "busy",
        IgnoredCause::UnknownEndpoint => "unknown-endpoint",
    }
}

fn write_item<W: Write>(item: &DueItem, out: &mut W) -> io::Result<()>
    ensures { OnOk result (Appends (W.contents out.old) (W.contents out.new)
        (item_text item.now)) }
{
    match item {
        DueItem::RegistrationOver(id) => {
            out.write_all(b"registration-over ")?;
            write_identifier(id, out)
        }
        DueItem::Interrogate(id) => {
            out.write_all(b"interrogate ")?;
            write_identifier(id, out)
        }
        DueItem::Silent(id) => {
            out.write_all(b"silent ")?;
            write_identifier(id, out)
        }
        DueItem::Retry(born) => write_named(b"retry ", *born, out),
        DueItem::KeptOver(born) => write_named(b"kept-over ", *born, out),
        DueItem::PoolTurn => out.write_all(b"pool-turn"),
    }
}

fn write_note<W: Write>(note: &Note, out: &mut W) -> io::Result<()>
    ensures { OnOk result (Appends (W.contents out.old) (W.contents out.new)
        (note_text note.now)) }
{
    match note {
        Note::Served => out.write_all(b"served"),
        Note::Kept => out.write_all(b"kept"),
        Note::Ignored(cause) => write!(out, "ignored {}", cause_text(*cause)),
        Note::Done(item) => {
            out.write_all(b"done ")?;
            write_item(item, out)
        }
        Note::Idle => out.write_all(b"idle"),
        Note::Replaced(pool) => write_named(b"replaced ", *pool as u64, out),
    }
}

/// Writes the digits of at most 64 octets.
fn write_digits<W: Write>(octets: &[u8], out: &mut W) -> io::Result<()>
    requires { length octets.now ≤ 64 }
    ensures { OnOk result (Appends (W.contents out.old) (W.contents out.new)
        (encode_upper octets.now)) }
{
    let mut room = [0u8; 2 * OCTETS_AT_ONCE];
    let digits = &mut room[..2 * octets.len()];
    put_digits(octets, digits);
    out.write_all(digits)
}

pub(crate) fn write_hex<W: Write>(octets: &[u8], out: &mut W) -> io::Result<()>
    ensures { OnOk result (Appends (W.contents out.old) (W.contents out.new)
        (encode_upper octets.now)) }
{
    let mut rest = octets;
    while !rest.is_empty() {
        let (some, others) = rest.split_at(rest.len().min(OCTETS_AT_ONCE));
        write_digits(some, out)?;
        rest = others;
    }
    Ok(())
}

/// Puts the answer of a pool before a text.
fn put_answer(answer: &Option<Lend>, text: &mut ShortText)
    requires { length text.old + 26 ≤ 352 }
    ensures text { text.new ≡ answer_text answer.now ++ text.old }
    ensures len { length text.new ≤ length text.old + 26 }
{
    match answer {
        None => {}
        Some(Lend::Lent(units)) => {
            text.put_number(*units);
            text.put(b" lent ");
        }
        Some(Lend::Refused) => text.put(b" refused"),
        Some(Lend::Wait) => text.put(b" wait"),
    }
}

/// Puts the birth of the entry that was dropped before a text.
fn put_dropped(dropped: Option<u64>, text: &mut ShortText)
    requires { length text.old + 29 ≤ 352 }
    ensures text { text.new ≡ dropped_text dropped ++ text.old }
    ensures len { length text.new ≤ length text.old + 29 }
{
    match dropped {
        None => {}
        Some(born) => {
            text.put_number(born);
            text.put(b" dropped ");
        }
    }
}

/// Puts what happened before a text, if that is short, and says whether it is.
fn put_note(note: &Note, text: &mut ShortText) -> bool
    requires { length text.old + 35 ≤ 352 }
    ensures put { IsTrue result → text.new ≡ note_text note.now ++ text.old }
    ensures len { length text.new ≤ length text.old + 35 }
{
    match note {
        Note::Served => text.put(b"served"),
        Note::Kept => text.put(b"kept"),
        Note::Idle => text.put(b"idle"),
        Note::Done(DueItem::Retry(born)) => {
            text.put_number(*born);
            text.put(b"done retry ");
        }
        Note::Done(DueItem::KeptOver(born)) => {
            text.put_number(*born);
            text.put(b"done kept-over ");
        }
        Note::Replaced(pool) => {
            text.put_number(*pool as u64);
            text.put(b"replaced ");
        }
        _ => return false,
    }
    true
}

/// Puts what is sent before a text, if that is short, and says whether it is.
fn put_output(output: &Option<Datagram>, text: &mut ShortText) -> bool
    requires { length text.old + 236 ≤ 352 }
    ensures put { IsTrue result → text.new ≡ output_text output.now ++ text.old }
    ensures len { length text.new ≤ length text.old + 236 }
{
    let Some(datagram) = output else {
        return true;
    };
    let octets = datagram.bytes.as_slice();
    if octets.len() > OCTETS_AT_ONCE {
        return false;
    }
    text.put_digits(octets);
    put_target(&datagram.to, text);
    true
}

/// Puts ` > ADDRESS ` before a text.
fn put_target(address: &Address, text: &mut ShortText)
    requires { length text.old + 108 ≤ 352 }
    ensures text { text.new ≡ codes " > " ++ address_text address.now ++ codes " " ++ text.old }
    ensures len { length text.new ≤ length text.old + 108 }
{
    text.put_mark(b' ');
    text.put_address(address);
    text.put(b" > ");
}

/// Writes ` > ADDRESS `.
fn write_target<W: Write>(address: &Address, out: &mut W) -> io::Result<()>
    ensures { OnOk result (Appends (W.contents out.old) (W.contents out.new)
        (codes " > " ++ address_text address.now ++ codes " ")) }
{
    let mut text = ShortText::new();
    put_target(address, &mut text);
    out.write_all(text.as_slice())
}

fn write_output<W: Write>(output: &Option<Datagram>, out: &mut W) -> io::Result<()>
    ensures { OnOk result (Appends (W.contents out.old) (W.contents out.new)
        (output_text output.now)) }
{
    match output {
        None => Ok(()),
        Some(datagram) => {
            write_target(&datagram.to, out)?;
            write_hex(datagram.bytes.as_slice(), out)
        }
    }
}

/// Writes the number of an event, and a space behind it.
fn write_place<W: Write>(number: usize, out: &mut W) -> io::Result<()>
    ensures { OnOk result (Appends (W.contents out.old) (W.contents out.new)
        (decimal number ++ codes " ")) }
{
    let mut text = ShortText::new();
    text.put_mark(b' ');
    text.put_number(number as u64);
    out.write_all(text.as_slice())
}

/// Puts the line of an outcome, with this number, if it is short, and says whether it is.
fn put_line(number: usize, outcome: &Outcome, text: &mut ShortText) -> bool
    requires { text.old ≡ [] }
    ensures { IsTrue result → text.new ≡ outcome_line number outcome.now }
{
    text.put_mark(b'\n');
    if !put_output(&outcome.output, text) {
        return false;
    }
    put_dropped(outcome.dropped, text);
    put_answer(&outcome.answer, text);
    if !put_note(&outcome.note, text) {
        return false;
    }
    text.put_mark(b' ');
    text.put_number(number as u64);
    true
}

/// Writes what stands before the output in the line of an outcome.
fn write_front<W: Write>(number: usize, outcome: &Outcome, out: &mut W) -> io::Result<()>
    ensures { OnOk result (Appends (W.contents out.old) (W.contents out.new)
        (decimal number ++ codes " " ++ note_text outcome.now.note
        ++ answer_text outcome.now.answer ++ dropped_text outcome.now.dropped)) }
{
    let mut text = ShortText::new();
    put_dropped(outcome.dropped, &mut text);
    put_answer(&outcome.answer, &mut text);
    write_place(number, out)?;
    write_note(&outcome.note, out)?;
    out.write_all(text.as_slice())
}

/// Writes the line of an outcome part by part.
#[inline(never)]
fn write_long_line<W: Write>(number: usize, outcome: &Outcome, out: &mut W) -> io::Result<()>
    ensures { OnOk result (Appends (W.contents out.old) (W.contents out.new)
        (outcome_line number outcome.now)) }
{
    write_front(number, outcome, out)?;
    write_output(&outcome.output, out)?;
    out.write_all(b"\n")
}

/// Writes the line of an outcome, with this number. Most lines are short, and are written in one
/// piece.
pub fn write_outcome<W: Write>(number: usize, outcome: &Outcome, out: &mut W) -> io::Result<()>
    ensures { OnOk result (Appends (W.contents out.old) (W.contents out.new)
        (outcome_line number outcome.now)) }
{
    let mut text = ShortText::new();
    if !put_line(number, outcome, &mut text) {
        return write_long_line(number, outcome, out);
    }
    out.write_all(text.as_slice())
}

/// Writes the line of a fresh pool that is refused, with this number.
pub(crate) fn write_refusal<W: Write>(
    number: usize,
    fault: ReplaceFault,
    out: &mut W,
) -> io::Result<()>
    ensures { OnOk result (Appends (W.contents out.old) (W.contents out.new)
        (refusal_line number fault)) }
{
    writeln!(out, "{number} not replaced {}", fault.number())
}
