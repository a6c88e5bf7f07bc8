//! Lines that write datagrams.

ghost use Rattle.std.specs.Prelude.{◌≡◌, IfOk, OnOk};
ghost use Rattle.std.specs.List.{list_all};
ghost use Rattle.std.specs.String.{string_bytes};
ghost use Rattle.explaining.specs.Lines.{at_word, behind_word, explained, is_between, octets_in};
ghost use Rattle.explaining.specs.Lines.{octets_part, with_line, with_octets};

use crate::message::push_message;
use crate::octets::{is_between, octets_in};
use crate::parts::push_number;
use std::alloc::{AllocError, Global};
use value_texts::{is_word, parted};

/// A text from its first octet on that is no space.
fn at_word(text: &[u8]) -> &[u8]
    ensures { result.now ≡ at_word text.now }
{
    match text.iter().position(|c| *c != b' ') {
        Some(place) => &text[place..],
        None => &[],
    }
}

/// What stands behind the first word of a text, and the space that ends it.
fn behind_word(text: &[u8]) -> &[u8]
    ensures { result.now ≡ behind_word text.now }
{
    let (_, rest) = parted(at_word(text), b' ');
    rest
}

/// The part of a line that writes octets.
fn octets_part(line: &[u8]) -> &[u8]
    ensures { result.now ≡ octets_part line.now }
{
    let (first, rest) = parted(at_word(line), b' ');
    if is_word(first, "at") {
        return behind_word(behind_word(behind_word(rest)));
    }
    let (_, sent) = parted(line, b'>');
    if sent.is_empty() {
        return line;
    }
    behind_word(sent)
}

fn is_blank(line: &[u8]) -> bool
    ensures { result ≡ list_all is_between line.now }
{
    line.iter().all(|c| is_between(*c))
}

/// Writes what the datagram of a part of a line is, or that it has none.
fn push_octets(alloc: Global, out: &mut String, part: &[u8]) -> Result<(), AllocError>
    ensures { OnOk result (string_bytes out.new
        ≡ with_octets (string_bytes out.old) (octets_in part.now)) }
{
    match octets_in(alloc, part)? {
        Some(octets) => push_message(alloc, out, octets.as_slice()),
        None => out.push_str("no datagram"),
    }
}

/// Writes what a line's datagram is, behind the number of the line; nothing of a blank line.
fn push_line(alloc: Global, out: &mut String, number: usize, line: &[u8]) -> Result<(), AllocError>
    ensures { OnOk result (string_bytes out.new
        ≡ with_line (string_bytes out.old) number line.now) }
{
    if is_blank(line) {
        return Ok(());
    }
    push_number(out, "", number as u64)?;
    out.push_str(" ")?;
    push_octets(alloc, out, octets_part(line))?;
    out.push_str("\n")
}

/// What the datagrams of a text are, in words: a line for each line that isn't blank, with its
/// number, counted from 1. A line has the octets of a datagram as digits of base 16, alone or as
/// in a script (`at MS from ADDRESS HEX`) or in what a script printed (`.. > ADDRESS HEX`).
///
/// promise each-line-is-explained: Each line gives its words, in order (`explained`).
pub fn explained(alloc: Global, text: &[u8]) -> Result<String, AllocError>
    ensures { IfOk result (λ words. string_bytes words ≡ explained text.now) }
{
    let mut out = String::new(alloc);
    let mut rest = text;
    let mut number = 0;
    while !rest.is_empty() {
        let (line, others) = parted(rest, b'\n');
        rest = others;
        number += 1;
        push_line(alloc, &mut out, number, line)?;
    }
    Ok(out)
}
