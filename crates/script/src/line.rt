//! The lines of a script.

ghost use Rattle.std.specs.Prelude.{◌≡◌, IfOk};
ghost use Rattle.script.specs.Lines.{zone_line, set_line, pool_line, moment_of, event_of, at_line};
ghost use Rattle.script.specs.Lines.{turn_line, number_of_pool, replace_line, line_of};

use crate::event::{Replacement, ScriptEvent};
use crate::hex_digits::octets_of;
use crate::pool::{PoolLine, fresh_pool};
use crate::setting::Setting;
use crate::words::Words;
use ras_core::{Event, Moment};
use ras_module::{Address, Boxed, Name};
use std::alloc::{AllocError, Global};
use value_texts::{address_of, is_word, name_of, number_of};

/// What a line says. A name is large, so that it stands in a box: each line is moved.
#[derive(Drop)]
pub enum Line {
    /// Nothing.
    Blank,
    /// The zone has this name and this address.
    Zone(Boxed<Name>, Address),
    /// This is set.
    Set(Setting),
    /// The zone has this pool.
    Pool(PoolLine),
    /// This happens.
    At(ScriptEvent),
}

fn zone_line(alloc: Global, mut words: Words) -> Result<Option<Line>, AllocError>
    ensures { IfOk result (λ line. line ≡ zone_line words.entry) }
{
    let (Some(name), Some(address), None) = (
        words.next_word(),
        words.next_word(),
        words.next_word(),
    ) else {
        return Ok(None);
    };
    match (name_of(name), address_of(address)) {
        (Some(name), Some(address)) => { Ok(Some(Line::Zone(Boxed::new(alloc, name)?, address))) }
        _ => Ok(None),
    }
}

fn set_line(mut words: Words) -> Option<Line>
    ensures { result ≡ set_line words.entry }
{
    let key = words.next_word()?;
    let number = words.next_word()?;
    match words.next_word() {
        Some(_) => None,
        None => Some(Line::Set(Setting::new(key, number)?)),
    }
}

fn pool_line(words: Words) -> Option<Line>
    ensures { result ≡ pool_line words.entry }
{
    Some(Line::Pool(PoolLine::new(words)?))
}

/// The event of a datagram, by the words of its line.
fn event_of(
    alloc: Global,
    moment: &[u8],
    from: &[u8],
    address: &[u8],
    octets: &[u8],
) -> Result<Option<Line>, AllocError>
    ensures { IfOk result (λ line. line ≡ event_of moment.now from.now address.now octets.now) }
{
    if !is_word(from, "from") {
        return Ok(None);
    }
    match (
        moment_of(moment),
        address_of(address),
        octets_of(alloc, octets)?,
    ) {
        (Some(moment), Some(source), Some(octets)) => Ok(Some(Line::At(ScriptEvent::Event(
            Event::Datagram(source, octets, moment),
        )))),
        _ => Ok(None),
    }
}

fn moment_of(word: &[u8]) -> Option<Moment>
    ensures { result ≡ moment_of word.now }
{
    match number_of(0, (1 << 53) - 1, word) {
        Some(number) => Moment::new(number),
        None => None,
    }
}

fn at_line(alloc: Global, mut words: Words) -> Result<Option<Line>, AllocError>
    ensures { IfOk result (λ line. line ≡ at_line words.entry) }
{
    let (Some(moment), Some(from), Some(address)) = (
        words.next_word(),
        words.next_word(),
        words.next_word(),
    ) else {
        return Ok(None);
    };
    match (words.next_long_word(), words.next_word()) {
        (None, _) => event_of(alloc, moment, from, address, &[]),
        (Some(octets), None) => event_of(alloc, moment, from, address, octets),
        (Some(_), Some(_)) => Ok(None),
    }
}

fn turn_line(mut words: Words) -> Option<Line>
    ensures { result ≡ turn_line words.entry }
{
    let moment = words.next_word()?;
    match words.next_word() {
        Some(_) => None,
        None => Some(Line::At(ScriptEvent::Event(Event::Turn(moment_of(moment)?)))),
    }
}

/// The number of a pool, which need not be there.
fn number_of_pool(word: &[u8]) -> Option<usize>
    ensures { result ≡ number_of_pool word.now }
{
    match number_of(0, u64::MAX, word) {
        Some(number) => Some(number as usize),
        None => None,
    }
}

fn replace_line(mut words: Words) -> Option<Line>
    ensures { result ≡ replace_line words.entry }
{
    let moment = words.next_word()?;
    let pool = words.next_word()?;
    let moment = moment_of(moment)?;
    let pool = number_of_pool(pool)?;
    let fresh = fresh_pool(words)?;
    Some(Line::At(ScriptEvent::Replace(Replacement {
        pool,
        fresh,
        moment,
    })))
}

/// What a line says; None if it isn't understood.
#[tactic(auto, unfolding(crate::specs::Lines::line_of))]
pub fn line_of(alloc: Global, line: &[u8]) -> Result<Option<Line>, AllocError>
    ensures { IfOk result (λ read. read ≡ line_of line.now) }
{
    let mut words = Words::new(line);
    let Some(kind) = words.next_word() else {
        return Ok(Some(Line::Blank));
    };
    if is_word(kind, "zone") {
        zone_line(alloc, words)
    } else if is_word(kind, "set") {
        Ok(set_line(words))
    } else if is_word(kind, "pool") {
        Ok(pool_line(words))
    } else if is_word(kind, "at") {
        at_line(alloc, words)
    } else if is_word(kind, "turn") {
        Ok(turn_line(words))
    } else if is_word(kind, "replace") {
        Ok(replace_line(words))
    } else {
        Ok(None)
    }
}
