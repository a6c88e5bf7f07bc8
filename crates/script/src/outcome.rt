//! Reading the lines of outcomes.

ghost use Rattle.std.specs.Prelude.{◌≡◌, IfOk};
ghost use Rattle.value_texts.specs.Texts.{name_of};
ghost use Rattle.script.specs.Outcomes.{Takes, answer_in, cause_of, count_in, count_of, dropped_in};
ghost use Rattle.script.specs.Outcomes.{front_in, item_in, named_item, named_item_in, note_in};
ghost use Rattle.script.specs.Outcomes.{output_of, sent_to, shown_of};

use crate::hex_digits::octets_of;
use crate::words::Words;
use pools::Lend;
use ras_core::{Datagram, DueItem, IgnoredCause, Note, Outcome};
use ras_module::EndpointId;
use std::alloc::{AllocError, Global};
use value_texts::{address_of, is_word, name_of, number_of};

/// What stands before the output in the line of an outcome.
#[derive(Drop)]
pub struct Front {
    pub number: u64,
    pub note: Note,
    pub answer: Option<Lend>,
    pub dropped: Option<u64>,
}

/// What the line of an outcome shows: the number of its event, and the outcome. An identifier that
/// was handed out is told in the output alone, and so is None here.
#[derive(Drop)]
pub struct ShownOutcome {
    pub number: u64,
    pub outcome: Outcome,
}

fn count_of(word: &[u8]) -> Option<u64>
    ensures { result ≡ count_of word.now }
{
    number_of(0, u64::MAX, word)
}

fn take_count(words: &mut Words) -> Option<u64>
    ensures { Takes count_in words.old result words.new }
{
    count_of(words.next_word()?)
}

fn identifier_of(word: &[u8]) -> Option<EndpointId>
    ensures { result ≡ name_of word.now }
{
    match name_of(word) {
        Some(name) => Some(EndpointId::new(name)),
        None => None,
    }
}

fn cause_of(word: &[u8]) -> Option<IgnoredCause>
    ensures { result ≡ cause_of word.now }
{
    if is_word(word, "too-long") {
        Some(IgnoredCause::TooLong)
    } else if is_word(word, "unreadable") {
        Some(IgnoredCause::Unreadable)
    } else if is_word(word, "not-served") {
        Some(IgnoredCause::NotServed)
    } else if is_word(word, "busy") {
        Some(IgnoredCause::Busy)
    } else if is_word(word, "unknown-endpoint") {
        Some(IgnoredCause::UnknownEndpoint)
    } else {
        None
    }
}

/// An item that is named with an endpoint, or with the birth of a kept entry.
fn named_item(kind: &[u8], word: &[u8]) -> Option<DueItem>
    ensures { result ≡ named_item kind.now word.now }
{
    if is_word(kind, "registration-over") {
        Some(DueItem::RegistrationOver(identifier_of(word)?))
    } else if is_word(kind, "interrogate") {
        Some(DueItem::Interrogate(identifier_of(word)?))
    } else if is_word(kind, "silent") {
        Some(DueItem::Silent(identifier_of(word)?))
    } else if is_word(kind, "retry") {
        Some(DueItem::Retry(count_of(word)?))
    } else if is_word(kind, "kept-over") {
        Some(DueItem::KeptOver(count_of(word)?))
    } else {
        None
    }
}

fn take_named_item(kind: &[u8], words: &mut Words) -> Option<DueItem>
    ensures { Takes (named_item_in kind.now) words.old result words.new }
{
    named_item(kind, words.next_word()?)
}

fn take_item(words: &mut Words) -> Option<DueItem>
    ensures { Takes item_in words.old result words.new }
{
    let kind = words.next_word()?;
    if is_word(kind, "pool-turn") {
        return Some(DueItem::PoolTurn);
    }
    take_named_item(kind, words)
}

/// What happened.
fn take_note(words: &mut Words) -> Option<Note>
    ensures { Takes note_in words.old result words.new }
{
    let kind = words.next_word()?;
    if is_word(kind, "served") {
        Some(Note::Served)
    } else if is_word(kind, "kept") {
        Some(Note::Kept)
    } else if is_word(kind, "idle") {
        Some(Note::Idle)
    } else if is_word(kind, "ignored") {
        Some(Note::Ignored(cause_of(words.next_word()?)?))
    } else if is_word(kind, "done") {
        Some(Note::Done(take_item(words)?))
    } else if is_word(kind, "replaced") {
        Some(Note::Replaced(take_count(words)? as usize))
    } else {
        None
    }
}

/// What the pool answered; None within, if none was asked.
fn take_answer(words: &mut Words) -> Option<Option<Lend>>
    ensures { Takes answer_in words.old result words.new }
{
    if words.passes("lent") {
        Some(Some(Lend::Lent(take_count(words)?)))
    } else if words.passes("refused") {
        Some(Some(Lend::Refused))
    } else if words.passes("wait") {
        Some(Some(Lend::Wait))
    } else {
        Some(None)
    }
}

/// The birth of the kept entry that was dropped; None within, if none was.
fn take_dropped(words: &mut Words) -> Option<Option<u64>>
    ensures { Takes dropped_in words.old result words.new }
{
    if words.passes("dropped") {
        Some(Some(take_count(words)?))
    } else {
        Some(None)
    }
}

fn take_front(words: &mut Words) -> Option<Front>
    ensures { Takes front_in words.old result words.new }
{
    let number = take_count(words)?;
    let note = take_note(words)?;
    let answer = take_answer(words)?;
    let dropped = take_dropped(words)?;
    Some(Front {
        number,
        note,
        answer,
        dropped,
    })
}

/// What is sent, by the words of a line.
fn sent_to(
    alloc: Global,
    mark: &[u8],
    address: &[u8],
    octets: &[u8],
) -> Result<Option<Option<Datagram>>, AllocError>
    ensures { IfOk result (λ output. output ≡ sent_to mark.now address.now octets.now) }
{
    if !is_word(mark, ">") {
        return Ok(None);
    }
    match (address_of(address), octets_of(alloc, octets)?) {
        (Some(to), Some(bytes)) => Ok(Some(Some(Datagram { to, bytes }))),
        _ => Ok(None),
    }
}

/// What is sent, by the words that are left at the end of a line; None within, if nothing is.
fn output_of(alloc: Global, mut words: Words) -> Result<Option<Option<Datagram>>, AllocError>
    ensures { IfOk result (λ output. output ≡ output_of words.entry) }
{
    let Some(mark) = words.next_word() else {
        return Ok(Some(None));
    };
    let Some(address) = words.next_word() else {
        return Ok(None);
    };
    match (words.next_long_word(), words.next_word()) {
        (None, _) => sent_to(alloc, mark, address, &[]),
        (Some(octets), None) => sent_to(alloc, mark, address, octets),
        (Some(_), Some(_)) => Ok(None),
    }
}

/// What the line of an outcome shows, as `write_outcome` writes it; None if it isn't understood.
/// Words may be parted by more than one space, and digits of octets be in either case.
///
/// promise outcome-lines-are-read: What an outcome's line shows is read exactly (`shown_of`).
#[tactic(auto, unfolding(crate::specs::Outcomes::shown_of))]
pub fn outcome_of(alloc: Global, line: &[u8]) -> Result<Option<ShownOutcome>, AllocError>
    ensures { IfOk result (λ shown. shown ≡ shown_of line.now) }
{
    let mut words = Words::new(line);
    let Some(front) = take_front(&mut words) else {
        return Ok(None);
    };
    let Some(output) = output_of(alloc, words)? else {
        return Ok(None);
    };
    Ok(Some(ShownOutcome {
        number: front.number,
        outcome: Outcome {
            answer: front.answer,
            output,
            note: front.note,
            dropped: front.dropped,
            given: None,
        },
    }))
}
