//! Datagrams in which one octet is not that of a worked message.

ghost use Rattle.std.specs.Prelude.{◌<◌, length};

use crate::checksum::Checksum;
use crate::counts::Counts;
use crate::messages::{CALL_REQUESTS, REPLIES, REQUESTS};
use crate::zones::{Stage, outcome_of};
use anyhow::{Context, Result};
use ras_core::{IgnoredCause, Note, Outcome};
use ras_module::Octets;
use std::alloc::{AllocError, Global};

/// The name of a reply, by the first six bits, which are the number of its message; RIP is the one
/// that stands first behind the extension mark (ITU-T H.225.0, RasMessage).
fn reply_name(octets: &[u8]) -> &'static str {
    let Some(first) = octets.first() else {
        return "no octets";
    };
    match *first >> 2 {
        1 => "GCF",
        2 => "GRJ",
        4 => "RCF",
        5 => "RRJ",
        7 => "UCF",
        8 => "URJ",
        10 => "ACF",
        11 => "ARJ",
        13 => "BCF",
        14 => "BRJ",
        16 => "DCF",
        17 => "DRJ",
        21 => "IRQ",
        32 => "RIP",
        _ => "another message",
    }
}

fn cause_name(cause: IgnoredCause) -> &'static str {
    match cause {
        IgnoredCause::TooLong => "too long",
        IgnoredCause::Unreadable => "unreadable",
        IgnoredCause::NotServed => "not served",
        IgnoredCause::Busy => "busy",
        IgnoredCause::UnknownEndpoint => "unknown endpoint",
    }
}

/// What happened, as a word.
fn note_name(note: Note) -> &'static str {
    match note {
        Note::Served => "served",
        Note::Kept => "kept",
        Note::Ignored(cause) => cause_name(cause),
        Note::Done(_) => "done",
        Note::Idle => "idle",
        Note::Replaced(_) => "replaced",
    }
}

/// The octets that are sent.
fn reply_of(outcome: &Outcome) -> &[u8] {
    match &outcome.output {
        Some(reply) => reply.bytes.as_slice(),
        None => &[],
    }
}

/// What came of the datagrams that were made of a message.
#[derive(Drop)]
struct Answers {
    /// Which replies were sent.
    replies: Counts<&'static str>,
    /// Why the others were ignored.
    causes: Counts<&'static str>,
}

impl Answers {
    fn new(alloc: Global) -> Self {
        Self {
            replies: Counts::new(alloc),
            causes: Counts::new(alloc),
        }
    }

    fn add(&mut self, outcome: &Outcome) -> Result<(), AllocError> {
        match (outcome.note, &outcome.output) {
            (Note::Ignored(cause), _) => self.causes.add(cause_name(cause)),
            (_, Some(reply)) => self.replies.add(reply_name(reply.bytes.as_slice())),
            (_, None) => self.replies.add("no reply"),
        }
    }
}

/// The octets with another one at that place.
fn altered(alloc: Global, octets: &[u8], place: usize, octet: u8) -> Result<Octets, AllocError>
    requires { place < length octets.now }
{
    let mut altered = octets.to_vec(alloc)?;
    altered[place] = octet;
    Ok(Octets::from_vec(altered))
}

/// Tries each other value of the octet at that place.
fn try_octet(
    alloc: Global,
    stage: Stage,
    octets: &[u8],
    place: usize,
    answers: &mut Answers,
    checksum: &mut Checksum,
) -> Result<()>
    requires { place < length octets.now }
{
    for value in 0..=u8::MAX {
        if value != octets[place] {
            let outcome = outcome_of(alloc, stage, altered(alloc, octets, place, value)?)?;
            answers.add(&outcome)?;
            checksum.add(note_name(outcome.note).as_bytes());
            checksum.add(reply_of(&outcome));
        }
    }
    Ok(())
}

/// Tries each other value of each octet of a message, and prints what came of that.
fn try_message(
    rt: &impl Print,
    alloc: Global,
    stage: Stage,
    message: (&str, &[u8]),
    checksum: &mut Checksum,
) -> Result<()> {
    let (name, octets) = message;
    let mut answers = Answers::new(alloc);
    for place in 0..octets.len() {
        try_octet(alloc, stage, octets, place, &mut answers, checksum).context(name)?;
    }
    let Answers { replies, causes } = &answers;
    let count = replies.total().saturating_add(causes.total());
    println!(rt; "{name}: {count} datagrams: served {replies}, ignored {causes}")?;
    Ok(())
}

/// Tries each message, and prints what came of that.
pub fn try_all(rt: &impl Print, alloc: Global) -> Result<()> {
    let mut checksum = Checksum::new();
    for message in REQUESTS {
        try_message(rt, alloc, Stage::Registered, message, &mut checksum)?;
    }
    for message in CALL_REQUESTS {
        try_message(rt, alloc, Stage::Calling, message, &mut checksum)?;
    }
    for message in REPLIES {
        try_message(rt, alloc, Stage::Registered, message, &mut checksum)?;
    }
    println!(rt; "checksum of the answers: {:016X}", checksum.value())?;
    Ok(())
}
