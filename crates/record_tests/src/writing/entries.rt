//! Entries of a book that are recorded together.

use crate::writing::failing::Short;
use crate::writing::fixtures::{STEPS, audited, empty_record, entries_of_call, record_within};
use books::Entry;
use facts::{all_hold, ensure_of};
use pools::Figures;
use ras_core::Moment;
use recording::{End, RecordWriter, Recorded};
use std::alloc::Global;
use std::io::{self, Write};
use std::test::Fail;
use zone_events::{Change, Note, Outcome, PoolChange};

/// What became of entries that were to be recorded together.
#[derive(Clone, Copy, PartialEq, Eq)]
struct Answered {
    /// None: a write failed.
    answer: Option<Recorded>,
    steps: u64,
    is_open: bool,
    /// How many of the entries are left.
    left: usize,
}

impl Answered {
    /// All entries are taken, and the record has this many steps.
    fn new(answer: Recorded, steps: usize, is_open: bool) -> Self {
        Answered {
            answer: Some(answer),
            steps: steps as u64,
            is_open,
            left: 0,
        }
    }
}

/// Records entries together.
fn record_entries<W: Write + Drop>(
    record: &mut RecordWriter<W>,
    entries: &mut Vec<Entry>,
) -> Answered {
    let answer = match record.write_entries(entries) {
        Ok(answer) => Some(answer),
        Err(_) => None,
    };
    Answered {
        answer,
        steps: record.steps(),
        is_open: record.is_open(),
        left: entries.len(),
    }
}

/// A record of entries that came together.
#[derive(Drop)]
struct Together {
    done: Answered,
    text: Vec<u8>,
}

/// A record of entries that came together, and of further ones behind them.
#[derive(Drop)]
struct InTwo {
    first: Answered,
    rest: Answered,
    text: Vec<u8>,
}

/// Records entries, and further ones behind them.
fn recorded_in_two(
    alloc: Global,
    first: &mut Vec<Entry>,
    rest: &mut Vec<Entry>,
) -> Result<InTwo, Fail> {
    let mut record = empty_record(alloc, Vec::new(alloc), u64::MAX)?;
    let first = record_entries(&mut record, first);
    let rest = record_entries(&mut record, rest);
    let text = record.into_output().into_writer();
    Ok(InTwo { first, rest, text })
}

/// The entries of a call, parted at this count.
fn parted(alloc: Global, at: usize) -> Result<(Vec<Entry>, Vec<Entry>), Fail> {
    let mut first = Vec::new(alloc);
    let mut rest = Vec::new(alloc);
    for entry in entries_of_call(alloc)? {
        if first.len() < at {
            first.push(entry)?;
        } else {
            rest.push(entry)?;
        }
    }
    Ok((first, rest))
}

/// The record of a call whose entries come in two parts.
fn record_of_parts(alloc: Global, at: usize) -> Result<InTwo, Fail> {
    let (mut first, mut rest) = parted(alloc, at)?;
    recorded_in_two(alloc, &mut first, &mut rest)
}

/// The record is this one, and was written in two parts, the first one of this many steps.
fn compare_parts(record: &InTwo, at: usize, whole: &[u8]) -> Result<(), Fail> {
    all_hold(&[
        (
            record.first == Answered::new(Recorded::Written, at, true),
            "the first entries are written",
        ),
        (
            record.rest == Answered::new(Recorded::Written, STEPS, true),
            "the others are written behind them",
        ),
        (
            record.text.as_slice() == whole,
            "the record is that of steps which were recorded one by one",
        ),
    ])
}

#[test]
fn entries_are_the_steps(rt: HostRuntime) -> Result<(), Fail> {
    let (whole, _) = record_within(rt.alloc(), u64::MAX)?;
    for at in 0..=STEPS {
        let record = record_of_parts(rt.alloc(), at)?;
        compare_parts(&record, at, &whole)?;
    }
    Ok(())
}

/// For how many entries the memory of a call's entries has room, before they are recorded and behind
/// that.
#[derive(Clone, Copy)]
struct Room {
    before: usize,
    behind: usize,
    done: Answered,
}

fn room_of_entries(alloc: Global) -> Result<Room, Fail> {
    let mut record = empty_record(alloc, Vec::new(alloc), u64::MAX)?;
    let mut entries = entries_of_call(alloc)?;
    let before = entries.capacity();
    let done = record_entries(&mut record, &mut entries);
    let behind = entries.capacity();
    Ok(Room {
        before,
        behind,
        done,
    })
}

#[test]
fn memory_of_entries_stays(rt: HostRuntime) -> Result<(), Fail> {
    let room = room_of_entries(rt.alloc())?;
    all_hold(&[
        (
            room.done == Answered::new(Recorded::Written, STEPS, true),
            "the entries are written",
        ),
        (room.before >= STEPS, "their memory has room for them"),
        (room.behind == room.before, "it stays as large"),
    ])
}

/// The entry of a pool that was replaced.
fn replacement(call: usize) -> Entry {
    let offered = Figures {
        limit: 2_000,
        lent: 0,
        refusals: 0,
        waits: 0,
    };
    Entry {
        seat: 0,
        call,
        event: Change::PoolChange(PoolChange {
            pool: 0,
            offered,
            moment: Moment::START,
        }),
        outcome: Outcome::noted(Note::Replaced(0), None),
    }
}

/// The entries of a call, with that of a pool which was replaced before the fourth step.
fn entries_with_a_replacement(alloc: Global) -> Result<Vec<Entry>, Fail> {
    let (mut entries, mut rest) = parted(alloc, 3)?;
    entries.push(replacement(3))?;
    entries.append(&mut rest)?;
    Ok(entries)
}

/// The record of a call in which a pool is replaced before the fourth step, and of a further call.
fn record_with_a_replacement(alloc: Global) -> Result<InTwo, Fail> {
    let mut entries = entries_with_a_replacement(alloc)?;
    let mut more = entries_of_call(alloc)?;
    recorded_in_two(alloc, &mut entries, &mut more)
}

#[test]
fn a_record_ends_where_a_pool_is_replaced(rt: HostRuntime) -> Result<(), Fail> {
    let record = record_with_a_replacement(rt.alloc())?;
    let last = b"\n# the record ends here: it has 3 steps, and the next one replaces a pool\n";
    all_hold(&[
        (
            record.first == Answered::new(Recorded::Ended(End::PoolReplaced), 3, false),
            "the record ends with the third step",
        ),
        (
            record.rest == Answered::new(Recorded::Closed, 3, false),
            "nothing is written behind its end",
        ),
        (
            record.text.ends_with(last),
            "its last line says why it ends",
        ),
        (
            passes(rt.alloc(), &record.text, 3),
            "its three steps pass the audit",
        ),
    ])
}

/// Whether a record passes its audit, whole and with this many steps.
fn passes(alloc: Global, text: &[u8], steps: u64) -> bool {
    match audited(alloc, text) {
        Ok(report) => report.steps == steps && !report.is_cut_off,
        Err(_) => false,
    }
}

/// Ends a record, since too many others wait.
fn ended(record: &mut RecordWriter<Vec<u8>>) -> Option<Recorded> {
    match record.end(End::Overrun) {
        Ok(answer) => Some(answer),
        Err(_) => None,
    }
}

/// A record that was ended twice: what was answered.
#[derive(Drop)]
struct EndedTwice {
    first: Option<Recorded>,
    again: Option<Recorded>,
    text: Vec<u8>,
}

/// The record of a call which ends behind that, since too many others wait.
fn overrun_record(alloc: Global) -> Result<EndedTwice, Fail> {
    let mut record = empty_record(alloc, Vec::new(alloc), u64::MAX)?;
    let mut entries = entries_of_call(alloc)?;
    record_entries(&mut record, &mut entries);
    let first = ended(&mut record);
    let again = ended(&mut record);
    let text = record.into_output().into_writer();
    Ok(EndedTwice { first, again, text })
}

#[test]
fn a_record_ends_where_too_many_wait(rt: HostRuntime) -> Result<(), Fail> {
    let record = overrun_record(rt.alloc())?;
    let last =
        b"\n# the record ends here: it has 7 steps, and too many others waited to be written\n";
    all_hold(&[
        (
            record.first == Some(Recorded::Ended(End::Overrun)),
            "the record ends",
        ),
        (record.again == Some(Recorded::Closed), "it ends once"),
        (
            record.text.ends_with(last),
            "its last line says why it ends",
        ),
        (
            passes(rt.alloc(), &record.text, 7),
            "its seven steps pass the audit",
        ),
    ])
}

/// The record of a call whose entries come together, within a bound.
fn record_together(alloc: Global, most: u64) -> Result<Together, Fail> {
    let mut record = empty_record(alloc, Vec::new(alloc), most)?;
    let mut entries = entries_of_call(alloc)?;
    let done = record_entries(&mut record, &mut entries);
    let text = record.into_output().into_writer();
    Ok(Together { done, text })
}

/// Whether a call is recorded within a bound as if its steps came one by one.
fn is_as_one_by_one(alloc: Global, most: u64) -> Result<bool, Fail> {
    let (same, call) = record_within(alloc, most)?;
    let record = record_together(alloc, most)?;
    let is_full = call.count(Some(Recorded::Ended(End::Full))) == 1;
    let ends = record.done.answer == Some(Recorded::Ended(End::Full));
    Ok(ends == is_full && record.text == same)
}

#[test]
fn entries_end_at_the_bound(rt: HostRuntime) -> Result<(), Fail> {
    for most in [300, 700, 1_100] {
        let is_same = is_as_one_by_one(rt.alloc(), most)?;
        assert!(rt; is_same, "{most}");
    }
    Ok(())
}

/// The record of a call whose entries come together, on a stream that fails behind this many octets.
fn cut_record(alloc: Global, most: usize) -> Result<Together, Fail> {
    let mut record = empty_record(alloc, Short::new(alloc, most), u64::MAX)?;
    let mut entries = entries_of_call(alloc)?;
    let done = record_entries(&mut record, &mut entries);
    let text = record.into_output().into_writer().into_text();
    Ok(Together { done, text })
}

/// A write failed behind this many octets, which closed the record. What is there is the front of
/// the whole one, and passes its audit. What doesn't hold is told of the row.
fn compare_cut(
    alloc: Global,
    row: &str,
    record: &Together,
    most: usize,
    whole: &[u8],
) -> Result<(), Fail> {
    let done = record.done;
    let facts = [
        (done.answer.is_none(), "a write fails"),
        (
            done.left == 0 && !done.is_open,
            "that closes the record, and no entry is left",
        ),
        (record.text.len() == most, "all octets before are there"),
        (
            whole.starts_with(&record.text),
            "they are the front of the whole record",
        ),
    ];
    for (holds, fact) in &facts {
        ensure_of(row, *holds, fact)?;
    }
    let report = audited(alloc, &record.text)?;
    ensure_of(
        row,
        report.steps >= done.steps,
        "each written step is there",
    )
}

#[test]
fn a_stream_fails_between_entries(rt: HostRuntime) -> Result<(), Fail> {
    let (whole, _) = record_within(rt.alloc(), u64::MAX)?;
    let rows = [
        ("600 octets", 600),
        ("900 octets", 900),
        ("all octets but one", whole.len().saturating_sub(1)),
    ];
    for (row, most) in rows {
        let record = cut_record(rt.alloc(), most)?;
        compare_cut(rt.alloc(), row, &record, most, &whole)?;
    }
    Ok(())
}

/// Takes all octets, and hands none of them on.
#[derive(Drop)]
struct Stuck;

impl Write for Stuck {
    fn write(&mut self, buf: &[u8]) -> io::Result<usize> {
        Ok(buf.len())
    }

    fn flush(&mut self) -> io::Result<()> {
        Err(io::Error::from(io::ErrorKind::StorageFull))
    }
}

/// What becomes of a call's entries behind a flush that failed. None: it didn't fail, or the record
/// wasn't open before.
fn behind_a_flush(alloc: Global) -> Result<Option<Answered>, Fail> {
    let mut record = empty_record(alloc, Stuck, u64::MAX)?;
    if !record.is_open() || record.flush().is_ok() {
        return Ok(None);
    }
    let mut entries = entries_of_call(alloc)?;
    Ok(Some(record_entries(&mut record, &mut entries)))
}

#[test]
fn a_flush_that_fails_closes(rt: HostRuntime) -> Result<(), Fail> {
    let behind = behind_a_flush(rt.alloc())?;
    assert!(rt; behind.is_some_and(|it| it.answer == Some(Recorded::Closed) && !it.is_open));
    Ok(())
}
