//! Writing the entries of a book.

ghost use Rattle.std.specs.Prelude.{◌≡◌, [], vec_capacity};
ghost use Rattle.recording.specs.Records.{AreAnswered, IsEntryAnswer, told_event};

use crate::writer::{End, RecordWriter, Recorded};
use books::Entry;
use script::ScriptEvent;
use std::io::{self, Write};
use zone_events::Change;

/// The event of the line that tells a change, if one does. Its octets are moved there.
fn told_event(change: Change) -> Option<ScriptEvent>
    ensures { result ≡ told_event change }
{
    match change {
        Change::Event(event) => Some(ScriptEvent::Event(event)),
        Change::PoolChange(_) => None,
    }
}

impl<W: Write + Drop> RecordWriter<W> {
    /// Writes the step of an entry, as `write` does. If it replaces a pool, the record ends.
    pub fn write_entry(&mut self, entry: Entry) -> io::Result<Recorded>
        ensures { IsEntryAnswer self.old entry result self.new }
    {
        let (event, outcome) = entry.into_change();
        match told_event(event) {
            Some(event) => self.write(&event, &outcome),
            None => self.end(End::PoolReplaced),
        }
    }

    /// Writes the steps of entries, oldest first, up to one that isn't written: then the record is
    /// closed, and that entry's answer is returned. All of them are taken out of the vector, whose
    /// memory stays for others.
    ///
    /// promise entries-are-recorded: Entries are written in order, up to one at which the record is
    /// closed (`AreAnswered`).
    pub fn write_entries(&mut self, entries: &mut Vec<Entry>) -> io::Result<Recorded>
        ensures answers { AreAnswered self.old entries.old.items result self.new }
        ensures taken { entries.new.items ≡ [] }
        ensures memory { vec_capacity entries.new ≡ vec_capacity entries.old }
    {
        for entry in entries.drain(..) {
            match self.write_entry(entry) {
                Ok(Recorded::Written) => {}
                answer => return answer,
            }
        }
        Ok(Recorded::Written)
    }
}
