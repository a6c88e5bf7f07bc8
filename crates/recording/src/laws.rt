//! What holds of every record.

ghost use Rattle.std.specs.Prelude.{ℕ, ◌+◌, ◌++◌, ◌∷◌, [], List, Option, Result};
ghost use Rattle.std.specs.declared.io.Error.{Error};
ghost use Rattle.books.specs.declared.book.Entry.{Entry};
ghost use Rattle.recording.specs.declared.writer.Recorded.{Recorded};
ghost use Rattle.recording.specs.Records.{AreAnswered, HasGrownUpTo, IsRecordOf, IsWritten};
ghost use Rattle.recording.specs.Records.{RecordedStep, step_lines};
ghost use Rattle.recording.specs.Standings.{Standing};
ghost use Rattle.recording.specs.Zones.{ZoneParts};
ghost use Rattle.recording.specs.Again.{IsReadAgain, IsZone};

/// The lines of a zone, read as a script, are this zone again: the same settings, networks and
/// pools.
///
/// promise zone-lines-are-read-again: A zone's lines, read as a script, are that zone
/// (`IsReadAgain`).
pub fn zone_lines_are_read_again()
    ensures { (zone : ZoneParts) → IsZone zone → IsReadAgain zone }
{}

/// The record of a zone and of some steps, behind which one more was written, is the record of this
/// zone and of all these steps.
///
/// promise record-has-its-steps: A record is its zone's lines and then its steps', in order, each
/// once (`IsRecordOf`).
pub fn written_steps_are_the_record()
    ensures { (before : Option (List ℕ)) (zone : ZoneParts) (steps : List RecordedStep) (step : RecordedStep)
        (old new : Standing) → IsRecordOf before zone steps old
        → IsWritten old (step_lines (old.steps + 1) step) new
        → IsRecordOf before zone (steps ++ step ∷ []) new }
{}

/// A record behind which entries were to be recorded is the record of its steps and of theirs, of
/// all or of those before the one at which it was closed.
///
/// promise record-has-its-entries: A record has grown by the entries' steps, up to one at which it
/// was closed (`HasGrownUpTo`).
pub fn written_entries_are_the_record()
    ensures { (before : Option (List ℕ)) (zone : ZoneParts)
        (steps : List RecordedStep) (entries : List Entry) (result : Result Recorded Error)
        (old new : Standing) → IsRecordOf before zone steps old
        → AreAnswered old entries result new
        → HasGrownUpTo before zone steps entries result new }
{}
