//! What holds of every record.

ghost use Rattle.std.specs.Prelude.{ℕ, List};
ghost use Rattle.zone_events.specs.declared.change.Change.{Change};
ghost use Rattle.zone_events.specs.declared.outcome.Outcome.{Outcome};
ghost use Rattle.zone_events.specs.declared.event.Event.{Event};
ghost use Rattle.record_audit.specs.Records.{GoesThrough, IsRunTo, Standing, beginning};
ghost use Rattle.record_audit.specs.Written.{IsEvent, IsEventReadBack};

/// The steps that are recorded in lines, behind each of which an audit goes on, are a run of the
/// machine from the zone that the first lines describe to the state at which the audit stands.
///
/// promise record-is-a-run: Lines behind which an audit goes on record a run (`Run`).
pub fn recorded_steps_are_a_run()
    ensures { (lines : List (List ℕ)) (steps : List (Change × Outcome)) (new : Standing)
        → GoesThrough beginning lines steps new → IsRunTo steps new.zone }
{}

/// The line that is written of an event gives the event again when it is read.
///
/// promise written-events-are-read-again: An event's line, read again, is that event
/// (`IsEventReadBack`).
pub fn written_events_are_read_again()
    ensures { (event : Event) → IsEvent event → IsEventReadBack event }
{}
