//! What holds of every record.

ghost use Rattle.std.specs.Prelude.{ℕ, ◌<◌, ◌^◌, List};
ghost use Rattle.ras_machine.specs.State.{State};
ghost use Rattle.zone_events.specs.declared.event.Event.{Event};
ghost use Rattle.zone_events.specs.declared.outcome.Outcome.{Outcome};
ghost use Rattle.recording.specs.Zones.{ZoneParts};
ghost use Rattle.record_laws.specs.Outcomes.{IsOutcome, IsOutcomeReadBack};
ghost use Rattle.record_laws.specs.WholeRecords.{IsFoundAgain, IsToldZone, ToldRun, opened};

/// The line that is written of an outcome gives the outcome again when it is read, but for an
/// identifier that was handed out: the reply tells that one.
///
/// promise written-outcomes-are-read-again: An outcome's line, read again, is that outcome, but for
/// an identifier handed out, if what it names is one word (`IsOutcomeReadBack`).
pub fn written_outcomes_are_read_again()
    ensures { (number : ℕ) (outcome : Outcome) → number < 2 ^ 64 → IsOutcome outcome
        → IsOutcomeReadBack number outcome }
{}

/// The record of a fresh zone and of events that are a run of it is a record of that run: an audit
/// goes on behind each of its lines, finds these steps and no others, and comes to the state to
/// which they lead. The lines have to be able to tell the zone and each step: names are one word,
/// and no line is too long. (That a reply tells the identifier that its step handed out is proved
/// of every step.)
///
/// promise recorded-run-is-found-again: The record of a run of events is a record of that run alone
/// to an audit, if its lines can tell zone and steps (`IsFoundAgain`, `IsToldZone`, `ToldRun`).
pub fn recorded_run_is_found_again()
    ensures { (zone : ZoneParts) (steps : List (Event × Outcome)) (after : State)
        → IsToldZone zone → ToldRun (opened zone) steps after → IsFoundAgain zone steps after }
{}
