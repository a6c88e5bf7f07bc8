//! What holds of every step and of every run, whoever makes them.

ghost use Rattle.std.specs.Prelude.{◌<◌, ◌^◌, All, List};
ghost use Rattle.zone_events.specs.Events.{moment_of_change};
ghost use Rattle.zone_events.specs.declared.change.Change.{Change};
ghost use Rattle.zone_events.specs.declared.outcome.Outcome.{Outcome};
ghost use Rattle.ras_machine.specs.Soundness.{Sound};
ghost use Rattle.ras_machine.specs.State.{State};
ghost use Rattle.ras_core.specs.Runs.{ChangeStep, IsWithinLimit, Run};
ghost use Rattle.sound_steps.specs.Runs.{EachStateOf};

/// From a sound state each step leads to a sound state, be it of an event or of a pool that takes
/// the place of another one. Its moment is below 2^53, as each moment of the code is; nothing else
/// is asked of the step or of its outcome.
///
/// promise soundness-is-kept: From a sound state each step leads to a sound one, whoever makes it
/// (`Sound`).
pub fn each_step_leads_to_a_sound_state()
    ensures { (s : State) (what : Change) (outcome : Outcome) (after : State)
        → moment_of_change what < 2 ^ 53 → Sound s → ChangeStep s what outcome after
        → Sound after }
{}

/// Each state that a run from a sound state comes to is sound, inside the run and at its end. So
/// in each of them bandwidth in use is within the zone's limit, and each pool has lent what its
/// calls use. The moments of the steps are below 2^53.
///
/// promise every-state-is-within-the-limit: Each state inside a run from a sound state is sound and
/// within the limit, if moments are below 2^53 (`EachStateOf`, `IsWithinLimit`).
pub fn every_state_of_a_run_is_within_the_limit()
    ensures sound { (s : State) (entries : List (Change × Outcome)) (after : State)
        (run : Run s entries after) → All (λ entry. moment_of_change entry.0 < 2 ^ 53) entries
        → Sound s
        → EachStateOf Sound s entries after run }
    ensures limit { (s : State) (entries : List (Change × Outcome)) (after : State)
        (run : Run s entries after) → All (λ entry. moment_of_change entry.0 < 2 ^ 53) entries
        → Sound s
        → EachStateOf IsWithinLimit s entries after run }
{}

/// The same of a run that leads from one sound state to another, as a chapter and a book that was
/// run again do. Nothing is asked of the moments: the clock never goes back, so that each of them
/// is at most that of the state at the end.
///
/// promise states-between-sound-ones-are-within-the-limit: Each state inside a run between two sound
/// states is within the limit, whatever the moments (`EachStateOf`, `IsWithinLimit`).
pub fn every_state_between_two_sound_ones_is_within_the_limit()
    ensures { (s : State) (entries : List (Change × Outcome)) (after : State)
        (run : Run s entries after) → Sound s → Sound after
        → EachStateOf IsWithinLimit s entries after run }
{}
