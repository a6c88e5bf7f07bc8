//! What holds of every step, whatever the zone is.

ghost use Rattle.std.specs.Prelude.{◌≡◌, ◌≤◌, ◌+◌, ℕ, List, IsTrue, Ok, Some, length, max};
ghost use Rattle.std.specs.FinMap.{get};
ghost use Rattle.ras_module.specs.declared.address.Address.{Address};
ghost use Rattle.ras_module.specs.declared.request.Request.{Request};
ghost use Rattle.ras_module.specs.declared.request.TheConstants.Request as request_octets;
ghost use Rattle.ras_reading.specs.Messages.{message_reading};
ghost use Rattle.ras_writing.specs.Replies.{encoding_of};
ghost use Rattle.kept_replies.specs.declared.entry.KeptEntry.{KeptEntry};
ghost use Rattle.kept_replies.specs.Kept.{reply_in};
ghost use Rattle.zone_events.specs.declared.change.Change.{Change};
ghost use Rattle.zone_events.specs.declared.outcome.Outcome.{Outcome};
ghost use Rattle.ras_machine.specs.State.{State};
ghost use Rattle.ras_core.specs.Running.{Running};
ghost use Rattle.ras_machine.specs.Keeping.{is_repeat};
ghost use Rattle.ras_machine.specs.Turns.{IsNothingDueIn};
ghost use Rattle.ras_core.specs.Runs.{EachState, IsWithinLimit, RunningRun};
ghost use Rattle.ras_machine.specs.Steps.{Step};
ghost use Rattle.ras_requests.specs.Requests.{HasReply};

use zone_events::{Event, Note};

/// A datagram that came before, from the same address with the same octets, gets the reply that is
/// kept for it, and nothing changes but the clock and the number of steps: while its window isn't
/// over, and, if the reply confirms a registration, while that is there. The datagram has at most
/// 4,096 octets, and is a request that has a reply.
///
/// promise repeat-gets-kept-reply: A repeat gets its kept reply, until its window is over, and
/// nothing but clock and step number changes; a kept RCF only while its endpoint is registered
/// (`is_repeat`).
pub fn a_repeat_gets_its_kept_reply()
    ensures { (s : State) (source : Address) (bytes : List ℕ) (moment : ℕ) (request : Request)
        (entry : KeptEntry) (outcome : Outcome) (after : State)
        → length bytes ≤ request_octets.MOST → message_reading bytes ≡ Ok (Some request)
        → HasReply request
        → get s.kept (record { source = source; bytes = bytes }) ≡ Some entry
        → IsTrue (is_repeat s (max s.clock moment) entry)
        → Step s (Event.Datagram source bytes moment) outcome after
        → (outcome.output
        ≡ Some (record { to = source; bytes = encoding_of (reply_in entry.state) }))
        × (after ≡ record s { clock = max s.clock moment; steps = s.steps + 1 }) }
{}

/// A turn is idle only if nothing is due.
///
/// promise idle-only-if-nothing-is-due: A turn is idle only if nothing is due.
pub fn a_turn_is_idle_only_if_nothing_is_due()
    ensures { (s : State) (moment : ℕ) (outcome : Outcome) (after : State)
        → Step s (Event.Turn moment) outcome after → outcome.note ≡ Note.Idle
        → IsNothingDueIn s (max s.clock moment) }
{}

/// In every state that a run of steps and replacements comes to, bandwidth in use, the sum over the
/// calls, is within the zone's limit, and each pool has lent what its calls use.
///
/// promise bandwidth-is-within-the-limit: In every state that a run comes to, bandwidth in use is
/// within the zone's limit, and each pool has lent what its calls use (`EachState`, `IsWithinLimit`).
pub fn bandwidth_is_within_the_limit_all_along()
    ensures { (old : Running) (entries : List (Change × Outcome)) (new : Running)
        (run : RunningRun old entries new) → EachState IsWithinLimit old entries new run }
{}
