//! Steps of a record, done again.

ghost use Rattle.std.specs.Prelude.{◌≡◌, IfOk, is_some};
ghost use Rattle.std.specs.FinMap.{get};
ghost use Rattle.pools.specs.Account.{opening_account};
ghost use Rattle.pools.specs.Specs.{account_of};
ghost use Rattle.ras_machine.specs.Soundness.{Sound};
ghost use Rattle.record_audit.specs.Records.{IsDoneAgain, change_of, handed_out, newcomer_in};

use crate::told::told_in;
use pools::{Figures, PoolSpec};
use ras_machine::Machine;
use ras_module::EndpointId;
use script::{ScriptEvent, ShownOutcome};
use std::alloc::AllocError;
use step_check::redo;
use zone_events::{Change, Datagram, Note, Outcome, PoolChange};

fn limit_of(pool: &PoolSpec) -> u64
    ensures { account_of pool.now ≡ opening_account result }
{
    match pool {
        PoolSpec::Fixed { limit } => *limit,
        PoolSpec::Step { limit, step: _ } => *limit,
        PoolSpec::Paced { limit, burst: _ } => *limit,
    }
}

/// The figures of a pool that was asked nothing yet.
fn figures_of(pool: &PoolSpec) -> Figures
    ensures { result ≡ (account_of pool.now).figures }
{
    Figures {
        limit: limit_of(pool),
        lent: 0,
        refusals: 0,
        waits: 0,
    }
}

/// What changes the zone in an event.
pub(crate) fn change_of(event: ScriptEvent) -> Change
    ensures { result ≡ change_of event }
{
    match event {
        ScriptEvent::Event(event) => Change::Event(event),
        ScriptEvent::Replace(replacement) => Change::PoolChange(PoolChange {
            pool: replacement.pool,
            offered: figures_of(&replacement.fresh),
            moment: replacement.moment,
        }),
    }
}

fn is_live(machine: &Machine, identifier: &EndpointId) -> bool
    ensures { result ≡ is_some (get machine.now.tables.live identifier.now) }
{
    machine.tables().registrations().get(identifier).is_some()
}

/// The identifier that is told in a reply, if it confirms a registration that isn't there yet.
fn newcomer_in(machine: &Machine, output: &Option<Datagram>) -> Option<EndpointId>
    ensures { result ≡ newcomer_in machine.now output.now }
{
    let Some(datagram) = output else {
        return None;
    };
    let identifier = told_in(datagram.bytes.as_slice())?;
    if is_live(machine, &identifier) {
        None
    } else {
        Some(identifier)
    }
}

/// The identifier that was handed out, by what was noted and sent.
fn handed_out(machine: &Machine, outcome: &Outcome) -> Option<EndpointId>
    ensures { result ≡ handed_out machine.now outcome.now.note outcome.now.output }
{
    match &outcome.note {
        Note::Served => newcomer_in(machine, &outcome.output),
        Note::Kept | Note::Ignored(_) | Note::Done(_) | Note::Idle | Note::Replaced(_) => None,
    }
}

/// Does a step again whose outcome is shown so, and says whether the machine has it from where it
/// stands; then it stands at the state after it.
pub(crate) fn is_done_again(
    machine: &mut Machine,
    what: &Change,
    mut shown: ShownOutcome,
) -> Result<bool, AllocError>
    requires { Sound machine.old }
    ensures done { IfOk result
        (λ is_step. IsDoneAgain machine.old what.now shown is_step machine.new) }
    ensures sound { Sound machine.new }
{
    if shown.number != machine.steps() + 1 {
        return Ok(false);
    }
    shown.outcome.given = handed_out(machine, &shown.outcome);
    redo(machine, what, &shown.outcome)
}
