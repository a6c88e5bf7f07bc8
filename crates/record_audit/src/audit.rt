//! Where an audit stands, line after line.

ghost use Rattle.std.specs.Prelude.{◌≡◌, ◌≢◌, Err, IfErr, IfOk, OnOk, is_some};
ghost use Rattle.ras_machine.specs.Soundness.{Sound};
ghost use Rattle.ras_machine.specs.State.{State};
ghost use Rattle.script.specs.Lines.{line_of};
ghost use Rattle.script.specs.Outcomes.{shown_of};
ghost use Rattle.record_audit.specs.Records.{Calls, CannotGo, Describes, Goes, GoesUnless, Opens};
ghost use Rattle.record_audit.specs.Records.{ShowsStep, Standing, beginning, fault_at};
ghost use Rattle.record_audit.specs.Records.{fault_describing, fault_ending, fault_of_head};
ghost use Rattle.record_audit.specs.Records.{fault_taking, is_remark, script_in, steps_of};

use crate::fault::LineFault;
use crate::opening::machine_of;
use crate::steps::{change_of, is_done_again};
use ras_machine::Machine;
use script::{Draft, Line, ScriptEvent, ScriptFault, line_of, outcome_of};
use std::alloc::{AllocError, Global};
use std::marker::Model;
use std::mem;
use zone_events::Change;

/// The octets that a line has at most, without its end.
pub const MOST_OCTETS: usize = 131_072;

/// Where an audit stands behind some lines of a record. Contracts see what the lines of the zone
/// say, its state, and what is to change it next.
#[derive(Drop)]
pub struct Audit {
    alloc: Global,
    draft: Draft,
    machine: Option<Machine>,
    awaited: Option<Change>,
}

impl Model for Audit {
    ghost use Rattle.std.specs.Coded.{codes};
    ghost use Rattle.std.specs.FinMap as map;
    ghost use Rattle.std.specs.Prelude.{IfSome};
    ghost use Rattle.ras_machine.specs.Soundness.{Sound};
    ghost use Rattle.record_audit.specs.Records.{Standing};

    ghost Value = { Standing };

    ghost coded = { Prim.hlevel (codes, map.code) };

    ghost view = { λ a. record { said = a.draft; zone = a.machine; awaited = a.awaited } };

    ghost invariant = { λ a. IfSome a.machine Sound };
}

/// Whether a line begins with a number sign.
fn is_remark(line: &[u8]) -> bool
    ensures { result ≡ is_remark line.now }
{
    !line.is_empty() && line[0] == b'#'
}

/// The fault of an event before which the lines make no zone.
fn fault_of(fault: ScriptFault) -> LineFault
    ensures memory { fault ≡ ScriptFault.Memory → result ≡ LineFault.Memory }
    ensures told { fault ≢ ScriptFault.Memory → result ≡ fault_of_head (Err fault) }
{
    match fault {
        ScriptFault::NoZone => LineFault::NoZone,
        ScriptFault::NoDefaultPool => LineFault::NoDefaultPool,
        ScriptFault::Memory => LineFault::Memory,
        ScriptFault::TooLong | ScriptFault::BadLine(_) | ScriptFault::Stream => {
            LineFault::NotUnderstood
        }
    }
}

/// Does the step again whose outcome a line shows.
fn end_step(
    alloc: Global,
    machine: &mut Machine,
    what: &Change,
    line: &[u8],
) -> Result<(), LineFault>
    requires { Sound machine.old }
    ensures ok { OnOk result (ShowsStep machine.old what.now (shown_of line.now) machine.new) }
    ensures err { IfErr result (λ fault. fault ≢ LineFault.Memory → (after : State)
        → ShowsStep machine.old what.now (shown_of line.now) after → ⊥) }
    ensures why { IfErr result (λ fault. fault ≢ LineFault.Memory
        → fault ≡ fault_ending (shown_of line.now)) }
    ensures sound { Sound machine.new }
{
    let Some(shown) = outcome_of(alloc, line)? else {
        return Err(LineFault::NotUnderstood);
    };
    if is_done_again(machine, what, shown)? {
        Ok(())
    } else {
        Err(LineFault::NotAStep)
    }
}

impl Audit {
    /// An audit that read no line.
    pub fn new(alloc: Global) -> Result<Self, AllocError>
        ensures { IfOk result (λ audit. audit ≡ beginning) }
    {
        Ok(Audit {
            alloc,
            draft: Draft::with_room(alloc, 0)?,
            machine: None,
            awaited: None,
        })
    }

    /// Reads the next line of a record, without its end. The lines of the zone come first. Then
    /// comes for each step the line of its event, as a script has it, and behind it the line of its
    /// outcome, as it is written of a run. A line that begins with `#` is passed over. A line of
    /// more than 131,072 octets isn't understood.
    ///
    /// The audit goes on behind a line if and only if it stands right; want of memory is left
    /// aside. After a fault, where it stands means nothing.
    ///
    /// promise recorded-lines-are-steps: An audit goes on behind an outcome if and only if the
    /// machine has that step; else why is told (`Goes`, `CannotGo`, `fault_at`).
    pub fn read_line(&mut self, line: &[u8]) -> Result<(), LineFault>
        ensures goes { OnOk result (Goes self.old line.now self.new) }
        ensures stops { IfErr result
            (λ fault. fault ≢ LineFault.Memory → CannotGo self.old line.now) }
        ensures why { IfErr result
            (λ fault. fault ≢ LineFault.Memory → fault ≡ fault_at self.old line.now) }
    {
        if line.len() > MOST_OCTETS {
            return Err(LineFault::NotUnderstood);
        }
        self.read_short_line(line)
    }

    /// Reads a line that isn't too long.
    fn read_short_line(&mut self, line: &[u8]) -> Result<(), LineFault>
        ensures goes { OnOk result (GoesUnless (is_remark line.now) self.old line.now self.new) }
        ensures stops { IfErr result (λ fault. fault ≢ LineFault.Memory → (new : Standing)
            → GoesUnless (is_remark line.now) self.old line.now new → ⊥) }
        ensures why { IfErr result (λ fault. fault ≢ LineFault.Memory
            → fault ≡ fault_taking self.old.zone self.old.awaited self.old line.now) }
    {
        if is_remark(line) {
            return Ok(());
        }
        if self.machine.is_none() {
            return self.describe(line);
        }
        let alloc = self.alloc;
        match self.awaited.take() {
            None => self.call(line),
            Some(what) => match &mut self.machine {
                Some(machine) => end_step(alloc, machine, &what, line),
                None => unreachable!(),
            },
        }
    }

    /// How many steps were made.
    pub fn steps(&self) -> u64
        ensures { result ≡ steps_of self.now.zone }
    {
        match &self.machine {
            Some(machine) => machine.steps(),
            None => 0,
        }
    }

    /// Whether an event waits for the line of its outcome.
    pub fn awaits_outcome(&self) -> bool
        ensures { result ≡ is_some self.now.awaited }
    {
        self.awaited.is_some()
    }

    /// Reads a line of the zone, or the first event.
    fn describe(&mut self, line: &[u8]) -> Result<(), LineFault>
        ensures ok { OnOk result (Describes self.old (line_of line.now) self.new) }
        ensures err { IfErr result (λ fault. fault ≢ LineFault.Memory → (new : Standing)
            → Describes self.old (line_of line.now) new → ⊥) }
        ensures why { IfErr result (λ fault. fault ≢ LineFault.Memory
            → fault ≡ fault_describing self.old.said (line_of line.now)) }
    {
        match line_of(self.alloc, line)? {
            None => Err(LineFault::NotUnderstood),
            Some(Line::At(event)) => self.open(event),
            Some(line) => {
                if !self.draft.takes(&line) {
                    return Err(LineFault::NotUnderstood);
                }
                self.draft.add(line)?;
                Ok(())
            }
        }
    }

    /// Makes the zone, for its first event.
    fn open(&mut self, event: ScriptEvent) -> Result<(), LineFault>
        ensures ok { OnOk result (Opens (script_in self.old.said) event self.new) }
        ensures err { IfErr result (λ fault. fault ≢ LineFault.Memory → (new : Standing)
            → Opens (script_in self.old.said) event new → ⊥) }
        ensures why { IfErr result (λ fault. fault ≢ LineFault.Memory
            → fault ≡ fault_of_head (script_in self.old.said)) }
    {
        let empty = Draft::with_room(self.alloc, 0)?;
        let draft = mem::replace(&mut self.draft, empty);
        let script = match draft.into_script(self.alloc) {
            Ok(script) => script,
            Err(fault) => return Err(fault_of(fault)),
        };
        let Some(machine) = machine_of(self.alloc, script)? else {
            return Err(LineFault::NotUnderstood);
        };
        self.machine = Some(machine);
        self.awaited = Some(change_of(event));
        Ok(())
    }

    /// Reads the line of an event, or a blank one.
    fn call(&mut self, line: &[u8]) -> Result<(), LineFault>
        ensures ok { OnOk result (Calls self.old (line_of line.now) self.new) }
        ensures err { IfErr result (λ fault. fault ≢ LineFault.Memory → (new : Standing)
            → Calls self.old (line_of line.now) new → ⊥) }
        ensures why { IfErr result (λ fault. fault ≢ LineFault.Memory
            → fault ≡ LineFault.NotUnderstood) }
    {
        match line_of(self.alloc, line)? {
            Some(Line::At(event)) => {
                self.awaited = Some(change_of(event));
                Ok(())
            }
            Some(Line::Blank) => Ok(()),
            _ => Err(LineFault::NotUnderstood),
        }
    }
}
