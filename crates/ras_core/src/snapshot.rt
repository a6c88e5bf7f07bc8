//! The state of a zone at one moment.

ghost use Rattle.std.specs.Prelude.{◌≡◌, IfOk};
ghost use Rattle.ras_machine.specs.Soundness.{Sound};

use ras_machine::Machine;
use std::alloc::AllocError;
use std::marker::Model;

/// A copy of the state of a zone, its configuration and its pools' figures included, in lists of
/// its own. By its type it is sound. Of the pools themselves it has nothing.
pub struct Snapshot {
    machine: Machine,
}

// By hand, so that it is one call where one is dropped.
impl Drop for Snapshot {
    fn drop(self) {
        let Snapshot { machine: _ } = self;
    }
}

impl Model for Snapshot {
    ghost use Rattle.std.specs.Coded.{codes};
    ghost use Rattle.std.specs.FinMap as map;
    ghost use Rattle.ras_machine.specs.State.{State};
    ghost use Rattle.ras_machine.specs.Soundness.{Sound};

    ghost Value = { State };

    ghost coded = { Prim.hlevel (codes, map.code) };

    ghost view = { λ s. s.machine };

    ghost invariant = { λ s. Sound s.machine };
}

impl Snapshot {
    /// The state at which a sound machine stands.
    pub fn of(machine: Machine) -> Self
        requires { Sound machine }
        ensures { result ≡ machine }
    {
        Snapshot { machine }
    }

    /// The same state, in lists of its own.
    pub fn copy(&self) -> Result<Self, AllocError>
        ensures { IfOk result (λ copy. copy ≡ self.now) }
    {
        Ok(Snapshot::of(self.machine.copy()?))
    }

    /// The machine that stands there.
    pub fn machine(&self) -> &Machine
        ensures machine { result.now ≡ self.now }
        ensures sound { Sound result.now }
    {
        &self.machine
    }

    /// The machine that stands there, to go on from it.
    pub fn into_machine(self) -> Machine
        ensures machine { result ≡ self }
        ensures sound { Sound result }
    {
        let Snapshot { machine } = self;
        machine
    }
}
