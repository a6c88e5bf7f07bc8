//! States that two chapters of a history share.

ghost use Rattle.std.specs.Prelude.{◌≡◌, IfOk};

use ras_core::Snapshot;
use std::alloc::{AllocError, Global};
use std::marker::Model;
use std::sync::Arc;

/// The state in which a chapter of a history ends and the next one begins. Both have it, and it is
/// copied for neither of them. Contracts see the state, which is sound by the type.
pub struct SharedSnapshot {
    snapshot: Arc<Snapshot, Global>,
}

// By hand, so that it is one call where one is dropped.
impl Drop for SharedSnapshot {
    fn drop(self) {
        let SharedSnapshot { snapshot: _ } = self;
    }
}

impl Model for SharedSnapshot {
    ghost use Rattle.std.specs.Coded.{codes};
    ghost use Rattle.std.specs.FinMap as map;
    ghost use Rattle.std.specs.Arc.{arc_value};
    ghost use Rattle.ras_machine.specs.State.{State};

    ghost Value = { State };

    ghost coded = { Prim.hlevel (codes, map.code) };

    ghost view = { λ s. arc_value s.snapshot };
}

impl SharedSnapshot {
    /// The state of this snapshot, which can be shared.
    pub fn new(alloc: Global, snapshot: Snapshot) -> Result<Self, AllocError>
        ensures { IfOk result (λ shared. shared ≡ snapshot) }
    {
        let snapshot = Arc::new(alloc, snapshot)?;
        Ok(SharedSnapshot { snapshot })
    }

    /// The same state once more. No state is copied.
    pub fn again(&self) -> Result<Self, AllocError>
        ensures { IfOk result (λ shared. shared ≡ self.now) }
    {
        let snapshot = Arc::try_clone(&self.snapshot)?;
        Ok(SharedSnapshot { snapshot })
    }

    /// The state.
    pub fn snapshot(&self) -> &Snapshot
        ensures same { result.now ≡ self.now }
    {
        &self.snapshot
    }
}
