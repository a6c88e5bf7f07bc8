//! The events of a script.

ghost use Rattle.std.specs.Prelude.{◌≡◌, IfOk, length};
ghost use Rattle.script.specs.Events.{fresh_pool_in, fresh_pools};

use pools::{PoolSpec, PoolSpecs};
use ras_core::{Event, Moment};
use std::alloc::{AllocError, Global};
use std::marker::Model;

/// At this moment, a fresh pool is to take the place of the pool with this number.
#[derive(Clone, Copy)]
pub struct Replacement {
    pub pool: usize,
    pub fresh: PoolSpec,
    pub moment: Moment,
}

/// An event of a script.
#[derive(Drop)]
pub enum ScriptEvent {
    /// This comes to the gatekeeper.
    Event(Event),
    /// A pool is to be replaced.
    Replace(Replacement),
}

impl ScriptEvent {
    /// The fresh pool, if a pool is to be replaced.
    fn fresh_pool(&self) -> Option<PoolSpec>
        ensures { result ≡ fresh_pool_in self.now }
    {
        match self {
            ScriptEvent::Event(_) => None,
            ScriptEvent::Replace(replacement) => Some(replacement.fresh),
        }
    }
}

/// The events of a script, in order. Contracts see the list of them.
#[derive(Drop)]
pub struct Events {
    items: Vec<ScriptEvent>,
}

impl Model for Events {
    ghost use Rattle.std.specs.Prelude.{List};
    ghost use Rattle.script.specs.declared.event.ScriptEvent.{ScriptEvent};

    ghost Value = { List ScriptEvent };

    ghost view = { λ e. e.items.items };
}

impl Events {
    /// The events of a vector. This takes no memory.
    pub fn from_vec(items: Vec<ScriptEvent>) -> Self
        ensures { result ≡ items.items }
    {
        Self { items }
    }

    /// The vector of the events. This takes no memory.
    pub fn into_vec(self) -> Vec<ScriptEvent>
        ensures { result.items ≡ self }
    {
        let Events { items } = self;
        items
    }

    /// The events, in order.
    pub fn as_slice(&self) -> &[ScriptEvent]
        ensures { result.now ≡ self.now }
    {
        &self.items
    }

    /// The fresh pools that are to take the places of others, in order.
    pub fn fresh_pools(&self, alloc: Global) -> Result<PoolSpecs, AllocError>
        ensures { IfOk result (λ specs. specs ≡ fresh_pools self.now) }
    {
        let mut specs = Vec::new(alloc);
        for event in &self.items {
            if let Some(spec) = event.fresh_pool() {
                specs.push(spec).map_err(AllocError::from)?;
            }
        }
        Ok(PoolSpecs::from_vec(specs))
    }

    /// How many pools are to be replaced. This takes no memory.
    pub fn replacements(&self) -> usize
        ensures { result ≡ length (fresh_pools self.now) }
    {
        self.items
            .iter()
            .filter_map(|event| event.fresh_pool())
            .count()
    }
}
