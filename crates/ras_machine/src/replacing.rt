//! A pool takes the place of another one.

ghost use Rattle.std.specs.Prelude.{◌<◌};
ghost use Rattle.zone_tables.specs.Pools.{MayReplace};
ghost use Rattle.ras_machine.specs.Machine.{most_steps};
ghost use Rattle.ras_machine.specs.Replacing.{Replaces};
ghost use Rattle.ras_machine.specs.Soundness.{Sound};

use crate::machine::Machine;
use zone_events::{Note, Outcome, PoolChange};

impl Machine {
    /// One step in which a fresh pool takes the place of another one. Of the pools the machine
    /// keeps the figures: whoever has the pools has exchanged them. No memory is taken.
    ///
    /// promise machine-replaces-a-pool: A fresh pool takes the place of another by one step
    /// (`Replaces`).
    pub fn replace_pool(&mut self, change: &PoolChange) -> Outcome
        requires few { self.old.steps < most_steps }
        requires may { MayReplace self.old.tables.pools change.now.pool change.now.offered }
        requires sound { Sound self.old }
        ensures replaces { Replaces self.old change.now result self.new }
        ensures sound { Sound self.new }
    {
        let _ = &self.kept;
        self.tables.replace_pool(change.pool, change.offered);
        self.clock = self.clock.later(change.moment);
        self.steps += 1;
        Outcome::noted(Note::Replaced(change.pool), None)
    }
}
