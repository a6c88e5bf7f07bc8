//! What the pages tell of a zone beside its endpoints and calls.

ghost use Rattle.std.specs.Prelude.{◌≤◌, IfOk};

use pools::Figures;
use ras_module::{Address, Name};
use std::alloc::{AllocError, Global};
use zone_view::{Counts, RunningZone, ServerFigures, ZoneFigures};

/// The most pools of a zone.
const MOST_POOLS: usize = 16;

/// What a zone is called, and where it is served.
#[derive(Clone, Copy)]
pub struct About {
    /// Its GatekeeperIdentifier.
    pub name: Name,
    /// The address at which it takes RAS messages.
    pub address: Address,
}

/// The figures and counts of a zone.
#[derive(Drop)]
pub struct Overview {
    pub figures: ZoneFigures,
    /// The figures of its pools, in order, at the same moment.
    pub pools: Vec<Figures>,
    pub server: ServerFigures,
    pub counts: Counts,
}

impl Overview {
    /// What a zone tells now.
    pub fn of<Z: RunningZone>(alloc: Global, zone: &Z) -> Result<Overview, AllocError>
        ensures figures { IfOk result (λ overview.
            Z.has_figures zone.now overview.figures overview.pools.items) }
        ensures within { IfOk result (λ overview.
            overview.figures.in_use ≤ overview.figures.limit) }
        ensures server { IfOk result (λ overview. Z.has_server zone.now overview.server) }
        ensures counts { IfOk result (λ overview. Z.has_counts zone.now overview.counts) }
    {
        let mut pools = Vec::with_capacity(alloc, MOST_POOLS)?;
        let figures = zone.figures(&mut pools);
        Ok(Overview {
            figures,
            pools,
            server: zone.server(),
            counts: zone.counts(),
        })
    }
}
