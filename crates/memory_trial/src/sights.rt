//! What a zone is before and after a call that may be refused.

use crate::rehearsal::are_same;
use pools::Pool;
use ras_core::{Snapshot, Zone};
use zone_lock::Listing;

const TWICE: &str = "a zone was looked at and refused twice";

/// The whole state of the zone now: its tables, what it keeps, the figures of its pools, its clock
/// and what its turns go by. It is copied again if memory for that was refused.
pub fn sight_of<P: Pool>(zone: &Zone<P>) -> Result<Snapshot, &'static str> {
    zone.snapshot()
        .or_else(|_| zone.snapshot())
        .map_err(|_| TWICE)
}

/// Whether the zone has what its lock has listed.
pub fn is_listed<P: Pool>(zone: &Zone<P>, listing: &Listing) -> Result<bool, &'static str> {
    let endpoints = zone
        .endpoints()
        .or_else(|_| zone.endpoints())
        .map_err(|_| TWICE)?;
    let calls = zone.calls().or_else(|_| zone.calls()).map_err(|_| TWICE)?;
    let are_endpoints = are_same(endpoints.as_slice(), listing.endpoints.as_slice());
    Ok(are_endpoints && calls == listing.calls)
}
