//! What a zone has, at one moment.

ghost use Rattle.std.specs.Prelude.{IfOk};
ghost use Rattle.zone_lock.specs.Listings.{IsListing};

use admission::CallList;
use pools::Pool;
use ras_core::Zone;
use registrations::RegistrationList;
use std::alloc::AllocError;

/// The endpoints that are registered, by rising identifier; the calls that are open, by rising key;
/// the bandwidth in use; and the zone's limit.
#[derive(Drop)]
pub struct Listing {
    pub endpoints: RegistrationList,
    pub calls: CallList,
    pub in_use: u64,
    pub limit: u64,
}

/// What the zone has.
pub(crate) fn listing_of<P: Pool>(zone: &Zone<P>) -> Result<Listing, AllocError>
    ensures { IfOk result (λ listing. IsListing zone.now.state listing) }
{
    Ok(Listing {
        endpoints: zone.endpoints()?,
        calls: zone.calls()?,
        in_use: zone.in_use(),
        limit: zone.machine().tables().config().parts().limit,
    })
}
