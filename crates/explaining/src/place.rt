//! Where a fault shows.

ghost use Rattle.std.specs.Prelude.{◌≡◌, IfOk};
ghost use Rattle.ras_reading.specs.Messages.{message_reading};
ghost use Rattle.explaining.specs.Places.{fault_number_of, place_of};

use ras_grammar::ReadFault;
use ras_reading::read;
use std::alloc::{AllocError, Global};

/// The number of the fault of octets; 0 if they have none.
fn fault_number(alloc: Global, octets: &[u8]) -> Result<u8, AllocError>
    ensures { IfOk result (λ number. number ≡ fault_number_of (message_reading octets.now)) }
{
    match read(alloc, octets) {
        Ok(_) => Ok(0),
        Err(ReadFault::Memory) => Err(AllocError),
        Err(fault) => Ok(fault.number()),
    }
}

/// Up to which octet, counted from 1, octets have this fault: the fewest at the front that have it.
#[tactic(auto, unfolding(crate::specs::Places::place_of))]
pub(crate) fn place_of(alloc: Global, octets: &[u8], fault: ReadFault) -> Result<usize, AllocError>
    ensures { IfOk result (λ place. place ≡ place_of octets.now fault) }
{
    let number = fault.number();
    for count in 0..octets.len() {
        if fault_number(alloc, &octets[..count])? == number {
            return Ok(count);
        }
    }
    Ok(octets.len())
}
