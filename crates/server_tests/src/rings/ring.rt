//! One ring, and datagrams with a number.
ghost use Rattle.std.specs.Prelude.{◌≤◌, IfOk};
ghost use Rattle.reply_queues.specs.Rings.{IsRing, SameInlet, SameOutlet};

use ras_module::{Address, Octets};
use reply_queues::{Inlet, Outlet, rings};
use std::alloc::{AllocError, Global};
use zone_events::Datagram;

/// Where each datagram goes.
const TO: Address = Address {
    ip: [10, 0, 0, 9],
    port: 1719,
};

/// A datagram with this number in its two octets.
pub(crate) fn datagram(alloc: Global, number: u16) -> Result<Datagram, AllocError> {
    let bytes = Octets::from_vec(number.to_be_bytes().to_vec(alloc)?);
    Ok(Datagram { to: TO, bytes })
}

/// Whether a datagram with this number finds a place.
pub(crate) fn offers(alloc: Global, outlet: &mut Outlet, number: u16) -> bool
    ensures { SameOutlet outlet.old outlet.new }
{
    match datagram(alloc, number) {
        Ok(datagram) => outlet.offer(datagram).is_ok(),
        Err(_) => false,
    }
}

/// Whether a datagram with this number finds no place, and comes back.
pub(crate) fn hands_back(alloc: Global, outlet: &mut Outlet, number: u16) -> bool {
    match (datagram(alloc, number), datagram(alloc, number)) {
        (Ok(offered), Ok(back)) => outlet.offer(offered) == Err(back),
        _ => false,
    }
}

/// Whether a datagram with this number comes out.
pub(crate) fn takes(inlet: &mut Inlet, number: u16) -> bool
    ensures { SameInlet inlet.old inlet.new }
{
    match inlet.take() {
        Some(taken) => {
            taken.to == TO && taken.bytes.as_slice() == number.to_be_bytes().as_slice()
        }
        None => false,
    }
}

/// The two ends of one ring.
pub(crate) fn ring(alloc: Global, capacity: usize) -> Result<(Outlet, Inlet), AllocError>
    requires { (1 ≤ capacity) × (capacity ≤ 4096) }
    ensures { IfOk result (λ ends. IsRing ends.0 ends.1) }
{
    let (mut outlets, mut inlets) = rings(alloc, 1, capacity)?;
    match (outlets.pop(), inlets.pop()) {
        (Some(outlet), Some(inlet)) => Ok((outlet, inlet)),
        _ => Err(AllocError),
    }
}
