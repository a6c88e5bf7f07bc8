//! Several rings.

use crate::rings::ring::{hands_back, offers, takes};
use facts::all_hold;
use reply_queues::{Inlet, MAX_CAPACITY, MAX_RINGS, Outlet, ends_stay_together, rings, whole_ring};
use std::alloc::Global;
use std::test::Fail;

/// Whether the datagrams with these numbers find their places, and one more finds none.
fn is_filled(alloc: Global, outlet: &mut Outlet, first: u16, behind: u16) -> bool {
    for number in first..behind {
        if !offers(alloc, outlet, number) {
            return false;
        }
    }
    hands_back(alloc, outlet, behind)
}

/// Whether the datagrams with these numbers come out in order, and nothing else.
fn is_emptied(inlet: &mut Inlet, first: u16, behind: u16) -> bool {
    for number in first..behind {
        if !takes(inlet, number) {
            return false;
        }
    }
    inlet.take().is_none()
}

/// From which number on the two datagrams of three rings are counted.
const FIRST: [u16; 3] = [0, 10, 20];

/// Whether the two datagrams of each ring find their places, and one more finds none.
fn are_filled(alloc: Global, outlets: &mut [Outlet]) -> bool {
    let mut are_filled = true;
    for (first, outlet) in FIRST.iter().zip(outlets.iter_mut()) {
        are_filled = is_filled(alloc, outlet, *first, first.saturating_add(2)) && are_filled;
    }
    are_filled
}

/// Whether the two datagrams of each ring come out in order, and nothing else.
fn are_emptied(inlets: &mut [Inlet]) -> bool {
    let mut are_emptied = true;
    for (first, inlet) in FIRST.iter().zip(inlets.iter_mut()) {
        are_emptied = is_emptied(inlet, *first, first.saturating_add(2)) && are_emptied;
    }
    are_emptied
}

#[test]
fn three_rings_are_apart(rt: HostRuntime) -> Result<(), Fail> {
    let alloc = rt.alloc();
    let (mut outlets, mut inlets) = rings(alloc, 3, 2)?;
    let counts = (outlets.len(), inlets.len());
    let are_filled = are_filled(alloc, &mut outlets);
    let are_emptied = are_emptied(&mut inlets);
    all_hold(&[
        (counts == (3, 3), "there are three rings"),
        (are_filled, "each has places of its own"),
        (are_emptied, "each has datagrams of its own"),
    ])
}

#[test]
fn the_most_rings_with_the_most_room(rt: HostRuntime) -> Result<(), Fail> {
    let alloc = rt.alloc();
    let (mut outlets, inlets) = rings(alloc, MAX_RINGS, MAX_CAPACITY)?;
    let counts = (outlets.len(), inlets.len());
    let mut are_filled = true;
    for outlet in outlets.iter_mut() {
        are_filled = is_filled(alloc, outlet, 0, 4096) && are_filled;
    }
    all_hold(&[
        (counts == (16, 16), "there are sixteen rings"),
        (are_filled, "each has as much room as there may be"),
    ])
}

#[test]
fn no_ring_is_made_of_none(rt: HostRuntime) -> Result<(), Fail> {
    ends_stay_together();
    whole_ring();
    let (outlets, inlets) = rings(rt.alloc(), 0, 1)?;
    assert!(rt; (outlets.len(), inlets.len()) == (0, 0));
    Ok(())
}
