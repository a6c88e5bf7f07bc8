//! Datagrams that are put and taken in one thread.

use crate::rings::ring::{hands_back, offers, ring, takes};
use facts::all_hold;
use reply_queues::Settled;
use std::test::Fail;

#[test]
fn ring_of_two(rt: HostRuntime) -> Result<(), Fail> {
    let alloc = rt.alloc();
    let (mut outlet, mut inlet) = ring(alloc, 2)?;
    let is_first_put = offers(alloc, &mut outlet, 1);
    let is_second_put = offers(alloc, &mut outlet, 2);
    let mark = outlet.end();
    let is_marked = mark.is_some();
    let is_first_taken = takes(&mut inlet, 1);
    let is_second_taken = takes(&mut inlet, 2);
    let is_empty = inlet.take().is_none();
    let settled = inlet.settle(mark);
    all_hold(&[
        (is_first_put, "the first datagram finds a place"),
        (is_second_put, "the second datagram finds a place"),
        (is_marked, "the ring's end is marked"),
        (is_first_taken, "the first datagram comes out first"),
        (is_second_taken, "the second datagram comes out then"),
        (is_empty, "nothing else comes out"),
        (settled == Settled::Whole { taken: 2 }, "the ring is whole"),
    ])
}

#[test]
fn a_full_ring_hands_back(rt: HostRuntime) -> Result<(), Fail> {
    let alloc = rt.alloc();
    let (mut outlet, mut inlet) = ring(alloc, 1)?;
    let is_first_put = offers(alloc, &mut outlet, 1);
    let is_second_back = hands_back(alloc, &mut outlet, 2);
    let is_first_taken = takes(&mut inlet, 1);
    let is_second_put = offers(alloc, &mut outlet, 2);
    let is_second_taken = takes(&mut inlet, 2);
    let is_empty = inlet.take().is_none();
    all_hold(&[
        (is_first_put, "the first datagram finds a place"),
        (is_second_back, "the second datagram comes back"),
        (is_first_taken, "the first datagram comes out"),
        (is_second_put, "the second datagram finds its place"),
        (is_second_taken, "the second datagram comes out"),
        (is_empty, "nothing else comes out"),
    ])
}

#[test]
fn without_a_mark_a_ring_is_unknown(rt: HostRuntime) -> Result<(), Fail> {
    let alloc = rt.alloc();
    let (mut outlet, mut inlet) = ring(alloc, 2)?;
    let is_put = offers(alloc, &mut outlet, 1);
    let is_taken = takes(&mut inlet, 1);
    let settled = inlet.settle(None);
    all_hold(&[
        (is_put, "the datagram finds a place"),
        (is_taken, "the datagram comes out"),
        (settled == Settled::Unknown, "the ring is unknown"),
    ])
}

#[test]
fn with_a_datagram_left_a_ring_is_unknown(rt: HostRuntime) -> Result<(), Fail> {
    let alloc = rt.alloc();
    let (mut outlet, mut inlet) = ring(alloc, 2)?;
    let is_first_put = offers(alloc, &mut outlet, 1);
    let is_second_put = offers(alloc, &mut outlet, 2);
    let is_first_taken = takes(&mut inlet, 1);
    let settled = inlet.settle(outlet.end());
    all_hold(&[
        (is_first_put, "the first datagram finds a place"),
        (is_second_put, "the second datagram finds a place"),
        (is_first_taken, "the first datagram comes out"),
        (settled == Settled::Unknown, "the ring is unknown"),
    ])
}

#[test]
fn an_unused_ring_is_whole(rt: HostRuntime) -> Result<(), Fail> {
    let (outlet, inlet) = ring(rt.alloc(), 4096)?;
    assert!(rt; inlet.settle(outlet.end()) == Settled::Whole { taken: 0 });
    Ok(())
}

#[test]
fn without_an_inlet_there_is_no_mark(rt: HostRuntime) -> Result<(), Fail> {
    let (outlet, inlet) = ring(rt.alloc(), 1)?;
    drop(inlet);
    assert!(rt; outlet.end().is_none());
    Ok(())
}
