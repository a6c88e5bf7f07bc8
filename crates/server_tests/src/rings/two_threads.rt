//! A thread that puts and a thread that takes.
ghost use Rattle.std.specs.Prelude.{◌≡◌, ◌≤◌, IfSome, IfOk};
ghost use Rattle.reply_queues.specs.Rings.{IsRing, SameOutlet, SameInlet, MarksRing};

use crate::rings::ring::{datagram, ring};
use reply_queues::{Ended, Inlet, Outlet, Settled, ends_stay_together};
use std::alloc::AllocError;
use std::sync::Wait;
use std::test::Fail;
use std::thread;
use std::thread::Threads;
use zone_events::Datagram;

/// Puts a datagram once there is a place for it.
fn put_waiting(rt: &impl Wait, outlet: &mut Outlet, datagram: Datagram)
    ensures { SameOutlet outlet.old outlet.new }
{
    let mut datagram = datagram;
    for _ in rt.forever() {
        match outlet.offer(datagram) {
            Ok(()) => return,
            Err(back) => datagram = back,
        }
        thread::yield_now();
    }
    unreachable!()
}

/// Puts all datagrams, and then nothing more.
fn put_all(rt: &impl Wait, outlet: Outlet, datagrams: Vec<Datagram>) -> Option<Ended>
    ensures { IfSome result (λ mark. MarksRing outlet mark) }
{
    let mut outlet = outlet;
    for datagram in datagrams {
        put_waiting(rt, &mut outlet, datagram);
    }
    outlet.end()
}

/// Takes a datagram once there is one.
fn take_waiting(rt: &impl Wait, inlet: &mut Inlet) -> Datagram
    ensures { SameInlet inlet.old inlet.new }
{
    for _ in rt.forever() {
        if let Some(datagram) = inlet.take() {
            return datagram;
        }
        thread::yield_now();
    }
    unreachable!()
}

/// Takes `count` datagrams, and tells how many of them have the number of their turn.
fn take_all(rt: &impl Wait, inlet: Inlet, count: u16) -> (Inlet, u64)
    ensures { SameInlet inlet result.0 }
{
    let mut inlet = inlet;
    let mut in_turn = 0u64;
    for number in 0..count {
        let datagram = take_waiting(rt, &mut inlet);
        if datagram.bytes.as_slice() == number.to_be_bytes().as_slice() {
            in_turn = in_turn.saturating_add(1);
        }
    }
    (inlet, in_turn)
}

/// Hands the datagrams from one thread to another by a ring.
fn hand_over<R: Threads + Wait + Sync>(
    rt: &R,
    outlet: Outlet,
    inlet: Inlet,
    datagrams: Vec<Datagram>,
    count: u16,
) -> (Settled, u64)
    requires { IsRing outlet inlet }
{
    let (mark, (inlet, in_turn)) = thread::join(
        rt,
        move || -> Option<Ended>
            ensures { IfSome result (λ mark. MarksRing outlet mark) }
        { put_all(rt, outlet, datagrams) },
        move || -> (Inlet, u64)
            ensures { SameInlet inlet result.0 }
        { take_all(rt, inlet, count) },
    );
    (inlet.settle(mark), in_turn)
}

#[test]
fn a_thousand_datagrams_in_order(rt: HostRuntime) -> Result<(), Fail> {
    let alloc = rt.alloc();
    let mut datagrams = Vec::new(alloc);
    for number in 0..1000u16 {
        datagrams.push(datagram(alloc, number)?)?;
    }
    let (outlet, inlet) = ring(alloc, 8)?;
    let (settled, in_turn) = hand_over(&rt, outlet, inlet, datagrams, 1000);
    assert!(rt; settled == Settled::Whole { taken: 1000 });
    assert!(rt; in_turn == 1000);
    Ok(())
}
