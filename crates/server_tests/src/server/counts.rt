//! What a server counts, and what it refuses.

ghost use Rattle.std.specs.Prelude.{◌≡◌};
ghost use Rattle.udp_server.specs.Ends.{fault_count};
ghost use Rattle.udp_server.specs.Plans.{IsPlan};

use crate::server::clocks::clocks;
use crate::server::fixtures::{
    ENDPOINT, Looked, NOT_SERVED, PLAN, all_hold, discovery, outputs, served, zone,
};
use pools::FixedPool;
use std::alloc::Global;
use std::rt::Clock;
use std::sync::Wait;
use std::sync::atomic::AtomicU64;
use std::thread::Threads;
use udp_server::{Datagrams, DeviceFault, Open, Plan, Received, Report, ServeFault, serve_zone};
use zone_events::Datagram;

/// What an end does at a receive.
#[derive(Clone, Copy)]
enum Deed {
    Gives,
    /// It gives a discovery with octets behind it, one more than a request may have.
    GivesTooMuch,
    Fails,
    IsQuiet,
}

/// An end that does these deeds and then has stopped, and of which every second send fails.
#[derive(Drop)]
struct Faulty {
    deeds: &'static [Deed],
    next: usize,
    sends: u64,
    faults: u64,
}

impl Faulty {
    fn new(deeds: &'static [Deed]) -> Self {
        Faulty {
            deeds,
            next: 0,
            sends: 0,
            faults: 0,
        }
    }

    fn fault(&mut self) -> DeviceFault
        ensures { self.new.faults ≡ fault_count self.old.faults }
    {
        self.faults = self.faults.saturating_add(1);
        DeviceFault
    }
}

impl Datagrams for Faulty {
    ghost faults = { λ end. end.faults };

    fn receive(&mut self, buffer: &mut [u8; 4_097]) -> Result<Received, DeviceFault> {
        let deed = self.deeds.get(self.next).copied();
        self.next = self.next.saturating_add(1);
        match deed {
            None => Ok(Received::Stopped),
            Some(Deed::IsQuiet) => Ok(Received::Quiet),
            Some(Deed::Fails) => Err(self.fault()),
            Some(Deed::Gives) => {
                let octets = discovery(0, self.next as u64);
                buffer[..octets.len()].copy_from_slice(&octets);
                Ok(Received::Datagram(ENDPOINT, octets.len()))
            }
            Some(Deed::GivesTooMuch) => {
                let octets = discovery(0, self.next as u64);
                buffer[..octets.len()].copy_from_slice(&octets);
                Ok(Received::Datagram(ENDPOINT, 4_097))
            }
        }
    }

    fn send(&mut self, _datagram: &Datagram) -> Result<(), DeviceFault> {
        self.sends = self.sends.saturating_add(1);
        if self.sends % 2 == 0 {
            return Err(self.fault());
        }
        Ok(())
    }

    fn failures(&self) -> u64 {
        self.faults
    }
}

/// What a server over one such end leaves, of which the sender's every second send fails.
fn served_faultily<R: Threads + Wait + Clock + Sync>(
    rt: &R,
    alloc: Global,
    deeds: &'static [Deed],
    plan: Plan,
) -> Option<Report<FixedPool>>
    requires { IsPlan plan }
{
    let reads = AtomicU64::new(0);
    let receivers = vec![in alloc; Faulty::new(deeds)].ok();
    let clocks = clocks(alloc, 1, &reads);
    let sender = Faulty::new(&[]);
    served(rt, alloc, receivers, sender, &Open, clocks, plan)
}

/// Two failed receives, which a quiet one parts from three more; what comes behind isn't received.
const FAILING: [Deed; 8] = [
    Deed::Gives,
    Deed::Fails,
    Deed::Fails,
    Deed::IsQuiet,
    Deed::Fails,
    Deed::Fails,
    Deed::Fails,
    Deed::Gives,
];

/// The same, if it is a datagram that parts them.
const PARTED: [Deed; 7] = [
    Deed::Fails,
    Deed::Fails,
    Deed::Gives,
    Deed::Fails,
    Deed::Fails,
    Deed::Fails,
    Deed::Gives,
];

/// How many datagrams were received, and how many receives have failed, if a worker stops after
/// three failed receives in a row.
fn failed_receives<R: Threads + Wait + Clock + Sync>(
    rt: &R,
    alloc: Global,
    deeds: &'static [Deed],
) -> Option<(u64, u64)> {
    let plan = Plan { faults: 3, ..PLAN };
    let report = served_faultily(rt, alloc, deeds, plan)?;
    Some((report.datagrams, report.receive_faults))
}

#[test]
fn a_worker_stops_after_failed_receives_in_a_row(rt: HostRuntime) {
    let failed = failed_receives(&rt, rt.alloc(), &FAILING);
    assert!(rt; failed == Some((1, 5)));
}

#[test]
fn a_datagram_parts_failed_receives(rt: HostRuntime) {
    let failed = failed_receives(&rt, rt.alloc(), &PARTED);
    assert!(rt; failed == Some((1, 5)));
}

/// How many datagrams made a step, and how many replies there were, if the first of two datagrams
/// has 4,097 octets.
fn too_much<R: Threads + Wait + Clock + Sync>(rt: &R, alloc: Global) -> Option<(u64, u64)> {
    const DEEDS: [Deed; 2] = [Deed::GivesTooMuch, Deed::Gives];
    let report = served_faultily(rt, alloc, &DEEDS, PLAN)?;
    Some((report.datagrams, outputs(&report)))
}

#[test]
fn a_datagram_that_is_too_long_has_no_reply(rt: HostRuntime) {
    let counts = too_much(&rt, rt.alloc());
    assert!(rt; counts == Some((2, 1)));
}

/// How many datagrams are given to a ring of one.
const MANY: u64 = 9;

const GIVING: [Deed; MANY as usize] = [Deed::Gives; MANY as usize];

/// Serves with a ring of one, whose sender's every second send fails. Each reply was sent, found no
/// place, or was lost by a failed send.
fn count_replies<R: Threads + Wait + Clock + Sync>(rt: &R, alloc: Global) -> Looked {
    let plan = Plan { ring: 1, ..PLAN };
    let report = served_faultily(rt, alloc, &GIVING, plan);
    compare_counts(report.as_ref())
}

/// Compares a report with that of such a server.
fn compare_counts(report: Option<&Report<FixedPool>>) -> Looked {
    let report = report.ok_or(NOT_SERVED)?;
    let (sent, failed) = (report.sent, report.send_faults);
    let counted = sent.saturating_add(report.dropped).saturating_add(failed);
    let is_half = sent == failed || sent == failed.saturating_add(1);
    all_hold(&[
        (outputs(report) == MANY, "each datagram is answered"),
        (counted == MANY, "each reply is counted once"),
        (is_half, "every second send failed"),
    ])
}

#[test]
fn each_reply_is_counted_once(rt: HostRuntime) -> Looked {
    count_replies(&rt, rt.alloc())
}

/// What a server with `ends` receiving ends, and with clocks for `clocked` ends, returns.
fn refusal<R: Threads + Wait + Clock + Sync>(
    rt: &R,
    alloc: Global,
    ends: usize,
    clocked: usize,
) -> Option<ServeFault> {
    let reads = AtomicU64::new(0);
    let zone = zone(alloc)?;
    let mut receivers = Vec::new(alloc);
    for _end in 0..ends {
        receivers.push(Faulty::new(&[])).ok()?;
    }
    let clocks = clocks(alloc, clocked, &reads)?;
    serve_zone(
        rt,
        alloc,
        zone,
        receivers,
        Faulty::new(&[]),
        &Open,
        clocks,
        Vec::new(alloc),
        PLAN,
    )
    .err()
}

#[test]
fn wrong_counts_are_refused(rt: HostRuntime) {
    let alloc = rt.alloc();
    let few = refusal(&rt, alloc, 2, 1);
    let many = refusal(&rt, alloc, 2, 3);
    let sixteen = refusal(&rt, alloc, 16, 16);
    let fifteen = refusal(&rt, alloc, 15, 15);
    assert!(rt; few == Some(ServeFault::WrongCounts), "too few clocks");
    assert!(rt; many == Some(ServeFault::WrongCounts), "too many clocks");
    assert!(rt; sixteen == Some(ServeFault::WrongCounts), "too many ends");
    assert!(rt; fifteen == None, "as many ends as there may be");
}
