//! What a server takes for many datagrams, over ends in memory: the time, and at most how much
//! memory.

ghost use Rattle.udp_server.specs.Plans.{IsPlan};

use crate::requests::{address_of, discovery};
use crate::zones::zone_of;
use anyhow::{Result, bail, ensure};
use pools::FixedPool;
use ras_core::Moment;
use ras_module::Address;
use std::alloc::Global;
use std::fs;
use std::rt::Files;
use std::sync::Wait;
use std::sync::atomic::{AtomicU64, Ordering};
use std::thread::Threads;
use std::time::{Clock, Instant};
use udp_server::{Datagrams, DeviceFault, Open, Plan, Received, Report, serve_zone};
use zone_events::Datagram;

/// How many ends receive.
const ENDS: u8 = 4;

/// How many replies are kept.
const KEPT: u64 = 1_024;

/// How many milliseconds pass from one datagram to the next by the clocks of the server.
const PACE: u64 = 20;

/// As the program runs a server, with the settings' defaults.
const PLAN: Plan = Plan {
    ring: 64,
    faults: 16,
    tick: 20,
    chapter: 4_096,
    latest: 0,
    receipts: false,
    hands_out: false,
};

/// What the system tells of this program.
const STATUS: &str = "/proc/self/status";

/// An end that gives `left` discoveries, each a new one, and then has stopped.
#[derive(Drop)]
struct Feed {
    number: u8,
    left: u64,
}

impl Datagrams for Feed {
    ghost faults = { λ end. 0 };

    fn receive(&mut self, buffer: &mut [u8; 4_097]) -> Result<Received, DeviceFault> {
        if self.left == 0 {
            return Ok(Received::Stopped);
        }
        self.left -= 1;
        // Requests are numbered anew after 2^16 of them, when their replies are kept no more.
        let octets = discovery((self.left % 65_536) as u16);
        buffer[..octets.len()].copy_from_slice(&octets);
        let source = Address {
            ip: address_of(u16::from(self.number)),
            port: 1719,
        };
        Ok(Received::Datagram(source, octets.len()))
    }

    fn send(&mut self, _datagram: &Datagram) -> Result<(), DeviceFault> {
        Ok(())
    }

    fn failures(&self) -> u64 {
        0
    }
}

/// A clock by which some time passes at each look, or none.
#[derive(Drop)]
struct Pacer<'a> {
    time: &'a AtomicU64,
    pace: u64,
}

impl udp_server::Moments for Pacer<'_> {
    fn now(&mut self) -> Moment {
        let time = self.time.fetch_add(self.pace, Ordering::SeqCst);
        Moment::new(time).unwrap_or(Moment::START)
    }
}

/// Ends that give this many datagrams together, or a few less, if `ENDS` doesn't divide the number.
fn feeds(alloc: Global, datagrams: u64) -> Result<Vec<Feed>> {
    let mut ends = Vec::new(alloc);
    let left = datagrams / u64::from(ENDS);
    for number in 0..ENDS {
        ends.push(Feed { number, left })?;
    }
    Ok(ends)
}

/// A clock for each end, and one for the timers, which stands still between datagrams.
fn clocks<'a>(alloc: Global, time: &'a AtomicU64) -> Result<Vec<Pacer<'a>>> {
    let mut clocks = Vec::new(alloc);
    for _end in 0..ENDS {
        clocks.push(Pacer { time, pace: PACE })?;
    }
    clocks.push(Pacer { time, pace: 0 })?;
    Ok(clocks)
}

/// Serves this many datagrams.
fn serve<R: Threads + Wait + Clock + Sync>(
    rt: &R,
    alloc: Global,
    datagrams: u64,
) -> Result<Report<FixedPool>> {
    let time = AtomicU64::new(0);
    let zone = zone_of(alloc, KEPT)?;
    let ends = feeds(alloc, datagrams)?;
    let clocks = clocks(alloc, &time)?;
    let sender = Feed { number: 0, left: 0 };
    match serve_zone(
        rt,
        alloc,
        zone,
        ends,
        sender,
        &Open,
        clocks,
        Vec::new(alloc),
        PLAN,
    ) {
        Ok(report) => Ok(report),
        Err(_) => bail!("nothing is served"),
    }
}

/// Prints how much memory this program had at most, and how much it has.
pub fn print_memory(rt: &(impl Files + Print), alloc: Global) -> Result<()> {
    let status = fs::read_to_string(&(rt, alloc), STATUS)?;
    for line in status.lines() {
        if line.starts_with("VmHWM:") || line.starts_with("VmRSS:") {
            println!(rt; "{line}")?;
        }
    }
    Ok(())
}

/// Serves this many datagrams, and prints how long that took and how much memory at most.
pub fn measure<R: Threads + Wait + Clock + Files + Print + Sync>(
    rt: &R,
    alloc: Global,
    datagrams: u64,
) -> Result<()> {
    let start = Instant::now(rt)?;
    let report = serve(rt, alloc, datagrams)?;
    let time = start.elapsed(rt)?;
    let (served, dropped) = (report.datagrams, report.dropped);
    drop(report);
    ensure!(served > 0, "no datagram was served");
    println!(rt;
        "{served} datagrams: {} ms, {dropped} replies dropped",
        time.as_millis()
    )?;
    print_memory(rt, alloc)
}
