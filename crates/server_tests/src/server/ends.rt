//! Ends in memory.

ghost use Rattle.std.specs.Prelude.{◌≤◌, length};
ghost use Rattle.udp_server.specs.Ends.{IsWithin};

use crate::server::fixtures::{CALLED, ENDPOINT, discovery};
use ras_module::Source;
use std::alloc::Global;
use std::rt::Clock;
use std::sync::atomic::{AtomicU64, Ordering};
use std::thread;
use std::time::Duration;
use udp_server::{Datagrams, DeviceFault, Received};
use vectors::requests::{ARQ, RRQ_101, RRQ_102};
use zone_events::Datagram;

/// For how many milliseconds an end waits for the timers at most.
const PATIENCE: u64 = 10_000;

/// What the ends of a run share.
#[derive(Drop)]
pub struct Room<'a, R> {
    rt: &'a R,
    /// How many datagrams were sent.
    pub sent: AtomicU64,
    /// How often the timers' clock was read.
    pub reads: AtomicU64,
    /// How many ends lost their patience.
    pub impatient: AtomicU64,
}

impl<'a, R> Room<'a, R> {
    pub fn new(rt: &'a R) -> Self {
        Room {
            rt,
            sent: AtomicU64::new(0),
            reads: AtomicU64::new(0),
            impatient: AtomicU64::new(0),
        }
    }
}

/// An end that gives `left` discoveries, then is quiet until the timers' clock was read some times
/// more, and then has stopped. Each send succeeds.
#[derive(Drop)]
pub struct Giver<'a, R> {
    room: &'a Room<'a, R>,
    number: u8,
    left: u64,
    patience: u64,
    reads_awaited: u64,
    reads_before: Option<u64>,
}

impl<'a, R: Clock> Giver<'a, R> {
    pub fn new(room: &'a Room<'a, R>, number: u8, left: u64, reads_awaited: u64) -> Self {
        Giver {
            room,
            number,
            left,
            patience: PATIENCE,
            reads_awaited,
            reads_before: None,
        }
    }

    /// Whether the timers' clock was read as often as is waited for, or patience is lost.
    fn has_waited(&mut self) -> bool {
        let reads = self.room.reads.load(Ordering::SeqCst);
        let before = match self.reads_before {
            Some(before) => before,
            None => {
                self.reads_before = Some(reads);
                reads
            }
        };
        if reads.saturating_sub(before) >= self.reads_awaited {
            return true;
        }
        if self.patience == 0 {
            self.room.impatient.fetch_add(1, Ordering::SeqCst);
            return true;
        }
        self.patience -= 1;
        thread::sleep(self.room.rt, Duration::from_millis(1));
        false
    }
}

impl<R: Clock> Datagrams for Giver<'_, R> {
    ghost faults = { λ end. 0 };

    fn receive(&mut self, buffer: &mut [u8; 4_097]) -> Result<Received, DeviceFault> {
        if self.left == 0 {
            return Ok(if self.has_waited() {
                Received::Stopped
            } else {
                Received::Quiet
            });
        }
        let octets = discovery(self.number, self.left);
        self.left -= 1;
        buffer[..octets.len()].copy_from_slice(&octets);
        Ok(Received::Datagram(ENDPOINT, octets.len()))
    }

    fn send(&mut self, _datagram: &Datagram) -> Result<(), DeviceFault> {
        self.room.sent.fetch_add(1, Ordering::SeqCst);
        Ok(())
    }

    fn failures(&self) -> u64 {
        0
    }
}

/// `ends` ends, each of which gives `datagrams` datagrams.
pub fn givers<'a, R: Clock>(
    alloc: Global,
    room: &'a Room<'a, R>,
    ends: u8,
    datagrams: u64,
    reads_awaited: u64,
) -> Option<Vec<Giver<'a, R>>> {
    let mut all = Vec::new(alloc);
    for number in 0..ends {
        all.push(Giver::new(room, number, datagrams, reads_awaited))
            .ok()?;
    }
    Some(all)
}

/// An end that gives so many requests, of which `left` are left: two registrations and the
/// admission of a call, and then discoveries. It is quiet until as many replies were sent, and then
/// has stopped.
#[derive(Drop)]
pub struct Caller<'a, R> {
    rt: &'a R,
    sent: &'a AtomicU64,
    all: u64,
    left: u64,
    patience: u64,
}

impl<'a, R: Clock> Caller<'a, R> {
    pub fn new(rt: &'a R, sent: &'a AtomicU64, all: u64, left: u64) -> Self {
        Caller {
            rt,
            sent,
            all,
            left,
            patience: PATIENCE,
        }
    }
}

impl<R: Clock> Datagrams for Caller<'_, R> {
    ghost faults = { λ end. 0 };

    fn receive(&mut self, buffer: &mut [u8; 4_097]) -> Result<Received, DeviceFault> {
        if self.left == 0 {
            if self.sent.load(Ordering::SeqCst) >= self.all || self.patience == 0 {
                return Ok(Received::Stopped);
            }
            self.patience -= 1;
            thread::sleep(self.rt, Duration::from_millis(1));
            return Ok(Received::Quiet);
        }
        self.left -= 1;
        Ok(match self.all.saturating_sub(self.left) {
            1 => given(buffer, ENDPOINT, &RRQ_101),
            2 => given(buffer, CALLED, &RRQ_102),
            3 => given(buffer, ENDPOINT, &ARQ),
            _ => given(buffer, ENDPOINT, &discovery(0, self.left)),
        })
    }

    fn send(&mut self, _datagram: &Datagram) -> Result<(), DeviceFault> {
        self.sent.fetch_add(1, Ordering::SeqCst);
        Ok(())
    }

    fn failures(&self) -> u64 {
        0
    }
}

/// A datagram with these octets.
pub fn given(buffer: &mut [u8; 4_097], source: Source, octets: &[u8]) -> Received
    requires { length octets.now ≤ 4097 }
    ensures { IsWithin result }
{
    buffer[..octets.len()].copy_from_slice(octets);
    Received::Datagram(source, octets.len())
}
