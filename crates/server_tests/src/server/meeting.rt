//! A worker, or the sender, that is held until others have passed.

ghost use Rattle.std.specs.Prelude.{◌≡◌};

use crate::server::fixtures::{ENDPOINT, discovery};
use std::rt::Clock;
use std::sync::atomic::{AtomicBool, AtomicU64, Ordering};
use std::thread;
use std::time::Duration;
use udp_server::{Datagrams, DeviceFault, Gate, Received, Stage};
use zone_events::Datagram;

/// For how many milliseconds one is held at most.
const PATIENCE: usize = 10_000;

/// Who is held, and where.
#[derive(Clone, Copy, PartialEq, Eq)]
pub enum Held {
    /// This worker, inside its receive, until the other one has posted its reply.
    Receive(usize),
    /// This worker, at this stage, until the other one has posted its reply.
    Worker(usize, Stage),
    /// The sender, inside its first send, until both workers have posted theirs.
    Send,
}

/// What those who meet know of one another.
#[derive(Drop)]
pub struct Meeting<'a, R> {
    pub rt: &'a R,
    pub held: Held,
    /// Whether the first and the second worker have posted a reply.
    pub first: AtomicBool,
    pub second: AtomicBool,
    /// How many were held for as long as patience lasts.
    pub impatient: AtomicU64,
}

impl<'a, R: Clock> Meeting<'a, R> {
    pub fn new(rt: &'a R, held: Held) -> Self {
        Meeting {
            rt,
            held,
            first: AtomicBool::new(false),
            second: AtomicBool::new(false),
            impatient: AtomicU64::new(0),
        }
    }

    fn has_posted(&self, worker: usize) -> bool {
        match worker {
            0 => self.first.load(Ordering::SeqCst),
            _ => self.second.load(Ordering::SeqCst),
        }
    }

    /// Holds who calls until both of these workers have posted a reply.
    fn hold(&self, one: usize, other: usize) {
        for _ in 0..PATIENCE {
            if self.has_posted(one) && self.has_posted(other) {
                return;
            }
            thread::sleep(self.rt, Duration::from_millis(1));
        }
        self.impatient.fetch_add(1, Ordering::SeqCst);
    }

    /// Holds who is at this place, if it is the one who is held.
    fn pass(&self, place: Held) {
        if place == self.held {
            match place {
                Held::Receive(worker) | Held::Worker(worker, _) => {
                    self.hold(1 - worker % 2, 1 - worker % 2);
                }
                Held::Send => self.hold(0, 1),
            }
        }
    }
}

impl<R: Clock> Gate for Meeting<'_, R> {
    fn pass(&self, worker: usize, stage: Stage) {
        Meeting::pass(self, Held::Worker(worker, stage));
        if stage == Stage::AfterPost {
            match worker {
                0 => self.first.store(true, Ordering::SeqCst),
                1 => self.second.store(true, Ordering::SeqCst),
                _ => {}
            }
        }
    }
}

/// An end of a worker with one datagram, or the end of the sender.
#[derive(Drop)]
pub struct Guest<'a, R> {
    meeting: &'a Meeting<'a, R>,
    worker: usize,
    has_received: bool,
    has_sent: bool,
}

impl<'a, R: Clock> Guest<'a, R> {
    pub fn new(meeting: &'a Meeting<'a, R>, worker: usize) -> Self {
        Guest {
            meeting,
            worker,
            has_received: false,
            has_sent: false,
        }
    }
}

impl<R: Clock> Datagrams for Guest<'_, R> {
    ghost faults = { λ end. 0 };

    fn receive(&mut self, buffer: &mut [u8; 4_097]) -> Result<Received, DeviceFault> {
        if self.has_received {
            return Ok(Received::Stopped);
        }
        self.has_received = true;
        self.meeting.pass(Held::Receive(self.worker));
        let octets = discovery((self.worker % 2) as u8, 1);
        buffer[..octets.len()].copy_from_slice(&octets);
        Ok(Received::Datagram(ENDPOINT, octets.len()))
    }

    fn send(&mut self, _datagram: &Datagram) -> Result<(), DeviceFault> {
        if !self.has_sent {
            self.has_sent = true;
            self.meeting.pass(Held::Send);
        }
        Ok(())
    }

    fn failures(&self) -> u64 {
        0
    }
}
