//! Clocks of tests.

use ras_core::Moment;
use std::alloc::Global;
use std::sync::atomic::{AtomicU64, Ordering};
use udp_server::Moments;

/// A clock that stands still, and counts how often it is read.
#[derive(Drop)]
pub struct Still<'a> {
    reads: Option<&'a AtomicU64>,
}

impl Moments for Still<'_> {
    fn now(&mut self) -> Moment {
        if let Some(reads) = self.reads {
            reads.fetch_add(1, Ordering::SeqCst);
        }
        Moment::START
    }
}

/// A clock for each of this many receiving ends, and for the timers one whose reads are counted.
pub fn clocks<'a>(alloc: Global, ends: usize, reads: &'a AtomicU64) -> Option<Vec<Still<'a>>> {
    let mut clocks = Vec::new(alloc);
    for _end in 0..ends {
        clocks.push(Still { reads: None }).ok()?;
    }
    clocks.push(Still { reads: Some(reads) }).ok()?;
    Some(clocks)
}

/// A clock that stands at the start, and at this millisecond once this many replies were sent.
#[derive(Drop)]
pub struct Leap<'a> {
    pub sent: &'a AtomicU64,
    pub awaited: u64,
    pub to: u64,
}

impl Moments for Leap<'_> {
    fn now(&mut self) -> Moment {
        if self.sent.load(Ordering::SeqCst) < self.awaited {
            return Moment::START;
        }
        Moment::new(self.to).unwrap_or(Moment::START)
    }
}

/// Two such clocks, which leap to the same millisecond: the first one once so many replies were
/// sent, and the second one, that of the timers, once so many were.
pub fn leaps<'a>(
    alloc: Global,
    sent: &'a AtomicU64,
    first: u64,
    second: u64,
    to: u64,
) -> Option<Vec<Leap<'a>>> {
    let mut clocks = Vec::new(alloc);
    for awaited in [first, second] {
        clocks.push(Leap { sent, awaited, to }).ok()?;
    }
    Some(clocks)
}
