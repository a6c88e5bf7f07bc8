//! What the system tells of this program.

use crate::elapsed::milliseconds_since;
use crate::stop_signal::Signals;
use std::alloc::Global;
use std::fs;
use std::rt::{Clock, Files};
use std::time::Instant;

/// Where the system tells it.
const STATUS: &str = "/proc/self/status";

/// This program, as the system tells of it, and the time since it began.
#[derive(Drop)]
pub struct ThisProgram<'a, R> {
    rt: &'a R,
    alloc: Global,
    start: Option<Instant>,
}

impl<'a, R: Clock> ThisProgram<'a, R> {
    /// It begins now.
    pub fn new(rt: &'a R, alloc: Global) -> Self {
        ThisProgram {
            rt,
            alloc,
            start: Instant::now(rt).ok(),
        }
    }
}

impl<R: Clock + Files> Signals for ThisProgram<'_, R> {
    fn status(&self) -> Option<String> {
        fs::read_to_string(&(self.rt, self.alloc), STATUS).ok()
    }

    fn milliseconds(&self) -> Option<u64> {
        milliseconds_since(self.rt, self.start)
    }
}
