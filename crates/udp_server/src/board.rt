//! What the threads of a server tell one another: when they begin, how many workers have ended, and
//! that a reply waits for the sender.

ghost use Rattle.std.specs.Prelude.{◌≡◌, ◌≤◌, ◌↔◌, IfSome, IsSome};

use std::rt::Clock;
use std::sync::atomic::{AtomicBool, Ordering};
use std::sync::{Condvar, Mutex, Wait};
use std::thread::{Parker, yield_now};
use std::time::Duration;

/// How often the sender looks for one more reply before it sleeps: for some microseconds. To sleep
/// and to be woken takes longer, for it and for the worker that wakes it.
const LOOKS: usize = 64;

/// Whether the workers may begin.
#[derive(Clone, Copy, PartialEq, Eq)]
enum Start {
    Awaited,
    Given,
    Cancelled,
}

/// As many workers have ended as were awaited, or more.
#[derive(Clone, Copy)]
pub(crate) struct AllEnded {
    pub(crate) awaited: usize,
}

/// Tells that all those have ended who are awaited, if as many have.
fn if_all(ended: usize, awaited: usize) -> Option<AllEnded>
    ensures all { IsSome result ↔ (awaited ≤ ended) }
    ensures awaited { IfSome result (λ all. all.awaited ≡ awaited) }
{
    if ended < awaited {
        return None;
    }
    Some(AllEnded { awaited })
}

/// What the threads of a server tell one another.
#[derive(Drop)]
pub(crate) struct Board {
    start: Mutex<Start>,
    started: Condvar,
    ended: Mutex<usize>,
    ending: Condvar,
    sender: Parker,
    // whether a reply was handed over since the sender looked last, and whether it may sleep: each
    // side writes its own mark before it reads the other's, so that none is missed
    has_reply: AtomicBool,
    may_sleep: AtomicBool,
}

impl Board {
    /// No worker may begin yet, and none has ended.
    pub(crate) fn new() -> Board {
        Board {
            start: Mutex::new(Start::Awaited),
            started: Condvar::new(),
            ended: Mutex::new(0),
            ending: Condvar::new(),
            sender: Parker::new(),
            has_reply: AtomicBool::new(false),
            may_sleep: AtomicBool::new(false),
        }
    }

    /// Lets the workers begin.
    pub(crate) fn start(&self, rt: &impl Wait) {
        self.tell(rt, Start::Given);
    }

    /// Lets the workers end without having begun.
    pub(crate) fn cancel(&self, rt: &impl Wait) {
        self.tell(rt, Start::Cancelled);
    }

    fn tell(&self, rt: &impl Wait, start: Start) {
        *self.start.lock(rt) = start;
        self.started.notify_all();
    }

    /// Waits until the workers may begin, or are cancelled. Whether they may begin.
    pub(crate) fn may_begin(&self, rt: &impl Wait) -> bool {
        let start = self.started.wait_while(
            rt,
            self.start.lock(rt),
            |start| matches!(*start, Start::Awaited),
        );
        matches!(*start, Start::Given)
    }

    /// Tells the sender that a reply waits, and wakes it if it may sleep.
    pub(crate) fn wake_sender(&self) {
        self.has_reply.store(true, Ordering::SeqCst);
        if self.may_sleep.load(Ordering::SeqCst) {
            self.sender.unpark();
        }
    }

    /// Whether a reply was handed over since this was asked last, or is within some microseconds.
    pub(crate) fn has_reply_soon(&self) -> bool {
        for _ in 0..LOOKS {
            if self.has_reply.load(Ordering::SeqCst) {
                self.has_reply.store(false, Ordering::SeqCst);
                return true;
            }
            yield_now();
        }
        false
    }

    /// Waits for a reply, or for the end of a worker. It returns at once if there was one since it
    /// returned last.
    pub(crate) fn wait_for_reply(&self, rt: &impl Wait) {
        self.may_sleep.store(true, Ordering::SeqCst);
        if !self.has_reply.load(Ordering::SeqCst) {
            self.sender.park(rt);
        }
        self.may_sleep.store(false, Ordering::SeqCst);
    }

    /// One more worker has ended: it hands nothing more to the sender.
    pub(crate) fn end(&self, rt: &impl Wait) {
        let mut ended = self.ended.lock(rt);
        *ended = ended.saturating_add(1);
        drop(ended);
        self.ending.notify_all();
        self.sender.unpark();
    }

    /// Tells that this many workers have ended, if they have.
    pub(crate) fn have_ended(&self, rt: &impl Wait, workers: usize) -> Option<AllEnded>
        ensures { IfSome result (λ all. all.awaited ≡ workers) }
    {
        if_all(*self.ended.lock(rt), workers)
    }

    /// Waits for a tick, or until this many workers have ended. Whether they have.
    pub(crate) fn wait_for_tick<R: Wait + Clock>(
        &self,
        rt: &R,
        workers: usize,
        tick: Duration,
    ) -> bool {
        let ended = self.ended.lock(rt);
        let (ended, waited) = self
            .ending
            .wait_timeout_while(rt, ended, tick, |ended| if_all(*ended, workers).is_none());
        drop(ended);
        !waited.timed_out()
    }
}
