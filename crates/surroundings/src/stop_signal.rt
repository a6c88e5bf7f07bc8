//! Signals that ask the program to end. It is started with SIGTERM and SIGINT blocked, as
//! `./gatekeeper serve` starts it; a signal that came then waits, and the system tells so.

ghost use Rattle.std.specs.Prelude.{◌≡◌, ◌≢◌, ◌⊎◌, ◌↔◌, IfSome, IsFalse, IsTrue, string_bytes};
ghost use Rattle.std.specs.Option.{option_copied, option_map};
ghost use Rattle.surroundings.specs.Signals.{AsksToEnd, HasAsked, HasNotAsked, IsAsked};
ghost use Rattle.surroundings.specs.Signals.{IsNextLook, IsPause, waiting_in, waiting_of};

use std::marker::PhantomData;
use std::sync::atomic::{AtomicIn, Ordering, Rule};

/// The signals SIGINT, number 2, and SIGTERM, number 15, in a set of signals, of which the lowest
/// bit is number 1.
const ASKING: u64 = 1 << 1 | 1 << 14;

/// How long it is from one look at the signals to the next, in milliseconds.
const PAUSE: u64 = 100;

/// Which signals wait for the program, in digits to the base 16, if a line tells it.
fn waiting_in(line: &str) -> Option<&str>
    ensures { option_copied result ≡ waiting_in line.now }
{
    match line.strip_prefix("ShdPnd:") {
        Some(digits) => Some(digits.trim()),
        None => None,
    }
}

/// The same of the first line that tells it.
fn waiting(status: &str) -> Option<&str>
    ensures { option_copied result ≡ waiting_of status.now }
{
    for line in status.lines() {
        if let Some(digits) = waiting_in(line) {
            return Some(digits);
        }
    }
    None
}

/// Whether a signal that asks the program to end is among these.
fn asks(digits: &str) -> bool
    ensures { IsTrue result ↔ AsksToEnd digits.now }
{
    match u64::from_str_radix(digits, 16) {
        Ok(signals) => signals & ASKING != 0,
        Err(_) => false,
    }
}

/// Whether one of these signals waits, by what the system tells of the program.
fn is_asked(status: &str) -> bool
    ensures { IsTrue result ↔ IsAsked status.now }
{
    match waiting(status) {
        Some(digits) => asks(digits),
        None => false,
    }
}

/// What the system tells of a program, and how long it has run.
pub trait Signals: Drop {
    ghost use Rattle.std.specs.Prelude.{ℕ, List, Option};

    /// At some moment the system told this of the program; None: it told nothing.
    ghost told: { Option (List ℕ) → Type 0 } = { λ _. Unit {0} };

    /// At some moment so many milliseconds had passed.
    ghost passed: { ℕ → Type 0 } = { λ _. Unit {0} };

    /// What the system tells of the program, line by line; None if it tells nothing.
    fn status(&self) -> Option<String>
        ensures told { told (option_map string_bytes result) };

    /// How many milliseconds have passed; None if the clock can't be read.
    fn milliseconds(&self) -> Option<u64>
        ensures passed { IfSome result passed };
}

/// What is known of a word that is 0 until a signal has asked the program to end.
struct OnceAsked<S>(PhantomData<S>);

impl<S: Signals> Rule for OnceAsked<S> {
    ghost invariant = { λ word. word ≢ 0 → HasAsked S.told };
}

/// What is known of a word that tells in which millisecond the next look is due.
struct NextLook<S>(PhantomData<S>);

impl<S: Signals> Rule for NextLook<S> {
    ghost invariant = { IsNextLook S.passed };
}

/// A look at the signals now and then.
#[derive(Drop)]
pub struct StopSignal<S: Signals> {
    signals: S,
    next: AtomicIn<NextLook<S>>,
    was_asked: AtomicIn<OnceAsked<S>>,
}

impl<S: Signals> StopSignal<S> {
    /// A look that is due at once.
    pub fn new(signals: S) -> Self {
        StopSignal {
            signals,
            next: AtomicIn::new(0),
            was_asked: AtomicIn::new(0),
        }
    }

    /// Whether the system tells now that a signal asks the program to end.
    fn looks(&self) -> bool
        ensures asked { IsTrue result → HasAsked S.told }
        ensures unasked { IsFalse result → HasNotAsked S.told }
    {
        match self.signals.status() {
            Some(status) => is_asked(status.as_str()),
            None => false,
        }
    }

    /// Whether a look is due now. The next one is due after the pause. If the clock can't be read,
    /// each look is due.
    fn is_due(&self) -> bool
        ensures { IsFalse result → IsPause S.passed }
    {
        let Some(now) = self.signals.milliseconds() else {
            return true;
        };
        if now < self.next.load(Ordering::SeqCst) {
            return false;
        }
        self.next.store(now.saturating_add(PAUSE), Ordering::SeqCst);
        true
    }

    /// Whether a signal has asked the program to end.
    ///
    /// promise stop-signal-is-seen: That a signal has come is told only if the system told so; that
    /// none has, only if it was asked and didn't tell so, or within 100 milliseconds behind a look
    /// (`HasAsked`, `HasNotAsked`, `IsPause`).
    pub fn has_come(&self) -> bool
        ensures asked { IsTrue result → HasAsked S.told }
        ensures unasked { IsFalse result → HasNotAsked S.told ⊎ IsPause S.passed }
    {
        if self.was_asked.load(Ordering::SeqCst) != 0 {
            return true;
        }
        if !self.is_due() {
            return false;
        }
        let is_asked = self.looks();
        if is_asked {
            self.was_asked.store(1, Ordering::SeqCst);
        }
        is_asked
    }
}
