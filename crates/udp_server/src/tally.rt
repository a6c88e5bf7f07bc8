//! What the threads of a server count while it runs, where others may read it. Each thread writes
//! numbers of its own, which stand apart in memory, so that none waits for another. Contracts tell
//! nothing of these numbers: the report's are counted by the threads for themselves.

use crate::sender::SendCounts;
use crate::worker::Counts as WorkerCounts;
use std::alloc::{AllocError, Global};
use std::sync::atomic::{AtomicU64, Ordering};
use zone_view::{Counts, PLACES, ServerFigures, StepCounts};

/// How many octets a processor takes from memory at a time, in numbers of eight octets, twice: on
/// either side of a thread's numbers stand as many that nobody writes.
const MARGIN: usize = 16;

/// Where the numbers of a worker stand that the report has as well, behind those of its steps.
const RECEIVED: usize = MARGIN + PLACES;

const DROPPED: usize = RECEIVED + 1;

const REFUSED: usize = RECEIVED + 2;

const FAULTS: usize = RECEIVED + 3;

const ALL: usize = RECEIVED + 4 + MARGIN;

/// The numbers of one worker. Only that worker writes them.
#[derive(Drop)]
pub(crate) struct Tally {
    numbers: Vec<AtomicU64>,
}

impl Tally {
    fn new(alloc: Global) -> Result<Tally, AllocError> {
        let mut numbers = Vec::with_capacity(alloc, ALL)?;
        for _number in 0..ALL {
            numbers.push_reserved(AtomicU64::new(0));
        }
        Ok(Tally { numbers })
    }

    fn get(&self, place: usize) -> u64 {
        match self.numbers.get(place) {
            Some(number) => number.load(Ordering::Relaxed),
            None => 0,
        }
    }

    fn set(&self, place: usize, value: u64) {
        if let Some(number) = self.numbers.get(place) {
            number.store(value, Ordering::Relaxed);
        }
    }

    /// Counts `more` at a place. Nobody else writes meanwhile, so that none is lost.
    fn add(&self, place: usize, more: u64) {
        self.set(place, self.get(place).saturating_add(more));
    }

    /// Counts a step.
    pub(crate) fn count_step(&self, step: &StepCounts) {
        for count in &step.each() {
            if let Some(count) = count {
                self.add(MARGIN + count.place(), 1);
            }
        }
    }

    /// Counts what was counted of several steps.
    pub(crate) fn count_steps(&self, counts: &Counts) {
        for place in 0..PLACES {
            self.add(MARGIN + place, counts.at(place));
        }
    }

    /// One more datagram was received.
    pub(crate) fn count_received(&self) {
        self.add(RECEIVED, 1);
    }

    /// Shows what the worker counted for the report.
    pub(crate) fn show(&self, counts: WorkerCounts) {
        self.set(DROPPED, counts.dropped);
        self.set(REFUSED, counts.refused);
        self.set(FAULTS, counts.faults);
    }

    /// Adds what was counted of this worker's steps.
    fn add_to(&self, counts: &mut Counts) {
        for place in 0..PLACES {
            counts.add_at(place, self.get(MARGIN + place));
        }
    }
}

/// The numbers of all workers, and those of the sender.
#[derive(Drop)]
pub(crate) struct Tallies {
    workers: Vec<Tally>,
    sent: AtomicU64,
    send_faults: AtomicU64,
}

impl Tallies {
    /// Nothing was counted yet by this many workers.
    pub(crate) fn new(alloc: Global, workers: usize) -> Result<Tallies, AllocError> {
        let mut tallies = Vec::with_capacity(alloc, workers)?;
        for _worker in 0..workers {
            tallies.push_reserved(Tally::new(alloc)?);
        }
        Ok(Tallies {
            workers: tallies,
            sent: AtomicU64::new(0),
            send_faults: AtomicU64::new(0),
        })
    }

    /// Those of the worker with this number.
    pub(crate) fn of_worker(&self, number: usize) -> Option<&Tally> {
        self.workers.get(number)
    }

    /// Shows what the sender counted.
    pub(crate) fn show_sent(&self, counts: SendCounts) {
        self.sent.store(counts.replies, Ordering::Relaxed);
        self.send_faults.store(counts.faults, Ordering::Relaxed);
    }

    /// What was counted of the steps of all workers.
    pub(crate) fn counts(&self) -> Counts {
        let mut counts = Counts::none();
        for tally in &self.workers {
            tally.add_to(&mut counts);
        }
        counts
    }

    /// What the server counted beside.
    pub(crate) fn server(&self) -> ServerFigures {
        let mut figures = ServerFigures {
            received: 0,
            sent: self.sent.load(Ordering::Relaxed),
            dropped: 0,
            refused: 0,
            receive_faults: 0,
            send_faults: self.send_faults.load(Ordering::Relaxed),
        };
        for tally in &self.workers {
            figures.received = figures.received.saturating_add(tally.get(RECEIVED));
            figures.dropped = figures.dropped.saturating_add(tally.get(DROPPED));
            figures.refused = figures.refused.saturating_add(tally.get(REFUSED));
            figures.receive_faults = figures.receive_faults.saturating_add(tally.get(FAULTS));
        }
        figures
    }
}
