//! Counts, by what is counted.

ghost use Rattle.std.specs.Prelude.{◌≡◌, get_or};
ghost use Rattle.zone_view.specs.Counts.{count_at, no_counts, with_more, with_more_at};
ghost use Rattle.zone_view.specs.Counts.{with_one, with_step};

use crate::count::{Count, PLACES};
use crate::step_counts::StepCounts;
use std::marker::Model;

/// How often each of the things that are counted came. A count at `u64::MAX` stays there. Contracts
/// see the list of the numbers, by the places of what is counted.
#[derive(Clone, Copy)]
pub struct Counts {
    numbers: [u64; PLACES],
}

impl Model for Counts {
    ghost use Rattle.std.specs.Prelude.{ℕ, List};

    ghost Value = { List ℕ };

    ghost view = { λ c. c.numbers };

    ghost inverse = { λ numbers. record { numbers = numbers } };
}

impl Counts {
    /// Nothing came yet.
    pub fn none() -> Self
        ensures { result ≡ no_counts }
    {
        Counts {
            numbers: [0; PLACES],
        }
    }

    /// How often this came.
    pub fn get(&self, count: Count) -> u64
        ensures { result ≡ count_at count self.now }
    {
        self.numbers[count.place()]
    }

    /// The number at this place; 0 if there is none.
    pub fn at(&self, place: usize) -> u64
        ensures { result ≡ get_or self.now place 0 }
    {
        match self.numbers.get(place) {
            Some(number) => *number,
            None => 0,
        }
    }

    /// Adds to the count at this place, if there is one.
    pub fn add_at(&mut self, place: usize, more: u64)
        ensures { self.new ≡ with_more_at place more self.old }
    {
        if place < PLACES {
            self.numbers[place] = self.numbers[place].saturating_add(more);
        }
    }

    /// Adds to a count.
    ///
    /// promise counts-have-places-of-their-own: A count rises by what is added, and no other does;
    /// at its highest it stays (`with_more`).
    pub fn add(&mut self, count: Count, more: u64)
        ensures { self.new ≡ with_more count more self.old }
    {
        self.add_at(count.place(), more);
    }

    /// Counts what is counted of a step.
    pub fn add_step(&mut self, step: &StepCounts)
        ensures { self.new ≡ with_step step.now self.old }
    {
        for count in step.each() {
            self.add_one(count);
        }
    }

    /// Counts this once more, if it is there.
    fn add_one(&mut self, count: Option<Count>)
        ensures { self.new ≡ with_one count self.old }
    {
        if let Some(count) = count {
            self.add(count, 1);
        }
    }
}
