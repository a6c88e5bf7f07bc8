//! How often each of several things came.

use std::alloc::{AllocError, Global};
use std::fmt;

/// How often each thing came, in the order in which they came first.
#[derive(Drop)]
pub struct Counts<T: Copy> {
    entries: Vec<(T, u64)>,
}

impl<T: Copy + PartialEq> Counts<T> {
    /// Nothing came.
    pub fn new(alloc: Global) -> Self {
        Self {
            entries: Vec::new(alloc),
        }
    }

    /// This came once more.
    pub fn add(&mut self, thing: T) -> Result<(), AllocError> {
        for (known, count) in self.entries.iter_mut() {
            if *known == thing {
                *count = count.saturating_add(1);
                return Ok(());
            }
        }
        self.entries.push((thing, 1))?;
        Ok(())
    }

    /// How often anything came.
    pub fn total(&self) -> u64 {
        let mut total: u64 = 0;
        for (_, count) in &self.entries {
            total = total.saturating_add(*count);
        }
        total
    }

    /// Each thing, with how often it came.
    pub fn entries(&self) -> &[(T, u64)] {
        &self.entries
    }
}

/// The total, and how often each came.
impl fmt::Display for Counts<&'static str> {
    fn fmt<W: fmt::Write>(&self, f: &mut fmt::Formatter<W>) -> fmt::Result {
        write!(f, "{}", self.total())?;
        let mut mark = " (";
        for (name, count) in &self.entries {
            write!(f, "{mark}{name} {count}")?;
            mark = ", ";
        }
        if self.entries.is_empty() {
            Ok(())
        } else {
            f.write_str(")")
        }
    }
}
