//! A moment with the place that has it.

/// A moment, in any unit, by which what stands at a place is due.
#[derive(Clone, Copy)]
pub struct Due {
    pub moment: u64,
    pub place: usize,
}
