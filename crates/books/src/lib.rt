//! Books of a zone: where its history begins, and each step that was made since, with who made it.
//! Nothing here makes a step.
//!
//! proved: a chapter's entries lead from its first state to its last (`Chapter`)
#![tactic(auto)]

mod book;
mod chapter;
mod finished;
mod kind;
mod laws;
mod shared;
mod totals;

pub use book::{Book, Entry, Receipt};
pub use chapter::Chapter;
pub use finished::Finished;
pub use kind::StepKind;
pub use laws::{
    a_book_begins_without_entries, a_book_goes_on_by_a_step, a_book_uses_no_more_than_is_lent,
    a_step_uses_no_more_than_is_lent,
};
pub use shared::SharedSnapshot;
pub use totals::{Totals, totals_of, units_lent};
