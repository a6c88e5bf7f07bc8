//! What is served.

ghost use Rattle.std.specs.Prelude.{IfOk};

use status_page::{Asked, Response};
use std::alloc::AllocError;
use std::time::Instant;

/// Who answers requests, until there is nothing more to be shown. Each call is to be short, since
/// others wait for it.
pub(crate) trait View: Drop {
    ghost use Rattle.std.specs.Prelude.{Bool, Option};
    ghost use Rattle.std.specs.declared.time.Instant.{Instant};
    ghost use Rattle.status_page.specs.declared.asked.Asked.{Asked};
    ghost use Rattle.status_page.specs.declared.response.Response.{Response};

    /// This is an answer to what is asked for.
    ghost answers: { Self → Asked → Response → Type 0 };

    /// What is asked for may be answered from this moment on, or now if there is none.
    ghost turns: { Self → Asked → Option Instant → Type 0 };

    /// At some moment there is nothing more to be shown, or there still is.
    ghost is_ended: { Self → Bool → Type 0 };

    /// The moment from which on what is asked for may be answered; None if it may be now.
    fn turn(&self, asked: &Asked) -> Option<Instant>
        ensures turn { turns self.now asked.now result };

    /// The response to what is asked for; Err for want of memory.
    fn response(&self, asked: Asked) -> Result<Response, AllocError>
        ensures answered { IfOk result (answers self.now asked) };

    /// Whether nothing more is to be shown.
    fn has_ended(&self) -> bool
        ensures told { is_ended self.now result };
}
