//! How old something is.

ghost use Rattle.std.specs.Prelude.{◌*◌, ◌<◌, ◌↔◌, IsSomeAnd, IsTrue};
ghost use Rattle.std.specs.Duration.{as_nanos};

use std::time::{Clock, Duration, Instant};

/// Whether a moment was less than `most` milliseconds ago; not if the clock doesn't tell.
pub(crate) fn is_fresh<R: Clock>(rt: &R, moment: Instant, most: u64) -> bool {
    is_young(moment.elapsed(rt).ok(), most)
}

/// Whether an age is known, and less than `most` milliseconds.
fn is_young(age: Option<Duration>, most: u64) -> bool
    ensures { IsTrue result ↔ IsSomeAnd age (λ age. as_nanos age < most * 1000000) }
{
    match age {
        Some(age) => age.as_millis() < u128::from(most),
        None => false,
    }
}
