//! Time that has passed.

ghost use Rattle.std.specs.Prelude.{◌≡◌, IsNone};
ghost use Rattle.std.specs.Duration.{as_nanos};
ghost use Rattle.surroundings.specs.Elapsed.{milliseconds_between, milliseconds_of};

use std::rt::Clock;
use std::time::{Duration, Instant};

/// The milliseconds since this moment. None if the clock can't be read now, or couldn't be read
/// then.
pub fn milliseconds_since<R: Clock>(rt: &R, start: Option<Instant>) -> Option<u64>
    ensures { IsNone start → IsNone result }
{
    let now = Instant::now(rt).ok();
    milliseconds_between(start, now)
}

/// The milliseconds from this moment to that one. None if and only if the clock couldn't be read at
/// one of them.
fn milliseconds_between(start: Option<Instant>, now: Option<Instant>) -> Option<u64>
    ensures { result ≡ milliseconds_between start now }
{
    match (start, now) {
        (Some(start), Some(now)) => Some(milliseconds_in(now.duration_since(start))),
        _ => None,
    }
}

/// The whole milliseconds of this duration; `u64::MAX` if they are more.
fn milliseconds_in(passed: Duration) -> u64
    ensures { result ≡ milliseconds_of (as_nanos passed) }
{
    u64::try_from(passed.as_millis()).unwrap_or(u64::MAX)
}
