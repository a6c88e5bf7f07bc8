//! When the silence of an endpoint ends, and what is due of it then.

ghost use Rattle.std.specs.Prelude.{◌≡◌, ◌+◌, ◌<◌, nat_le};
ghost use Rattle.std.specs.FinMap as map;
ghost use Rattle.keyed.specs.Maps.{Changed};
ghost use Rattle.registrations.specs.Silence.{end_in_call, end_of, is_silent, is_to_be_asked};

use crate::registration::Registration;
use crate::times::Times;
use deadlines::Deadlines;

/// When the silence of an endpoint with this many legs ends, in milliseconds.
pub(crate) fn end_of(registration: &Registration, legs: usize, times: &Times) -> Option<u64>
    ensures { result ≡ end_of times.now legs registration.now }
{
    if legs == 0 {
        return None;
    }
    end_in_call(registration, times)
}

/// When the silence of an endpoint in a call ends. None if no clock reaches that moment, or if the
/// endpoint was interrogated more than `asks` times.
fn end_in_call(registration: &Registration, times: &Times) -> Option<u64>
    ensures { result ≡ end_in_call times.now registration.now }
{
    if registration.tries == 0 {
        return registration.heard.checked_add(times.silence);
    }
    if registration.tries > times.asks {
        return None;
    }
    registration.asked.checked_add(times.ask_wait)
}

/// Whether an endpoint in a call is to be asked for a sign of life. Moments are in milliseconds.
pub fn is_to_be_asked(registration: &Registration, now: u64, times: &Times) -> bool
    ensures { result ≡ is_to_be_asked times.now now registration.now }
{
    if registration.tries == 0 {
        return has_passed(registration.heard, times.silence, now);
    }
    registration.tries < times.asks && has_passed(registration.asked, times.ask_wait, now)
}

/// Whether an endpoint in a call was interrogated `asks` times and gave no sign of life. Moments
/// are in milliseconds.
pub fn is_silent(registration: &Registration, now: u64, times: &Times) -> bool
    ensures { result ≡ is_silent times.now now registration.now }
{
    registration.tries == times.asks && has_passed(registration.asked, times.ask_wait, now)
}

/// Whether the time `wait` has passed since a moment.
const fn has_passed(since: u64, wait: u64, now: u64) -> bool
    ensures { result ≡ nat_le (since + wait) now }
{
    since <= now && wait <= now - since
}

/// Gives this place the moment, or none.
pub(crate) fn write_end(ends: &mut Deadlines, place: usize, end: Option<u64>)
    requires { place < ends.old.room }
    ensures moments { Changed (map.get ends.old.moments) (map.get ends.new.moments) place end }
    ensures room { ends.new.room ≡ ends.old.room }
{
    match end {
        Some(moment) => ends.set(place, moment),
        None => ends.clear(place),
    }
}
