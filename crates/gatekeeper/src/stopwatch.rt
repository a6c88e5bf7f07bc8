//! The clock of a server.

ghost use Rattle.std.specs.Prelude.{◌≡◌, IsNone};
ghost use Rattle.gatekeeper.specs.Clocks.{beginning, last_moment, moment_told};

use std::rt::Clock;
use std::time::Instant;
use surroundings::milliseconds_since;
use udp_server::Moments;
use zone_config::Moment;

/// A clock that tells the milliseconds since it began. If it can't be read, it stands still.
#[derive(Drop)]
pub struct Stopwatch<'a, R> {
    rt: &'a R,
    start: Option<Instant>,
    last: Moment,
}

impl<'a, R: Clock> Stopwatch<'a, R> {
    /// A clock that began at this moment; None if the system's clock couldn't be read then.
    pub fn new(rt: &'a R, start: Option<Instant>) -> Self
        ensures beginning { beginning result ≡ start }
        ensures last { last_moment result ≡ 0 }
    {
        Stopwatch {
            rt,
            start,
            last: Moment::START,
        }
    }
}

impl<R: Clock> Moments for Stopwatch<'_, R> {
    ghost tells = { λ old moment new. (new.last ≡ moment) × (new.start ≡ old.start) };

    /// What `moment_told` makes of the milliseconds since the beginning.
    fn now(&mut self) -> Moment
        ensures tells { (self.new.last ≡ result) × (self.new.start ≡ self.old.start) }
        ensures beginning { beginning self.new ≡ beginning self.old }
        ensures last { last_moment self.new ≡ result }
        ensures still { IsNone (beginning self.old) → result ≡ last_moment self.old }
    {
        let told = moment_told(self.last, milliseconds_since(self.rt, self.start));
        self.last = told;
        told
    }
}

/// What a clock tells that told `last` before and now reads `milliseconds`: that moment; but `last`
/// if it can't be read, or if the milliseconds are no moment.
///
/// promise clock-counts-whole-milliseconds: A clock tells the milliseconds that it reads, or the
/// last moment again (`moment_told`).
fn moment_told(last: Moment, milliseconds: Option<u64>) -> Moment
    ensures { result ≡ moment_told last milliseconds }
{
    match milliseconds {
        Some(milliseconds) => Moment::new(milliseconds).unwrap_or(last),
        None => last,
    }
}
