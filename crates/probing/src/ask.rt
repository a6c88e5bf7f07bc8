//! Asking over a socket.

ghost use Rattle.std.specs.Prelude.{◌≡◌, IfErr, IfOk};
ghost use Rattle.std.specs.Duration.{as_nanos};
ghost use Rattle.std.specs.String.{string_bytes};
ghost use Rattle.probing.specs.Asking.{IsAskedOver};
ghost use Rattle.probing.specs.Sockets.{microseconds_between, microseconds_of};
ghost use Rattle.probing.specs.Statuses.{probe_status, silence_of};
ghost use Rattle.probing.specs.Told.{IsAnswerTold};

use crate::link::{Link, SocketLink, system_address};
use crate::request::discovery_request;
use crate::told::push_told;
use ras_module::Address;
use std::alloc::{AllocError, Global};
use std::io::ErrorKind;
use std::net::{Net, UdpSocket};
use std::rt::Clock;
use std::time::{Duration, Instant};
use thiserror::Error;

/// The octets that an answer has at most: a longer one is cut off, and isn't read.
const MOST: usize = 4_096;

/// Which gatekeeper is asked, from which address, if not from any, and for how many milliseconds it
/// is waited for.
#[derive(Clone, Copy)]
pub struct Probe {
    pub target: Address,
    pub from: Option<Address>,
    pub timeout: u64,
}

/// Why there is no answer.
#[derive(Clone, Copy, Debug, PartialEq, Eq, Error)]
pub enum ProbeFault {
    /// None came in time.
    #[error("no answer")]
    NoAnswer,
    /// The other machine says that nothing receives at this port.
    #[error("no answer: nothing receives at this address")]
    Refused,
    /// The request can't be sent.
    #[error("no answer: the request can't be sent")]
    NotSent,
    /// The address to ask from isn't bound.
    #[error("bind failed")]
    Bind,
    /// Memory is refused.
    #[error("out of memory")]
    Memory,
}

impl ProbeFault {
    /// The exit status: 1 if there is no answer, 3 if there is no memory, and 4 if the address
    /// isn't bound.
    pub fn status(&self) -> u8
        ensures { result ≡ probe_status self.now }
    {
        match self {
            ProbeFault::NoAnswer | ProbeFault::Refused | ProbeFault::NotSent => 1,
            ProbeFault::Memory => 3,
            ProbeFault::Bind => 4,
        }
    }

    /// Why nothing was received.
    fn of(kind: ErrorKind) -> ProbeFault
        ensures { result ≡ silence_of kind }
    {
        match kind {
            ErrorKind::ConnectionRefused => ProbeFault::Refused,
            _ => ProbeFault::NoAnswer,
        }
    }
}

impl From<AllocError> for ProbeFault {
    ghost use Rattle.std.specs.Prelude.{◌≡◌};
    ghost use Rattle.probing.specs.declared.ask.ProbeFault.TheVariants.{Memory};

    ghost from_gives = { λ _ fault. fault ≡ Memory };

    fn from(_: AllocError) -> ProbeFault {
        ProbeFault::Memory
    }
}

/// A socket over which is asked.
fn bound<R: Net>(rt: &R, from: Option<Address>) -> Result<UdpSocket, ProbeFault>
    ensures { IfErr result (λ fault. fault ≡ ProbeFault.Bind) }
{
    let any = Address {
        ip: [0; 4],
        port: 0,
    };
    UdpSocket::bind(rt, system_address(from.unwrap_or(any))).map_err(|_| ProbeFault::Bind)
}

/// The microseconds from this moment to that one; 0 if the clock couldn't be read at one of them.
fn microseconds_between(start: Option<Instant>, now: Option<Instant>) -> u64
    ensures { result ≡ microseconds_between start now }
{
    match (start, now) {
        (Some(start), Some(now)) => microseconds_in(now.duration_since(start)),
        _ => 0,
    }
}

/// The whole microseconds of this duration; `u64::MAX` if they are more.
fn microseconds_in(passed: Duration) -> u64
    ensures { result ≡ microseconds_of (as_nanos passed) }
{
    u64::try_from(passed.as_micros()).unwrap_or(u64::MAX)
}

/// Asks a gatekeeper over a link whether it is there, and tells its answer, as `ask_gatekeeper`
/// does.
///
/// promise probe-tells-what-it-heard: Over whatever link it asks, a probe lets only the address
/// that is asked be heard, asks to be answered at the link's own address, and tells the octets that
/// came, with the time from sending to their coming (`IsAskedOver`).
fn ask_over<L: Link>(
    alloc: Global,
    link: &L,
    probe: Probe,
    out: &mut String,
) -> Result<bool, ProbeFault>
    ensures { IfOk result (IsAskedOver L.Link link.now probe (string_bytes out.old)
        (string_bytes out.new)) }
{
    if link.connect(probe.target, probe.timeout).is_err() {
        return Err(ProbeFault::NotSent);
    }
    let Some(own) = link.own() else {
        return Err(ProbeFault::NotSent);
    };
    let Ok(start) = link.send(&discovery_request(own)) else {
        return Err(ProbeFault::NotSent);
    };
    let mut buffer = [0u8; MOST];
    match link.receive(&mut buffer) {
        Ok((count, now)) => {
            let microseconds = microseconds_between(start, now);
            Ok(push_told(alloc, out, &buffer[..count], microseconds)?)
        }
        Err(error) => Err(ProbeFault::of(error.kind())),
    }
}

/// Asks a gatekeeper whether it is there, and writes a line that tells how its answer reads. Says
/// whether it confirms that it is.
pub fn ask_gatekeeper<R: Net + Clock>(
    rt: &R,
    alloc: Global,
    probe: Probe,
    out: &mut String,
) -> Result<bool, ProbeFault>
    ensures { IfOk result (λ found. IsAnswerTold (string_bytes out.old) (string_bytes out.new)
        found) }
{
    let socket = bound(rt, probe.from)?;
    ask_over(alloc, &SocketLink { rt, socket }, probe, out)
}
