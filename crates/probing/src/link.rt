//! Over what a gatekeeper is asked.

ghost use Rattle.std.specs.Prelude.{◌≡◌, ◌≤◌, IfOk, IfSome, Some, length, take};
ghost use Rattle.probing.specs.Sockets.{address_of};

use ras_module::Address;
use std::io;
use std::net::{IpAddr, Ipv4Addr, SocketAddr, UdpSocket};
use std::rt::Clock;
use std::time::{Duration, Instant};

/// Over what a gatekeeper is asked. A moment is None if the clock can't be read.
pub(crate) trait Link {
    ghost use Rattle.std.specs.Prelude.{ℕ, List, Option};
    ghost use Rattle.std.specs.declared.time.Instant.{Instant};
    ghost use Rattle.ras_module.specs.declared.address.Address.{Address};

    /// Only this address is heard over it, and no longer than for so many milliseconds.
    ghost hears: { Self → Address → ℕ → Type 0 };

    /// This is its own address.
    ghost has_own: { Self → Address → Type 0 };

    /// These octets are sent over it, from this moment on.
    ghost has_sent: { Self → List ℕ → Option Instant → Type 0 };

    /// These octets have come over it, by this moment.
    ghost has_come: { Self → List ℕ → Option Instant → Type 0 };

    /// Lets only this address be heard, and no longer than for so many milliseconds.
    fn connect(&self, target: Address, timeout: u64) -> io::Result<()>
        ensures { IfOk result (λ _. hears self.now target timeout) };

    /// Its own address; None if it has none of IPv4.
    fn own(&self) -> Option<Address>
        ensures { IfSome result (has_own self.now) };

    /// Sends octets, and tells the moment before.
    fn send(&self, octets: &[u8]) -> io::Result<Option<Instant>>
        ensures { IfOk result (has_sent self.now octets.now) };

    /// Waits for octets, puts them at the front of these, and tells how many they are and the
    /// moment behind.
    fn receive(&self, octets: &mut [u8]) -> io::Result<(usize, Option<Instant>)>
        ensures count { IfOk result (λ came. came.0 ≤ length octets.new) }
        ensures come { IfOk result (λ came.
            has_come self.now (take came.0 octets.new) came.1) };
}

/// A socket and the clock.
#[derive(Drop)]
pub(crate) struct SocketLink<'a, R> {
    pub(crate) rt: &'a R,
    pub(crate) socket: UdpSocket,
}

impl<R: Clock> Link for SocketLink<'_, R> {
    // (the toolchain's contracts don't tell what a socket does)
    ghost hears = { λ _ _ _. Unit {0} };

    ghost has_own = { λ _ _. Unit {0} };

    ghost has_sent = { λ _ _ _. Unit {0} };

    ghost has_come = { λ _ _ _. Unit {0} };

    fn connect(&self, target: Address, timeout: u64) -> io::Result<()> {
        self.socket.connect(system_address(target))?;
        self.socket
            .set_read_timeout(Some(Duration::from_millis(timeout)))
    }

    fn own(&self) -> Option<Address> {
        ipv4_address(self.socket.local_addr().ok()?)
    }

    fn send(&self, octets: &[u8]) -> io::Result<Option<Instant>> {
        let start = Instant::now(self.rt).ok();
        self.socket.send(octets)?;
        Ok(start)
    }

    fn receive(&self, octets: &mut [u8]) -> io::Result<(usize, Option<Instant>)> {
        let count = self.socket.recv(octets)?;
        Ok((count, Instant::now(self.rt).ok()))
    }
}

/// The address as the system has it.
pub(crate) fn system_address(address: Address) -> SocketAddr
    ensures { address_of result ≡ Some address }
{
    let [a, b, c, d] = address.ip;
    SocketAddr::new(IpAddr::V4(Ipv4Addr::new(a, b, c, d)), address.port)
}

/// An address of the system's; None if it isn't one of IPv4.
fn ipv4_address(address: SocketAddr) -> Option<Address>
    ensures { result ≡ address_of address }
{
    match address {
        SocketAddr::V4(address) => Some(Address {
            ip: address.ip().octets(),
            port: address.port(),
        }),
        SocketAddr::V6(_) => None,
    }
}
