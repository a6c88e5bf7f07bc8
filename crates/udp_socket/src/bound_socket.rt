//! Binding the address of a zone.

ghost use Rattle.std.specs.Prelude.{◌≡◌};
ghost use Rattle.std.specs.Int.{cast_signed, from_le_bytes, w32};
ghost use Rattle.udp_socket.specs.Buffers.{half_of};
ghost use Rattle.udp_socket.specs.Causes.{cause_text, fault_of};
ghost use Rattle.udp_socket.specs.Limits.{receives_left};

use crate::addresses::{ras_address, system_address};
use crate::end::SocketEnd;
use crate::stop::Stop;
use ras_module::Address;
use std::io::{self, ErrorKind};
use std::net::{Net, UdpSocket};
use std::os::fd::AsRawFd;
use std::time::Duration;
use thiserror::Error;

/// For how many milliseconds a receive waits for a datagram: an end that is to stop does so within
/// this time.
const WAIT: u64 = 200;

/// A socket that is bound to the address of a zone.
#[derive(Drop)]
pub struct BoundSocket {
    socket: UdpSocket,
}

/// Why an address isn't bound. It is shown as `bind failed`, whatever the cause.
#[derive(Clone, Copy, PartialEq, Eq, Debug, Error)]
pub enum BindFault {
    /// Another program has it.
    #[error("bind failed")]
    InUse,
    /// It is none of this machine's.
    #[error("bind failed")]
    NotHere,
    /// Its port is for others.
    #[error("bind failed")]
    NotPermitted,
    /// The system says no for another cause.
    #[error("bind failed")]
    Other,
}

impl BindFault {
    fn of(kind: ErrorKind) -> BindFault
        ensures { result ≡ fault_of kind }
    {
        match kind {
            ErrorKind::AddrInUse => BindFault::InUse,
            ErrorKind::AddrNotAvailable => BindFault::NotHere,
            ErrorKind::PermissionDenied => BindFault::NotPermitted,
            _ => BindFault::Other,
        }
    }

    /// The cause, as a person is told it.
    pub fn cause(&self) -> &'static str
        ensures { result.now ≡ cause_text self.now }
    {
        match self {
            BindFault::InUse => "another program uses this address",
            BindFault::NotHere => "this machine has no such address",
            BindFault::NotPermitted => "not permitted",
            BindFault::Other => "the system refuses it",
        }
    }
}

/// Binds the address of a zone.
pub fn bind_zone<R: Net>(rt: &R, address: Address) -> Result<BoundSocket, BindFault> {
    match bound(rt, address) {
        Ok(socket) => Ok(BoundSocket { socket }),
        Err(error) => Err(BindFault::of(error.kind())),
    }
}

fn bound<R: Net>(rt: &R, address: Address) -> io::Result<UdpSocket> {
    let socket = UdpSocket::bind(rt, system_address(address))?;
    socket.set_read_timeout(Some(Duration::from_millis(WAIT)))?;
    Ok(socket)
}

impl BoundSocket {
    /// An end that receives and sends over the socket. It stops after this many receives, if a
    /// number is given, and once it is told to.
    pub fn end<'a, S: Stop>(&'a self, receives: Option<u64>, stop: &'a S) -> SocketEnd<'a, S>
        ensures { receives_left result ≡ receives }
    {
        SocketEnd::new(&self.socket, receives, stop)
    }

    /// The address that is bound; None if the system doesn't tell one of IPv4. If the port 0 was
    /// asked for, the system has chosen another.
    pub fn address(&self) -> Option<Address> {
        ras_address(self.socket.local_addr().ok()?)
    }

    /// Asks the system to hold this many octets of datagrams that aren't received yet. Returns how
    /// many it grants, which may be fewer; None if it doesn't tell.
    pub fn reserve_buffer(&self, octets: u64) -> Option<u64> {
        let asked = i32::try_from(octets).ok()?;
        let mut value = [0u8; 16];
        value[..4].copy_from_slice(&asked.to_ne_bytes());
        let level = libc::net::SOL_SOCKET;
        let option = libc::net::SO_RCVBUF;
        let socket = self.socket.as_raw_fd();
        let mut granted = [0u8; 16];
        let mut length = 4u32;
        // The option is a C int of four octets at the front of each buffer.
        let answer = unsafe {
            libc::net::setsockopt(socket, level, option, &value, 4);
            libc::net::getsockopt(socket, level, option, &mut granted, &mut length)
        };
        if answer != 0 {
            return None;
        }
        let [a, b, c, d, ..] = granted;
        granted_of([a, b, c, d])
    }
}

/// How many octets the system grants, by what it tells in a C int of its own: Linux counts its own
/// needs in, and so tells twice what it grants. None if it tells a number below 0.
fn granted_of(told: [u8; 4]) -> Option<u64>
    ensures { result ≡ half_of (cast_signed w32 (from_le_bytes w32 told)) }
{
    let told = u64::try_from(i32::from_ne_bytes(told)).ok()?;
    Some(told / 2)
}
