//! Binding the address of the status page.

ghost use Rattle.std.specs.Prelude.{◌≡◌, IfErr, IfOk, IsErrAnd, Ok, Some};
ghost use Rattle.std.specs.IoError.{error_kind};
ghost use Rattle.status_server.specs.Bind.{address_of, cause_text, fault_of};

use ras_module::Address;
use std::io::{self, ErrorKind};
use std::net::{IpAddr, Ipv4Addr, Net, SocketAddr, TcpListener, TcpStream};
use thiserror::Error;

/// A listener that is bound to the address of the status page.
#[derive(Drop)]
pub struct BoundListener {
    pub(crate) listener: TcpListener,
}

/// Why an address isn't bound. It is shown as `bind failed`, whatever the cause.
#[derive(Clone, Copy, PartialEq, Eq, Debug, Error)]
pub enum BindFault {
    /// Another program has it.
    #[error("bind failed")]
    InUse,
    /// It is none of this machine's.
    #[error("bind failed")]
    NotHere,
    /// Its port is for others.
    #[error("bind failed")]
    NotPermitted,
    /// The system says no for another cause.
    #[error("bind failed")]
    Other,
}

impl BindFault {
    fn of(kind: ErrorKind) -> BindFault
        ensures { result ≡ fault_of kind }
    {
        match kind {
            ErrorKind::AddrInUse => BindFault::InUse,
            ErrorKind::AddrNotAvailable => BindFault::NotHere,
            ErrorKind::PermissionDenied => BindFault::NotPermitted,
            _ => BindFault::Other,
        }
    }

    /// The cause, as a person is told it.
    pub fn cause(&self) -> &'static str
        ensures { result.now ≡ cause_text self.now }
    {
        match self {
            BindFault::InUse => "another program uses this address",
            BindFault::NotHere => "this machine has no such address",
            BindFault::NotPermitted => "not permitted",
            BindFault::Other => "the system refuses it",
        }
    }
}

/// Binds the address of the status page, and listens there.
pub fn bind_status<R: Net<Listener = TcpListener, Stream = TcpStream>>(
    rt: &R,
    address: Address,
) -> Result<BoundListener, BindFault> {
    bound_in(TcpListener::bind(rt, system_address(address)))
}

/// A listener that the system has bound, or why it hasn't.
fn bound_in(bound: io::Result<TcpListener>) -> Result<BoundListener, BindFault>
    ensures ok { IfOk result (λ own. bound ≡ Ok own.listener) }
    ensures err { IfErr result (λ fault.
        IsErrAnd bound (λ error. fault ≡ fault_of (error_kind error))) }
{
    match bound {
        Ok(listener) => Ok(BoundListener { listener }),
        Err(error) => Err(BindFault::of(error.kind())),
    }
}

impl BoundListener {
    /// The address that is bound; None if the system doesn't tell one of IPv4. If the port 0 was
    /// asked for, the system has chosen another.
    pub fn address(&self) -> Option<Address> {
        ipv4_address(self.listener.local_addr().ok()?)
    }
}

/// The address as the system has it.
fn system_address(address: Address) -> SocketAddr
    ensures { address_of result ≡ Some address }
{
    let [a, b, c, d] = address.ip;
    SocketAddr::new(IpAddr::V4(Ipv4Addr::new(a, b, c, d)), address.port)
}

/// An address of the system's; None if it isn't one of IPv4.
fn ipv4_address(address: SocketAddr) -> Option<Address>
    ensures { result ≡ address_of address }
{
    match address {
        SocketAddr::V4(address) => Some(Address {
            ip: address.ip().octets(),
            port: address.port(),
        }),
        SocketAddr::V6(_) => None,
    }
}
