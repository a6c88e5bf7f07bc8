//! Addresses, as the system has them and as RAS messages have them.

ghost use Rattle.std.specs.Prelude.{◌≡◌, Some};
ghost use Rattle.udp_socket.specs.Ends.{address_of};

use ras_module::Address;
use std::net::{IpAddr, Ipv4Addr, SocketAddr};

/// The address as the system has it.
pub(crate) fn system_address(address: Address) -> SocketAddr
    ensures { address_of result ≡ Some address }
{
    let [a, b, c, d] = address.ip;
    SocketAddr::new(IpAddr::V4(Ipv4Addr::new(a, b, c, d)), address.port)
}

/// The address as RAS messages have it; None if it isn't one of IPv4.
pub(crate) fn ras_address(address: SocketAddr) -> Option<Address>
    ensures { result ≡ address_of address }
{
    match address {
        SocketAddr::V4(address) => Some(Address {
            ip: address.ip().octets(),
            port: address.port(),
        }),
        SocketAddr::V6(_) => None,
    }
}
