//! Transport addresses.

/// An IPv4 address with a port: the `ipAddress` of a TransportAddress (H.225.0, TransportAddress).
#[derive(Clone, Copy, Debug, PartialEq, Eq, Hash)]
pub struct Address {
    /// The four octets, the first of the dotted form first.
    pub ip: [u8; 4],
    pub port: u16,
}

/// The address that a datagram came from, to which its reply goes.
pub type Source = Address;
