//! What is asked.

ghost use Rattle.std.specs.Prelude.{◌≡◌};
ghost use Rattle.probing.specs.Requests.{discovery_octets};

use ras_module::Address;

/// The number of the request, which its answer has again.
pub const SEQ: u16 = 1;

/// The octets of a GatekeeperRequest (H.225.0) with number 1: of version 2, to be answered at this
/// address, from a terminal that names no gatekeeper.
pub fn discovery_request(ras: Address) -> [u8; 20]
    ensures { result ≡ discovery_octets ras }
{
    [
        0,
        0,
        0,
        0,
        6,
        0,
        8,
        0x91,
        0x4A,
        0,
        2,
        0,
        ras.ip[0],
        ras.ip[1],
        ras.ip[2],
        ras.ip[3],
        (ras.port / 256) as u8,
        (ras.port % 256) as u8,
        2,
        0,
    ]
}
