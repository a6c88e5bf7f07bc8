//! Networks of IPv4 addresses.

ghost use Rattle.std.specs.Prelude.{◌≡◌, ◌≤◌, IfSome};
ghost use Rattle.value_texts.specs.Texts.{network_of, number_of};

use crate::address::octet_of;
use crate::number::number_of;
use crate::parts::parted;
use zone_config::Network;

fn bits_of(word: &[u8]) -> Option<u8>
    ensures value { result ≡ number_of 0 32 word.now }
    ensures range { IfSome result (λ bits. bits ≤ 32) }
{
    match number_of(0, 32, word) {
        Some(number) => Some(number as u8),
        None => None,
    }
}

/// The network that a word writes as `A.B.C.D/BITS`.
pub fn network_of(word: &[u8]) -> Option<Network>
    ensures value { result ≡ network_of word.now }
    ensures bits { IfSome result (λ network. network.bits ≤ 32) }
{
    let (a, rest) = parted(word, b'.');
    let (b, rest) = parted(rest, b'.');
    let (c, rest) = parted(rest, b'.');
    let (d, bits) = parted(rest, b'/');
    Some(Network {
        ip: [octet_of(a)?, octet_of(b)?, octet_of(c)?, octet_of(d)?],
        bits: bits_of(bits)?,
    })
}
