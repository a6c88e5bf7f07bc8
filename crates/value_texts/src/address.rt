//! Addresses of endpoints and gatekeepers.

ghost use Rattle.std.specs.Prelude.{◌≡◌};
ghost use Rattle.value_texts.specs.Texts.{address_of, number_of};

use crate::number::number_of;
use crate::parts::parted;
use ras_module::Address;

/// The octet that a word writes, from 0 to 255.
pub(crate) fn octet_of(word: &[u8]) -> Option<u8>
    ensures { result ≡ number_of 0 255 word.now }
{
    match number_of(0, 255, word) {
        Some(number) => Some(number as u8),
        None => None,
    }
}

fn port_of(word: &[u8]) -> Option<u16>
    ensures { result ≡ number_of 0 65535 word.now }
{
    match number_of(0, 65_535, word) {
        Some(number) => Some(number as u16),
        None => None,
    }
}

/// The address that a word writes as `A.B.C.D:PORT`.
pub fn address_of(word: &[u8]) -> Option<Address>
    ensures { result ≡ address_of word.now }
{
    let (a, rest) = parted(word, b'.');
    let (b, rest) = parted(rest, b'.');
    let (c, rest) = parted(rest, b'.');
    let (d, port) = parted(rest, b':');
    Some(Address {
        ip: [octet_of(a)?, octet_of(b)?, octet_of(c)?, octet_of(d)?],
        port: port_of(port)?,
    })
}
