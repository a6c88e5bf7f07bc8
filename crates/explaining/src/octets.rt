//! Octets that are written as digits of base 16.

ghost use Rattle.std.specs.Prelude.{◌≡◌, IfOk};
ghost use Rattle.explaining.specs.Lines.{digits_in, is_between, octets_in};

use hex::FromHexError;
use ras_module::Octets;
use std::alloc::{AllocError, Global};

/// Whether a character stands between octets: a space, a tab, a colon, or what some systems have
/// before the end of a line.
pub(crate) fn is_between(c: u8) -> bool
    ensures { result ≡ is_between c }
{
    c == b' ' || c == b'\t' || c == b':' || c == b'\r'
}

/// The characters of a text that don't stand between octets.
fn digits_in(alloc: Global, text: &[u8]) -> Result<Vec<u8>, AllocError>
    ensures { IfOk result (λ digits. digits.items ≡ digits_in text.now) }
{
    let mut digits = Vec::new(alloc);
    for c in text {
        if !is_between(*c) {
            digits.push(*c)?;
        }
    }
    Ok(digits)
}

/// The octets that a text writes, each as two digits in either case. Spaces, tabs and colons are
/// passed over. None if it writes none.
pub fn octets_in(alloc: Global, text: &[u8]) -> Result<Option<Octets>, AllocError>
    ensures { IfOk result (λ octets. octets ≡ octets_in text.now) }
{
    let digits = digits_in(alloc, text)?;
    match hex::decode(alloc, digits.as_slice()) {
        Ok(octets) => Ok(Some(Octets::from_vec(octets))),
        Err(FromHexError::OutOfMemory) => Err(AllocError),
        Err(_) => Ok(None),
    }
}
