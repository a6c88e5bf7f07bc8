//! Octets as hexadecimal digits.
//!
//! The loops have no table and no way out before their end, so that compilers make them handle many
//! octets at a time.

ghost use Rattle.std.specs.Prelude.{◌≡◌, ◌*◌, ◌<◌, IfOk, IsTrue, None, Ok, false, length};
ghost use Rattle.std.specs.Prelude.{slice_index, unwrap_or};
ghost use Rattle.std.specs.Result.{result_ok};
ghost use Rattle.hex.specs.Hex.{decode_pairs, encode_upper, hex_digit_value, upper_digits};
ghost use Rattle.script.specs.Fields.{octets_of};

use ras_module::Octets;
use std::alloc::{AllocError, Global};

/// What stands for the value of an octet that is no digit.
const NO_VALUE: u8 = 16;

/// The digit of a number below 16.
fn digit_of(number: u8) -> u8
    requires { number < 16 }
    ensures { result ≡ slice_index upper_digits number }
{
    if number < 10 {
        b'0' + number
    } else {
        b'A' - 10 + number
    }
}

/// Puts the digits of octets into a slice that is twice as long.
pub(crate) fn put_digits(octets: &[u8], digits: &mut [u8])
    requires { length digits.old ≡ 2 * length octets.now }
    ensures { digits.new ≡ encode_upper octets.now }
{
    for i in 0..octets.len() {
        digits[2 * i] = digit_of(octets[i] / 16);
        digits[2 * i + 1] = digit_of(octets[i] % 16);
    }
}

/// The value of a digit in either case; 16 for an octet that is no digit.
fn value_of(digit: u8) -> u8
    ensures { result ≡ unwrap_or (hex_digit_value digit) 16 }
{
    let number = digit.wrapping_sub(b'0');
    let upper = digit.wrapping_sub(b'A');
    let lower = digit.wrapping_sub(b'a');
    if number < 10 {
        number
    } else if upper < 6 {
        upper + 10
    } else if lower < 6 {
        lower + 10
    } else {
        NO_VALUE
    }
}

/// Puts the octets of pairs of digits into a slice that is half as long, and says whether all of
/// them are digits.
fn put_octets(digits: &[u8], octets: &mut [u8]) -> bool
    requires { length digits.now ≡ 2 * length octets.old }
    ensures good { IsTrue result → decode_pairs 0 digits.now ≡ Ok octets.new }
    ensures bad { result ≡ false → result_ok (decode_pairs 0 digits.now) ≡ None }
{
    let mut most = 0u8;
    for i in 0..octets.len() {
        let (first, second) = (digits[2 * i], digits[2 * i + 1]);
        let high = value_of(first);
        let low = value_of(second);
        most = most.max(high).max(low);
        // What this makes of an octet that is no digit doesn't matter, but it has to fit.
        octets[i] = high.wrapping_mul(16).wrapping_add(low);
    }
    most < NO_VALUE
}

/// The octets that a word writes as pairs of digits.
pub(crate) fn octets_of(alloc: Global, word: &[u8]) -> Result<Option<Octets>, AllocError>
    ensures { IfOk result (λ octets. octets ≡ octets_of word.now) }
{
    if word.len() % 2 != 0 {
        return Ok(None);
    }
    let mut octets = vec![in alloc; 0u8; word.len() / 2]?;
    if !put_octets(word, octets.as_mut_slice()) {
        return Ok(None);
    }
    Ok(Some(Octets::from_vec(octets)))
}
