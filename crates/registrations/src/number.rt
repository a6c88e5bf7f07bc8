//! Numbers as identifiers.

ghost use Rattle.std.specs.Prelude.{◌≡◌, ◌≤◌, ◌<◌, ◌-◌, ℕ, length, drop, slice_index};
ghost use Rattle.ras_module.specs.Texts.{IsText};
ghost use Rattle.registrations.specs.Numbers.{number_of, next_number, number_in, start_after};
ghost use Rattle.registrations.specs.Numbers.{with_digit};

use ras_module::{BmpString, EndpointId};

/// The identifier that is written as this number, in at least four decimal digits.
#[tactic(auto, using(crate::proofs::Digits::identifier_text))]
pub(crate) fn numbered(number: u64) -> EndpointId
    ensures number { number_of result ≡ number }
    ensures text { IsText 128 result }
{
    let digits = digits_of(number);
    let start = first_of(&digits);
    let characters = BmpString::new(&digits[start..]).unwrap();
    EndpointId::new(characters)
}

/// Twenty digits: a `u64` has no more.
fn digits_of(number: u64) -> [u16; 20]
    ensures { number_of result ≡ number }
{
    let mut digits = [48; 20];
    let mut rest = number;
    for k in 0..20 {
        digits[19 - k] = 48 + (rest % 10) as u16;
        rest /= 10;
    }
    digits
}

/// Where the text begins in these digits. It has at least four of them.
fn first_of(digits: &[u16; 20]) -> usize
    ensures start { result ≤ 16 }
    ensures same { number_of (drop result digits.now) ≡ number_of digits.now }
{
    let mut start = 0;
    while start < 16 && digits[start] == 48 {
        start += 1;
    }
    start
}

/// The number with one more digit. None if the character isn't one, and if the number is too large.
fn with_digit(number: u64, character: u16) -> Option<u64>
    ensures { result ≡ with_digit number character }
{
    if !(48..=57).contains(&character) {
        return None;
    }
    number
        .checked_mul(10)?
        .checked_add(u64::from(character - 48))
}

/// The number that a text of decimal digits stands for. None for any other text, and for a number
/// that is too large.
fn number_in(identifier: &EndpointId) -> Option<u64>
    ensures { result ≡ number_in identifier.now }
{
    let mut number = 0;
    for character in identifier.as_slice() {
        number = with_digit(number, *character)?;
    }
    Some(number)
}

/// The next number. After the last one it is 1.
pub(crate) fn after(number: u64) -> u64
    ensures { result ≡ next_number number }
{
    if number == u64::MAX { 1 } else { number + 1 }
}

/// Where the search for an unused identifier begins once this one is in use.
pub(crate) fn raised(start: u64, identifier: &EndpointId) -> u64
    ensures { result ≡ start_after start identifier.now }
{
    match number_in(identifier) {
        Some(number) if start <= number => after(number),
        _ => start,
    }
}
