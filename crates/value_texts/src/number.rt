//! Whole numbers.

ghost use Rattle.std.specs.Prelude.{◌≡◌, ◌≤◌, IfSome};
ghost use Rattle.value_texts.specs.Texts.{number_of};

/// The number that the digits of a word write, if it lies from `low` to `high`.
///
/// promise texts-mean-one-number: A whole number is exactly what the text says, and None if it says
/// none; likewise names, addresses, networks and kinds of pools (`number_of`).
pub fn number_of(low: u64, high: u64, word: &[u8]) -> Option<u64>
    ensures value { result ≡ number_of low high word.now }
    ensures range { IfSome result (λ number. (low ≤ number) × (number ≤ high)) }
{
    let mut number = 0;
    for c in word {
        if !c.is_ascii_digit() {
            return None;
        }
        let digit = u64::from(*c - b'0');
        if number > high / 10 || digit > high - number * 10 {
            return None;
        }
        number = number * 10 + digit;
    }
    (!word.is_empty() && number >= low).then_some(number)
}
