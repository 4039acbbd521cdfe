//! Numbers in decimal digits.

ghost use Rattle.std.specs.Prelude.{◌≡◌, ◌≤◌, ◌↔◌, length, IsTrue};
ghost use Rattle.std.specs.Str.Parse.{digits_value, AllDigits};
ghost use Rattle.basic_values.specs.Decimals.{number_between};

use itoa::Buffer;

/// The largest number of digits of a 32-bit number.
const MOST_DIGITS: usize = 10;

/// Returns the number that the string spells in decimal digits without a leading zero, if it is
/// from `low` to `high`.
pub fn number_between(low: u32, high: u32, text: &[u8]) -> Option<u32>
    ensures { result ≡ number_between low high text.now }
{
    if text.len() > MOST_DIGITS || !is_digits(text) {
        return None;
    }
    let value = value_of_digits(text);
    let mut buffer = Buffer::new();
    let is_plain = text == buffer.format(value).as_bytes();
    if is_plain && u64::from(low) <= value && value <= u64::from(high) {
        Some(value as u32)
    } else {
        None
    }
}

fn is_digits(text: &[u8]) -> bool
    ensures { IsTrue result ↔ AllDigits 10 text.now }
{
    for byte in text {
        if !byte.is_ascii_digit() {
            return false;
        }
    }
    true
}

/// Returns the number that at most 10 digits spell.
fn value_of_digits(digits: &[u8]) -> u64
    requires short { length digits.now ≤ 10 }
    requires digits { AllDigits 10 digits.now }
    ensures { result ≡ digits_value 10 digits.now }
{
    let mut value: u64 = 0;
    for digit in digits {
        value = value * 10 + u64::from(*digit - b'0');
    }
    value
}
