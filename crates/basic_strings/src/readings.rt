//! Numbers that strings spell.

ghost use Rattle.std.specs.Prelude.{◌≡◌, min, option_map};
ghost use Rattle.basic_strings.specs.Readings.{value_read, item_read, judged, number_spelled};
ghost use Rattle.basic_strings.specs.Readings.{size_spelled, with_sign, without_blanks};

use basic_values::errors::{DATA_FORMAT_ERROR, ILLEGAL_NUMBER, INTEGER_ERROR};
use basic_values::{Fault, Int, without_end_blanks, without_front_blanks};

/// The least absolute value that no 16-bit number has, with either sign.
const BEYOND_SIZE: u32 = 32769;

/// Returns the number that the string spells, an optional sign and digits with blanks around them:
/// the manual's VAL. Error 52: it spells no number; 51: the number does not have 16 bits.
#[tactic(auto, unfolding(crate::specs::Readings::value_read))]
pub fn val(bytes: &[u8]) -> Result<Int, Fault>
    ensures { result ≡ value_read bytes.now }
{
    number(trimmed(bytes), Fault::new(ILLEGAL_NUMBER))
}

/// Returns the number that an item of INPUT or READ spells: an optional sign, digits, and an
/// optional percent sign. Error 50: it spells no number; 51: the number does not have 16 bits.
#[tactic(auto, unfolding(crate::specs::Readings::item_read))]
pub fn item_number(bytes: &[u8]) -> Result<Int, Fault>
    ensures { result ≡ item_read bytes.now }
{
    match bytes {
        [rest @ .., b'%'] => number(rest, Fault::new(DATA_FORMAT_ERROR)),
        _ => number(bytes, Fault::new(DATA_FORMAT_ERROR)),
    }
}

/// Returns the string without the blanks around it.
fn trimmed(bytes: &[u8]) -> &[u8]
    ensures { result.now ≡ without_blanks bytes.now }
{
    without_end_blanks(without_front_blanks(bytes))
}

/// Returns whether the string begins with a minus, and what follows its sign.
fn signed(text: &[u8]) -> (bool, &[u8])
    ensures { option_map (with_sign result.0) (size_spelled result.1.now) ≡
        number_spelled text.entry.now }
{
    match text {
        [b'-', digits @ ..] => (true, digits),
        [b'+', digits @ ..] => (false, digits),
        _ => (false, text),
    }
}

/// Returns the number that an optional sign and digits spell.
fn number(text: &[u8], no_number: Fault) -> Result<Int, Fault>
    ensures { result ≡ judged no_number (number_spelled text.now) }
{
    let (is_negative, digits) = signed(text);
    in_range(is_negative, size(digits), no_number)
}

/// Returns the number with this sign and absolute value, or error 51 if it does not have 16 bits.
fn in_range(is_negative: bool, size: Option<u32>, no_number: Fault) -> Result<Int, Fault>
    ensures { result ≡ judged no_number (option_map (with_sign is_negative) size) }
{
    let Some(size) = size else {
        return Err(no_number);
    };
    let number = if is_negative {
        -i64::from(size)
    } else {
        i64::from(size)
    };
    match i16::try_from(number) {
        Ok(value) => Ok(Int::new(value)),
        Err(_) => Err(Fault::new(INTEGER_ERROR)),
    }
}

/// Returns the number that one or more digits spell, if the string is such digits. A number that is
/// too large for either sign counts as 32,769, the least of those.
fn size(text: &[u8]) -> Option<u32>
    ensures { result ≡ option_map (min 32769) (size_spelled text.now) }
{
    if text.is_empty() {
        return None;
    }
    let mut size = 0;
    for digit in text {
        if !digit.is_ascii_digit() {
            return None;
        }
        size = (size * 10 + u32::from(*digit - b'0')).min(BEYOND_SIZE);
    }
    Some(size)
}
