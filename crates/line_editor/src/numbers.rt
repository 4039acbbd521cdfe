//! The number that a line begins with.

ghost use Rattle.std.specs.Prelude.{◌≡◌, min, true};
ghost use Rattle.std.specs.Char.{is_ascii_digit};
ghost use Rattle.std.specs.List.{list_all};
ghost use Rattle.std.specs.Str.Parse.{digits_value};
ghost use Rattle.line_editor.specs.Numbers.{HasNumber};

use basic_values::digits_in_front;

/// Represents every number that is too large for a line.
const TOO_GREAT: u32 = 32768;

/// A line that begins with a number.
#[derive(Clone, Copy)]
pub struct Numbered<'a> {
    /// The number, or 32768 if it is larger than that.
    pub number: u16,
    /// What follows the number.
    pub rest: &'a [u8],
}

/// Returns the number that a line begins with, all its leading digits, and what follows it. Returns
/// `None` if the line does not begin with a digit.
pub fn line_number(line: &[u8]) -> Option<Numbered<'_>>
    ensures { HasNumber line.entry.now result }
{
    let count = digits_in_front(line);
    if count == 0 {
        return None;
    }
    Some(Numbered {
        number: value_of(&line[..count]),
        rest: &line[count..],
    })
}

/// Returns the value of the digits, or 32768 if it is larger than that.
fn value_of(digits: &[u8]) -> u16
    requires { list_all is_ascii_digit digits.now ≡ true }
    ensures { result ≡ min (digits_value 10 digits.now) TOO_GREAT }
{
    let mut value: u32 = 0;
    for digit in digits {
        value = (value * 10 + u32::from(*digit - b'0')).min(TOO_GREAT);
    }
    value as u16
}
