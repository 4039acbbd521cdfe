//! Numbers written in digits.

ghost use Rattle.std.specs.Prelude.{◌≡◌};
ghost use Rattle.std.specs.Fmt.{signed_decimal};
ghost use Rattle.basic_values.specs.Numbers.{printed};
ghost use Rattle.basic_values.specs.Texts.{MakesText};

use arrayvec::ArrayVec;
use basic_values::{Halt, Int, Text, Trouble};
use itoa::Buffer;
use std::alloc::Global;

/// Returns a minus if the number is below 0, and its decimal digits.
pub fn digits(n: Int) -> ArrayVec<u8, 6>
    ensures { result.items ≡ signed_decimal n }
{
    let mut buffer = Buffer::new();
    let mut text = ArrayVec::new();
    text.try_extend_from_slice(buffer.format(n.value()).as_bytes())
        .unwrap();
    text
}

/// Returns a minus if the number is below 0, and its decimal digits: the manual's NUM1$.
pub fn num1(alloc: Global, n: Int) -> Result<Text, Trouble<Halt>>
    ensures { MakesText (signed_decimal n) result }
{
    Text::of(alloc, digits(n).as_slice())
}

/// Returns the number as PRINT writes it, a space or a minus, the digits, and a space: the manual's
/// NUM$.
pub fn num(alloc: Global, n: Int) -> Result<Text, Trouble<Halt>>
    ensures { MakesText (printed n) result }
{
    Text::of(alloc, n.printed().as_slice())
}
