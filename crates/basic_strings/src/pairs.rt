//! Numbers as two bytes, the high one first.

ghost use Rattle.std.specs.Prelude.{◌≡◌};
ghost use Rattle.basic_values.specs.Texts.{MakesText};
ghost use Rattle.basic_strings.specs.Pairs.{pair_of, number_in};

use basic_values::{Halt, Int, Text, Trouble};
use std::alloc::Global;

/// Returns the high byte and the low byte of the number: the manual's CVT%$.
pub fn text_of(alloc: Global, n: Int) -> Result<Text, Trouble<Halt>>
    ensures { MakesText (pair_of n) result }
{
    Text::of(alloc, &n.value().to_be_bytes())
}

/// Returns the number of the first two bytes; a missing byte counts as 0. The manual's CVT$%.
pub fn number_of(bytes: &[u8]) -> Int
    ensures { result ≡ number_in bytes.now }
{
    let high = bytes.first().copied().unwrap_or(0);
    let low = bytes.get(1).copied().unwrap_or(0);
    Int::new(i16::from_be_bytes([high, low]))
}
