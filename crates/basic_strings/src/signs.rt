//! A number without its sign, and its sign.

ghost use Rattle.std.specs.Prelude.{◌≡◌};
ghost use Rattle.basic_strings.specs.Signs.{absolute, signum};

use basic_values::Int;

/// Returns the absolute value, wrapped: that of -32768 is -32768. The manual's ABS%.
pub fn abs(n: Int) -> Int
    ensures { result ≡ absolute n }
{
    Int::new(n.value().wrapping_abs())
}

/// Returns -1, 0 or 1: the manual's SGN.
pub fn sgn(n: Int) -> Int
    ensures { result ≡ signum n }
{
    Int::new(n.value().signum())
}
