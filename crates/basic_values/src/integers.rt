//! Integers of 16 bits.

ghost use Rattle.std.specs.Prelude.{◌≡◌, ◌+ℤ◌};
ghost use Rattle.basic_values.specs.Numbers.{wrap, printed};

use arrayvec::ArrayVec;
use itoa::Buffer;
use std::marker::Model;

/// An integer from -32768 to 32767. Its arithmetic keeps the low 16 bits.
#[derive(Clone, Copy, Debug, PartialEq, Eq, PartialOrd, Ord)]
pub struct Int(i16);

impl Model for Int {
    ghost use Rattle.std.specs.Prelude.{ℤ};

    ghost Value = { ℤ };

    ghost view = { λ n. n.0 };

    ghost inverse = { λ z. record { 0 = z } };
}

impl Int {
    /// Returns the integer with this value.
    pub fn new(value: i16) -> Int
        ensures { result ≡ value }
    {
        Int(value)
    }

    /// Returns the value.
    pub fn value(self) -> i16
        ensures { result ≡ self }
    {
        self.0
    }

    /// Returns the sum, wrapped to 16 bits: the manual's `+`.
    pub fn add(self, b: Int) -> Int
        ensures { result ≡ wrap (self +ℤ b) }
    {
        Int(self.0.wrapping_add(b.0))
    }

    /// Returns what PRINT writes: a space or a minus, the digits, and a space.
    pub fn printed(self) -> ArrayVec<u8, 8>
        ensures { result.items ≡ printed self }
    {
        let mut buffer = Buffer::new();
        let digits = buffer.format(self.0.unsigned_abs()).as_bytes();
        let mut text = ArrayVec::new();
        text.push(if self.0 < 0 { b'-' } else { b' ' });
        text.try_extend_from_slice(digits).unwrap();
        text.push(b' ');
        text
    }
}
