//! The operators on the 16 bits of an integer.

ghost use Rattle.std.specs.Prelude.{◌≡◌};
ghost use Rattle.basic_values.specs.Bits.{both, either, differing, alike, implied, negated};
ghost use Rattle.basic_values.specs.Bits.{swapped};

use crate::integers::Int;

impl Int {
    /// Sets each bit that is 1 in both numbers: the manual's AND.
    pub fn and(self, b: Int) -> Int
        ensures { result ≡ both self b }
    {
        Int::new(self.value() & b.value())
    }

    /// Sets each bit that is 1 in at least one of the numbers: the manual's OR.
    pub fn or(self, b: Int) -> Int
        ensures { result ≡ either self b }
    {
        Int::new(self.value() | b.value())
    }

    /// Sets each bit in which the numbers differ: the manual's XOR.
    pub fn xor(self, b: Int) -> Int
        ensures { result ≡ differing self b }
    {
        Int::new(self.value() ^ b.value())
    }

    /// Sets each bit in which the numbers are the same: the manual's EQV.
    pub fn eqv(self, b: Int) -> Int
        ensures { result ≡ alike self b }
    {
        Int::new(!(self.value() ^ b.value()))
    }

    /// Sets each bit except where the first number has 1 and the second 0: the manual's IMP.
    pub fn imp(self, b: Int) -> Int
        ensures { result ≡ implied self b }
    {
        Int::new(!self.value() | b.value())
    }

    /// Inverts each bit: the manual's NOT.
    pub fn not(self) -> Int
        ensures { result ≡ negated self }
    {
        Int::new(!self.value())
    }

    /// Exchanges the two bytes: the manual's SWAP%.
    pub fn swap(self) -> Int
        ensures { result ≡ swapped self }
    {
        Int::new(self.value().swap_bytes())
    }
}
