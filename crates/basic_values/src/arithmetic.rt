//! The arithmetic operators on integers.

ghost use Rattle.std.specs.Prelude.{◌≡◌, ◌-ℤ◌, ◌*ℤ◌, neg_ℤ};
ghost use Rattle.basic_values.specs.Numbers.{wrap};
ghost use Rattle.basic_values.specs.Arithmetic.{power, quotient};

use crate::errors::DIVISION_BY_ZERO;
use crate::failures::Fault;
use crate::integers::Int;

impl Int {
    /// Returns the difference, wrapped to 16 bits: the manual's `-`.
    pub fn sub(self, b: Int) -> Int
        ensures { result ≡ wrap (self -ℤ b) }
    {
        Int::new(self.value().wrapping_sub(b.value()))
    }

    /// Returns the product, wrapped to 16 bits: the manual's `*`.
    pub fn mul(self, b: Int) -> Int
        ensures { result ≡ wrap (self *ℤ b) }
    {
        Int::new(self.value().wrapping_mul(b.value()))
    }

    /// Returns the negated number, wrapped to 16 bits: the manual's unary `-`.
    pub fn neg(self) -> Int
        ensures { result ≡ wrap (neg_ℤ self) }
    {
        Int::new(self.value().wrapping_neg())
    }

    /// Returns the power, wrapped once at the end: the manual's `^`. An exponent below 0 gives 1
    /// divided by the power, without its fraction.
    pub fn power(self, b: Int) -> Int
        ensures { result ≡ power self b }
    {
        let exponent = b.value();
        let base = self.value();
        if exponent >= 0 {
            return Int::new(base.wrapping_pow(u32::from(exponent.unsigned_abs())));
        }
        if base == 1 {
            return Int::new(1);
        }
        if base != -1 {
            return Int::new(0);
        }
        Int::new(if exponent.unsigned_abs() % 2 == 0 {
            1
        } else {
            -1
        })
    }

    /// Returns the quotient without its fraction, wrapped to 16 bits: the manual's `/`. If `b` is
    /// 0, the error is 61.
    pub fn div(self, b: Int) -> Result<Int, Fault>
        ensures { result ≡ quotient self b }
    {
        if b.value() == 0 {
            return Err(Fault::new(DIVISION_BY_ZERO));
        }
        Ok(Int::new(self.value().wrapping_div(b.value())))
    }
}
