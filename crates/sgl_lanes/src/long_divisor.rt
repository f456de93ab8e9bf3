//! Division by a number that is written, for all numbers of the language. Its inverse takes a division itself, and is made only
//! where numbers are not short.
ghost use Rattle.std.specs.Prelude.{◌≡◌, ◌<◌, ◌≤◌, ◌/◌, ◌%◌, pos, int_div, int_rem, unsigned_abs};
ghost use Rattle.sgl_values.specs.Values.{quotient, remainder};
ghost use Rattle.sgl_lanes.specs.Divisors.{IsLongDivisor};

use crate::divisor::DIVISOR_END;
use crate::near::near_number;
use sgl_values::{ArithFault, Num};

/// A divisor from 2 on, with 2^64 over it, rounded up.
#[derive(Clone, Copy)]
pub(crate) struct LongDivisor {
    pub(crate) number: u32,
    pub(crate) inverse: u64,
}

impl LongDivisor {
    /// A number with its inverse.
    pub(crate) fn with_inverse(number: u32) -> LongDivisor
        requires from { 2 ≤ number }
        requires below { number < DIVISOR_END }
        ensures divisor { IsLongDivisor result }
        ensures number { result.number ≡ number }
    {
        LongDivisor {
            number,
            inverse: u64::MAX / u64::from(number) + 1,
        }
    }

    // The quotient of a size.
    fn share(&self, size: u64) -> u64
        requires divisor { IsLongDivisor self.now }
        requires size { size ≤ 1000000000000 }
        ensures { result ≡ size / self.now.number }
    {
        let product = u128::from(size) * u128::from(self.inverse);
        (product >> 64) as u64
    }

    // The quotient of a number, rounded toward zero.
    fn over(&self, number: Num) -> i64
        requires divisor { IsLongDivisor self.now }
        ensures quotient { result ≡ int_div number (pos self.now.number) }
        ensures small { unsigned_abs result ≤ 500000000000 }
    {
        let number = number.get();
        let size = self.share(number.unsigned_abs()) as i64;
        if number < 0 { -size } else { size }
    }

    /// The quotient of a number.
    pub(crate) fn quotient(&self, number: Num) -> Result<Num, ArithFault>
        requires { IsLongDivisor self.now }
        ensures { result ≡ quotient number (pos self.now.number) }
    {
        Ok(near_number(self.over(number)))
    }

    // What the quotient of a size leaves. That it is below the end of divisors tells compilers that it has no more bits.
    fn rest(&self, size: u64) -> u64
        requires divisor { IsLongDivisor self.now }
        requires size { size ≤ 1000000000000 }
        ensures { result ≡ size % self.now.number }
    {
        (size - self.share(size) * u64::from(self.number)) % u64::from(DIVISOR_END)
    }

    // What the quotient of a number leaves, with its sign.
    fn left_of(&self, number: Num) -> i64
        requires divisor { IsLongDivisor self.now }
        ensures remainder { result ≡ int_rem number (pos self.now.number) }
        ensures small { unsigned_abs result ≤ 1048576 }
    {
        let number = number.get();
        let rest = self.rest(number.unsigned_abs()) as i64;
        if number < 0 { -rest } else { rest }
    }

    /// What the quotient leaves.
    pub(crate) fn remainder(&self, number: Num) -> Result<Num, ArithFault>
        requires { IsLongDivisor self.now }
        ensures { result ≡ remainder number (pos self.now.number) }
    {
        Ok(near_number(self.left_of(number)))
    }
}
