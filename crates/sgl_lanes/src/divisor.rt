//! Division of short numbers by a number that is written: a product with its inverse takes the place of a division, which takes
//! the processor many times as long. By T. Granlund and P. L. Montgomery, Division by Invariant Integers using
//! Multiplication, 1994.
ghost use Rattle.std.specs.Prelude.{◌≡◌, ◌<◌, ◌≤◌, ◌/◌, ◌%◌, pos, int_div, int_rem, IfSome};
ghost use Rattle.sgl_lanes.specs.Divisors.{IsDivisor, IsLongDivisor};
ghost use Rattle.sgl_lanes.specs.Lanes.{IsNear, IsShort, IsSize};

use crate::long_divisor::LongDivisor;
use crate::near::{SHORT_SPAN, number_in_range};
use sgl_values::Num;

/// Divisors that have an inverse are below this. Up to 2^24 it would be exact for all numbers of the language, which are
/// below 2^40; below 2^20 no product with a quotient passes 64 bits, whatever is known of both.
pub(crate) const DIVISOR_END: u32 = 1_048_576;

/// A divisor from 2 on, with a power of 2 over it, rounded up, that has 32 bits.
#[derive(Clone, Copy)]
pub(crate) struct Divisor {
    pub(crate) number: u32,
    pub(crate) inverse: u32,
    pub(crate) shift: u32,
}

impl Divisor {
    /// The divisor that is this number, where it has an inverse.
    pub(crate) fn of(number: Num) -> Option<Divisor>
        ensures divisor { IfSome result IsDivisor }
        ensures number { IfSome result (λ divisor. pos divisor.number ≡ number) }
    {
        match u32::try_from(number.get()) {
            Ok(number) if number >= 2 && number < DIVISOR_END => Some(Divisor::with_inverse(
                number,
            )),
            _ => None,
        }
    }

    // A number with its inverse. The shift is the least by which quotients of all short numbers are exact. The inverse of a
    // power of 2, as many divisors are, takes no division of 64 bits.
    fn with_inverse(number: u32) -> Divisor
        requires from { 2 ≤ number }
        requires below { number < DIVISOR_END }
        ensures divisor { IsDivisor result }
        ensures number { result.number ≡ number }
    {
        let shift = 31 + number.ilog2();
        let power: u64 = 1 << shift;
        if power / SHORT_SPAN == u64::from(number) {
            return Divisor {
                number,
                inverse: SHORT_SPAN as u32,
                shift,
            };
        }
        Divisor {
            number,
            inverse: ((power - 1) / u64::from(number) + 1) as u32,
            shift,
        }
    }

    /// The same divisor, for numbers that may not be short.
    pub(crate) fn long(&self) -> LongDivisor
        requires { IsDivisor self.now }
        ensures divisor { IsLongDivisor result }
        ensures number { result.number ≡ self.now.number }
    {
        LongDivisor::with_inverse(self.number)
    }

    // The quotient of a short size, by a product of two numbers of 32 bits, of which compilers make two or more at once; of
    // another any number.
    fn short_share(&self, size: u64) -> u64
        requires divisor { IsDivisor self.now }
        ensures quotient { size ≤ 1073741824 → result ≡ size / self.now.number }
        ensures small { result ≤ 8589934592 }
    {
        size % 4_294_967_296 * u64::from(self.inverse) >> self.shift
    }

    // What the quotient of a short size leaves, and any number below the end of divisors for another size.
    fn short_rest(&self, size: u64) -> u64
        requires divisor { IsDivisor self.now }
        ensures remainder { size ≤ 1073741824 → result ≡ size % self.now.number }
        ensures small { result < 1048576 }
    {
        let part = self.short_share(size) % 4_294_967_296 * u64::from(self.number);
        size.wrapping_sub(part) % u64::from(DIVISOR_END)
    }

    /// The quotient of a short number, rounded toward zero, and any number for another.
    pub(crate) fn short_quotient(&self, number: Num) -> i64
        requires divisor { IsDivisor self.now }
        ensures quotient { IsShort number → result ≡ int_div number (pos self.now.number) }
        ensures near { IsNear result }
    {
        let number = number.get();
        let size = self.short_share(number.unsigned_abs()) as i64;
        if number < 0 { -size } else { size }
    }

    /// What the quotient of a short number leaves, and any number for another.
    pub(crate) fn short_remainder(&self, number: Num) -> i64
        requires divisor { IsDivisor self.now }
        ensures remainder { IsShort number → result ≡ int_rem number (pos self.now.number) }
        ensures near { IsNear result }
    {
        let number = number.get();
        let rest = self.short_rest(number.unsigned_abs()) as i64;
        if number < 0 { -rest } else { rest }
    }

    /// The quotient of a size, and any number for another. That it has 31 bits tells compilers that it is in the range.
    pub(crate) fn size_quotient(&self, number: Num) -> Num
        requires divisor { IsDivisor self.now }
        ensures quotient { IsSize number → result ≡ int_div number (pos self.now.number) }
    {
        let size = number.get().cast_unsigned();
        number_in_range((self.short_share(size) % SHORT_SPAN) as i64)
    }

    /// What the quotient of a size leaves, and any number for another.
    pub(crate) fn size_remainder(&self, number: Num) -> Num
        requires divisor { IsDivisor self.now }
        ensures remainder { IsSize number → result ≡ int_rem number (pos self.now.number) }
    {
        let size = number.get().cast_unsigned();
        number_in_range(self.short_rest(size) as i64)
    }
}
