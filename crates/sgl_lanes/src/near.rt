//! Operations on lanes that are tried in all of them at once: one test of all lanes together tells that each has its result,
//! where a test of each would take longer than the operation.
ghost use Rattle.std.specs.Prelude.{◌≡◌, ◌<◌, ◌≤◌, ◌*◌, ℕ, ℤ, true, unsigned_abs};
ghost use Rattle.sgl_lanes.specs.Lanes.{lane_of, IsNear, IsWithin};

use crate::lane_set::LANES;
use crate::side::Side;
use sgl_values::{Num, bounded};

/// Results from the negative of this on are near, so many.
const NEAR_START: i64 = 500_000_000_000;

/// How many numbers are near: a power of 2, so that the heights of many results are below it where all their bits together
/// are.
pub(crate) const NEAR_SPAN: u64 = 1_099_511_627_776;

/// Numbers from the negative of this on, and below it, are short: each has 32 bits, with its sign.
pub(crate) const SHORT: u32 = 1_073_741_824;

/// How many numbers are short.
pub(crate) const SHORT_SPAN: u64 = 2_147_483_648;

/// An operation on two numbers, of which a height tells whether it has its result.
pub(crate) trait Operation {
    /// What it asks for itself.
    ghost ready: { Self → Type 0 };

    /// The numbers of which it makes its result.
    ghost takes: { Self → ℤ → ℤ → Type 0 };

    /// Its result.
    ghost made: { Self → ℤ → ℤ → ℤ };

    /// The end of heights.
    ghost end: { Self → ℕ };

    /// The end of heights: a power of 2, so that the heights of many numbers are below it where all their bits together are.
    fn end(&self) -> u64
        ensures { result ≡ end self.now };

    /// The height of two numbers, which is below the end only where it has its result of them.
    fn height(&self, left: Num, right: Num) -> u64
        requires ready { ready self.now }
        ensures { result < end self.now → takes self.now left right };

    /// Its result, and any number where it has none.
    fn make(&self, left: Num, right: Num) -> Num
        requires ready { ready self.now }
        ensures { takes self.now left right → result ≡ made self.now left right };
}

/// The sum of two numbers, where it is near.
#[derive(Clone, Copy)]
pub(crate) struct Sum;

impl Operation for Sum {
    ghost use Rattle.std.specs.Prelude.{◌+ℤ◌};
    ghost use Rattle.sgl_lanes.specs.Lanes.{IsNear};

    ghost ready = { λ it. Unit {0} };

    ghost takes = { λ it a b. IsNear (a +ℤ b) };

    ghost made = { λ it a b. a +ℤ b };

    ghost end = { λ it. 1099511627776 };

    fn end(&self) -> u64 {
        NEAR_SPAN
    }

    fn height(&self, left: Num, right: Num) -> u64 {
        near_height(left.get() + right.get())
    }

    fn make(&self, left: Num, right: Num) -> Num {
        near_number(left.get() + right.get())
    }
}

/// The difference of two numbers, where it is near.
#[derive(Clone, Copy)]
pub(crate) struct Difference;

impl Operation for Difference {
    ghost use Rattle.std.specs.Prelude.{◌-ℤ◌};
    ghost use Rattle.sgl_lanes.specs.Lanes.{IsNear};

    ghost ready = { λ it. Unit {0} };

    ghost takes = { λ it a b. IsNear (a -ℤ b) };

    ghost made = { λ it a b. a -ℤ b };

    ghost end = { λ it. 1099511627776 };

    fn end(&self) -> u64 {
        NEAR_SPAN
    }

    fn height(&self, left: Num, right: Num) -> u64 {
        near_height(left.get() - right.get())
    }

    fn make(&self, left: Num, right: Num) -> Num {
        near_number(left.get() - right.get())
    }
}

/// How far a number stands above the negative of an end: less than twice the end only where it stands from there on and below
/// the end, and more than any such where it stands lower.
pub(crate) fn height(number: Num, end: u32) -> u64
    ensures { result < 2 * end → IsWithin end number }
{
    (number.get() + i64::from(end)).cast_unsigned()
}

/// The same of the span of near numbers.
pub(crate) fn near_height(value: i64) -> u64
    requires { unsigned_abs value ≤ 4611686018427387904 }
    ensures { result < NEAR_SPAN → IsNear value }
{
    (value + NEAR_START).cast_unsigned()
}

/// A near result as a number, and any number for another. The remainder is the height of a near one itself, by which
/// compilers see that no number leaves the range, and leave out the test.
pub(crate) fn near_number(value: i64) -> Num
    requires { unsigned_abs value ≤ 4611686018427387904 }
    ensures { IsNear value → result ≡ value }
{
    let height = (value + NEAR_START).cast_unsigned() % NEAR_SPAN;
    number_in_range(height as i64 - NEAR_START)
}

/// A value in the range of numbers as a number. Where compilers see that it is in it, they leave out the test.
pub(crate) fn number_in_range(value: i64) -> Num
    requires { unsigned_abs value ≤ 1000000000000 }
    ensures { result ≡ value }
{
    match bounded(value) {
        Ok(number) => number,
        Err(_) => unreachable!(),
    }
}

/// Puts what an operation makes of the numbers of two sides into lanes, and tells whether it has its result in all of them.
pub(crate) fn put<O: Operation, L: Side, R: Side>(
    operation: &O,
    left: &L,
    right: &R,
    out: &mut [Num; LANES],
) -> bool
    requires ready { O.ready operation.now }
    ensures takes { result ≡ true → (k : ℕ) → k < LANES → O.takes operation.now (L.at left.now k) (R.at right.now k) }
    ensures made { result ≡ true → (k : ℕ) → k < LANES → lane_of out.new k ≡ O.made operation.now (L.at left.now k) (R.at right.now k) }
{
    let mut reach = 0;
    for lane in 0..64 {
        let (first, second) = (left.number(lane), right.number(lane));
        reach |= operation.height(first, second);
        out[lane] = operation.make(first, second);
    }
    reach < operation.end()
}
