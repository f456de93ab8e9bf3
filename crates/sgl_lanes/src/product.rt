//! Products of two numbers that have 32 bits, of which compilers make two or more at once.
ghost use Rattle.std.specs.Prelude.{◌≡◌, ◌≤◌, ◌*ℤ◌, unsigned_abs};
ghost use Rattle.sgl_lanes.specs.Lanes.{IsShort};

use crate::near::{NEAR_SPAN, Operation, SHORT, SHORT_SPAN, height, near_height, near_number};
use sgl_values::Num;

/// The product of any two numbers from the negative of this on, and below it, is near.
const LITTLE: u32 = 524_288;

// The low 32 bits of a number, with a sign: the number, where it is short.
fn low_half(number: Num) -> i32
    ensures number { IsShort number → result ≡ number }
    ensures small { unsigned_abs result ≤ 2147483648 }
{
    let low = number.get().cast_unsigned() % 4_294_967_296;
    (low as u32).cast_signed()
}

// The product of two numbers, if they are short, and any number else.
fn times(left: Num, right: Num) -> i64
    ensures product { IsShort left → IsShort right → result ≡ left *ℤ right }
    ensures small { unsigned_abs result ≤ 4611686018427387904 }
{
    i64::from(low_half(left)) * i64::from(low_half(right))
}

/// The product of two little numbers, at which no product is looked at.
#[derive(Clone, Copy)]
pub(crate) struct LittleProduct;

impl Operation for LittleProduct {
    ghost use Rattle.std.specs.Prelude.{◌*ℤ◌};
    ghost use Rattle.sgl_lanes.specs.Lanes.{AreShort};

    ghost ready = { λ it. Unit {0} };

    ghost takes = { λ it a b. AreShort a b };

    ghost made = { λ it a b. a *ℤ b };

    ghost end = { λ it. 1048576 };

    fn end(&self) -> u64 {
        2 * u64::from(LITTLE)
    }

    fn height(&self, left: Num, right: Num) -> u64 {
        height(left, LITTLE) | height(right, LITTLE)
    }

    fn make(&self, left: Num, right: Num) -> Num {
        near_number(times(left, right))
    }
}

/// The product of two short numbers, where it is near.
#[derive(Clone, Copy)]
pub(crate) struct ShortProduct;

impl Operation for ShortProduct {
    ghost use Rattle.std.specs.Prelude.{◌*ℤ◌};
    ghost use Rattle.sgl_lanes.specs.Lanes.{AreShort};

    ghost ready = { λ it. Unit {0} };

    ghost takes = { λ it a b. AreShort a b };

    ghost made = { λ it a b. a *ℤ b };

    ghost end = { λ it. 1 };

    fn end(&self) -> u64 {
        1
    }

    // Each height in its span, which is 0 where it is below that.
    fn height(&self, left: Num, right: Num) -> u64 {
        let first = height(left, SHORT) / SHORT_SPAN;
        let second = height(right, SHORT) / SHORT_SPAN;
        first | second | near_height(times(left, right)) / NEAR_SPAN
    }

    fn make(&self, left: Num, right: Num) -> Num {
        near_number(times(left, right))
    }
}
