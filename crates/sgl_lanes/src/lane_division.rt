//! Quotients and remainders of short numbers by numbers that differ from lane to lane. Divisions of 32 bits take the processor less
//! time than those of 64.
ghost use Rattle.std.specs.Prelude.{◌≡◌, ◌<◌, ◌≤◌, ◌≤ℤ◌, ◌<ℤ◌, pos, neg_ℤ, unsigned_abs};
ghost use Rattle.sgl_lanes.specs.Lanes.{AreDivided, IsShort};

use crate::near::{Operation, SHORT, number_in_range};
use sgl_values::Num;

// The size of a number, without its sign.
fn size(number: Num) -> u64
    ensures size { result ≡ unsigned_abs number }
    ensures short { result < SHORT → IsShort number }
{
    number.get().unsigned_abs()
}

// How far a divisor stands above 1, and more than any short number where it stands below.
fn excess(number: Num) -> u64
    ensures low { result < SHORT → pos 1 ≤ℤ number }
    ensures high { result < SHORT → number ≤ℤ pos 1073741824 }
{
    (number.get() - 1).cast_unsigned()
}

// The size of the one with the excess of the other: below the end only where both are divided by 32 bits.
fn height(left: Num, right: Num) -> u64
    ensures { result < SHORT → AreDivided left right }
{
    size(left) | excess(right)
}

// The low 32 bits of the size of a number: the size, where it has no more.
fn low_bits(number: Num) -> u32
    ensures { unsigned_abs number < 4294967296 → result ≡ unsigned_abs number }
{
    (size(number) % 4_294_967_296) as u32
}

// A divisor of 32 bits, and any but 0 for another number.
fn divisor(number: Num) -> u32
    ensures number { pos 1 ≤ℤ number → number ≤ℤ pos 1073741824 → pos result ≡ number }
    ensures positive { 0 < result }
{
    low_bits(number).max(1)
}

// A size with the sign of a number.
fn signed(size: u32, number: Num) -> Num
    ensures from { pos 0 ≤ℤ number → result ≡ pos size }
    ensures below { number <ℤ pos 0 → result ≡ neg_ℤ (pos size) }
{
    let size = i64::from(size);
    number_in_range(if number.get() < 0 { -size } else { size })
}

/// The quotient of a short number by a divisor of 32 bits.
#[derive(Clone, Copy)]
pub(crate) struct LaneQuotient;

impl Operation for LaneQuotient {
    ghost use Rattle.std.specs.Prelude.{int_div};
    ghost use Rattle.sgl_lanes.specs.Lanes.{AreDivided};

    ghost ready = { λ it. Unit {0} };

    ghost takes = { λ it a b. AreDivided a b };

    ghost made = { λ it a b. int_div a b };

    ghost end = { λ it. 1073741824 };

    fn end(&self) -> u64 {
        u64::from(SHORT)
    }

    fn height(&self, left: Num, right: Num) -> u64 {
        height(left, right)
    }

    fn make(&self, left: Num, right: Num) -> Num {
        signed(low_bits(left) / divisor(right), left)
    }
}

/// What the quotient leaves.
#[derive(Clone, Copy)]
pub(crate) struct LaneRemainder;

impl Operation for LaneRemainder {
    ghost use Rattle.std.specs.Prelude.{int_rem};
    ghost use Rattle.sgl_lanes.specs.Lanes.{AreDivided};

    ghost ready = { λ it. Unit {0} };

    ghost takes = { λ it a b. AreDivided a b };

    ghost made = { λ it a b. int_rem a b };

    ghost end = { λ it. 1073741824 };

    fn end(&self) -> u64 {
        u64::from(SHORT)
    }

    fn height(&self, left: Num, right: Num) -> u64 {
        height(left, right)
    }

    fn make(&self, left: Num, right: Num) -> Num {
        signed(low_bits(left) % divisor(right), left)
    }
}
