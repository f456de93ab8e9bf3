//! Quotients and remainders of sizes by a number that is written. Sizes are numbers that are short and not negative: of them these take
//! less time than of other short numbers, since no sign is taken off and put on again.
ghost use Rattle.std.specs.Prelude.{◌≡◌, ◌<◌, pos, int_div, int_rem};
ghost use Rattle.sgl_lanes.specs.Divisors.{IsDivisor};
ghost use Rattle.sgl_lanes.specs.Lanes.{IsSize};

use crate::divisor::Divisor;
use crate::near::{Operation, SHORT};
use sgl_values::Num;

// A size itself, and more than any of them for another number.
fn height(number: Num) -> u64
    ensures { result < SHORT → IsSize number }
{
    number.get().cast_unsigned()
}

/// The quotient of a size by a divisor, which stands on the right too.
#[derive(Clone, Copy)]
pub(crate) struct SizeQuotient {
    pub(crate) divisor: Divisor,
}

impl Operation for SizeQuotient {
    ghost ready = { λ it. IsDivisor it.divisor };

    ghost takes = { λ it a b. IsSize a };

    ghost made = { λ it a b. int_div a (pos it.divisor.number) };

    ghost end = { λ it. 1073741824 };

    fn end(&self) -> u64 {
        u64::from(SHORT)
    }

    fn height(&self, left: Num, _right: Num) -> u64 {
        height(left)
    }

    fn make(&self, left: Num, _right: Num) -> Num {
        self.divisor.size_quotient(left)
    }
}

/// What the quotient of a size leaves.
#[derive(Clone, Copy)]
pub(crate) struct SizeRemainder {
    pub(crate) divisor: Divisor,
}

impl Operation for SizeRemainder {
    ghost ready = { λ it. IsDivisor it.divisor };

    ghost takes = { λ it a b. IsSize a };

    ghost made = { λ it a b. int_rem a (pos it.divisor.number) };

    ghost end = { λ it. 1073741824 };

    fn end(&self) -> u64 {
        u64::from(SHORT)
    }

    fn height(&self, left: Num, _right: Num) -> u64 {
        height(left)
    }

    fn make(&self, left: Num, _right: Num) -> Num {
        self.divisor.size_remainder(left)
    }
}
