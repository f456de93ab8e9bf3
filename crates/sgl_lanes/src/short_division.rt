//! Quotients and remainders of short numbers by a number that is written.
ghost use Rattle.std.specs.Prelude.{◌≡◌, pos, int_div, int_rem};
ghost use Rattle.sgl_lanes.specs.Divisors.{IsDivisor};
ghost use Rattle.sgl_lanes.specs.Lanes.{IsShort};

use crate::divisor::Divisor;
use crate::near::{Operation, SHORT, near_number};
use sgl_values::Num;

/// The quotient of a short number by a divisor, which stands on the right too.
#[derive(Clone, Copy)]
pub(crate) struct ShortQuotient {
    pub(crate) divisor: Divisor,
}

impl Operation for ShortQuotient {
    ghost ready = { λ it. IsDivisor it.divisor };

    ghost takes = { λ it a b. IsShort a };

    ghost made = { λ it a b. int_div a (pos it.divisor.number) };

    ghost end = { λ it. 1073741824 };

    fn end(&self) -> u64 {
        u64::from(SHORT)
    }

    fn height(&self, left: Num, _right: Num) -> u64 {
        left.get().unsigned_abs()
    }

    fn make(&self, left: Num, _right: Num) -> Num {
        near_number(self.divisor.short_quotient(left))
    }
}

/// What the quotient of a short number leaves.
#[derive(Clone, Copy)]
pub(crate) struct ShortRemainder {
    pub(crate) divisor: Divisor,
}

impl Operation for ShortRemainder {
    ghost ready = { λ it. IsDivisor it.divisor };

    ghost takes = { λ it a b. IsShort a };

    ghost made = { λ it a b. int_rem a (pos it.divisor.number) };

    ghost end = { λ it. 1073741824 };

    fn end(&self) -> u64 {
        u64::from(SHORT)
    }

    fn height(&self, left: Num, _right: Num) -> u64 {
        left.get().unsigned_abs()
    }

    fn make(&self, left: Num, _right: Num) -> Num {
        near_number(self.divisor.short_remainder(left))
    }
}
