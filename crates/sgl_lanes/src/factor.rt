//! Products with a number that is written, where they are small: they have 32 bits, of which compilers make two at once, and
//! none is tested.
ghost use Rattle.std.specs.Prelude.{◌≡◌, ◌<◌, ◌≤◌, ◌*◌, ◌+ℤ◌, pos, true, IfSome, Ok};
ghost use Rattle.sgl_lanes.specs.Factors.{IsFactor};
ghost use Rattle.sgl_lanes.specs.Lanes.{IsWithin};

use crate::near::{Operation, SHORT, SHORT_SPAN, number_in_range};
use sgl_values::Num;

/// A factor from 1 on, an end below which the product of no number with it passes 2^30, and the product of both.
#[derive(Clone, Copy)]
pub(crate) struct Factor {
    pub(crate) number: u32,
    pub(crate) end: u32,
    pub(crate) most: u32,
}

impl Factor {
    /// The factor that is this number.
    pub(crate) fn of(number: Num) -> Option<Factor>
        ensures factor { IfSome result IsFactor }
        ensures number { IfSome result (λ factor. pos factor.number ≡ number) }
    {
        match u32::try_from(number.get()) {
            Ok(number) if number >= 1 && number < SHORT => Some(Factor::with_end(number)),
            _ => None,
        }
    }

    // A number with its end, a power of 2.
    fn with_end(number: u32) -> Factor
        requires from { 1 ≤ number }
        requires below { number < SHORT }
        ensures factor { IsFactor result }
        ensures number { result.number ≡ number }
    {
        let end = (SHORT / 2) >> number.ilog2();
        Factor {
            number,
            end,
            most: end * number,
        }
    }

    // How far a number stands above the negative of the end.
    fn height(&self, number: Num) -> u64
        ensures height { IsWithin self.now.end number → pos result ≡ number +ℤ pos self.now.end }
        ensures within { result < 2 * self.now.end → IsWithin self.now.end number }
        ensures below { IsWithin self.now.end number → result < 2 * self.now.end }
    {
        (number.get() + i64::from(self.end)).cast_unsigned()
    }

    // The product with a height, and any number below 2^31 where that is not below twice the end: compilers see that no more
    // than 32 bits of it are kept, and multiply two at once.
    fn times(&self, height: u64) -> u64
        requires factor { IsFactor self.now }
        ensures product { height < 2 * self.now.end → result ≡ height * self.now.number }
        ensures small { result < 2147483648 }
    {
        height.wrapping_mul(u64::from(self.number)) % SHORT_SPAN
    }
}

/// The product of a number below the end of a factor with it.
#[derive(Clone, Copy)]
pub(crate) struct SmallProduct {
    pub(crate) factor: Factor,
}

impl Operation for SmallProduct {
    ghost use Rattle.std.specs.Prelude.{◌*ℤ◌, ◌*◌};
    ghost use Rattle.sgl_lanes.specs.Lanes.{IsWithin};

    ghost ready = { λ it. IsFactor it.factor };

    ghost takes = { λ it a b. IsWithin it.factor.end a };

    ghost made = { λ it a b. a *ℤ pos it.factor.number };

    ghost end = { λ it. 2 * it.factor.end };

    fn end(&self) -> u64 {
        2 * u64::from(self.factor.end)
    }

    fn height(&self, left: Num, _right: Num) -> u64 {
        self.factor.height(left)
    }

    // The product with the number's height, less that with the height of 0.
    fn make(&self, left: Num, _right: Num) -> Num {
        let product = self.factor.times(self.factor.height(left));
        number_in_range(product as i64 - i64::from(self.factor.most))
    }
}
