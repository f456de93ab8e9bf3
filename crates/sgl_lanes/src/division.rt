//! Quotients and remainders of lanes.
ghost use Rattle.std.specs.Prelude.{◌≡◌, true, Ok};
ghost use Rattle.sgl_values.specs.Values.{quotient, remainder};
ghost use Rattle.sgl_lanes.specs.Lanes.{EachLane, lane_of};

use crate::lane_division::{LaneQuotient, LaneRemainder};
use crate::lane_set::LANES;
use crate::near::put;
use crate::operation::combine;
use crate::short_division::{ShortQuotient, ShortRemainder};
use crate::side::Side;
use crate::sizes::{SizeQuotient, SizeRemainder};
use sgl_values::{Num, div, rem};

/// Puts the quotients into lanes, and tells whether there is one in each lane of the set.
pub(crate) fn divide_each<L: Side, R: Side>(
    mask: u64,
    left: &L,
    right: &R,
    out: &mut [Num; LANES],
) -> bool
    ensures { result ≡ true → EachLane mask (λ k. quotient (L.at left.now k) (R.at right.now k) ≡ Ok (lane_of out.new k)) }
{
    match right.divisor() {
        Some(divisor) if put(&SizeQuotient { divisor }, left, right, out) => true,
        Some(divisor) if put(&ShortQuotient { divisor }, left, right, out) => true,
        Some(divisor) => {
            let long = divisor.long();
            combine(
                mask,
                left,
                right,
                out,
                |number, _divisor| long.quotient(number),
            )
        }
        None if put(&LaneQuotient, left, right, out) => true,
        None => combine(mask, left, right, out, |a, b| div(a, b)),
    }
}

/// Puts the remainders into lanes, and tells whether there is one in each lane of the set.
pub(crate) fn reduce_each<L: Side, R: Side>(
    mask: u64,
    left: &L,
    right: &R,
    out: &mut [Num; LANES],
) -> bool
    ensures { result ≡ true → EachLane mask (λ k. remainder (L.at left.now k) (R.at right.now k) ≡ Ok (lane_of out.new k)) }
{
    match right.divisor() {
        Some(divisor) if put(&SizeRemainder { divisor }, left, right, out) => true,
        Some(divisor) if put(&ShortRemainder { divisor }, left, right, out) => true,
        Some(divisor) => {
            let long = divisor.long();
            combine(
                mask,
                left,
                right,
                out,
                |number, _divisor| long.remainder(number),
            )
        }
        None if put(&LaneRemainder, left, right, out) => true,
        None => combine(mask, left, right, out, |a, b| rem(a, b)),
    }
}
