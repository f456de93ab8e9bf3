//! Operations on two numbers, lane by lane. A truth is 1, or 0 where it is false.
ghost use Rattle.std.specs.Prelude.{◌≡◌, ◌<◌, ℕ, true, Ok};
ghost use Rattle.sgl_lanes.specs.Lanes.{bit as bit_of, EachLane, lane_of};

use crate::lane_set::{LANES, has_lane};
use crate::side::Side;
use sgl_values::{ArithFault, Num};

/// A truth as a number.
pub(crate) fn bit(truth: bool) -> Num
    ensures { result ≡ bit_of truth }
{
    Num::whole(u32::from(truth))
}

/// Puts what an operation gives of two sides into lanes, 0 where it gives no result, and tells whether it gives one in each
/// lane of the set.
pub(crate) fn combine<L: Side, R: Side, F: Fn(Num, Num) -> Result<Num, ArithFault>>(
    mask: u64,
    left: &L,
    right: &R,
    out: &mut [Num; LANES],
    operation: F,
) -> bool
    requires { (k : ℕ) → k < LANES → F.pre operation (L.at left.now k) (R.at right.now k) }
    ensures { result ≡ true → EachLane mask (λ k. F.post operation (L.at left.now k) (R.at right.now k) (Ok (lane_of out.new k))) }
{
    let mut exact = true;
    for lane in 0..64 {
        let at = lane as usize;
        let outcome = operation(left.number(at), right.number(at));
        exact &= outcome.is_ok() | !has_lane(mask, lane);
        out[at] = outcome.unwrap_or(Num::zero());
    }
    exact
}
