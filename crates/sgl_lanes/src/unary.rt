//! Operations on the numbers of lanes one by one.
ghost use Rattle.std.specs.Prelude.{◌≡◌, ◌<◌, ℕ, pos, neg_ℤ};
ghost use Rattle.std.specs.Ordering.{int_eq};
ghost use Rattle.sgl_lanes.specs.Lanes.{bit as bit_of, lane_of};

use crate::lane_set::LANES;
use crate::operation::bit;
use sgl_values::Num;

/// Puts the negative into each lane.
pub(crate) fn negate_each(out: &mut [Num; LANES])
    ensures { (k : ℕ) → k < LANES → lane_of out.new k ≡ neg_ℤ (lane_of out.old k) }
{
    for lane in 0..64 {
        out[lane] = out[lane].negated();
    }
}

/// Puts into each lane whether it was 0.
pub(crate) fn invert_each(out: &mut [Num; LANES])
    ensures { (k : ℕ) → k < LANES → lane_of out.new k ≡ bit_of (int_eq (lane_of out.old k) (pos 0)) }
{
    for lane in 0..64 {
        out[lane] = bit(out[lane] == Num::zero());
    }
}
