//! Sets of the rows of a block, as far as they are known.
ghost use Rattle.std.specs.Prelude.{◌≡◌, ◌<◌, ◌==◌, ◌&&◌, ℕ, pos, false, IfSome};
ghost use Rattle.std.specs.Ordering.{int_eq};
ghost use Rattle.sgl_values.specs.declared.fault.Val.{Val as ValueOf};
ghost use Rattle.sgl_values.specs.declared.fault.Val.TheVariants.{B};
ghost use Rattle.sgl_lanes.specs.Lanes.{has, lane_of, Holds};

use sgl_lanes::{LANES, LaneValues, Lanes, lanes_in_either, one_lane, truth_at};
use sgl_values::Num;

/// The lanes in which a condition is true, where that is known of all; none where there is no condition.
pub(crate) fn known_lanes(is_there: bool, known: &LaneValues) -> Option<u64>
    ensures { (lane : ℕ) (value : ValueOf) → lane < LANES → (is_there ≡ false → value ≡ B false) → Holds known.now.kind (lane_of known.now.numbers lane) value
        → IfSome result (λ lanes. value ≡ B (has lanes lane)) }
{
    if !is_there {
        return Some(0);
    }
    match known.kind {
        Lanes::Truths => Some(true_lanes(&known.numbers)),
        Lanes::Numbers => None,
        Lanes::Unknown => None,
    }
}

// The lanes whose number is 1.
fn true_lanes(numbers: &[Num; LANES]) -> u64
    ensures { (lane : ℕ) → lane < LANES → has result lane ≡ int_eq (lane_of numbers.now lane) (pos 1) }
{
    let mut lanes = 0;
    for lane in 0..64 {
        lanes = lanes_in_either(lanes, lane_if(truth_at(numbers, lane), lane));
    }
    lanes
}

// The set of one lane, where it is so, and else of none.
fn lane_if(holds: bool, lane: u32) -> u64
    requires { lane < LANES }
    ensures { (k : ℕ) → has result k ≡ (holds && k == lane) }
{
    if holds { one_lane(lane) } else { 0 }
}
