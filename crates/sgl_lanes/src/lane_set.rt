//! Sets of lanes, a bit each, and what one lane holds.
ghost use Rattle.std.specs.Prelude.{◌≡◌, ◌<◌, ◌≤◌, ◌==◌, ◌&&◌, ◌||◌, ℕ, nat_lt, pos, not};
ghost use Rattle.std.specs.Ordering.{int_eq};
ghost use Rattle.sgl_lanes.specs.Lanes.{has, lane_of};

use sgl_values::Num;

/// The number of lanes: as many as a set has bits.
pub const LANES: usize = 64;

/// Whether the set has the lane.
pub fn has_lane(mask: u64, lane: u32) -> bool
    requires { lane < LANES }
    ensures { result ≡ has mask lane }
{
    (mask >> lane) & 1 == 1
}

/// The lanes that both sets have.
pub fn lanes_in_both(first: u64, second: u64) -> u64
    ensures { (k : ℕ) → has result k ≡ (has first k && has second k) }
{
    first & second
}

/// The lanes that one of the sets has.
pub fn lanes_in_either(first: u64, second: u64) -> u64
    ensures { (k : ℕ) → has result k ≡ (has first k || has second k) }
{
    first | second
}

/// The lanes of a set that the other has not.
pub fn lanes_without(set: u64, other: u64) -> u64
    ensures { (k : ℕ) → has result k ≡ (has set k && not (has other k)) }
{
    set & !other
}

/// The set of one lane.
pub fn one_lane(lane: u32) -> u64
    requires { lane < LANES }
    ensures { (k : ℕ) → has result k ≡ (k == lane) }
{
    1 << lane
}

/// The first lanes, so many.
pub fn first_lanes(count: u32) -> u64
    requires { count ≤ LANES }
    ensures { (k : ℕ) → has result k ≡ nat_lt k count }
{
    if count == 0 {
        0
    } else {
        u64::MAX >> (64 - count)
    }
}

/// The number in a lane.
pub fn number_at(out: &[Num; LANES], lane: u32) -> Num
    requires { lane < LANES }
    ensures { result ≡ lane_of out.now lane }
{
    out[lane as usize]
}

/// The truth in a lane, which is 0 or 1.
pub fn truth_at(out: &[Num; LANES], lane: u32) -> bool
    requires { lane < LANES }
    ensures { result ≡ int_eq (lane_of out.now lane) (pos 1) }
{
    out[lane as usize] == Num::whole(1)
}
