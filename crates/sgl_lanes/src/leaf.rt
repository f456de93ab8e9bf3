//! The values that an expression reads, into lanes.
ghost use Rattle.std.specs.Prelude.{◌≡◌, ◌<◌, ℕ, pos};
ghost use Rattle.sgl_typed.specs.Draw.{draw};
ghost use Rattle.sgl_typed.specs.Value.{attribute};
ghost use Rattle.sgl_lanes.specs.Lanes.{EachLane, lane_of};

use crate::contexts::LaneContexts;
use crate::lane_set::{LANES, has_lane};
use sgl_typed::Attr;
use sgl_values::Num;

/// Puts a number into each lane.
pub fn fill(number: Num, out: &mut [Num; LANES])
    ensures { (k : ℕ) → k < LANES → lane_of out.new k ≡ number }
{
    for lane in 0..64 {
        out[lane] = number;
    }
}

/// Puts into each lane of the set what is read there.
pub(crate) fn read_each<F: Fn(u32) -> Num>(mask: u64, out: &mut [Num; LANES], read: F)
    requires { EachLane mask (F.pre read) }
    ensures { EachLane mask (λ k. F.post read k (lane_of out.new k)) }
{
    for lane in 0..64 {
        out[lane as usize] = if has_lane(mask, lane) {
            read(lane)
        } else {
            Num::zero()
        };
    }
}

/// Reads an attribute of the rows that an action writes to.
pub(crate) fn read_targets<C: LaneContexts>(
    contexts: &C,
    mask: u64,
    attr: Attr,
    out: &mut [Num; LANES],
)
    requires { EachLane mask (C.can_read contexts.now) }
    ensures { EachLane mask (λ k. lane_of out.new k ≡ attribute attr (C.context contexts.now k).target) }
{
    read_each(mask, out, |lane| contexts.target(lane, attr));
}

/// Draws a random number of each acting unit.
pub(crate) fn read_random<C: LaneContexts>(
    contexts: &C,
    mask: u64,
    index: u16,
    out: &mut [Num; LANES],
)
    requires { EachLane mask (C.can_read contexts.now) }
    ensures { EachLane mask (λ k. lane_of out.new k ≡ draw (C.context contexts.now k).seed (C.context contexts.now k).world.tick (C.context contexts.now k).unit.key index) }
{
    read_each(mask, out, |lane| contexts.random(lane, index));
}
