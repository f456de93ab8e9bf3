//! Who tells what an expression reads in a lane.
ghost use Rattle.std.specs.Prelude.{◌≡◌, ℕ, pos, slice_index_or, IfSome};
ghost use Rattle.sgl_values.specs.declared.fault.Val.TheVariants.{N};
ghost use Rattle.sgl_typed.specs.Draw.{draw};
ghost use Rattle.sgl_typed.specs.Value.{attribute, Context};
ghost use Rattle.sgl_lanes.specs.declared.kind.Lanes.TheVariants.{Numbers};
ghost use Rattle.sgl_lanes.specs.Lanes.{EachLane, HoldEach, lane_of};

use crate::kind::{Lanes, kind_if, standing_for};
use crate::lane_set::{LANES, has_lane};
use crate::leaf::read_each;
use sgl_typed::Attr;
use sgl_values::{Num, Val};

/// Up to 64 lanes, each with a context in which an expression is evaluated. What a context lacks reads 0.
pub trait LaneContexts {
    /// Whether a lane may be read.
    ghost can_read: { Self → ℕ → Type 0 };

    /// The context of a lane.
    ghost context: { Self → ℕ → Context };

    /// An attribute of the acting unit of a lane.
    fn unit(&self, lane: u32, attr: Attr) -> Num
        requires { can_read self.now lane }
        ensures { result ≡ attribute attr (context self.now lane).unit };

    /// An attribute of the acting units in the lanes of a set. Lanes outside the set hold anything.
    fn units(&self, mask: u64, attr: Attr, out: &mut [Num; LANES])
        requires { EachLane mask (can_read self.now) }
        ensures { EachLane mask (λ k. lane_of out.new k ≡ attribute attr (context self.now k).unit) }
    {
        read_each(mask, out, |lane| self.unit(lane, attr));
    }

    /// The same where it stands in lanes already. Each lane of the set has its attribute, and the others anything.
    fn lent_units(&self, mask: u64, attr: Attr) -> Option<&[Num; LANES]>
        requires { EachLane mask (can_read self.now) }
        ensures { IfSome result (λ numbers. EachLane mask (λ k. lane_of numbers.now k ≡ attribute attr (context self.now k).unit)) }
    {
        None
    }

    /// An attribute of the row that an action writes to, in a lane.
    fn target(&self, lane: u32, attr: Attr) -> Num
        requires { can_read self.now lane }
        ensures { result ≡ attribute attr (context self.now lane).target };

    /// The value of a slot of a lane.
    fn slot(&self, lane: u32, slot: u32) -> Val
        requires { can_read self.now lane }
        ensures { result ≡ slice_index_or (context self.now lane).slots slot (N (pos 0)) };

    /// The values of a slot in the lanes of a set, where they are of one sort. Lanes outside the set hold anything.
    fn slots(&self, mask: u64, slot: u32, out: &mut [Num; LANES]) -> Lanes
        requires { EachLane mask (can_read self.now) }
        ensures { HoldEach result mask out.new (λ k. slice_index_or (context self.now k).slots slot (N (pos 0))) }
    {
        let mut numbers = true;
        let mut truths = true;
        for lane in 0..64 {
            let mut number = Num::zero();
            if has_lane(mask, lane) {
                let (kind, standing) = standing_for(self.slot(lane, slot));
                numbers &= kind == Lanes::Numbers;
                truths &= kind == Lanes::Truths;
                number = standing;
            }
            out[lane as usize] = number;
        }
        if numbers {
            Lanes::Numbers
        } else {
            kind_if(truths, Lanes::Truths)
        }
    }

    /// The numbers of a slot where they stand in lanes already, if it has one in each lane of the set.
    fn lent_slots(&self, mask: u64, slot: u32) -> Option<&[Num; LANES]>
        requires { EachLane mask (can_read self.now) }
        ensures { IfSome result (λ numbers. HoldEach Numbers mask numbers.now (λ k. slice_index_or (context self.now k).slots slot (N (pos 0)))) }
    {
        None
    }

    /// A combined effect of a lane.
    fn combined(&self, lane: u32, effect: u32) -> Num
        requires { can_read self.now lane }
        ensures { result ≡ slice_index_or (context self.now lane).combined effect (pos 0) };

    /// A combined effect in the lanes of a set. Lanes outside the set hold anything.
    fn effects(&self, mask: u64, effect: u32, out: &mut [Num; LANES])
        requires { EachLane mask (can_read self.now) }
        ensures { EachLane mask (λ k. lane_of out.new k ≡ slice_index_or (context self.now k).combined effect (pos 0)) }
    {
        read_each(mask, out, |lane| self.combined(lane, effect));
    }

    /// The same where they stand in lanes already. Each lane of the set has its combined effect, and the others anything.
    fn lent_effects(&self, mask: u64, effect: u32) -> Option<&[Num; LANES]>
        requires { EachLane mask (can_read self.now) }
        ensures { IfSome result (λ numbers. EachLane mask (λ k. lane_of numbers.now k ≡ slice_index_or (context self.now k).combined effect (pos 0))) }
    {
        None
    }

    /// The random number with this index of the acting unit of a lane.
    fn random(&self, lane: u32, index: u16) -> Num
        requires { can_read self.now lane }
        ensures { result ≡ draw (context self.now lane).seed (context self.now lane).world.tick (context self.now lane).unit.key index };
}
