//! The values of an expression for rows side by side, kept together with what they are.
ghost use Rattle.std.specs.Prelude.{◌≡◌, ◌≢◌, ◌<◌, ◌↔◌, ℕ, IsTrue};
ghost use Rattle.sgl_typed.specs.Aggregate.{simple_value};
ghost use Rattle.sgl_lanes.specs.Lanes.{EachLane, HoldEach, held, lane_of};
ghost use Rattle.sgl_lanes.specs.declared.kind.Lanes.TheVariants.{Unknown};

use crate::contexts::LaneContexts;
use crate::evaluation::lanes;
use crate::kind::Lanes;
use crate::lane_set::{LANES, number_at, truth_at};
use sgl_typed::TExpr;
use sgl_values::{Num, Val};

/// Room for the values of an expression and for so many right sides less one, one within the other, is kept from one
/// expression to the next.
pub const SPARE_LANES: usize = 5;

/// The values of an expression in the lanes of a set, where they are known.
#[derive(Clone, Copy)]
pub struct LaneValues {
    pub kind: Lanes,
    pub numbers: [Num; LANES],
}

impl LaneValues {
    /// None is known.
    pub fn unknown() -> LaneValues
        ensures { result.kind ≡ Unknown }
    {
        LaneValues {
            kind: Lanes::Unknown,
            numbers: [Num::zero(); LANES],
        }
    }

    /// Becomes those of an expression in the lanes of a set.
    pub fn evaluate<C: LaneContexts>(
        &mut self,
        contexts: &C,
        mask: u64,
        expr: &TExpr,
        spare: &mut [LaneValues],
    )
        requires { EachLane mask (C.can_read contexts.now) }
        ensures { HoldEach self.new.kind mask self.new.numbers (λ k. simple_value (C.context contexts.now k) expr.now) }
    {
        self.kind = lanes(contexts, mask, expr, &mut self.numbers, spare);
    }

    /// Whether they are known.
    pub fn are_known(&self) -> bool
        ensures { IsTrue result ↔ self.now.kind ≢ Unknown }
    {
        self.kind != Lanes::Unknown
    }

    /// The value in a lane, where they are known.
    pub fn at(&self, lane: u32) -> Val
        requires lane { lane < LANES }
        requires known { self.now.kind ≢ Unknown }
        ensures { result ≡ held self.now.kind (lane_of self.now.numbers lane) }
    {
        match self.kind {
            Lanes::Truths => Val::B(truth_at(&self.numbers, lane)),
            _ => Val::N(number_at(&self.numbers, lane)),
        }
    }
}
