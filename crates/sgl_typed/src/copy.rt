//! Copies of expressions and calls.
ghost use Rattle.std.specs.Prelude.{◌≡◌, IfOk};

use crate::deep_copy::{DeepCopy, copied};
use crate::renaming::{OtherSlots, rename_expr, rename_exprs};
use crate::script::{AggUse, TExpr};
use sgl_values::{List, Memory};
use std::alloc::Global;

// Each slot stays.
struct SameSlots;

impl OtherSlots for SameSlots {
    ghost slot_for = { λ same slot. slot };

    fn slot_for(&self, slot: u32) -> u32 {
        slot
    }
}

/// A copy of an expression; refused for want of memory alone.
#[tactic(auto, using(crate::proofs::Renamed::same_slots))]
pub fn copy_expr(alloc: Global, expr: &TExpr) -> Result<TExpr, Memory>
    ensures { IfOk result (λ copy. copy ≡ expr.now) }
{
    rename_expr(alloc, &SameSlots, expr)
}

/// A copy of a call; refused for want of memory alone.
pub fn copy_call(alloc: Global, call: &AggUse) -> Result<AggUse, Memory>
    ensures { IfOk result (λ copy. copy ≡ call.now) }
{
    copied!(alloc, call => AggUse { args }, agg, place)
}

/// A copy of expressions; refused for want of memory alone.
#[tactic(auto, using(crate::proofs::Renamed::same_slots))]
pub fn copy_exprs(alloc: Global, exprs: &[TExpr]) -> Result<List<TExpr>, Memory>
    ensures { IfOk result (λ copy. copy ≡ exprs.now) }
{
    rename_exprs(alloc, &SameSlots, exprs)
}

impl DeepCopy for TExpr {
    fn deep_copy(&self, alloc: Global) -> Result<TExpr, Memory> {
        copy_expr(alloc, self)
    }
}

impl DeepCopy for AggUse {
    fn deep_copy(&self, alloc: Global) -> Result<AggUse, Memory> {
        copy_call(alloc, self)
    }
}
