//! Copies of expressions, with the slots that they read or with others.
ghost use Rattle.std.specs.Prelude.{◌≡◌, map, IfOk};
ghost use Rattle.sgl_typed.specs.Renamed.{renamed};

use crate::script::{AggUse, TExpr};
use sgl_values::{Boxed, List, Memory};
use std::alloc::Global;

/// Which slot is read in place of each.
pub trait OtherSlots {
    ghost use Rattle.std.specs.Prelude.{◌≡◌, ℕ};

    /// The slot that is read in place of this one.
    ghost slot_for: { Self → ℕ → ℕ };

    /// The slot that is read in place of this one.
    fn slot_for(&self, slot: u32) -> u32
        ensures { result ≡ slot_for self.now slot };
}

/// A copy of an expression that reads other slots; refused for want of memory alone.
#[cycle(renaming)]
#[tactic(auto, using(crate::proofs::Renamed::renamed_equations))]
pub fn rename_expr<S: OtherSlots>(alloc: Global, slots: &S, expr: &TExpr) -> Result<TExpr, Memory>
    ensures { IfOk result (λ copy. copy ≡ renamed (S.slot_for slots.now) expr.now) }
{
    match expr {
        TExpr::Number(number) => Ok(TExpr::Number(*number)),
        TExpr::Truth(truth) => Ok(TExpr::Truth(*truth)),
        TExpr::Slot(slot) => Ok(TExpr::Slot(slots.slot_for(*slot))),
        TExpr::Unit(attr) => Ok(TExpr::Unit(*attr)),
        TExpr::Target(attr) => Ok(TExpr::Target(*attr)),
        TExpr::Combined(effect) => Ok(TExpr::Combined(*effect)),
        TExpr::Random(index) => Ok(TExpr::Random(*index)),
        TExpr::Agg(call) => Ok(TExpr::Agg(AggUse {
            agg: call.agg,
            args: rename_exprs(alloc, slots, call.args.as_slice())?,
            place: call.place,
        })),
        TExpr::Neg(inner) => Ok(TExpr::Neg(rename_boxed(alloc, slots, inner)?)),
        TExpr::Not(inner) => Ok(TExpr::Not(rename_boxed(alloc, slots, inner)?)),
        TExpr::Binary {
            op,
            left,
            right,
            place,
        } => {
            let left = rename_boxed(alloc, slots, left)?;
            let right = rename_boxed(alloc, slots, right)?;
            Ok(TExpr::Binary {
                op: *op,
                left,
                right,
                place: *place,
            })
        }
    }
}

#[cycle(renaming)]
#[tactic(auto, using(crate::proofs::Renamed::renamed_equations))]
fn rename_boxed<S: OtherSlots>(
    alloc: Global,
    slots: &S,
    expr: &Boxed<TExpr>,
) -> Result<Boxed<TExpr>, Memory>
    ensures { IfOk result (λ copy. copy ≡ renamed (S.slot_for slots.now) expr.now) }
{
    Boxed::new(alloc, rename_expr(alloc, slots, expr.get())?)
}

/// Copies of expressions that read other slots; refused for want of memory alone.
#[cycle(renaming)]
#[tactic(auto, using(crate::proofs::Renamed::renamed_equations))]
pub fn rename_exprs<S: OtherSlots>(
    alloc: Global,
    slots: &S,
    exprs: &[TExpr],
) -> Result<List<TExpr>, Memory>
    ensures { IfOk result (λ copies. copies ≡ map (renamed (S.slot_for slots.now)) exprs.now) }
{
    let mut copies = List::new(alloc);
    for expr in exprs {
        copies.push(rename_expr(alloc, slots, expr)?)?;
    }
    Ok(copies)
}
