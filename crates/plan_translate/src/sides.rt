//! Operations over other sides.
ghost use Rattle.std.specs.Prelude.{◌≡◌, IfOk};
ghost use Rattle.plan_translate.specs.Sides.{over_sides};

use sgl_typed::{TExpr, copy_expr};
use sgl_values::{Boxed, Memory};
use std::alloc::Global;

/// An operation over other sides, at its place; of any other expression a copy. Refused for want of
/// memory alone.
#[tactic(auto, using(crate::proofs::Equations::sides_equations))]
pub(crate) fn with_sides(
    alloc: Global,
    expr: &TExpr,
    left: TExpr,
    right: TExpr,
) -> Result<TExpr, Memory>
    ensures { IfOk result (λ made. made ≡ over_sides expr.now left right) }
{
    match expr {
        TExpr::Binary { op, place, .. } => Ok(TExpr::Binary {
            op: *op,
            left: Boxed::new(alloc, left)?,
            right: Boxed::new(alloc, right)?,
            place: *place,
        }),
        other => copy_expr(alloc, other),
    }
}
