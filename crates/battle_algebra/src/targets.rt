//! Amounts that depend on the row that is written to.
ghost use Rattle.std.specs.Prelude.{◌≡◌};
ghost use Rattle.battle_algebra.specs.Ways as ways;

use sgl_typed::TExpr;

/// Whether an amount reads the row that is written to.
#[tactic(auto, using(crate::proofs::RightSides::target_equations))]
pub fn reads_target(expr: &TExpr) -> bool
    ensures { result ≡ ways.reads_target expr.now }
{
    match expr {
        TExpr::Number(_) => false,
        TExpr::Truth(_) => false,
        TExpr::Slot(_) => false,
        TExpr::Unit(_) => false,
        TExpr::Target(_) => true,
        TExpr::Combined(_) => false,
        TExpr::Random(_) => false,
        TExpr::Agg(_) => false,
        TExpr::Neg(inner) => reads_target(inner.get()),
        TExpr::Not(inner) => reads_target(inner.get()),
        TExpr::Binary { left, right, .. } => reads_target(left.get()) || reads_target(right.get()),
    }
}
