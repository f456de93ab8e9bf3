//! The number that an expression has as its value, on the short way of expressions without truths and faults.
ghost use Rattle.std.specs.Prelude.{◌≡◌, IfNone, IfSome, false};
ghost use Rattle.sgl_values.specs.declared.fault.Val.TheVariants.{N};
ghost use Rattle.sgl_values.specs.declared.place.Place.{Place};
ghost use Rattle.sgl_typed.specs.Value.{operated, value_with, Calls};
ghost use Rattle.sgl_evaluate.specs.Forms.{at_once};

use crate::context::ExprContext;
use sgl_typed::TExpr;
use sgl_values::{BinOp, Num, Val, add, mul, sub};

/// The number that an expression of numbers, attributes of the acting unit, slots, combined effects, sums, differences and
/// products has as its value, whoever answers calls of aggregates; `None` where it is of another form, or the value may be a
/// fault, and then it is to be evaluated. A number is handed up in registers, and a value is not.
#[tactic(auto, using(sgl_typed::proofs::Equations::value_equations))]
pub fn number_at_once<C: ExprContext>(context: &C, expr: &TExpr) -> Option<Num>
    requires { C.can_read context.now }
    ensures { (calls : Calls) → IfSome result (λ number. value_with calls (C.context context.now) expr.now ≡ N number) }
{
    match expr {
        TExpr::Number(number) => Some(*number),
        TExpr::Slot(slot) => match context.slot(*slot) {
            Val::N(number) => Some(number),
            _ => None,
        },
        TExpr::Unit(attr) => Some(context.unit(*attr)),
        TExpr::Combined(effect) => Some(context.combined(*effect)),
        TExpr::Binary {
            op: BinOp::Cmp(_),
            ..
        } => None,
        TExpr::Binary {
            op,
            left,
            right,
            ..
        } => {
            let left = number_at_once(context, left.get())?;
            let right = number_at_once(context, right.get())?;
            operated(*op, left, right)
        }
        _ => None,
    }
}

/// A sum, a difference or a product in the range; `None` exactly where it is no such operation, or outside the range.
pub(crate) fn operated(op: BinOp, left: Num, right: Num) -> Option<Num>
    ensures none { (place : Place) → IfNone result (at_once op (operated op place (N left) (N right)) ≡ false) }
    ensures number { (place : Place) → IfSome result (λ number. operated op place (N left) (N right) ≡ N number) }
{
    match op {
        BinOp::Add => add(left, right).ok(),
        BinOp::Sub => sub(left, right).ok(),
        BinOp::Mul => mul(left, right).ok(),
        _ => None,
    }
}
