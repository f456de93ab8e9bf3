//! The value of an expression.
ghost use Rattle.std.specs.Prelude.{◌≡◌, length, map, min, take};
ghost use Rattle.sgl_typed.specs.Value.{value_with};

use crate::calls::AggregateCalls;
use crate::context::ExprContext;
use crate::number::number_at_once;
use crate::operation::{decides, invert, negate, operate};
use sgl_typed::{AggUse, TExpr};
use sgl_values::{Num, PARAMS_MAX, Val};

/// The value of an expression, where calls of aggregates are answered by `calls`. It takes no memory, and recurses only
/// as deep as the expression. Where the left side of an operation decides, the right side is not evaluated.
#[cycle(evaluation)]
#[tactic(auto, using(sgl_typed::proofs::Equations::value_equations))]
pub fn evaluate<C: AggregateCalls, X: ExprContext>(calls: &C, context: &X, expr: &TExpr) -> Val
    requires context { X.can_read context.now }
    requires calls { C.can_call calls.now }
    ensures { result ≡ value_with (C.gives calls.now) (X.context context.now) expr.now }
{
    match expr {
        TExpr::Number(number) => Val::N(*number),
        TExpr::Truth(truth) => Val::B(*truth),
        TExpr::Slot(slot) => context.slot(*slot),
        TExpr::Unit(attr) => Val::N(context.unit(*attr)),
        TExpr::Target(attr) => Val::N(context.target(*attr)),
        TExpr::Combined(effect) => Val::N(context.combined(*effect)),
        TExpr::Random(index) => Val::N(context.random(*index)),
        TExpr::Agg(call) => evaluate_call(calls, context, call),
        TExpr::Neg(inner) => negate(evaluate(calls, context, inner.get())),
        TExpr::Not(inner) => invert(evaluate(calls, context, inner.get())),
        TExpr::Binary {
            op,
            left,
            right,
            place,
        } => {
            let left = evaluate(calls, context, left.get());
            if decides(*op, &left) {
                return left;
            }
            let right = evaluate(calls, context, right.get());
            operate(*op, *place, left, right)
        }
    }
}

// The value of a call, whose arguments stand in a buffer of sixteen.
#[cycle(evaluation)]
fn evaluate_call<C: AggregateCalls, X: ExprContext>(calls: &C, context: &X, call: &AggUse) -> Val
    requires context { X.can_read context.now }
    requires calls { C.can_call calls.now }
    ensures { result ≡ C.gives calls.now call.now.agg (map (value_with (C.gives calls.now) (X.context context.now)) call.now.args) }
{
    let mut buffer = [Val::N(Num::zero()); PARAMS_MAX];
    let exprs = call.args.as_slice();
    let count = exprs.len().min(PARAMS_MAX);
    evaluate_args(calls, context, exprs, &mut buffer);
    calls.call(call.agg, &buffer[..count])
}

/// Puts the values of the first sixteen expressions into the front of the buffer. It takes no memory.
#[cycle(evaluation)]
pub fn evaluate_args<C: AggregateCalls, X: ExprContext>(
    calls: &C,
    context: &X,
    exprs: &[TExpr],
    buffer: &mut [Val],
)
    requires context { X.can_read context.now }
    requires calls { C.can_call calls.now }
    requires buffer { length buffer.old ≡ PARAMS_MAX }
    ensures length { length buffer.new ≡ PARAMS_MAX }
    ensures values { take (min PARAMS_MAX (length exprs.now)) buffer.new ≡ map (value_with (C.gives calls.now) (X.context context.now)) (take PARAMS_MAX exprs.now) }
{
    for i in 0..exprs.len().min(PARAMS_MAX) {
        let expr = &exprs[i];
        buffer[i] = match number_at_once(context, expr) {
            Some(number) => Val::N(number),
            None => evaluate(calls, context, expr),
        };
    }
}
