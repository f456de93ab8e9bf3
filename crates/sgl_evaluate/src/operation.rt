//! Operations on values, whose faults stand at a place.
ghost use Rattle.std.specs.Prelude.{◌≡◌, ℤ, true};
ghost use Rattle.sgl_values.specs.declared.fault.Val.{Val};
ghost use Rattle.sgl_values.specs.declared.fault.Val.TheVariants.{N};
ghost use Rattle.sgl_values.specs.declared.place.Place.{Place};
ghost use Rattle.sgl_typed.specs.Value.{operated, negated, inverted, at_place, compares, both, either};

use sgl_values::{ArithFault, BinOp, CmpOp, Fault, Num, Place, Val, add, div, mul, rem, sub};

/// The value of an operation on two values, whose faults stand at the place.
pub fn operate(op: BinOp, place: Place, left: Val, right: Val) -> Val
    ensures { result ≡ operated op place left right }
{
    match op {
        BinOp::And => and(left, right),
        BinOp::Or => or(left, right),
        _ => match left {
            Val::N(a) => match right {
                Val::N(b) => calculate(op, place, a, b),
                other => other,
            },
            other => other,
        },
    }
}

/// Whether the left side is the value, whatever the right side may be.
pub(crate) fn decides(op: BinOp, left: &Val) -> bool
    ensures { result ≡ true → (place : Place) (right : Val) → operated op place left.now right ≡ left.now }
{
    match *left {
        Val::N(_) => false,
        Val::B(true) => matches!(op, BinOp::Or),
        Val::B(false) => matches!(op, BinOp::And),
        Val::F(_) => true,
    }
}

fn calculate(op: BinOp, place: Place, a: Num, b: Num) -> Val
    ensures { result ≡ operated op place (N a) (N b) }
{
    match op {
        BinOp::Add => placed(place, add(a, b)),
        BinOp::Sub => placed(place, sub(a, b)),
        BinOp::Mul => placed(place, mul(a, b)),
        BinOp::Div => placed(place, div(a, b)),
        BinOp::Rem => placed(place, rem(a, b)),
        BinOp::Cmp(op) => Val::B(compare(op, a, b)),
        BinOp::And | BinOp::Or => Val::N(a),
    }
}

/// A result, whose fault stands at the place.
pub fn placed(place: Place, outcome: Result<Num, ArithFault>) -> Val
    ensures { result ≡ at_place place outcome }
{
    match outcome {
        Ok(number) => Val::N(number),
        Err(kind) => Val::F(Fault { kind, place }),
    }
}

/// Whether two numbers compare so.
pub fn compare(op: CmpOp, a: Num, b: Num) -> bool
    ensures { result ≡ compares op a b }
{
    match op {
        CmpOp::Eq => a == b,
        CmpOp::Ne => a != b,
        CmpOp::Lt => a < b,
        CmpOp::Le => a <= b,
        CmpOp::Gt => a > b,
        CmpOp::Ge => a >= b,
    }
}

fn and(left: Val, right: Val) -> Val
    ensures { result ≡ both left right }
{
    match left {
        Val::B(true) => right,
        other => other,
    }
}

fn or(left: Val, right: Val) -> Val
    ensures { result ≡ either left right }
{
    match left {
        Val::B(false) => right,
        other => other,
    }
}

/// `not` of a value; what is no truth stays.
pub fn invert(value: Val) -> Val
    ensures { result ≡ inverted value }
{
    match value {
        Val::B(truth) => Val::B(!truth),
        other => other,
    }
}

/// The negation of a value; what is no number stays.
pub fn negate(value: Val) -> Val
    ensures { result ≡ negated value }
{
    match value {
        Val::N(number) => Val::N(number.negated()),
        other => other,
    }
}
