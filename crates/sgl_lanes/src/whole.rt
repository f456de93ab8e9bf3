//! Operations of the language on lanes.
ghost use Rattle.std.specs.Prelude.{◌≡◌, ◌<◌, ℕ, pos, Ok, if◌then◌else◌};
ghost use Rattle.std.specs.Ordering.{int_eq};
ghost use Rattle.sgl_values.specs.declared.fault.Val.{Val};
ghost use Rattle.sgl_values.specs.declared.place.Place.{Place};
ghost use Rattle.sgl_typed.specs.Value.{negated, inverted, operated};
ghost use Rattle.sgl_values.specs.declared.operator.BinOp.TheVariants.{Cmp};
ghost use Rattle.sgl_lanes.specs.declared.kind.Lanes.TheVariants.{Numbers, Truths};
ghost use Rattle.sgl_lanes.specs.Lanes.{lane_of, EachLane, Holds};
ghost use Rattle.sgl_lanes.specs.Sides.{standing_at};

use crate::arithmetic::{add_each, multiply_each, subtract_each};
use crate::division::{divide_each, reduce_each};
use crate::kind::{Lanes, kind_if};
use crate::lane_set::LANES;
use crate::operation::{bit, combine};
use crate::side::{Constant, Side, Standing};
use crate::unary::{invert_each, negate_each};
use sgl_values::{ArithFault, BinOp, CmpOp, Num};

/// The negatives of the numbers.
pub(crate) fn negate_lanes(kind: Lanes, out: &mut [Num; LANES]) -> Lanes
    ensures { (k : ℕ) (v : Val) → k < LANES → Holds kind (lane_of out.old k) v → Holds result (lane_of out.new k) (negated v) }
{
    negate_each(out);
    kind_if(kind == Lanes::Numbers, kind)
}

/// The contraries of the truths.
pub(crate) fn invert_lanes(kind: Lanes, out: &mut [Num; LANES]) -> Lanes
    ensures { (k : ℕ) (v : Val) → k < LANES → Holds kind (lane_of out.old k) v → Holds result (lane_of out.new k) (inverted v) }
{
    invert_each(out);
    kind_if(kind == Lanes::Truths, kind)
}

// `and` of two truths.
fn both(left: Num, right: Num) -> Result<Num, ArithFault>
    ensures { result ≡ Ok (if int_eq left (pos 0) then left else right) }
{
    Ok(if left == Num::zero() { left } else { right })
}

// `or` of two truths.
fn either(left: Num, right: Num) -> Result<Num, ArithFault>
    ensures { result ≡ Ok (if int_eq left (pos 0) then right else left) }
{
    Ok(if left == Num::zero() { right } else { left })
}

fn compare_lanes<L: Side, R: Side>(
    op: CmpOp,
    mask: u64,
    left: &L,
    right: &R,
    out: &mut [Num; LANES],
) -> Lanes
    ensures { (place : Place) → EachLane mask (λ k. (v w : Val) → Holds Numbers (L.at left.now k) v → Holds Numbers (R.at right.now k) w
        → Holds result (lane_of out.new k) (operated (Cmp op) place v w)) }
{
    match op {
        CmpOp::Eq => kind_if(
            combine(mask, left, right, out, |a, b| Ok(bit(a == b))),
            Lanes::Truths,
        ),
        CmpOp::Ne => kind_if(
            combine(mask, left, right, out, |a, b| Ok(bit(a != b))),
            Lanes::Truths,
        ),
        CmpOp::Lt => kind_if(
            combine(mask, left, right, out, |a, b| Ok(bit(a < b))),
            Lanes::Truths,
        ),
        CmpOp::Le => kind_if(
            combine(mask, left, right, out, |a, b| Ok(bit(a <= b))),
            Lanes::Truths,
        ),
        CmpOp::Gt => kind_if(
            combine(mask, left, right, out, |a, b| Ok(bit(a > b))),
            Lanes::Truths,
        ),
        CmpOp::Ge => kind_if(
            combine(mask, left, right, out, |a, b| Ok(bit(a >= b))),
            Lanes::Truths,
        ),
    }
}

fn operate_on_numbers<L: Side, R: Side>(
    op: BinOp,
    mask: u64,
    left: &L,
    right: &R,
    out: &mut [Num; LANES],
) -> Lanes
    ensures { (place : Place) → EachLane mask (λ k. (v w : Val) → Holds Numbers (L.at left.now k) v → Holds Numbers (R.at right.now k) w
        → Holds result (lane_of out.new k) (operated op place v w)) }
{
    match op {
        BinOp::Add => kind_if(add_each(mask, left, right, out), Lanes::Numbers),
        BinOp::Sub => kind_if(subtract_each(mask, left, right, out), Lanes::Numbers),
        BinOp::Mul => kind_if(multiply_each(mask, left, right, out), Lanes::Numbers),
        BinOp::Div => kind_if(divide_each(mask, left, right, out), Lanes::Numbers),
        BinOp::Rem => kind_if(reduce_each(mask, left, right, out), Lanes::Numbers),
        BinOp::Cmp(op) => compare_lanes(op, mask, left, right, out),
        BinOp::And | BinOp::Or => Lanes::Unknown,
    }
}

fn operate_on_truths<L: Side, R: Side>(
    op: BinOp,
    mask: u64,
    left: &L,
    right: &R,
    out: &mut [Num; LANES],
) -> Lanes
    ensures { (place : Place) → EachLane mask (λ k. (v w : Val) → Holds Truths (L.at left.now k) v → Holds Truths (R.at right.now k) w
        → Holds result (lane_of out.new k) (operated op place v w)) }
{
    match op {
        BinOp::And => kind_if(combine(mask, left, right, out, both), Lanes::Truths),
        BinOp::Or => kind_if(combine(mask, left, right, out, either), Lanes::Truths),
        _ => Lanes::Unknown,
    }
}

/// Puts what an operation makes of the lanes of two sides into lanes.
pub(crate) fn operate_lanes<L: Side, R: Side>(
    op: BinOp,
    mask: u64,
    kinds: (Lanes, Lanes),
    left: &L,
    right: &R,
    out: &mut [Num; LANES],
) -> Lanes
    ensures { (place : Place) → EachLane mask (λ k. (v w : Val) → Holds kinds.0 (L.at left.now k) v → Holds kinds.1 (R.at right.now k) w
        → Holds result (lane_of out.new k) (operated op place v w)) }
{
    match kinds {
        (Lanes::Numbers, Lanes::Numbers) => operate_on_numbers(op, mask, left, right, out),
        (Lanes::Truths, Lanes::Truths) => operate_on_truths(op, mask, left, right, out),
        _ => Lanes::Unknown,
    }
}

// The same of any left side and a right side that stands.
fn operate_on<L: Side>(
    op: BinOp,
    mask: u64,
    kinds: (Lanes, Lanes),
    left: &L,
    right: &Standing,
    out: &mut [Num; LANES],
) -> Lanes
    ensures { (place : Place) → EachLane mask (λ k. (v w : Val) → Holds kinds.0 (L.at left.now k) v → Holds kinds.1 (standing_at right.now k) w
        → Holds result (lane_of out.new k) (operated op place v w)) }
{
    match right {
        Standing::Lanes(right) => operate_lanes(op, mask, kinds, left, *right, out),
        Standing::Number(number) => {
            let right = Constant { number: *number };
            operate_lanes(op, mask, kinds, left, &right, out)
        }
    }
}

/// The same of two sides that stand.
pub(crate) fn operate_sides(
    op: BinOp,
    mask: u64,
    kinds: (Lanes, Lanes),
    left: &Standing,
    right: &Standing,
    out: &mut [Num; LANES],
) -> Lanes
    ensures { (place : Place) → EachLane mask (λ k. (v w : Val) → Holds kinds.0 (standing_at left.now k) v → Holds kinds.1 (standing_at right.now k) w
        → Holds result (lane_of out.new k) (operated op place v w)) }
{
    match left {
        Standing::Lanes(left) => operate_on(op, mask, kinds, *left, right, out),
        Standing::Number(number) => {
            let left = Constant { number: *number };
            operate_on(op, mask, kinds, &left, right, out)
        }
    }
}
