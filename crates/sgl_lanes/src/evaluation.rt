//! The value of an expression in all lanes of a set.
ghost use Rattle.std.specs.Prelude.{◌≡◌, ℕ, IfSome};
ghost use Rattle.sgl_values.specs.declared.fault.Val.TheVariants.{N};
ghost use Rattle.sgl_typed.specs.Aggregate.{simple_value};
ghost use Rattle.sgl_lanes.specs.Lanes.{lane_of, AreOperated, EachLane, HoldEach};
ghost use Rattle.sgl_lanes.specs.Sides.{standing_at};

use crate::contexts::LaneContexts;
use crate::kind::Lanes;
use crate::lane_set::LANES;
use crate::leaf::{fill, read_random, read_targets};
use crate::operation::bit;
use crate::side::Standing;
use crate::values::LaneValues;
use crate::whole::{invert_lanes, negate_lanes, operate_sides};
use sgl_typed::TExpr;
use sgl_values::{BinOp, Num};

/// The values of an expression in the lanes of a set, a bit each: numbers, or truths as 0 and 1. `Unknown` says nothing
/// of the lanes: a fault may be among the values, or the expression calls an aggregate, or slots of the lanes are of
/// several sorts; then they are to be evaluated one by one. It takes no memory, and recurses only as deep as the
/// expression. A side of an operation that does not stand in lanes already is read into the first of the spare lanes, and those within
/// it into `out` and the others by turns; where there are none left, into lanes of its own.
pub fn lanes<C: LaneContexts>(
    contexts: &C,
    mask: u64,
    expr: &TExpr,
    out: &mut [Num; LANES],
    spare: &mut [LaneValues],
) -> Lanes
    requires { EachLane mask (C.can_read contexts.now) }
    ensures { HoldEach result mask out.new (λ k. simple_value (C.context contexts.now k) expr.now) }
{
    match spare.split_first_mut() {
        Some((first, rest)) => { lanes_beside(contexts, mask, expr, out, &mut first.numbers, rest) }
        None => lanes_without_room(contexts, mask, expr, out),
    }
}

// The same where there are no spare lanes. Apart, since its list is filled with 0 on each call.
fn lanes_without_room<C: LaneContexts>(
    contexts: &C,
    mask: u64,
    expr: &TExpr,
    out: &mut [Num; LANES],
) -> Lanes
    requires { EachLane mask (C.can_read contexts.now) }
    ensures { HoldEach result mask out.new (λ k. simple_value (C.context contexts.now k) expr.now) }
{
    let mut others = [Num::zero(); LANES];
    lanes_beside(contexts, mask, expr, out, &mut others, &mut [])
}

// The same with others beside it, which hold anything afterwards. The left side of an operation is read into the others with
// `out` beside them, and so on by turns, so that a chain of operations takes no more lanes than these.
#[tactic(auto, using(sgl_typed::proofs::Equations::value_equations))]
#[cycle(lanes)]
fn lanes_beside<C: LaneContexts>(
    contexts: &C,
    mask: u64,
    expr: &TExpr,
    out: &mut [Num; LANES],
    others: &mut [Num; LANES],
    spare: &mut [LaneValues],
) -> Lanes
    requires { EachLane mask (C.can_read contexts.now) }
    ensures { HoldEach result mask out.new (λ k. simple_value (C.context contexts.now k) expr.now) }
{
    match expr {
        TExpr::Number(number) => fill(*number, out),
        TExpr::Truth(truth) => {
            fill(bit(*truth), out);
            return Lanes::Truths;
        }
        TExpr::Slot(slot) => return contexts.slots(mask, *slot, out),
        TExpr::Unit(attr) => contexts.units(mask, *attr, out),
        TExpr::Target(attr) => read_targets(contexts, mask, *attr, out),
        TExpr::Combined(effect) => contexts.effects(mask, *effect, out),
        TExpr::Random(index) => read_random(contexts, mask, *index, out),
        TExpr::Agg(_) => return Lanes::Unknown,
        TExpr::Neg(inner) => {
            let kind = lanes_beside(contexts, mask, inner.get(), out, others, spare);
            return negate_lanes(kind, out);
        }
        TExpr::Not(inner) => {
            let kind = lanes_beside(contexts, mask, inner.get(), out, others, spare);
            return invert_lanes(kind, out);
        }
        TExpr::Binary {
            op,
            left,
            right,
            ..
        } => {
            let (left, right) = (left.get(), right.get());
            if let Some(first) = standing(contexts, mask, left) {
                let kinds = (Lanes::Numbers, Lanes::Numbers);
                if let Some(second) = standing(contexts, mask, right) {
                    return operate_sides(*op, mask, kinds, &first, &second, out);
                }
                let pending = PendingOperation {
                    contexts,
                    mask,
                    op: *op,
                    right,
                };
                return operate_beside(&pending, Lanes::Numbers, &first, out, others, spare);
            }
            let kind = lanes_beside(contexts, mask, left, others, out, spare);
            if kind == Lanes::Unknown {
                return Lanes::Unknown;
            }
            let first = Standing::Lanes(&*others);
            if let Some(second) = standing(contexts, mask, right) {
                let kinds = (kind, Lanes::Numbers);
                return operate_sides(*op, mask, kinds, &first, &second, out);
            }
            let pending = PendingOperation {
                contexts,
                mask,
                op: *op,
                right,
            };
            return match spare.split_first_mut() {
                Some((lanes, rest)) => {
                    operate_beside(&pending, kind, &first, out, &mut lanes.numbers, rest)
                }
                None => operate_without_room(&pending, kind, &first, out),
            };
        }
    }
    Lanes::Numbers
}

// An operation whose left side is read, and whose right side is still to be.
#[derive(Drop)]
struct PendingOperation<'a, C> {
    contexts: &'a C,
    mask: u64,
    op: BinOp,
    right: &'a TExpr,
}

// What the operation makes of a left side of this kind and of its right side, which is read into others.
#[cycle(lanes)]
fn operate_beside<C: LaneContexts>(
    pending: &PendingOperation<C>,
    kind: Lanes,
    left: &Standing,
    out: &mut [Num; LANES],
    others: &mut [Num; LANES],
    spare: &mut [LaneValues],
) -> Lanes
    requires { EachLane pending.now.mask (C.can_read pending.now.contexts.now) }
    ensures { AreOperated pending.now.op pending.now.mask kind (standing_at left.now) (λ k. simple_value (C.context pending.now.contexts.now k) pending.now.right.now) result out.new }
{
    let (contexts, mask) = (pending.contexts, pending.mask);
    let right_kind = lanes_beside(contexts, mask, pending.right, others, out, spare);
    let right = Standing::Lanes(&*others);
    operate_sides(pending.op, mask, (kind, right_kind), left, &right, out)
}

// A side that stands in lanes already, or is one number.
fn standing<'a, C: LaneContexts>(contexts: &'a C, mask: u64, expr: &TExpr) -> Option<Standing<'a>>
    requires { EachLane mask (C.can_read contexts.now) }
    ensures { IfSome result (λ side. EachLane mask (λ k. simple_value (C.context contexts.now k) expr.now ≡ N (standing_at side k))) }
{
    if let TExpr::Number(number) = expr {
        return Some(Standing::Number(*number));
    }
    match lent(contexts, mask, expr) {
        Some(numbers) => Some(Standing::Lanes(numbers)),
        None => None,
    }
}

// The numbers of a side that stand in lanes already.
fn lent<'a, C: LaneContexts>(contexts: &'a C, mask: u64, expr: &TExpr) -> Option<&'a [Num; LANES]>
    requires { EachLane mask (C.can_read contexts.now) }
    ensures { IfSome result (λ numbers. EachLane mask (λ k. simple_value (C.context contexts.now k) expr.now ≡ N (lane_of numbers.now k))) }
{
    match expr {
        TExpr::Slot(slot) => contexts.lent_slots(mask, *slot),
        TExpr::Unit(attr) => contexts.lent_units(mask, *attr),
        TExpr::Combined(effect) => contexts.lent_effects(mask, *effect),
        _ => None,
    }
}

// The same where there is no room for the right side. Apart, since its list is filled with 0 on each call.
#[cycle(lanes)]
fn operate_without_room<C: LaneContexts>(
    pending: &PendingOperation<C>,
    kind: Lanes,
    left: &Standing,
    out: &mut [Num; LANES],
) -> Lanes
    requires { EachLane pending.now.mask (C.can_read pending.now.contexts.now) }
    ensures { AreOperated pending.now.op pending.now.mask kind (standing_at left.now) (λ k. simple_value (C.context pending.now.contexts.now k) pending.now.right.now) result out.new }
{
    let mut others = [Num::zero(); LANES];
    operate_beside(pending, kind, left, out, &mut others, &mut [])
}
