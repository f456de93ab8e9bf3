//! The values of the expressions of `post` for the rows of a block, side by side where that can be.
ghost use Rattle.std.specs.Prelude.{◌≡◌, ◌<◌, length, slice_index_or};
ghost use Rattle.std.specs.Option.{option_copied};
ghost use Rattle.sgl_typed.specs.Aggregate.{simple_value};
ghost use Rattle.sgl_typed.specs.Tick.{spawn_value};
ghost use Rattle.sgl_typed.specs.Value.{Context};
ghost use Rattle.sgl_lanes.specs.Lanes.{lane_of, EachLane, HoldEach, Holds};
ghost use Rattle.tick_postprocess.specs.Blocks.{condition_value, lane_context, new_context, AreKnown, CanRead, CanReadNew};
ghost use Rattle.tick_postprocess.specs.Unit.{context_of};
ghost use Rattle.sgl_lanes.specs.declared.values.LaneValues.{LaneValues as ValuesOf};

use crate::row_lanes::{NewLanes, RowLanes};
use crate::unit::{PostUnit, value_of};
use sgl_lanes::{LANES, LaneValues, Lanes, number_at, truth_at};
use sgl_typed::{TExpr, TRule, TSpawn};
use sgl_values::Val;

/// The condition of `spawn when`, where there is one.
pub(crate) fn spawn_condition(spawn: &Option<TSpawn>) -> Option<&TExpr>
    ensures { (c : Context) → condition_value (option_copied result) c ≡ spawn_value spawn.now c }
{
    match spawn {
        None => None,
        Some(spawn) => Some(&spawn.cond),
    }
}

/// Reads the values of a condition over the new values for the rows of a set, which are not known where there is none.
pub(crate) fn read_condition(
    rows: &NewLanes,
    mask: u64,
    condition: Option<&TExpr>,
    values: &mut LaneValues,
    spare: &mut [LaneValues],
)
    requires { EachLane mask (CanReadNew rows.now) }
    ensures { HoldEach values.new.kind mask values.new.numbers (λ k. condition_value (option_copied condition.entry) (new_context rows.now k)) }
{
    match condition {
        None => values.kind = Lanes::Unknown,
        Some(expr) => values.evaluate(rows, mask, expr, spare),
    }
}

/// Reads the values of the right sides of as many rules as there is room for, for the rows of a set.
pub(crate) fn read_right_sides(
    rows: &RowLanes,
    mask: u64,
    rules: &[TRule],
    values: &mut [LaneValues],
    spare: &mut [LaneValues],
)
    requires { EachLane mask (CanRead rows.now) }
    ensures length { length values.new ≡ length values.old }
    ensures known { EachLane mask (λ k. AreKnown values.new k (lane_context rows.now k) rules.now) }
{
    for at in 0..values.len().min(rules.len()) {
        values[at].evaluate(rows, mask, &rules[at].value, &mut *spare);
    }
}

/// The value of an expression for a row, which is evaluated where it is not known. What is known is of this expression and
/// this row.
pub(crate) fn value_at(known: &LaneValues, unit: &PostUnit, lane: u32, expr: &TExpr) -> Val
    requires { lane < LANES }
    ensures { Holds known.now.kind (lane_of known.now.numbers lane) (simple_value (context_of unit.now) expr.now)
        → result ≡ simple_value (context_of unit.now) expr.now }
{
    match known.kind {
        Lanes::Numbers => Val::N(number_at(&known.numbers, lane)),
        Lanes::Truths => Val::B(truth_at(&known.numbers, lane)),
        Lanes::Unknown => value_of(unit, expr),
    }
}

/// The value of the right side of the rule with this number, which is evaluated where it is not known.
pub(crate) fn right_side(
    unit: &PostUnit,
    rule: &TRule,
    at: usize,
    values: &[LaneValues],
    lane: u32,
) -> Val
    requires lane { lane < LANES }
    ensures { (at < length values.now → (known : ValuesOf) → Holds (slice_index_or values.now at known).kind (lane_of (slice_index_or values.now at known).numbers lane) (simple_value (context_of unit.now) rule.now.value))
        → result ≡ simple_value (context_of unit.now) rule.now.value }
{
    if at < values.len() {
        value_at(&values[at], unit, lane, &rule.value)
    } else {
        value_of(unit, &rule.value)
    }
}
