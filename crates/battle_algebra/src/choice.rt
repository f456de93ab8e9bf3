//! The ways of aggregates and effects.
ghost use Rattle.std.specs.Prelude.{◌≡◌, ◌||◌, Some, slice_get};
ghost use Rattle.std.specs.List.{list_any, list_all};
ghost use Rattle.std.specs.Option.{option_copied};
ghost use Rattle.battle_algebra.specs.Ways as ways;

use crate::axes::{covered, first_range, next_range};
use crate::bounds::{few_groups, is_boxed, is_round, is_unbounded};
use crate::clause::clause_at;
use crate::fixed::all_fixed;
use crate::plan::{EffectUse, EffectWay, Way};
use crate::sorts::{is_equal_test, is_range_test, tests_key};
use crate::targets::reads_target;
use sgl_typed::{AggUse, EffectAttr, TAgg, TExpr, TOn, TScript, TTest, TWrite};
use sgl_values::{FoldKind, Tag};

fn way_of_total(tests: &[TTest]) -> Way
    ensures { result ≡ ways.way_of_total tests.now }
{
    if few_groups(tests) && is_round(tests) {
        return Way::Circle;
    }
    if few_groups(tests) && is_boxed(tests) {
        return Way::Range;
    }
    Way::Scan
}

fn way_of_extreme(tests: &[TTest], args: &[TExpr]) -> Way
    ensures { result ≡ ways.way_of_extreme tests.now args.now }
{
    if few_groups(tests) && (is_boxed(tests) && all_fixed(tests, args)) {
        return Way::Sweep;
    }
    Way::Scan
}

fn way_of_nearest(tests: &[TTest]) -> Way
    ensures { result ≡ ways.way_of_nearest tests.now }
{
    if few_groups(tests) && is_unbounded(tests) {
        return Way::Nearest;
    }
    Way::Scan
}

fn way_by_fold(kind: FoldKind, tests: &[TTest], args: &[TExpr]) -> Way
    ensures { result ≡ ways.way_by_fold kind tests.now args.now }
{
    match kind {
        FoldKind::Count => way_of_total(tests),
        FoldKind::Sum => way_of_total(tests),
        FoldKind::Min => way_of_extreme(tests, args),
        FoldKind::Max => way_of_extreme(tests, args),
        FoldKind::Lowest => way_of_extreme(tests, args),
        FoldKind::Highest => way_of_extreme(tests, args),
        FoldKind::Nearest => way_of_nearest(tests),
    }
}

fn agg_at(script: &TScript, agg: u32) -> Option<&TAgg>
    ensures { option_copied result ≡ slice_get script.now.aggs agg }
{
    script.aggs.get(agg as usize)
}

/// How a call is answered. It takes no memory; numbers that are out of range in the script are scanned for.
pub fn class_of(script: &TScript, call: &AggUse) -> Way
    ensures { result ≡ ways.class_of script.now call.now }
{
    match agg_at(script, call.agg) {
        None => Way::Scan,
        Some(agg) => {
            let tests = agg.tests.as_slice();
            if tests_key(tests) {
                return Way::Key;
            }
            way_by_fold(agg.kind, tests, call.args.as_slice())
        }
    }
}

fn is_sum(tag: Tag) -> bool
    ensures { result ≡ ways.is_sum tag }
{
    matches!(tag, Tag::Sum)
}

fn is_sum_attr(effects: &[EffectAttr], effect: u32) -> bool
    ensures { result ≡ ways.is_sum_attr (slice_get effects.now effect) }
{
    match effects.get(effect as usize) {
        None => false,
        Some(attr) => is_sum(attr.tag),
    }
}

fn is_spread(effects: &[EffectAttr], write: &TWrite) -> bool
    ensures { result ≡ ways.is_spread effects.now write.now }
{
    is_sum_attr(effects, write.effect) && !reads_target(&write.amount)
}

fn are_spread(effects: &[EffectAttr], writes: &[TWrite]) -> bool
    ensures { result ≡ list_all (ways.is_spread effects.now) writes.now }
{
    writes.iter().all(|write| is_spread(effects, write))
}

fn are_ranges(tests: &[TTest]) -> bool
    ensures { result ≡ list_all ways.is_range_test tests.now }
{
    tests.iter().all(|test| is_range_test(test))
}

fn is_area(effects: &[EffectAttr], clause: &TOn) -> bool
    ensures { result ≡ ways.is_area effects.now clause.now }
{
    let tests = clause.tests.as_slice();
    let x = first_range(tests);
    (tests.len() > 0 && are_ranges(tests))
        && (covered(x, next_range(x, tests), tests)
            && are_spread(effects, clause.writes.as_slice()))
}

// Whether some test narrows the rows down to an interval or a group.
fn is_slab(tests: &[TTest]) -> bool
    ensures { result ≡ list_any (λ test. ways.is_equal_test test || ways.is_range_test test) tests.now }
{
    tests
        .iter()
        .any(|test| is_equal_test(test) || is_range_test(test))
}

fn clause_way(effects: &[EffectAttr], clause: &TOn) -> EffectWay
    ensures { result ≡ ways.clause_way effects.now (Some clause.now) }
{
    let tests = clause.tests.as_slice();
    if tests_key(tests) {
        return EffectWay::Key;
    }
    if is_area(effects, clause) {
        return EffectWay::Area;
    }
    if is_slab(tests) {
        return EffectWay::Slab;
    }
    EffectWay::Scan
}

/// How the rows of an effect are found. It takes no memory; for numbers that are out of range in the script each row is
/// tested.
pub fn effect_way(script: &TScript, act: &EffectUse) -> EffectWay
    ensures { result ≡ ways.effect_way script.now act.now }
{
    match clause_at(script, act) {
        None => EffectWay::Scan,
        Some(clause) => clause_way(script.schema.effects.as_slice(), clause),
    }
}
