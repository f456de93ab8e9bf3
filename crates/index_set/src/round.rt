//! Counts and sums of rows in a circle: those in the square around it are asked all tests.
ghost use Rattle.std.specs.Prelude.{◌≡◌, ◌<◌, ◌≤◌, ◌+ℤ◌, ◌-ℤ◌, All, IfOk, true, filter, length, slice_get};
ghost use Rattle.std.specs.List.{find};
ghost use Rattle.std.specs.List.Sorted.{IsPermutation};
ghost use Rattle.std.specs.Option.{option_map};
ghost use Rattle.sgl_typed.specs.Aggregate.{made, sum_of};
ghost use Rattle.sgl_typed.specs.declared.script.TAgg.{TAgg};
ghost use Rattle.sgl_evaluate.specs.Frame.{context_of, IsFrame};
ghost use Rattle.sgl_evaluate.specs.Rights.{AreRights, passes_each, right_of};
ghost use Rattle.battle_algebra.specs.Ways as ways;
ghost use Rattle.group_boxes.specs.Ranged.{is_total};
ghost use Rattle.row_groups.specs.Ranked.{rows_between};
ghost use Rattle.test_boxes.specs.Forms.{IsAsking};
ghost use Rattle.index_set.specs.Owned.{AreOwn, IsOwn};
ghost use Rattle.index_set.specs.Rounds.{IsRound, centre_of};
ghost use Rattle.index_set.specs.Targets.{passing_rows};
ghost use Rattle.index_set.specs.Walks.{row_passes};

use crate::source::Source;
use battle_algebra::Way;
use env_table::World;
use group_sweeps::Means;
use row_groups::{Groups, SortedGroups, Strip};
use sgl_evaluate::{Frame, Rights, attribute_of, fold_rows, passes, placed};
use sgl_typed::{Attr, TAgg, TTest};
use sgl_values::{FoldKind, Memory, Num, ROWS_MAX, Val, bounded};
use std::thread::Threads;
use test_boxes::{Asking, GroupingAttrs, Reading, Span, asked_key};

/// The rows of groups by the two attributes that give the centre of a circle.
#[derive(Debug, Drop)]
pub(crate) struct Round {
    groups: Groups,
    sorted: SortedGroups,
    x: Attr,
    y: Attr,
}

/// What is kept for each aggregate of a script over the rows in a circle, by its number.
pub(crate) fn round_aggs<R: Threads + Sync>(
    means: &Means<R>,
    of: &Source,
) -> Result<Vec<Option<Round>>, Memory>
    ensures { IfOk result (λ rounds. AreOwn (IsRound of.now.world.now.world) rounds.items (length of.now.script.now.aggs) of.now.script.now) }
{
    let mut rounds = Vec::new(means.alloc);
    for number in 0..of.script.aggs.len() {
        rounds.push(round_for(means, of, number)?)?;
    }
    Ok(rounds)
}

// What is kept for the aggregate with this number, where it is over the rows in a circle.
fn round_for<R: Threads + Sync>(
    means: &Means<R>,
    of: &Source,
    number: usize,
) -> Result<Option<Round>, Memory>
    ensures { IfOk result (λ round. (agg : TAgg) → slice_get of.now.script.now.aggs number ≡ Some agg → IsOwn (IsRound of.now.world.now.world) round agg) }
{
    match of.agg_by_way(means.alloc, number, Way::Circle) {
        None => Ok(None),
        Some(agg) => lay_round(means, of.world, agg),
    }
}

// What is kept for an aggregate that counts or adds up, where it has a circle.
fn lay_round<R: Threads + Sync>(
    means: &Means<R>,
    world: &World,
    agg: &TAgg,
) -> Result<Option<Round>, Memory>
    requires total { is_total agg.now.kind ≡ true }
    requires few { ways.few_groups agg.now.tests ≡ true }
    ensures { IfOk result (λ round. IsOwn (IsRound world.now.world) round agg.now) }
{
    let Means { rt, threads, alloc } = *means;
    match centre(agg.tests.as_slice()) {
        None => Ok(None),
        Some((x, y)) => {
            let attrs = GroupingAttrs::of(agg.tests.as_slice(), Reading::Away);
            let groups = Groups::build(rt, threads, alloc, world, attrs.as_slice())?;
            let sorted = SortedGroups::build(rt, threads, alloc, world, &groups, Some(x), Some(y))?;
            Ok(Some(Round {
                groups,
                sorted,
                x,
                y,
            }))
        }
    }
}

// The attributes that give the centre of the first circle.
fn centre(tests: &[TTest]) -> Option<(Attr, Attr)>
    ensures { result ≡ option_map centre_of (find ways.is_circle tests.now) }
{
    for test in tests {
        if let TTest::Within { x, y, .. } = test {
            return Some((*x, *y));
        }
    }
    None
}

/// What a count or a sum makes of the rows that pass, from what is kept for it, behind right sides without a fault. It takes no
/// memory.
pub(crate) fn rounded(asking: &Asking, agg: &TAgg, round: &Round) -> Val
    requires asking { IsAsking asking.now agg.now.tests }
    requires round { IsRound asking.now.frame.now.tick.world.now.world round.now agg.now }
    ensures { result ≡ made agg.now.kind agg.now (context_of asking.now.frame.now).unit (filter (passes_each (context_of asking.now.frame.now) agg.now.tests) asking.now.frame.now.tick.world.now.world.rows) }
{
    let Asking { frame, rights, .. } = *asking;
    let _ = frame.tick.world.len();
    let tests = agg.tests.as_slice();
    let key = asked_key(asking, tests, Reading::Away);
    match radius(frame, tests, rights) {
        None => fold_rows(agg, frame, rights),
        Some(radius) => match round.groups.number(&key) {
            None => Val::N(Num::zero()),
            Some(group) => {
                let x = around(attribute_of(frame.tick.world, frame.unit, round.x), radius);
                let y = around(attribute_of(frame.tick.world, frame.unit, round.y), radius);
                let square = rows_in(round, group, x, y);
                total(frame, agg, rights, square)
            }
        },
    }
}

// The rows of a group with both values in these spans.
fn rows_in<'a>(round: &'a Round, group: u32, x: Span, y: Span) -> Strip<'a>
    ensures { result ≡ rows_between round.entry.now.sorted group x.low x.high y.low y.high }
{
    round.sorted.strip(group, x.low, x.high, y.low, y.high)
}

// The values at most so far from a centre.
fn around(centre: Num, radius: Num) -> Span
    ensures low { result.low ≡ centre -ℤ radius }
    ensures high { result.high ≡ centre +ℤ radius }
{
    Span {
        low: centre.get() - radius.get(),
        high: centre.get() + radius.get(),
    }
}

// The radius of the first circle.
fn radius(frame: &Frame, tests: &[TTest], rights: &Rights) -> Option<Num>
    requires frame { IsFrame frame.now }
    requires rights { AreRights (context_of frame.now) tests.now rights.now }
    ensures { result ≡ option_map (right_of (context_of frame.now)) (find ways.is_circle tests.now) }
{
    for number in 0..tests.len() {
        if let TTest::Within { .. } = tests[number] {
            return Some(rights.at(frame, tests, number));
        }
    }
    None
}

// What a count or a sum makes of the rows that pass, which are among these.
fn total(frame: &Frame, agg: &TAgg, rights: &Rights, rows: Strip) -> Val
    requires frame { IsFrame frame.now }
    requires rights { AreRights (context_of frame.now) agg.now.tests rights.now }
    requires kind { is_total agg.now.kind ≡ true }
    requires within { All (λ row. row < length frame.now.tick.world.now.world.rows) rows }
    requires few { length rows ≤ ROWS_MAX }
    requires rows { IsPermutation (passing_rows (context_of frame.now) agg.now.tests) (filter (row_passes (context_of frame.now) agg.now.tests) rows) }
    ensures { result ≡ made agg.now.kind agg.now (context_of frame.now).unit (filter (passes_each (context_of frame.now) agg.now.tests) frame.now.tick.world.now.world.rows) }
{
    let tests = agg.tests.as_slice();
    match agg.kind {
        FoldKind::Count => Val::N(Num::whole(count(frame, tests, rights, rows))),
        FoldKind::Sum => placed(
            agg.place,
            bounded(sum(frame, tests, rights, rows, agg.attr)),
        ),
        _ => unreachable!(),
    }
}

// How many rows pass, which are among these.
fn count(frame: &Frame, tests: &[TTest], rights: &Rights, rows: Strip) -> u32
    requires frame { IsFrame frame.now }
    requires rights { AreRights (context_of frame.now) tests.now rights.now }
    requires within { All (λ row. row < length frame.now.tick.world.now.world.rows) rows }
    requires few { length rows ≤ ROWS_MAX }
    requires rows { IsPermutation (passing_rows (context_of frame.now) tests.now) (filter (row_passes (context_of frame.now) tests.now) rows) }
    ensures { result ≡ length (filter (passes_each (context_of frame.now) tests.now) frame.now.tick.world.now.world.rows) }
{
    let mut count = 0;
    for row in rows {
        if passes(frame, tests, rights, row) {
            count += 1;
        }
    }
    count
}

// The exact sum of an attribute over the rows that pass, which are among these; 65,536 values keep it below 2^63.
fn sum(frame: &Frame, tests: &[TTest], rights: &Rights, rows: Strip, attr: Attr) -> i64
    requires frame { IsFrame frame.now }
    requires rights { AreRights (context_of frame.now) tests.now rights.now }
    requires within { All (λ row. row < length frame.now.tick.world.now.world.rows) rows }
    requires few { length rows ≤ ROWS_MAX }
    requires rows { IsPermutation (passing_rows (context_of frame.now) tests.now) (filter (row_passes (context_of frame.now) tests.now) rows) }
    ensures { result ≡ sum_of attr (filter (passes_each (context_of frame.now) tests.now) frame.now.tick.world.now.world.rows) }
{
    let mut sum: i64 = 0;
    for row in rows {
        if passes(frame, tests, rights, row) {
            sum += attribute_of(frame.tick.world, row, attr).get();
        }
    }
    sum
}
