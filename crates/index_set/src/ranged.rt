//! Counts and sums that are answered from range indices.
ghost use Rattle.std.specs.Prelude.{◌≡◌, ℕ, List, [], true, filter, length, map, slice_get, IfOk, IfSome, OnOk, Some};
ghost use Rattle.std.specs.List.{list_any};
ghost use Rattle.sgl_values.specs.World.{Row};
ghost use Rattle.sgl_values.specs.declared.operator.FoldKind.TheVariants.{Count, Sum};
ghost use Rattle.sgl_typed.specs.Aggregate.{made};
ghost use Rattle.sgl_typed.specs.declared.script.TAgg.{TAgg};
ghost use Rattle.test_boxes.specs.Forms.{IsAsking};
ghost use Rattle.sgl_evaluate.specs.Frame.{context_of};
ghost use Rattle.sgl_evaluate.specs.Rights.{passes_each};
ghost use Rattle.battle_algebra.specs.Ways as ways;
ghost use Rattle.group_boxes.specs.Ranged.{AreWeighed, IsRanged, is_total};
ghost use Rattle.test_boxes.specs.Readings.{grouping};
ghost use Rattle.test_boxes.specs.declared.reading.Reading.TheVariants.{Away};
ghost use Rattle.index_set.specs.Kept.{ArePartsAt, HasParts, IsFoundAt, IsKept, IsRangedAt, axes_of as axes_by, weight_by as weight_of_kind};
ghost use Rattle.index_set.specs.Shelves.{Grows, IsPart, IsShelf, IsShelfOf};

use crate::left::has_equal;
use crate::shelf::{Shelf, are_few};
use crate::source::Source;
use battle_algebra::{Way, first_range, is_unequal_test, next_range};
use env_table::World;
use group_boxes::{Axes, GroupBoxes, Ranged, count_others, tallied};
use group_sweeps::Means;
use sgl_evaluate::fold_rows;
use sgl_typed::{Attr, TAgg, TTest};
use sgl_values::{FoldKind, Memory, Num, Val};
use std::thread::Threads;
use test_boxes::{Asking, GroupingAttrs, Reading, asked_box};

/// The numbers of the range indices of an aggregate: those without its unequal test, and those with it turned into an equal
/// one where it has one; or of a count without equal tests those by the value of its unequal one, where groups are few.
#[derive(Clone, Copy, Debug)]
pub(crate) enum RangedAt {
    Parts { away: usize, turned: Option<usize> },
    Others(usize),
}

/// The range indices of the aggregate with this number, where it is answered from some.
pub(crate) fn range_of<R: Threads + Sync>(
    shelf: &mut Shelf,
    means: &Means<R>,
    of: &Source,
    number: usize,
) -> Result<Option<RangedAt>, Memory>
    requires { IsShelfOf shelf.old of.now }
    ensures kept { IfOk result (λ at. (agg : TAgg) → slice_get of.now.script.now.aggs number ≡ Some agg → IsKept shelf.new at agg of.now.world.now.world.rows) }
    ensures shelf { OnOk result (IsShelfOf shelf.new of.now) }
    ensures grows { OnOk result (Grows shelf.old shelf.new) }
{
    match of.agg_by_way(means.alloc, number, Way::Range) {
        None => Ok(None),
        Some(agg) => Ok(Some(range_for(shelf, means, of.world, agg)?)),
    }
}

// The range indices of a count or sum.
fn range_for<R: Threads + Sync>(
    shelf: &mut Shelf,
    means: &Means<R>,
    world: &World,
    agg: &TAgg,
) -> Result<RangedAt, Memory>
    requires shelf { IsShelf shelf.old world.now.world.rows }
    requires total { is_total agg.now.kind ≡ true }
    requires few { ways.few_groups agg.now.tests ≡ true }
    requires boxed { ways.is_boxed agg.now.tests ≡ true }
    ensures ranged { IfOk result (λ at. IsRangedAt shelf.new at agg.now world.now.world.rows) }
    ensures shelf { OnOk result (IsShelf shelf.new world.now.world.rows) }
    ensures grows { OnOk result (Grows shelf.old shelf.new) }
{
    let tests = agg.tests.as_slice();
    if has_unequal(tests) {
        let turned = part_by(shelf, means, world, agg, Reading::Alike)?;
        if counts_alone(agg) && has_few(shelf, turned) {
            return Ok(RangedAt::Others(turned));
        }
        let away = part_by(shelf, means, world, agg, Reading::Away)?;
        return Ok(RangedAt::Parts {
            away,
            turned: Some(turned),
        });
    }
    let away = part_by(shelf, means, world, agg, Reading::Away)?;
    Ok(RangedAt::Parts { away, turned: None })
}

// The range indices by the tests that are equal in a reading.
fn part_by<R: Threads + Sync>(
    shelf: &mut Shelf,
    means: &Means<R>,
    world: &World,
    agg: &TAgg,
    how: Reading,
) -> Result<usize, Memory>
    requires shelf { IsShelf shelf.old world.now.world.rows }
    requires few { ways.few_groups agg.now.tests ≡ true }
    ensures part { IfOk result (λ number. IsPart shelf.new number (map ways.attr_of (grouping how agg.now.tests)) (axes_by agg.now) world.now.world.rows) }
    ensures shelf { OnOk result (IsShelf shelf.new world.now.world.rows) }
    ensures grows { OnOk result (Grows shelf.old shelf.new) }
{
    let attrs = GroupingAttrs::of(agg.tests.as_slice(), how);
    shelf.part_for(means, world, attrs.as_slice(), axes_of(agg))
}

// Whether an aggregate is a count without equal tests.
fn counts_alone(agg: &TAgg) -> bool
    ensures counts { result ≡ true → agg.now.kind ≡ Count }
    ensures alone { result ≡ true → grouping Away agg.now.tests ≡ [] }
{
    agg.kind == FoldKind::Count && !has_equal(agg.tests.as_slice())
}

// Whether the range indices with this number are of few groups.
fn has_few(shelf: &Shelf, number: usize) -> bool {
    match shelf.part(number) {
        None => false,
        Some(part) => are_few(part.groups),
    }
}

fn axes_of(agg: &TAgg) -> Axes
    ensures { result ≡ axes_by agg.now }
{
    let tests = agg.tests.as_slice();
    let x = first_range(tests);
    let y = next_range(x, tests);
    Axes {
        x,
        y,
        weigh: weight_by(agg.kind, agg.attr),
    }
}

// The attribute that a fold adds up; a count needs no weights.
fn weight_by(kind: FoldKind, attr: Attr) -> Option<Attr>
    ensures { result ≡ weight_of_kind kind attr }
{
    match kind {
        FoldKind::Sum => Some(attr),
        _ => None,
    }
}

fn has_unequal(tests: &[TTest]) -> bool
    ensures { result ≡ list_any ways.is_unequal_test tests.now }
{
    tests.iter().any(|test| is_unequal_test(test))
}

/// What a count or a sum makes of the rows that pass, from its range indices, behind right sides without a fault. It takes no
/// memory.
pub(crate) fn ranged(asking: &Asking, agg: &TAgg, shelf: &Shelf, at: RangedAt) -> Val
    requires asking { IsAsking asking.now agg.now.tests }
    requires at { IsRangedAt shelf.now at agg.now asking.now.frame.now.tick.world.now.world.rows }
    ensures { result ≡ made agg.now.kind agg.now (context_of asking.now.frame.now).unit (filter (passes_each (context_of asking.now.frame.now) agg.now.tests) asking.now.frame.now.tick.world.now.world.rows) }
{
    let tests = agg.tests.as_slice();
    match found_at(shelf, at) {
        FoundAt::Nothing => fold_rows(agg, asking.frame, asking.rights),
        FoundAt::Parts(ranged) => {
            let asked = asked_box(asking, tests);
            tallied(asking, agg, asked, &ranged)
        }
        FoundAt::Others(part) => {
            let asked = asked_box(asking, tests);
            let count = count_others(asking, tests, asked, &part);
            Val::N(Num::whole(count))
        }
    }
}

// The range indices with these numbers, where they are there.
enum FoundAt<'a> {
    Nothing,
    Parts(Ranged<'a>),
    Others(GroupBoxes<'a>),
}

fn found_at<'a>(shelf: &'a Shelf, at: RangedAt) -> FoundAt<'a>
    ensures { (agg : TAgg) (rows : List Row) → IsRangedAt shelf.entry.now at agg rows → IsFoundAt result agg rows }
{
    match at {
        RangedAt::Parts { away, turned } => match parts_at(shelf, away, turned) {
            None => FoundAt::Nothing,
            Some(ranged) => FoundAt::Parts(ranged),
        },
        RangedAt::Others(number) => match shelf.part(number) {
            None => FoundAt::Nothing,
            Some(part) => FoundAt::Others(part),
        },
    }
}

// Those without an unequal test, and with it turned into an equal one.
fn parts_at<'a>(shelf: &'a Shelf, away: usize, turned: Option<usize>) -> Option<Ranged<'a>>
    ensures ranged { (agg : TAgg) (rows : List Row) → ArePartsAt shelf.entry.now away turned agg rows → IfSome result (λ found. IsRanged found agg.tests rows) }
    ensures weighed { (agg : TAgg) (rows : List Row) → agg.kind ≡ Sum → ArePartsAt shelf.entry.now away turned agg rows → IfSome result (λ found. AreWeighed found agg.attr) }
{
    let away = shelf.part(away)?;
    match turned {
        None => Some(Ranged { away, turned: None }),
        Some(number) => {
            let turned = shelf.part(number)?;
            Some(Ranged {
                away,
                turned: Some(turned),
            })
        }
    }
}
