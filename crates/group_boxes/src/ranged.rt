//! Counts and sums from range indices: an unequal test is taken off.
ghost use Rattle.std.specs.Prelude.{◌≡◌, ◌≤◌, true, false, length, filter, unsigned_abs, Some};
ghost use Rattle.sgl_typed.specs.Aggregate.{made, sum_of};
ghost use Rattle.sgl_evaluate.specs.Frame.{context_of};
ghost use Rattle.sgl_evaluate.specs.Rights.{passes_each, right_of};
ghost use Rattle.test_boxes.specs.Readings.{is_plain, passes_read};
ghost use Rattle.group_boxes.specs.Ranged.{is_total, weight_of, AreBoxesOf, AreWeighed, AskForBox, IsRanged};

use crate::boxes::Boxes;
use row_groups::Groups;
use sgl_evaluate::placed;
use sgl_typed::{Attr, TAgg, TTest};
use sgl_values::{FoldKind, Num, Val, bounded};
use test_boxes::{AskedBox, Asking, Reading, asked_key};

/// The groups of a partition, and a range index for each.
#[derive(Clone, Copy, Debug)]
pub struct GroupBoxes<'a> {
    pub groups: &'a Groups,
    pub boxes: &'a Boxes,
}

/// What a count or a sum is answered from: the groups by the values of its equal tests, and, where it has an unequal test,
/// those by its value too.
#[derive(Clone, Copy, Debug)]
pub struct Ranged<'a> {
    pub away: GroupBoxes<'a>,
    pub turned: Option<GroupBoxes<'a>>,
}

// How many rows pass in this reading: those of the group with the key that is asked for that lie in the box.
fn group_count(
    asking: &Asking,
    tests: &[TTest],
    how: Reading,
    asked: AskedBox,
    part: &GroupBoxes,
) -> u32
    requires asked { AskForBox asking.now tests.now asked }
    requires how { is_plain how ≡ false }
    requires part { AreBoxesOf part.now how tests.now asking.now.frame.now.tick.world.now.world.rows }
    ensures { result ≡ length (filter (passes_read how (right_of (context_of asking.now.frame.now)) tests.now) asking.now.frame.now.tick.world.now.world.rows) }
{
    let frame = asking.frame;
    let _ = frame.tick.world.len();
    let key = asked_key(asking, tests, how);
    part.boxes
        .count(part.groups, &key, asked.across, asked.down)
}

// The sum of the weights of these rows, which are their values of an attribute.
fn group_sum(
    asking: &Asking,
    tests: &[TTest],
    how: Reading,
    asked: AskedBox,
    part: &GroupBoxes,
    attr: Attr,
) -> i64
    requires asked { AskForBox asking.now tests.now asked }
    requires how { is_plain how ≡ false }
    requires part { AreBoxesOf part.now how tests.now asking.now.frame.now.tick.world.now.world.rows }
    requires weighed { weight_of part.now ≡ Some attr }
    ensures sum { result ≡ sum_of attr (filter (passes_read how (right_of (context_of asking.now.frame.now)) tests.now) asking.now.frame.now.tick.world.now.world.rows) }
    ensures small { unsigned_abs result ≤ 65536000000000000 }
{
    let frame = asking.frame;
    let _ = (frame.tick.world.len(), attr);
    let key = asked_key(asking, tests, how);
    part.boxes.sum(part.groups, &key, asked.across, asked.down) as i64
}

/// How many rows pass all tests: those that pass without the unequal test, less those that pass with it turned into an
/// equal one. It looks at 1,024 ranks of a group at most in each of the two, and takes no memory.
pub fn count(asking: &Asking, tests: &[TTest], asked: AskedBox, ranged: &Ranged) -> u32
    requires asked { AskForBox asking.now tests.now asked }
    requires ranged { IsRanged ranged.now tests.now asking.now.frame.now.tick.world.now.world.rows }
    ensures { result ≡ length (filter (passes_each (context_of asking.now.frame.now) tests.now) asking.now.frame.now.tick.world.now.world.rows) }
{
    let all = group_count(asking, tests, Reading::Away, asked, &ranged.away);
    match &ranged.turned {
        None => all,
        Some(part) => all - group_count(asking, tests, Reading::Alike, asked, part),
    }
}

/// The exact sum of the weights of the rows that pass all tests, their values of an attribute, which 65,536 values keep below
/// 2^63. It takes log squared time in the number of rows, and no memory.
pub fn sum(asking: &Asking, tests: &[TTest], asked: AskedBox, ranged: &Ranged, attr: Attr) -> i64
    requires asked { AskForBox asking.now tests.now asked }
    requires ranged { IsRanged ranged.now tests.now asking.now.frame.now.tick.world.now.world.rows }
    requires weighed { AreWeighed ranged.now attr }
    ensures { result ≡ sum_of attr (filter (passes_each (context_of asking.now.frame.now) tests.now) asking.now.frame.now.tick.world.now.world.rows) }
{
    let all = group_sum(asking, tests, Reading::Away, asked, &ranged.away, attr);
    match &ranged.turned {
        None => all,
        Some(part) => all - group_sum(asking, tests, Reading::Alike, asked, part, attr),
    }
}

/// What a count or a sum makes of the rows that pass, whose overflow stands at the place of the fold. The right sides of
/// its tests have no fault, and the box is the one that they ask for. It takes no memory.
pub fn tallied(asking: &Asking, agg: &TAgg, asked: AskedBox, ranged: &Ranged) -> Val
    requires asked { AskForBox asking.now agg.now.tests asked }
    requires kind { is_total agg.now.kind ≡ true }
    requires ranged { IsRanged ranged.now agg.now.tests asking.now.frame.now.tick.world.now.world.rows }
    requires weighed { agg.now.kind ≡ FoldKind.Sum → AreWeighed ranged.now agg.now.attr }
    ensures { result ≡ made agg.now.kind agg.now (context_of asking.now.frame.now).unit (filter (passes_each (context_of asking.now.frame.now) agg.now.tests) asking.now.frame.now.tick.world.now.world.rows) }
{
    let tests = agg.tests.as_slice();
    match agg.kind {
        FoldKind::Count => Val::N(Num::whole(count(asking, tests, asked, ranged))),
        FoldKind::Sum => placed(
            agg.place,
            bounded(sum(asking, tests, asked, ranged, agg.attr)),
        ),
        _ => unreachable!(),
    }
}
