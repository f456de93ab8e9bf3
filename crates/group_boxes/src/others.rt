//! Counts where rows are in few groups by the value of an unequal test: those of all groups but one.
ghost use Rattle.std.specs.Prelude.{◌≡◌, ◌≤◌, filter, length};
ghost use Rattle.std.specs.List.{range_with_len, sum_by};
ghost use Rattle.sgl_evaluate.specs.Frame.{context_of};
ghost use Rattle.sgl_evaluate.specs.Rights.{passes_each};
ghost use Rattle.group_boxes.specs.Points.{count_but as count_but_group, count_in, is_own as is_own_group};
ghost use Rattle.group_boxes.specs.Ranged.{AreOthers, AskForBox};

use crate::ranged::GroupBoxes;
use sgl_typed::TTest;
use sgl_values::ROWS_MAX;
use test_boxes::{AskedBox, Asking, Reading, Span, asked_key};

/// How many rows pass all tests, of which one is unequal and none equal: those in the box of each group but the one with
/// the right side of the unequal test. It looks at 1,024 ranks of each group at most, and takes no memory.
pub fn count_others(asking: &Asking, tests: &[TTest], asked: AskedBox, part: &GroupBoxes) -> u32
    requires asked { AskForBox asking.now tests.now asked }
    requires part { AreOthers part.now tests.now asking.now.frame.now.tick.world.now.world.rows }
    ensures { result ≡ length (filter (passes_each (context_of asking.now.frame.now) tests.now) asking.now.frame.now.tick.world.now.world.rows) }
{
    let frame = asking.frame;
    let _ = frame.tick.world.len();
    let key = asked_key(asking, tests, Reading::Alike);
    let own = part.groups.number(&key);
    count_but(part, own, asked.across, asked.down)
}

// How many points lie in a box, of all groups but one.
fn count_but(part: &GroupBoxes, own: Option<u32>, across: Span, down: Span) -> u32
    requires { sum_by (count_in part.now.boxes.now across down) (range_with_len 0 (length part.now.groups.now.lists)) ≤ ROWS_MAX }
    ensures { result ≡ sum_by (count_but_group part.now.boxes.now across down own) (range_with_len 0 (length part.now.groups.now.lists)) }
{
    let mut count = 0;
    for group in 0..part.groups.len() {
        count += count_unless(part, own, group, across, down);
    }
    count
}

// How many points of a group lie in a box, and none of the group that is left out.
fn count_unless(part: &GroupBoxes, own: Option<u32>, group: u32, across: Span, down: Span) -> u32
    ensures { result ≡ count_but_group part.now.boxes.now across down own group }
{
    if is_own(own, group) {
        0
    } else {
        part.boxes.count_in(group, across, down)
    }
}

fn is_own(own: Option<u32>, group: u32) -> bool
    ensures { result ≡ is_own_group own group }
{
    match own {
        None => false,
        Some(own) => own == group,
    }
}
