//! A walk through the rows of a group in a strip of two attributes, or of all groups but one.
ghost use Rattle.std.specs.Prelude.{◌≡◌};
ghost use Rattle.sgl_evaluate.specs.Frame.{context_of};
ghost use Rattle.row_groups.specs.Ranked.{rows_between};
ghost use Rattle.test_boxes.specs.Forms.{IsAsking};
ghost use Rattle.index_set.specs.Slabs.{IsSlab};
ghost use Rattle.index_set.specs.Targets.{IsWalkOf};
ghost use Rattle.index_set.specs.Walks.{asked_rows};

use crate::left::Left;
use crate::others::Others;
use crate::slab::Slab;
use crate::walk::Walk;
use sgl_typed::TTest;
use test_boxes::{AskedBox, Asking, asked_box, asked_key};

/// The rows that pass the tests of a clause, or more, which are asked the tests that are left: those
/// whose values pass the range tests of the attribute by which rows are sorted and of that by which
/// they have ranks, in the group that the equal tests ask for; or in all groups by the value of the
/// unequal test but the one with its right side, which are asked none. It takes no memory.
pub(crate) fn slab_walk<'a>(asking: &Asking, tests: &[TTest], slab: Slab<'a>) -> Walk<'a>
    requires asking { IsAsking asking.now tests.now }
    requires slab { IsSlab slab tests.now asking.now.frame.now.tick.world.now.world }
    ensures { IsWalkOf (context_of asking.now.frame.now) tests.now result }
{
    let frame = asking.frame;
    let _ = frame.tick.world.len();
    let group = slab
        .groups
        .number(&asked_key(asking, tests, slab.left.reading()));
    if slab.left.is_others() {
        let asked = asked_box(asking, tests);
        return Walk::Others(Others::of(slab.sorted, slab.groups.len(), group, asked));
    }
    match group {
        None => Walk::Rows { next: 0, end: 0 },
        Some(group) => {
            let asked = asked_box(asking, tests);
            strip_walk(slab, group, asked)
        }
    }
}

// The rows of a group that lie in a box, which are asked the tests that the slab leaves.
fn strip_walk<'a>(slab: Slab<'a>, group: u32, asked: AskedBox) -> Walk<'a>
    ensures { result ≡ asked_rows slab.entry.left (rows_between slab.entry.sorted.now group asked.across.low asked.across.high asked.down.low asked.down.high) }
{
    let AskedBox { across, down } = asked;
    let strip = slab
        .sorted
        .strip(group, across.low, across.high, down.low, down.high);
    match slab.left {
        Left::Nothing => Walk::Exact(strip),
        Left::One(number) => Walk::Sole { strip, number },
        Left::Others | Left::All => Walk::Strip(strip),
    }
}
