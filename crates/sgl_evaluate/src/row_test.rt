//! Whether a row passes tests.
ghost use Rattle.std.specs.Prelude.{◌≡◌, ◌<◌, length};
ghost use Rattle.sgl_values.specs.World.{row_at};
ghost use Rattle.sgl_typed.specs.Aggregate.{meets as meets_of};
ghost use Rattle.sgl_evaluate.specs.Frame.{context_of, IsFrame};
ghost use Rattle.sgl_evaluate.specs.Rights.{AreRights, passes_each};

use crate::attribute::{attribute_of, distance_of};
use crate::frame::Frame;
use crate::operation::compare;
use crate::rights::Rights;
use sgl_typed::TTest;
use sgl_values::{Num, is_in_circle};

/// Whether the row with this number passes each test, given the right sides.
pub fn passes(frame: &Frame, tests: &[TTest], rights: &Rights, row: u32) -> bool
    requires frame { IsFrame frame.now }
    requires rights { AreRights (context_of frame.now) tests.now rights.now }
    requires row { row < length frame.now.tick.world.now.world.rows }
    ensures { result ≡ passes_each (context_of frame.now) tests.now (row_at frame.now.tick.world.now.world row) }
{
    for number in 0..tests.len() {
        if !meets(frame, &tests[number], row, rights.at(frame, tests, number)) {
            return false;
        }
    }
    true
}

/// Whether the row with this number passes a test, given its right side. A circle is drawn round the acting unit.
pub fn meets(frame: &Frame, test: &TTest, row: u32, right: Num) -> bool
    requires frame { IsFrame frame.now }
    requires row { row < length frame.now.tick.world.now.world.rows }
    ensures { result ≡ meets_of (context_of frame.now).unit (row_at frame.now.tick.world.now.world row) test.now right }
{
    match test {
        TTest::Compare { attr, op, .. } => compare(
            *op,
            attribute_of(frame.tick.world, row, *attr),
            right,
        ),
        TTest::Within { x, y, .. } => {
            is_in_circle(
                right,
                distance_of(frame.tick.world, *x, *y, frame.unit, row),
            )
        }
    }
}
