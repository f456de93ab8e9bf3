//! How many rows pass tests, and the sum of an attribute over them.
ghost use Rattle.std.specs.Prelude.{◌≡◌, filter, length};
ghost use Rattle.sgl_typed.specs.Aggregate.{sum_of};
ghost use Rattle.sgl_evaluate.specs.Frame.{context_of, IsFrame};
ghost use Rattle.sgl_evaluate.specs.Rights.{AreRights, passes_each};

use crate::attribute::attribute_of;
use crate::frame::Frame;
use crate::rights::Rights;
use crate::row_test::passes;
use sgl_typed::{Attr, TTest};

/// How many rows pass.
pub(crate) fn count(frame: &Frame, tests: &[TTest], rights: &Rights) -> u32
    requires frame { IsFrame frame.now }
    requires rights { AreRights (context_of frame.now) tests.now rights.now }
    ensures { result ≡ length (filter (passes_each (context_of frame.now) tests.now) frame.now.tick.world.now.world.rows) }
{
    let mut count = 0;
    for row in 0..frame.tick.world.len() {
        if passes(frame, tests, rights, row) {
            count += 1;
        }
    }
    count
}

/// The exact sum of the attribute over the rows that pass, which 65,536 values keep below 2^63.
pub(crate) fn sum(frame: &Frame, tests: &[TTest], rights: &Rights, attr: Attr) -> i64
    requires frame { IsFrame frame.now }
    requires rights { AreRights (context_of frame.now) tests.now rights.now }
    ensures { result ≡ sum_of attr (filter (passes_each (context_of frame.now) tests.now) frame.now.tick.world.now.world.rows) }
{
    let mut sum: i64 = 0;
    for row in 0..frame.tick.world.len() {
        if passes(frame, tests, rights, row) {
            sum += attribute_of(frame.tick.world, row, attr).get();
        }
    }
    sum
}
