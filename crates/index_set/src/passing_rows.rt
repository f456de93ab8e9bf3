//! The rows that pass tests, one by one, where a frame and right sides are lent.
ghost use Rattle.std.specs.Prelude.{◌<◌, length, All};
ghost use Rattle.sgl_evaluate.specs.Frame.{context_of, IsFrame};
ghost use Rattle.sgl_evaluate.specs.Rights.{AreRights};
ghost use Rattle.index_set.specs.Walks.{walk_rest, AsksEnough};

use crate::walk::Walk;
use sgl_evaluate::{Frame, Rights};
use sgl_typed::TTest;

/// The numbers of the rows that pass tests, each once, in an order that is left open: a `RowIter` for whoever has the frame
/// and the right sides at hand, with no copy of either.
#[derive(Drop)]
pub struct PassingRows<'a> {
    pub(crate) frame: Frame<'a>,
    pub(crate) tests: &'a [TTest],
    pub(crate) rights: &'a Rights,
    pub(crate) walk: Walk<'a>,
    pub ghost acting: { IsFrame frame },
    pub ghost read: { AreRights (context_of frame) tests.now rights.now },
    pub ghost within: { All (λ row. row < length frame.tick.world.now.world.rows) (walk_rest walk) },
    pub ghost enough: { AsksEnough (context_of frame) tests.now walk },
}

impl<'a> Iterator for PassingRows<'a> {
    type Item = u32;

    ghost use Rattle.std.specs.Iterator.{YieldsFirst, item_count};
    ghost use Rattle.index_set.specs.Targets.{passing_rows_rest};

    ghost next_gives = { YieldsFirst passing_rows_rest };

    ghost remaining = { item_count passing_rows_rest };

    fn next(&mut self) -> Option<u32> {
        if let Walk::Exact(strip) = &mut self.walk {
            return strip.next();
        }
        if let Walk::Others(others) = &mut self.walk {
            return others.step();
        }
        self.walk.next_passing(&self.frame, self.tests, self.rights)
    }
}
