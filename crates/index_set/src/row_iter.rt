//! The rows that an effect goes to, one by one.
ghost use Rattle.std.specs.Prelude.{◌≤◌, ◌<◌, length, All};
ghost use Rattle.sgl_evaluate.specs.Rights.{AreRights};
ghost use Rattle.index_set.specs.Frames.{clause_context_of};
ghost use Rattle.index_set.specs.Walks.{walk_rest, AsksEnough};
ghost use Rattle.sgl_values.specs.declared.limit.TheConstants.{PARAMS_MAX};

use crate::walk::Walk;
use sgl_evaluate::{Frame, Rights, TickContext};
use sgl_typed::TTest;
use sgl_values::{PARAMS_MAX, Val};

/// The numbers of the rows that pass the tests of a clause, each once, in an order that is left open.
#[derive(Drop)]
pub struct RowIter<'a> {
    pub(crate) tick: TickContext<'a>,
    pub(crate) unit: u32,
    // The values of the arguments, of which so many are there; a test past the sixteenth is evaluated with them.
    pub(crate) args: [Val; PARAMS_MAX],
    pub(crate) count: usize,
    pub(crate) tests: &'a [TTest],
    pub(crate) rights: Rights,
    pub(crate) walk: Walk<'a>,
    pub ghost few: { count ≤ PARAMS_MAX },
    pub ghost acting: { unit < length tick.world.now.world.rows },
    pub ghost read: { AreRights (clause_context_of tick.script.now tick.world.now.world tick.seed unit args count) tests.now rights },
    pub ghost within: { All (λ row. row < length tick.world.now.world.rows) (walk_rest walk) },
    pub ghost enough: { AsksEnough (clause_context_of tick.script.now tick.world.now.world tick.seed unit args count) tests.now walk },
}

impl<'a> Iterator for RowIter<'a> {
    type Item = u32;

    ghost use Rattle.std.specs.Iterator.{YieldsFirst, item_count};
    ghost use Rattle.index_set.specs.Targets.{row_iter_rest};

    ghost next_gives = { YieldsFirst row_iter_rest };

    ghost remaining = { item_count row_iter_rest };

    fn next(&mut self) -> Option<u32> {
        if let Walk::Exact(strip) = &mut self.walk {
            return strip.next();
        }
        if let Walk::Others(others) = &mut self.walk {
            return others.step();
        }
        let frame = Frame {
            tick: self.tick,
            unit: self.unit,
            slots: &self.args[..self.count],
            target: self.unit,
            combined: &[],
        };
        self.walk.next_passing(&frame, self.tests, &self.rights)
    }
}
