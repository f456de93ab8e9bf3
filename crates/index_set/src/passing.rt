//! The rows that pass the tests of a clause, found for a frame and right sides that are lent.
ghost use Rattle.std.specs.Prelude.{◌≡◌, Some, slice_get};
ghost use Rattle.std.specs.List.Sorted.{IsPermutation};
ghost use Rattle.std.specs.Option.{ForSome};
ghost use Rattle.sgl_evaluate.specs.Frame.{context_of, IsFrame};
ghost use Rattle.sgl_evaluate.specs.Rights.{AreRights};
ghost use Rattle.test_boxes.specs.Forms.{FitTests};
ghost use Rattle.index_set.specs.Sets.{seed_of, IsIndexOf};
ghost use Rattle.index_set.specs.Slabs.{tests_of};
ghost use Rattle.index_set.specs.Targets.{passing_rows as rows_that_pass, passing_rows_rest};

use crate::passing_rows::PassingRows;
use crate::set::{IndexOf, IndexSet};
use crate::targets::walk_of;
use battle_algebra::{EffectWay, Node};
use sgl_evaluate::{Frame, Rights};
use sgl_typed::TTest;
use test_boxes::{Asking, TestForms};

impl IndexSet {
    /// The rows that pass tests, whose arguments are the slots of the frame, by their right sides and, where these are told,
    /// by the forms of the tests. They are the tests of the clause of the effect that the node is. It takes no memory.
    pub fn passing_rows<'a>(
        &'a self,
        of: IndexOf<'a>,
        node: u32,
        frame: Frame<'a>,
        tests: &'a [TTest],
        rights: &'a Rights,
        forms: Option<&TestForms>,
    ) -> PassingRows<'a>
        requires frame { IsFrame frame }
        requires world { frame.tick.world.now.world ≡ of.world.now.world }
        requires rights { AreRights (context_of frame) tests.now rights.now }
        requires forms { ForSome forms (λ forms. FitTests forms.now frame.slots.now tests.now) }
        requires tests { tests_of of.script.now (slice_get of.plan.now.plan.nodes node) ≡ Some tests.now }
        requires built { IsIndexOf self.now of.script.now of.plan.now of.world.now.world (seed_of self.now) }
        ensures { IsPermutation (rows_that_pass (context_of frame.entry) tests.entry.now) (passing_rows_rest result) }
    {
        let way = way_at(of, node);
        let slab = self.slabs.slab(&self.shelf, of, node, tests);
        let asking = Asking {
            frame: &frame,
            rights,
            forms,
        };
        let walk = walk_of(&asking, tests, way, slab, &self.keys);
        PassingRows {
            frame,
            tests,
            rights,
            walk,
        }
    }
}

// The way of the effect that a node is.
fn way_at(of: IndexOf, node: u32) -> EffectWay {
    match of.plan.plan().nodes.get(node as usize) {
        Some(Node::Effect { way, .. }) => *way,
        _ => EffectWay::Scan,
    }
}
