//! The nearest row that passes all tests.
ghost use Rattle.std.specs.Prelude.{◌≡◌, filter, true};
ghost use Rattle.sgl_typed.specs.Aggregate.{made};
ghost use Rattle.sgl_values.specs.declared.operator.FoldKind.TheVariants.{Nearest};
ghost use Rattle.sgl_evaluate.specs.Frame.{context_of};
ghost use Rattle.sgl_evaluate.specs.Rights.{passes_each};
ghost use Rattle.battle_algebra.specs.Ways.{few_groups, is_unbounded};
ghost use Rattle.test_boxes.specs.Forms.{IsAsking};
ghost use Rattle.group_trees.specs.Nearby.{AreTreesOf, key_or as key_or_else};

use crate::trees::GroupTrees;
use nearest_tree::{Near, nearest_ignores_order};
use sgl_evaluate::attribute_of;
use sgl_typed::TAgg;
use sgl_values::{Num, Val};
use test_boxes::{Asking, Reading, asked_key, other_asked};

/// What `nearest` makes of the rows that pass all tests: the key of the nearest one, and what stands behind `else` where
/// there is none. The right sides of the tests have no fault. It takes no memory, and looks at some tens of points where
/// those that are left out are mixed with others.
pub fn nearest_found(asking: &Asking, agg: &TAgg, trees: &GroupTrees) -> Val
    requires asking { IsAsking asking.now agg.now.tests }
    requires kind { agg.now.kind ≡ Nearest }
    requires few { few_groups agg.now.tests ≡ true }
    requires unbounded { is_unbounded agg.now.tests ≡ true }
    requires trees { AreTreesOf trees.now agg.now asking.now.frame.now.tick.world.now.world.rows }
    ensures { result ≡ made agg.now.kind agg.now (context_of asking.now.frame.now).unit (filter (passes_each (context_of asking.now.frame.now) agg.now.tests) asking.now.frame.now.tick.world.now.world.rows) }
{
    nearest_ignores_order();
    let frame = asking.frame;
    let tests = agg.tests.as_slice();
    let key = asked_key(asking, tests, Reading::Away);
    let x = attribute_of(frame.tick.world, frame.unit, agg.attr);
    let y = attribute_of(frame.tick.world, frame.unit, agg.second);
    let found = trees.nearest(&key, x, y, other_asked(frame, tests, asking.rights));
    key_or(agg, found)
}

// The key of what was found.
fn key_or(agg: &TAgg, found: Option<Near>) -> Val
    ensures { result ≡ key_or_else agg.now.otherwise found }
{
    match found {
        None => Val::N(agg.otherwise),
        Some(near) => Val::N(Num::whole(near.key)),
    }
}
