//! The trees of aggregates that ask for the nearest row.
ghost use Rattle.std.specs.Prelude.{◌≡◌, true, length, slice_get, IfOk};
ghost use Rattle.sgl_typed.specs.declared.script.TAgg.{TAgg};
ghost use Rattle.sgl_values.specs.declared.operator.FoldKind.TheVariants.{Nearest};
ghost use Rattle.battle_algebra.specs.Ways as ways;
ghost use Rattle.index_set.specs.Near.{IsNearest};
ghost use Rattle.index_set.specs.Owned.{AreOwn, IsOwn};

use crate::source::Source;
use battle_algebra::Way;
use env_table::World;
use group_sweeps::Means;
use group_trees::{GroupTrees, plane_of};
use sgl_typed::TAgg;
use sgl_values::Memory;
use std::thread::Threads;
use test_boxes::{GroupingAttrs, Reading};

/// The trees of each aggregate of a script that asks for the nearest row in a way that trees answer, by its number.
pub(crate) fn plant_aggs<R: Threads + Sync>(
    means: &Means<R>,
    of: &Source,
) -> Result<Vec<Option<GroupTrees>>, Memory>
    ensures { IfOk result (λ trees. AreOwn (IsNearest of.now.world.now.world.rows) trees.items (length of.now.script.now.aggs) of.now.script.now) }
{
    let mut trees = Vec::new(means.alloc);
    for number in 0..of.script.aggs.len() {
        trees.push(trees_for(means, of, number)?)?;
    }
    Ok(trees)
}

// The trees of the aggregate with this number, where trees answer it.
fn trees_for<R: Threads + Sync>(
    means: &Means<R>,
    of: &Source,
    number: usize,
) -> Result<Option<GroupTrees>, Memory>
    ensures { IfOk result (λ trees. (agg : TAgg) → slice_get of.now.script.now.aggs number ≡ Some agg → IsOwn (IsNearest of.now.world.now.world.rows) trees agg) }
{
    match of.agg_by_way(means.alloc, number, Way::Nearest) {
        None => Ok(None),
        Some(agg) => Ok(Some(plant(means, of.world, agg)?)),
    }
}

// The trees of an aggregate.
fn plant<R: Threads + Sync>(
    means: &Means<R>,
    world: &World,
    agg: &TAgg,
) -> Result<GroupTrees, Memory>
    requires nearest { agg.now.kind ≡ Nearest }
    requires few { ways.few_groups agg.now.tests ≡ true }
    requires unbounded { ways.is_unbounded agg.now.tests ≡ true }
    ensures { IfOk result (λ trees. IsNearest world.now.world.rows trees agg.now) }
{
    let Means { rt, threads, alloc } = *means;
    let attrs = GroupingAttrs::of(agg.tests.as_slice(), Reading::Away);
    GroupTrees::build(rt, threads, alloc, world, attrs.as_slice(), plane_of(agg))
}
