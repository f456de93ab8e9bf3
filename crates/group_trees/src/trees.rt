//! A nearest tree for each group of rows.
ghost use Rattle.std.specs.Prelude.{◌≡◌, ◌<◌, ◌≤◌, IfOk, MatchOption, [], length, slice_index_or};
ghost use Rattle.nearest_tree.specs.Nearest.{nearest_of};
ghost use Rattle.row_groups.specs.Groups.{IsGroups};
ghost use Rattle.row_groups.specs.Listed.{IsListOf};
ghost use Rattle.group_trees.specs.Points.{AreTrees, point_of, points_under};

use crate::plane::Plane;
use env_table::World;
use nearest_tree::{Near, NearTree};
use row_groups::{Groups, Means, each_group, group_points};
use sgl_typed::Attr;
use sgl_values::{List, Memory, Num};
use std::alloc::Global;
use std::marker::Model;
use std::thread::Threads;

/// The rows of a world as points of the plane, with a tree for each group by the values of a few attributes. Contracts see
/// the plane, the groups, and the points of each group.
#[derive(Debug, Drop)]
pub struct GroupTrees {
    plane: Plane,
    groups: Groups,
    trees: List<NearTree>,
}

impl Model for GroupTrees {
    ghost use Rattle.group_trees.specs.Points.{Planted};

    ghost Value = { Planted };

    ghost view = { λ it. record { plane = it.plane; groups = it.groups; lists = it.trees } };
}

impl GroupTrees {
    /// The points of the rows by the values of at most four attributes. It takes n log squared n time for n rows. At most so
    /// many threads share the groups; one where it is 0. `Memory` is its only refusal.
    pub fn build(
        rt: &(impl Threads + Sync),
        threads: usize,
        alloc: Global,
        world: &World,
        attrs: &[Attr],
        plane: Plane,
    ) -> Result<GroupTrees, Memory>
        requires { length attrs.now ≤ 4 }
        ensures by { IfOk result (λ trees. trees.groups.attrs ≡ attrs.now) }
        ensures plane { IfOk result (λ trees. trees.plane ≡ plane) }
        ensures held { IfOk result (λ trees. AreTrees trees world.now.world.rows) }
    {
        let groups = Groups::build(rt, threads, alloc, world, attrs)?;
        let means = Means { rt, threads, alloc };
        let trees = each_group(
            &means,
            groups.len(),
            |group: u32| -> Result<NearTree, Memory>
                requires groups { IsGroups groups groups.attrs world.now.world.rows }
                requires group { group < length groups.lists }
                ensures { IfOk result (IsListOf (point_of plane) world.entry.now.world groups group) }
            {
                let points = group_points(alloc, world, &groups, group, &plane)?;
                NearTree::build(alloc, points.as_slice())
            },
        )?;
        let trees = List::from_vec(trees);
        Ok(GroupTrees {
            plane,
            groups,
            trees,
        })
    }

    /// The nearest point of the group with a key, without those of one value; `None` where there is none. It takes no memory.
    pub fn nearest(&self, key: &[Num; 4], x: Num, y: Num, other_than: Option<i64>) -> Option<Near>
        ensures { result ≡ nearest_of x y other_than (points_under self.now key.now) }
    {
        match self.tree_under(key) {
            None => None,
            Some(tree) => tree.nearest(x, y, other_than),
        }
    }

    // The tree of the group with a key.
    fn tree_under(&self, key: &[Num; 4]) -> Option<&NearTree>
        ensures { MatchOption result (points_under self.now key.now ≡ []) (λ tree. tree.now ≡ points_under self.now key.now) }
    {
        match self.groups.number(key) {
            None => None,
            Some(group) => self.tree_of(group),
        }
    }

    // The tree of the group with this number.
    fn tree_of(&self, group: u32) -> Option<&NearTree>
        ensures { MatchOption result (slice_index_or self.now.lists group [] ≡ []) (λ tree. tree.now ≡ slice_index_or self.now.lists group []) }
    {
        self.trees.get(group as usize)
    }
}
