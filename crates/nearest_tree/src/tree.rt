//! The tree of points.
ghost use Rattle.std.specs.Prelude.{◌≡◌, IsPermutation, IfOk};
ghost use Rattle.nearest_tree.specs.Nearest.{nearest_of};

use crate::near::Near;
use crate::node::{Node, push_tree};
use crate::order::order;
use crate::point::NearPoint;
use crate::query::Query;
use sgl_values::{Memory, Num};
use std::alloc::Global;
use std::marker::Model;

/// A tree that finds the nearest of points: a k-d tree (Bentley 1975; Friedman, Bentley and Finkel
/// 1977). Its nodes stand in one list and are linked by their places: in the middle of a part of
/// the list stands the root of its tree, and the halves before and behind the root are the trees
/// below it. Each node keeps the box and the group of the points of its tree. Contracts see the
/// points as a list, in no order that is told.
#[derive(Debug, Drop)]
pub struct NearTree {
    nodes: Vec<Node>,
}

impl Model for NearTree {
    ghost use Rattle.nearest_tree.specs.declared.point.NearPoint.{NearPoint};
    ghost use Rattle.nearest_tree.specs.Trees.{IsTree, points_of};
    ghost use Rattle.std.specs.Prelude.{List};

    ghost Value = { List NearPoint };

    ghost view = { λ it. points_of it.nodes.items };

    ghost invariant = { λ it. IsTree it.nodes.items };
}

impl NearTree {
    /// The tree of points, any number of which may be equal. It takes n log squared n time.
    /// `Memory` is its only refusal.
    pub fn build(alloc: Global, points: &[NearPoint]) -> Result<NearTree, Memory>
        ensures { IfOk result (λ tree. IsPermutation points.now tree) }
    {
        let mut points = Vec::from_slice(alloc, points)?;
        order(points.as_mut_slice());
        let mut nodes = Vec::with_capacity(alloc, points.len())?;
        push_tree(&mut nodes, points.as_slice())?;
        Ok(NearTree { nodes })
    }

    /// The least squared distance from (x, y), and of equal ones the least key, among the points
    /// whose group is not the given one; `None` exactly where there is none. It takes no memory.
    /// Where groups are mixed it looks at some tens of nodes, and where all points are left out at
    /// one.
    pub fn nearest(&self, x: Num, y: Num, other_than: Option<i64>) -> Option<Near>
        ensures { result ≡ nearest_of x y other_than self.now }
    {
        let query = Query { x, y, other_than };
        query.search(self.nodes.as_slice(), None)
    }
}
