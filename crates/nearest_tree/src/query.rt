//! A search for the nearest of points.
ghost use Rattle.std.specs.Prelude.{◌≡◌};
ghost use Rattle.sgl_values.specs.Least.{lesser_of};
ghost use Rattle.nearest_tree.specs.Nearest.{near_cmp, near_other_than};
ghost use Rattle.nearest_tree.specs.Queries.{answer_of, bound_of, is_passed, lies_before};
ghost use Rattle.nearest_tree.specs.Trees.{IsTree, points_of};

use crate::mark::Mark;
use crate::near::Near;
use crate::node::Node;
use crate::point::NearPoint;
use sgl_values::{Num, lesser, squared_distance};

/// What is asked: the group that is left out, and the place to be near to.
#[derive(Clone, Copy)]
pub(crate) struct Query {
    pub(crate) other_than: Option<i64>,
    pub(crate) x: Num,
    pub(crate) y: Num,
}

impl Query {
    /// The nearer of what was found and of the nearest among the points of a tree. The side of the
    /// root on which the place lies is searched first, and a tree is passed over where its mark
    /// tells that it holds nothing nearer.
    pub(crate) fn search(&self, nodes: &[Node], found: Option<Near>) -> Option<Near>
        requires { IsTree nodes.now }
        ensures { result ≡ lesser_of near_cmp found (answer_of self.now (points_of nodes.now)) }
    {
        if nodes.is_empty() {
            return found;
        }
        let middle = nodes.len() / 2;
        let root = &nodes[middle];
        if self.passes_over(&root.mark, found) {
            return found;
        }
        let nearest = lesser(found, self.near(&root.point));
        let before = &nodes[..middle];
        let behind = &nodes[middle + 1..];
        if self.is_before(root) {
            let nearest = self.search(before, nearest);
            self.search(behind, nearest)
        } else {
            let nearest = self.search(behind, nearest);
            self.search(before, nearest)
        }
    }

    // How near a point is, where its group is not left out.
    fn near(&self, point: &NearPoint) -> Option<Near>
        ensures { result ≡ near_other_than self.now.x self.now.y self.now.other_than point.now }
    {
        match self.other_than {
            Some(group) if group == point.group => None,
            _ => Some(Near {
                distance: squared_distance(self.x, self.y, point.x, point.y),
                key: point.key,
            }),
        }
    }

    // Whether the mark of points tells that none of them is nearer than what was found.
    fn passes_over(&self, mark: &Mark, found: Option<Near>) -> bool
        ensures { result ≡ is_passed found (bound_of self.now mark.now) }
    {
        match (mark.keys.without(self.other_than), found) {
            (None, _) => true,
            (Some(_), None) => false,
            (Some(key), Some(near)) => {
                let distance = mark.distance(self.x, self.y);
                near.distance < distance || near.distance == distance && near.key <= key
            }
        }
    }

    // Whether the place lies on the side before the root.
    fn is_before(&self, root: &Node) -> bool
        ensures { result ≡ lies_before self.now root.now }
    {
        if root.mark.is_wide() {
            self.x < root.point.x
        } else {
            self.y < root.point.y
        }
    }
}
