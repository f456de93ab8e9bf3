//! The nodes of a tree, linked by places.
ghost use Rattle.std.specs.Prelude.{OnOk};
ghost use Rattle.nearest_tree.specs.Trees.{AddsTree};

use crate::mark::Mark;
use crate::point::NearPoint;
use sgl_values::Memory;

/// A node of the tree: its point, and the mark of this point and of those below it.
#[derive(Clone, Copy, Debug)]
pub(crate) struct Node {
    pub(crate) point: NearPoint,
    pub(crate) mark: Mark,
}

/// Puts the nodes of a tree of points behind other nodes. They stand in the order of the points:
/// in the middle the root, before it the nodes of one half, behind it those of the other.
pub(crate) fn push_tree(nodes: &mut Vec<Node>, points: &[NearPoint]) -> Result<(), Memory>
    ensures { OnOk result (AddsTree nodes.old.items nodes.new.items points.now) }
{
    if points.is_empty() {
        return Ok(());
    }
    let middle = points.len() / 2;
    push_tree(nodes, &points[..middle])?;
    nodes.push(Node {
        point: points[middle],
        mark: Mark::of(points),
    })?;
    push_tree(nodes, &points[middle + 1..])
}
