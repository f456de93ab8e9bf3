//! What is seen of a tree from its root on, and where a node that sets a slot goes.
ghost use Rattle.std.specs.Prelude.{◌≡◌, ◌&&◌, ◌||◌, not, reverse, IfOk};
ghost use Rattle.plan_rewrite.specs.Bare.{is_setting, is_split};
ghost use Rattle.plan_rewrite.specs.Descents.{FallsInto, Glances};

use crate::descent::descent_into;
use crate::subtrees::node_avoids;
use battle_algebra::Node;
use sgl_values::Memory;
use std::alloc::Global;

/// What is seen of a subtree at first, for a node that sets a slot.
#[derive(Clone, Copy, Debug)]
pub enum Glance {
    /// The subtree reads the slot, and the node stays above it.
    Stays,
    /// The subtree does not read the slot.
    Unread,
    /// Nothing.
    Unclear,
}

// Whether a node is a split.
fn is_split_node(node: &Node) -> bool
    ensures { result ≡ is_split node.now }
{
    matches!(node, Node::Split { .. })
}

// Whether a node sets a slot.
fn sets_slot(node: &Node) -> bool
    ensures { result ≡ is_setting node.now }
{
    matches!(node, Node::Extend { .. } | Node::Agg { .. })
}

// Whether a node is a split at which the way may go on.
fn is_open_split(node: &Node, sure: bool) -> bool
    ensures { result ≡ (not sure && is_split node.now) }
{
    !sure && is_split_node(node)
}

// Whether it is sure behind a node, which is no open split, that the way ends above it.
fn is_sure_behind(node: &Node, sure: bool) -> bool
    ensures { result ≡ (sure || not (is_setting node.now)) }
{
    sure || !sets_slot(node)
}

/// What is seen, from the root on, of a tree of so many nodes at the end of nodes that go from the
/// last to the first.
pub fn glance_into(nodes: &[Node], count: usize, slot: u32) -> Result<Glance, Memory>
    ensures { IfOk result (λ glance. Glances (reverse nodes.now) count slot glance) }
{
    if count > nodes.len() {
        return Err(Memory);
    }
    let mut sure = false;
    for i in 0..count {
        let node = &nodes[nodes.len() - 1 - i];
        if !node_avoids(node, slot) {
            return Ok(Glance::Stays);
        }
        if is_open_split(node, sure) {
            return Ok(Glance::Unclear);
        }
        sure = is_sure_behind(node, sure);
    }
    Ok(Glance::Unread)
}

/// How many nodes of a tree of so many, at the end of nodes that go from the last to the first, a
/// node that sets a slot passes on its way down; nothing where the tree does not read the slot.
pub fn place_into(
    alloc: Global,
    nodes: &[Node],
    count: usize,
    slot: u32,
) -> Result<Option<usize>, Memory>
    ensures { IfOk result (λ place. FallsInto (reverse nodes.now) count slot place) }
{
    match glance_into(nodes, count, slot)? {
        Glance::Stays => Ok(Some(0)),
        Glance::Unread => Ok(None),
        Glance::Unclear => {
            let descent = descent_into(alloc, nodes, count, slot)?;
            if descent.avoids {
                return Ok(None);
            }
            Ok(Some(descent.place))
        }
    }
}
