//! Nodes in the making.
ghost use Rattle.std.specs.Prelude.{◌≡◌, ◌<◌, ◌+◌, ◌++◌, ◌∷◌, [], length, slice_index_or, slice_set, IfOk, OnOk};
ghost use Rattle.battle_algebra.specs.Nodes.{has_first, has_second, pointed};
ghost use Rattle.battle_algebra.specs.declared.plan.Node.TheVariants as Node;

use crate::plan::Node;
use sgl_values::{List, Memory};
use std::alloc::Global;
use std::marker::Model;

/// Nodes in the making. Contracts see the list of them.
#[derive(Debug, Drop)]
pub struct NodeList {
    items: Vec<Node>,
}

impl Model for NodeList {
    ghost use Rattle.std.specs.Prelude.{List};
    ghost use Rattle.battle_algebra.specs.declared.plan.Node.{Node};
    ghost use Rattle.std.specs.Coded.{codes};
    ghost use Rattle.sgl_typed.specs.contracts.script.TExpr as expr;

    ghost Value = { List Node };

    ghost coded = { Prim.hlevel (codes, expr.the_row.coded) };

    ghost view = { λ it. it.items.items };
}

impl NodeList {
    /// No nodes. It takes no memory.
    pub fn new(alloc: Global) -> NodeList
        ensures { result ≡ [] }
    {
        NodeList {
            items: Vec::new(alloc),
        }
    }

    /// The number of the next node; refused for want of memory alone.
    pub fn next(&self) -> Result<u32, Memory>
        ensures { IfOk result (λ at. at ≡ length self.now) }
    {
        u32::try_from(self.items.len()).map_err(|_| Memory)
    }

    /// The number of the node behind the next one; refused for want of memory alone.
    pub fn child(&self) -> Result<u32, Memory>
        ensures { IfOk result (λ at. at ≡ length self.now + 1) }
    {
        self.next()?.checked_add(1).ok_or(Memory)
    }

    /// Puts a node behind the last; refused for want of memory alone.
    pub fn push(&mut self, node: Node) -> Result<(), Memory>
        ensures { OnOk result (self.new ≡ self.old ++ node ∷ []) }
    {
        self.items.push(node)?;
        Ok(())
    }

    /// Puts a node in the place of another one.
    pub fn set(&mut self, at: usize, node: Node)
        requires { at < length self.old }
        ensures { self.new ≡ slice_set self.old at node }
    {
        self.items[at] = node;
    }

    /// Whether the node with this number has a child.
    pub fn has_first(&self, at: usize) -> bool
        requires { at < length self.now }
        ensures { result ≡ has_first (slice_index_or self.now at Node.Empty) }
    {
        has_child(&self.items[at])
    }

    /// Whether it has two.
    pub fn has_second(&self, at: usize) -> bool
        requires { at < length self.now }
        ensures { result ≡ has_second (slice_index_or self.now at Node.Empty) }
    {
        has_children(&self.items[at])
    }

    /// Sets the numbers of the children of a node, of as many as it has.
    pub fn point(&mut self, at: usize, first: u32, second: u32)
        requires { at < length self.old }
        ensures { self.new ≡ slice_set self.old at (pointed (slice_index_or self.old at Node.Empty) first second) }
    {
        point_node(&mut self.items[at], first, second);
    }

    /// The nodes, lent.
    pub fn as_slice(&self) -> &[Node]
        ensures { result.now ≡ self.now }
    {
        self.items.as_slice()
    }

    /// Takes the last node out; `Memory` where there is none.
    pub fn take_last(&mut self) -> Result<Node, Memory>
        ensures { IfOk result (λ node. self.old ≡ self.new ++ node ∷ []) }
    {
        let node = self.items.pop().ok_or(Memory)?;
        Ok(node)
    }

    /// What gives it memory.
    pub fn allocator(&self) -> Global {
        *self.items.allocator()
    }

    /// Puts these nodes in the place of all.
    pub fn fill(&mut self, nodes: Vec<Node>)
        ensures { self.new ≡ nodes.items }
    {
        self.items = nodes;
    }

    /// How many there are.
    pub fn len(&self) -> usize
        ensures { result ≡ length self.now }
    {
        self.items.len()
    }

    /// The nodes as a list. It takes no memory.
    pub fn into_list(self) -> List<Node>
        ensures { result ≡ self }
    {
        List::from_vec(self.items)
    }
}

/// Whether a node has a child.
pub fn has_child(node: &Node) -> bool
    ensures { result ≡ has_first node.now }
{
    !matches!(node, Node::Empty | Node::Effect { .. })
}

/// Whether a node has two.
pub fn has_children(node: &Node) -> bool
    ensures { result ≡ has_second node.now }
{
    matches!(node, Node::Split { .. } | Node::Both { .. })
}

// Sets the numbers of the children of a node.
fn point_node(node: &mut Node, first: u32, second: u32)
    ensures { node.new ≡ pointed node.old first second }
{
    match node {
        Node::Empty => {}
        Node::Extend { then, .. } => *then = first,
        Node::Agg { then, .. } => *then = first,
        Node::Split { yes, no, .. } => {
            *yes = first;
            *no = second;
        }
        Node::Effect { .. } => {}
        Node::Both { left, right } => {
            *left = first;
            *right = second;
        }
    }
}
