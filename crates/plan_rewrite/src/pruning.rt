//! Nodes that are taken out and down.
ghost use Rattle.std.specs.Prelude.{◌≡◌, ◌+◌, ◌∷◌, reverse, slice_index_or, IfOk, OnOk};
ghost use Rattle.plan_rewrite.specs.Bare.{without};
ghost use Rattle.battle_algebra.specs.declared.plan.Node.TheVariants as Node;
ghost use Rattle.battle_algebra.specs.Normal.{literal};
ghost use Rattle.plan_rewrite.specs.Tidy.{is_empty, split_task as task_of_split, task_of, Chooses, IsTidied, Joins, Keeps, Lowers, Tidies};

use crate::glance::place_into;
use crate::grove::Grove;
use crate::numbering::take_if;
use crate::subtrees::{number_behind, size_of};
use crate::task::Task;
use battle_algebra::{Node, NodeList, has_child, has_children};
use sgl_typed::TExpr;
use sgl_values::Memory;
use std::alloc::Global;

// What is to be done at a split with this condition.
fn split_task(cond: &TExpr) -> Task
    ensures { result ≡ task_of_split (literal cond.now) }
{
    match cond {
        TExpr::Number(_) => Task::Leave,
        TExpr::Truth(truth) => Task::Choose(*truth),
        TExpr::Slot(_) => Task::Leave,
        TExpr::Unit(_) => Task::Leave,
        TExpr::Target(_) => Task::Leave,
        TExpr::Combined(_) => Task::Leave,
        TExpr::Random(_) => Task::Leave,
        TExpr::Agg(_) => Task::Leave,
        TExpr::Neg(_) => Task::Leave,
        TExpr::Not(_) => Task::Leave,
        TExpr::Binary { .. } => Task::Leave,
    }
}

// What is to be done at a node.
fn node_task(node: &Node) -> Task
    ensures { result ≡ task_of node.now }
{
    match node {
        Node::Empty => Task::Leave,
        Node::Extend { slot, .. } => Task::Lower(*slot),
        Node::Agg { slot, .. } => Task::Lower(*slot),
        Node::Split { cond, .. } => split_task(cond),
        Node::Effect { .. } => Task::Leave,
        Node::Both { .. } => Task::Join,
    }
}

// Takes a node that sets a slot down into the first tree, or out where nothing reads the slot.
fn lower_on(alloc: Global, grove: &mut Grove, node: Node, slot: u32) -> Result<(), Memory>
    ensures { OnOk result (Lowers grove.old grove.new node slot) }
{
    let size = take_if(&mut grove.sizes, true)?;
    match place_into(alloc, grove.nodes.as_slice(), size, slot)? {
        None => grove.sizes.push(size)?,
        Some(place) => {
            grove.nodes.sink(node, place)?;
            grove.sizes.push(number_behind(size)?)?;
        }
    }
    Ok(())
}

// Leaves the first of two trees of these sizes.
fn leave_first(grove: &mut Grove, first: usize, second: usize) -> Result<(), Memory>
    ensures nodes { OnOk result (grove.new.nodes ≡ without first second grove.old.nodes) }
    ensures sizes { OnOk result (grove.new.sizes ≡ first ∷ grove.old.sizes) }
{
    grove.nodes.cut(first, second)?;
    grove.sizes.push(first)?;
    Ok(())
}

// Leaves the second of two trees, where the first has this size.
fn leave_second(grove: &mut Grove, first: usize, second: usize) -> Result<(), Memory>
    ensures nodes { OnOk result (grove.new.nodes ≡ without 0 first grove.old.nodes) }
    ensures sizes { OnOk result (grove.new.sizes ≡ second ∷ grove.old.sizes) }
{
    grove.nodes.cut(0, first)?;
    grove.sizes.push(second)?;
    Ok(())
}

// Puts a node on children of these sizes.
fn put_over(grove: &mut Grove, node: Node, first: usize, second: usize) -> Result<(), Memory>
    ensures nodes { OnOk result (grove.new.nodes ≡ node ∷ grove.old.nodes) }
    ensures sizes { OnOk result (grove.new.sizes ≡ (1 + (first + second)) ∷ grove.old.sizes) }
{
    grove.nodes.push(node)?;
    grove.sizes.push(size_of(first, second)?)?;
    Ok(())
}

// Leaves one of the first two trees.
fn choose_on(grove: &mut Grove, truth: bool) -> Result<(), Memory>
    ensures { OnOk result (Chooses grove.old grove.new truth) }
{
    let first = take_if(&mut grove.sizes, true)?;
    let second = take_if(&mut grove.sizes, true)?;
    if truth {
        leave_first(grove, first, second)?;
        return Ok(());
    }
    leave_second(grove, first, second)?;
    Ok(())
}

// Whether a node is empty.
fn is_empty_node(node: &Node) -> bool
    ensures { result ≡ is_empty node.now }
{
    matches!(node, Node::Empty)
}

// Whether the node behind so many others is empty, of nodes that go from the last to the first;
// `Memory` where there is none.
fn is_empty_at(nodes: &[Node], at: usize) -> Result<bool, Memory>
    ensures { IfOk result (λ is. is ≡ is_empty (slice_index_or (reverse nodes.now) at Node.Empty)) }
{
    if at >= nodes.len() {
        return Err(Memory);
    }
    Ok(is_empty_node(&nodes[nodes.len() - 1 - at]))
}

// Joins the first two trees, or leaves one of them where the other one is empty.
fn join_on(grove: &mut Grove, node: Node) -> Result<(), Memory>
    ensures { OnOk result (Joins grove.old grove.new node) }
{
    let first = take_if(&mut grove.sizes, true)?;
    let second = take_if(&mut grove.sizes, true)?;
    let no_first = is_empty_at(grove.nodes.as_slice(), 0)?;
    if no_first {
        leave_second(grove, first, second)?;
        return Ok(());
    }
    let no_second = is_empty_at(grove.nodes.as_slice(), first)?;
    if no_second {
        leave_first(grove, first, second)?;
        return Ok(());
    }
    put_over(grove, node, first, second)?;
    Ok(())
}

// Puts a node on top of its children.
fn keep_on(grove: &mut Grove, node: Node) -> Result<(), Memory>
    ensures { OnOk result (Keeps grove.old grove.new node) }
{
    let first = take_if(&mut grove.sizes, has_child(&node))?;
    let second = take_if(&mut grove.sizes, has_children(&node))?;
    put_over(grove, node, first, second)?;
    Ok(())
}

// Puts a node on its children, and makes that tree tidy.
fn tidy_on(alloc: Global, grove: &mut Grove, node: Node) -> Result<(), Memory>
    ensures { OnOk result (Tidies grove.old grove.new node) }
{
    match node_task(&node) {
        Task::Leave => keep_on(grove, node)?,
        Task::Lower(slot) => lower_on(alloc, grove, node, slot)?,
        Task::Choose(truth) => choose_on(grove, truth)?,
        Task::Join => join_on(grove, node)?,
    }
    Ok(())
}

/// Makes a tree of nodes in preorder tidy.
pub fn tidy_nodes(nodes: &mut NodeList) -> Result<(), Memory>
    ensures { OnOk result (IsTidied nodes.old nodes.new) }
{
    let alloc = nodes.allocator();
    let mut grove = Grove::new(alloc);
    for _ in 0..nodes.len() {
        let node = nodes.take_last()?;
        tidy_on(alloc, &mut grove, node)?;
    }
    nodes.fill(grove.nodes.into_items());
    Ok(())
}
