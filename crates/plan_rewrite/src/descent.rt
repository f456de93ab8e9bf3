//! How a node that sets a slot goes down into a tree, from the leaves up.
ghost use Rattle.std.specs.Prelude.{◌≡◌, ◌+◌, ◌∷◌, [], reverse, true, not, if◌then◌else◌, IfOk, OnOk};
ghost use Rattle.plan_rewrite.specs.Descents.{above_both, all_over, between as between_of, between_all, both_all, leaf as leaf_of, other_descents, past as past_of, past_all, top_descent, DescendsInto};

use crate::stack::Stack;
use crate::subtrees::{expr_avoids, exprs_avoid, number_before, number_behind, size_of};
use battle_algebra::Node;
use sgl_values::Memory;
use std::alloc::Global;

/// How a node that sets a slot goes down into a subtree.
#[derive(Clone, Copy, Debug)]
pub struct Descent {
    /// The number of nodes of the subtree.
    pub size: usize,
    /// Whether the subtree does not read the slot.
    pub avoids: bool,
    /// Whether the node stays above the subtree.
    pub stays: bool,
    /// How many nodes of the subtree it passes.
    pub place: usize,
}

// Takes the way on top; `Memory` where there is none.
fn take_top(descents: &mut Stack<Descent>) -> Result<Descent, Memory>
    ensures top { IfOk result (λ descent. descent ≡ top_descent descents.old) }
    ensures rest { OnOk result (descents.new ≡ other_descents descents.old) }
{
    let descent = descents.pop().ok_or(Memory)?;
    Ok(descent)
}

// Into a leaf.
fn leaf(avoids: bool) -> Descent
    ensures { result ≡ leaf_of avoids }
{
    Descent {
        size: 1,
        avoids,
        stays: true,
        place: 0,
    }
}

// The number of nodes that are passed on the way into a second child.
fn place_behind(size: usize, place: usize) -> Result<usize, Memory>
    ensures { IfOk result (λ more. more ≡ (1 + size) + place) }
{
    number_behind(size)?.checked_add(place).ok_or(Memory)
}

// How many nodes are passed at a node with one child.
fn place_past(stays: bool, below: Descent) -> Result<usize, Memory>
    ensures { IfOk result (λ place. place ≡ (if stays then 0 else 1 + below.place)) }
{
    if stays {
        return Ok(0);
    }
    number_behind(below.place)
}

// Past a node with one child.
fn past(avoids: bool, below: Descent) -> Result<Descent, Memory>
    ensures { IfOk result (λ descent. descent ≡ past_of avoids below) }
{
    let stays = if avoids { below.stays } else { true };
    Ok(Descent {
        size: number_behind(below.size)?,
        avoids: avoids && below.avoids,
        stays,
        place: place_past(stays, below)?,
    })
}

// How many nodes are passed at a split.
fn place_between(stays: bool, taken: Descent, other: Descent) -> Result<usize, Memory>
    ensures { IfOk result (λ place. place ≡ (if stays then 0 else if not taken.avoids then 1 + taken.place else (1 + taken.size) + other.place)) }
{
    if stays {
        return Ok(0);
    }
    if !taken.avoids {
        return number_behind(taken.place);
    }
    place_behind(taken.size, other.place)
}

// At a split.
fn between(avoids: bool, taken: Descent, other: Descent) -> Result<Descent, Memory>
    ensures { IfOk result (λ descent. descent ≡ between_of avoids taken other) }
{
    let stays = if avoids {
        !taken.avoids && !other.avoids
    } else {
        true
    };
    Ok(Descent {
        size: size_of(taken.size, other.size)?,
        avoids: avoids && (taken.avoids && other.avoids),
        stays,
        place: place_between(stays, taken, other)?,
    })
}

// At a join.
fn both(left: Descent, right: Descent) -> Result<Descent, Memory>
    ensures { IfOk result (λ descent. descent ≡ above_both left right) }
{
    Ok(Descent {
        size: size_of(left.size, right.size)?,
        avoids: left.avoids && right.avoids,
        stays: true,
        place: 0,
    })
}

// Puts the way into a leaf on top.
fn descend_to(descents: &mut Stack<Descent>, avoids: bool) -> Result<(), Memory>
    ensures { OnOk result (descents.new ≡ leaf_of avoids ∷ descents.old) }
{
    descents.push(leaf(avoids))?;
    Ok(())
}

// Puts the way past a node with one child in the place of that into the child.
fn descend_past(descents: &mut Stack<Descent>, avoids: bool) -> Result<(), Memory>
    ensures { OnOk result (descents.new ≡ past_all avoids descents.old) }
{
    let below = take_top(descents)?;
    descents.push(past(avoids, below)?)?;
    Ok(())
}

// Puts the way at a split in the place of those into the branches.
fn descend_between(descents: &mut Stack<Descent>, avoids: bool) -> Result<(), Memory>
    ensures { OnOk result (descents.new ≡ between_all avoids descents.old) }
{
    let taken = take_top(descents)?;
    let other = take_top(descents)?;
    descents.push(between(avoids, taken, other)?)?;
    Ok(())
}

// Puts the way at a join in the place of those into the sides.
fn descend_both(descents: &mut Stack<Descent>) -> Result<(), Memory>
    ensures { OnOk result (descents.new ≡ both_all descents.old) }
{
    let left = take_top(descents)?;
    let right = take_top(descents)?;
    descents.push(both(left, right)?)?;
    Ok(())
}

// Puts the way into the tree of a node in the place of those into its children.
fn descend_over(descents: &mut Stack<Descent>, node: &Node, slot: u32) -> Result<(), Memory>
    ensures { OnOk result (descents.new ≡ all_over node.now slot descents.old) }
{
    match node {
        Node::Empty => descend_to(descents, true),
        Node::Extend { value, .. } => descend_past(descents, expr_avoids(value, slot)),
        Node::Agg { call, .. } => descend_past(descents, exprs_avoid(call.args.as_slice(), slot)),
        Node::Split { cond, .. } => descend_between(descents, expr_avoids(cond, slot)),
        Node::Effect { act, .. } => descend_to(descents, exprs_avoid(act.args.as_slice(), slot)),
        Node::Both { .. } => descend_both(descents),
    }
}

/// The way down into a tree of so many nodes at the end of nodes that go from the last to the
/// first.
pub fn descent_into(
    alloc: Global,
    nodes: &[Node],
    count: usize,
    slot: u32,
) -> Result<Descent, Memory>
    ensures { IfOk result (λ descent. DescendsInto (reverse nodes.now) count slot descent) }
{
    let mut descents = Stack::new(alloc);
    let start = number_before(nodes.len(), count)?;
    for i in start..nodes.len() {
        descend_over(&mut descents, &nodes[i], slot)?;
    }
    let descent = take_top(&mut descents)?;
    Ok(descent)
}
