//! The numbers of children.
ghost use Rattle.std.specs.Prelude.{◌≡◌, ◌+◌, ◌<◌, ◌∷◌, [], length, slice_index_or, slice_set, true, IfOk, OnOk};
ghost use Rattle.battle_algebra.specs.Nodes.{has_first, has_second, pointed};
ghost use Rattle.plan_rewrite.specs.Bare.{rest_if, top_if, IsNumbered};
ghost use Rattle.battle_algebra.specs.declared.plan.Node.TheVariants as Node;

use crate::stack::Stack;
use crate::subtrees::size_of;
use battle_algebra::NodeList;
use sgl_values::Memory;
use std::alloc::Global;

/// The size on top; 0 where there is none.
pub fn top_size(sizes: &Stack<usize>) -> usize
    ensures { result ≡ top_if true sizes.now }
{
    match sizes.as_slice().last() {
        Some(size) => *size,
        None => 0,
    }
}

/// Takes the size on top, where there is one; 0 where there is none.
pub fn take_size(sizes: &mut Stack<usize>) -> usize
    ensures top { result ≡ top_if true sizes.old }
    ensures rest { sizes.new ≡ rest_if true sizes.old }
{
    match sizes.pop() {
        Some(size) => size,
        None => 0,
    }
}

/// Takes the size on top where it is needed, and `Memory` where there is none then; 0 where it is
/// not.
pub fn take_if(sizes: &mut Stack<usize>, needed: bool) -> Result<usize, Memory>
    ensures top { IfOk result (λ size. size ≡ top_if needed sizes.old) }
    ensures rest { OnOk result (sizes.new ≡ rest_if needed sizes.old) }
{
    if needed {
        let size = sizes.pop().ok_or(Memory)?;
        return Ok(size);
    }
    Ok(0)
}

// The number behind another one.
fn number_behind(at: usize, more: usize) -> Result<u32, Memory>
    ensures { IfOk result (λ number. number ≡ at + 1 + more) }
{
    let next = at.checked_add(1).ok_or(Memory)?;
    let next = next.checked_add(more).ok_or(Memory)?;
    u32::try_from(next).map_err(|_| Memory)
}

/// Numbers the children of a node, whose subtrees are numbered.
fn number_at(nodes: &mut NodeList, sizes: &mut Stack<usize>, at: usize) -> Result<(), Memory>
    requires { at < length nodes.old }
    ensures nodes { OnOk result (nodes.new ≡ slice_set nodes.old at (pointed (slice_index_or nodes.old at Node.Empty) (at + 1) (at + 1 + top_if (has_first (slice_index_or nodes.old at Node.Empty)) sizes.old))) }
    ensures sizes { OnOk result (sizes.new ≡ (1 + (top_if (has_first (slice_index_or nodes.old at Node.Empty)) sizes.old + top_if (has_second (slice_index_or nodes.old at Node.Empty)) (rest_if (has_first (slice_index_or nodes.old at Node.Empty)) sizes.old))) ∷ rest_if (has_second (slice_index_or nodes.old at Node.Empty)) (rest_if (has_first (slice_index_or nodes.old at Node.Empty)) sizes.old)) }
{
    let first = take_if(sizes, nodes.has_first(at))?;
    let second = take_if(sizes, nodes.has_second(at))?;
    nodes.point(at, number_behind(at, 0)?, number_behind(at, first)?);
    sizes.push(size_of(first, second)?)?;
    Ok(())
}

/// Numbers the children of all nodes of a tree in preorder.
pub fn number_nodes(alloc: Global, nodes: &mut NodeList) -> Result<(), Memory>
    ensures { OnOk result (IsNumbered nodes.old nodes.new) }
{
    let mut sizes = Stack::new(alloc);
    let len = nodes.len();
    for behind in 0..len {
        number_at(nodes, &mut sizes, len - (behind + 1))?;
    }
    Ok(())
}
