//! What expressions and nodes read, and sizes.
ghost use Rattle.std.specs.Prelude.{◌≡◌, ◌+◌, IfOk};
ghost use Rattle.sgl_typed.specs.Reads.{list_reads_only, reads_only};
ghost use Rattle.plan_rewrite.specs.Bare.{node_reads_only};
ghost use Rattle.battle_algebra.specs.Nodes.{has_first, has_second};
ghost use Rattle.battle_algebra.specs.Reads.{all_but};

use battle_algebra::Node;
use sgl_typed::TExpr;
use sgl_values::Memory;

/// Whether an expression does not read a slot.
#[cycle(avoiding)]
#[tactic(auto, using(battle_algebra::proofs::Variants::read_equations))]
pub fn expr_avoids(expr: &TExpr, slot: u32) -> bool
    ensures { result ≡ reads_only expr.now (all_but slot) }
{
    match expr {
        TExpr::Number(_) => true,
        TExpr::Truth(_) => true,
        TExpr::Slot(other) => *other != slot,
        TExpr::Unit(_) => true,
        TExpr::Target(_) => true,
        TExpr::Combined(_) => true,
        TExpr::Random(_) => true,
        TExpr::Agg(call) => exprs_avoid(call.args.as_slice(), slot),
        TExpr::Neg(inner) => expr_avoids(inner.get(), slot),
        TExpr::Not(inner) => expr_avoids(inner.get(), slot),
        TExpr::Binary { left, right, .. } => {
            expr_avoids(left.get(), slot) && expr_avoids(right.get(), slot)
        }
    }
}

/// Whether no expression of a list reads a slot.
#[cycle(avoiding)]
#[tactic(auto, using(battle_algebra::proofs::Variants::read_equations))]
pub fn exprs_avoid(exprs: &[TExpr], slot: u32) -> bool
    ensures { result ≡ list_reads_only exprs.now (all_but slot) }
{
    for expr in exprs {
        if !expr_avoids(expr, slot) {
            return false;
        }
    }
    true
}

/// Whether a node does not read a slot.
pub fn node_avoids(node: &Node, slot: u32) -> bool
    ensures { result ≡ node_reads_only node.now (all_but slot) }
{
    match node {
        Node::Empty => true,
        Node::Extend { value, .. } => expr_avoids(value, slot),
        Node::Agg { call, .. } => exprs_avoid(call.args.as_slice(), slot),
        Node::Split { cond, .. } => expr_avoids(cond, slot),
        Node::Effect { act, .. } => exprs_avoid(act.args.as_slice(), slot),
        Node::Both { .. } => true,
    }
}

/// The number behind another one; refused for want of memory alone.
pub fn number_behind(at: usize) -> Result<usize, Memory>
    ensures { IfOk result (λ next. next ≡ 1 + at) }
{
    at.checked_add(1).ok_or(Memory)
}

/// The number that lies so many before another one; `Memory` where there is none.
pub fn number_before(at: usize, count: usize) -> Result<usize, Memory>
    ensures { IfOk result (λ before. before + count ≡ at) }
{
    at.checked_sub(count).ok_or(Memory)
}

/// The size of a tree with children of these sizes; refused for want of memory alone.
pub fn size_of(first: usize, second: usize) -> Result<usize, Memory>
    ensures { IfOk result (λ size. size ≡ 1 + (first + second)) }
{
    let both = first.checked_add(second).ok_or(Memory)?;
    number_behind(both)
}
