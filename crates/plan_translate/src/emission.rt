//! Statements as nodes.
ghost use Rattle.std.specs.Prelude.{◌≡◌, ◌+◌, ◌<◌, ◌++◌, OnOk, [], ◌∷◌, length, slice_get, slice_set, IfOk};
ghost use Rattle.std.specs.Option.{option_copied};
ghost use Rattle.plan_translate.specs.Calls.{calls_in, lifted, lifted_calls};
ghost use Rattle.plan_translate.specs.Emission.{Heads, Writes, clause_node};
ghost use Rattle.plan_translate.specs.Translation.{alone, before, calls_in_list, calls_of, calls_of_all, clauses, clauses_in, lifted_calls_list, lifted_list, translated, with_calls};
ghost use Rattle.battle_algebra.specs.Tree.{Extended, Joined, numbered};
ghost use Rattle.battle_algebra.specs.declared.plan.Node.TheVariants as Node;

use crate::translation::{Emitted, lift, lift_all};
use battle_algebra::{EffectUse, EffectWay, Node};
use sgl_typed::{TAction, TExpr, TOn, TStmt, copy_exprs};
use sgl_values::{List, Memory, Place};

// An action and its arguments, in which no call is left.
#[derive(Debug, Drop)]
struct ActionCall {
    action: u32,
    args: List<TExpr>,
    place: Place,
}

/// Writes the calls of a value and the node that sets its slot.
pub fn emit_let(slot: u32, value: &TExpr, place: Place, out: &mut Emitted) -> Result<(), Memory>
    ensures next { OnOk result (out.new.next ≡ out.old.next + calls_in value.now) }
    ensures heads { OnOk result (Heads out.old.nodes out.new.nodes (λ rest. with_calls (lifted_calls value.now out.old.next) (Extended slot (lifted value.now out.old.next) place rest))) }
{
    let value = lift(value, out)?;
    let then = out.nodes.child()?;
    out.nodes.push(Node::Extend {
        slot,
        value,
        place,
        then,
    })?;
    Ok(())
}

// Writes the effects of the clauses of an action.
fn emit_clauses(ons: &[TOn], call: &ActionCall, out: &mut Emitted) -> Result<(), Memory>
    requires some { 0 < length ons.now }
    ensures { OnOk result (Writes out.old out.new (numbered (clauses ons.now 0 call.now.action call.now.args call.now.place) (length out.old.nodes))) }
{
    let last = ons.len() - 1;
    for clause in 0..last {
        emit_clause_and_more(clause, call, out)?;
    }
    emit_clause(last, call, out)?;
    Ok(())
}

// Writes the join of the effect of a clause and of what follows, and this effect.
fn emit_clause_and_more(clause: usize, call: &ActionCall, out: &mut Emitted) -> Result<(), Memory>
    ensures next { OnOk result (out.new.next ≡ out.old.next) }
    ensures nodes { OnOk result (out.new.nodes ≡ (out.old.nodes ++ Node.Both (length out.old.nodes + 1) (length out.old.nodes + 2) ∷ []) ++ clause_node call.now clause ∷ []) }
{
    let left = out.nodes.child()?;
    let right = left.checked_add(1).ok_or(Memory)?;
    out.nodes.push(Node::Both { left, right })?;
    emit_clause(clause, call, out)
}

// Writes the effect of a clause.
fn emit_clause(clause: usize, call: &ActionCall, out: &mut Emitted) -> Result<(), Memory>
    ensures { OnOk result (Writes out.old out.new (clause_node call.now clause ∷ [])) }
{
    let clause = u32::try_from(clause).map_err(|_| Memory)?;
    let args = copy_exprs(out.nodes.allocator(), call.args.as_slice())?;
    out.nodes.push(Node::Effect {
        act: EffectUse {
            action: call.action,
            clause,
            args,
            place: call.place,
        },
        way: EffectWay::Scan,
    })?;
    Ok(())
}

// Writes the effects of clauses, or nothing where there are none.
fn emit_ons(ons: &[TOn], call: &ActionCall, out: &mut Emitted) -> Result<(), Memory>
    ensures { OnOk result (Writes out.old out.new (numbered (clauses ons.now 0 call.now.action call.now.args call.now.place) (length out.old.nodes))) }
{
    if ons.len() == 0 {
        out.nodes.push(Node::Empty)?;
        return Ok(());
    }
    emit_clauses(ons, call, out)?;
    Ok(())
}

// The action with this number.
fn action_at(actions: &[TAction], action: u32) -> Option<&TAction>
    ensures { option_copied result ≡ slice_get actions.now action }
{
    actions.get(action as usize)
}

// Writes the clauses of an action, or nothing where there are none.
fn emit_action(actions: &[TAction], call: &ActionCall, out: &mut Emitted) -> Result<(), Memory>
    ensures { OnOk result (Writes out.old out.new (numbered (clauses (clauses_in (slice_get actions.now call.now.action)) 0 call.now.action call.now.args call.now.place) (length out.old.nodes))) }
{
    match action_at(actions, call.action) {
        None => {
            out.nodes.push(Node::Empty)?;
            Ok(())
        }
        Some(found) => {
            emit_ons(found.ons.as_slice(), call, out)?;
            Ok(())
        }
    }
}

// Writes the calls of the arguments, and the clauses of the action.
fn emit_act(
    actions: &[TAction],
    action: u32,
    args: &[TExpr],
    place: Place,
    out: &mut Emitted,
) -> Result<(), Memory>
    ensures next { OnOk result (out.new.next ≡ out.old.next + calls_in_list args.now) }
    ensures nodes { OnOk result (out.new.nodes ≡ out.old.nodes ++ numbered (with_calls (lifted_calls_list args.now out.old.next) (clauses (clauses_in (slice_get actions.now action)) 0 action (lifted_list args.now out.old.next) place)) (length out.old.nodes)) }
{
    let args = lift_all(args, out)?;
    let call = ActionCall {
        action,
        args,
        place,
    };
    emit_action(actions, &call, out)?;
    Ok(())
}

// Keeps a place open for a node, and gives its number.
fn open_node(out: &mut Emitted) -> Result<usize, Memory>
    ensures at { IfOk result (λ at. at ≡ length out.old.nodes) }
    ensures writes { OnOk result (Writes out.old out.new (Node.Empty ∷ [])) }
{
    let at = out.nodes.len();
    out.nodes.push(Node::Empty)?;
    Ok(at)
}

// The numbers of the children of the node in a place that was kept open; the second child comes
// next.
fn children_of(at: usize, out: &Emitted) -> Result<(u32, u32), Memory>
    ensures { IfOk result (λ children. (children.0 ≡ at + 1) × (children.1 ≡ length out.now.nodes)) }
{
    let second = out.nodes.next()?;
    let at = u32::try_from(at).map_err(|_| Memory)?;
    Ok((at.checked_add(1).ok_or(Memory)?, second))
}

// Writes a split in the place that was kept open for it; its second branch comes next.
fn close_split(at: usize, cond: TExpr, place: Place, out: &mut Emitted) -> Result<(), Memory>
    requires { at < length out.old.nodes }
    ensures next { OnOk result (out.new.next ≡ out.old.next) }
    ensures nodes { OnOk result (out.new.nodes ≡ slice_set out.old.nodes at (Node.Split cond place (at + 1) (length out.old.nodes))) }
{
    let (yes, no) = children_of(at, out)?;
    out.nodes.set(
        at,
        Node::Split {
            cond,
            place,
            yes,
            no,
        },
    );
    Ok(())
}

// Writes a join in the place that was kept open for it; its second side comes next.
fn close_join(at: usize, out: &mut Emitted) -> Result<(), Memory>
    requires { at < length out.old.nodes }
    ensures next { OnOk result (out.new.next ≡ out.old.next) }
    ensures nodes { OnOk result (out.new.nodes ≡ slice_set out.old.nodes at (Node.Both (at + 1) (length out.old.nodes))) }
{
    let (left, right) = children_of(at, out)?;
    out.nodes.set(at, Node::Both { left, right });
    Ok(())
}

// Writes what a statement gives by itself.
#[cycle(emitting)]
fn emit_statement(actions: &[TAction], statement: &TStmt, out: &mut Emitted) -> Result<(), Memory>
    ensures next { OnOk result (out.new.next ≡ out.old.next + calls_of statement.now) }
    ensures nodes { OnOk result (out.new.nodes ≡ out.old.nodes ++ numbered (alone actions.now statement.now out.old.next) (length out.old.nodes)) }
{
    match statement {
        TStmt::Let { slot, value, place } => {
            emit_let(*slot, value, *place, out)?;
            out.nodes.push(Node::Empty)?;
            Ok(())
        }
        TStmt::If {
            cond,
            place,
            yes,
            no,
        } => {
            let cond = lift(cond, out)?;
            let at = open_node(out)?;
            emit_block(actions, yes.as_slice(), out)?;
            close_split(at, cond, *place, out)?;
            emit_block(actions, no.as_slice(), out)?;
            Ok(())
        }
        TStmt::Act {
            action,
            args,
            place,
        } => {
            emit_act(actions, *action, args.as_slice(), *place, out)?;
            Ok(())
        }
        TStmt::Call { .. } => {
            out.nodes.push(Node::Empty)?;
            Ok(())
        }
    }
}

// Writes the join of what a statement gives and of what follows, and the former.
#[cycle(emitting)]
fn emit_joined(actions: &[TAction], statement: &TStmt, out: &mut Emitted) -> Result<(), Memory>
    ensures next { OnOk result (out.new.next ≡ out.old.next + calls_of statement.now) }
    ensures heads { OnOk result (Heads out.old.nodes out.new.nodes (Joined (alone actions.now statement.now out.old.next))) }
{
    let at = open_node(out)?;
    emit_statement(actions, statement, out)?;
    close_join(at, out)?;
    Ok(())
}

// Writes a statement with others behind it.
#[cycle(emitting)]
fn emit_before(actions: &[TAction], statement: &TStmt, out: &mut Emitted) -> Result<(), Memory>
    ensures next { OnOk result (out.new.next ≡ out.old.next + calls_of statement.now) }
    ensures heads { OnOk result (Heads out.old.nodes out.new.nodes (before actions.now statement.now out.old.next)) }
{
    if let TStmt::Let { slot, value, place } = statement {
        emit_let(*slot, value, *place, out)?;
        return Ok(());
    }
    emit_joined(actions, statement, out)?;
    Ok(())
}

/// Writes statements, one after the other.
#[cycle(emitting)]
pub fn emit_block(actions: &[TAction], block: &[TStmt], out: &mut Emitted) -> Result<(), Memory>
    ensures next { OnOk result (out.new.next ≡ out.old.next + calls_of_all block.now) }
    ensures nodes { OnOk result (out.new.nodes ≡ out.old.nodes ++ numbered (translated actions.now block.now out.old.next) (length out.old.nodes)) }
{
    if block.len() == 0 {
        out.nodes.push(Node::Empty)?;
        return Ok(());
    }
    let last = block.len() - 1;
    for at in 0..last {
        emit_before(actions, &block[at], out)?;
    }
    emit_statement(actions, &block[last], out)?;
    Ok(())
}
