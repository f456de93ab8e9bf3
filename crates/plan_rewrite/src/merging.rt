//! Calls that are made again, read from above.
ghost use Rattle.std.specs.Prelude.{◌≡◌, ◌++◌, ◌∷◌, [], reverse, IfOk, OnOk};
ghost use Rattle.battle_algebra.specs.Ways.{effect_way as way_of_act};
ghost use Rattle.battle_algebra.specs.declared.plan.Node.TheVariants as Node;
ghost use Rattle.plan_rewrite.specs.Rewrite.{moved, moved_act as act_moved};
ghost use Rattle.plan_rewrite.specs.Trails.{here_of, IsMerged, Merges, MergesCall};

use crate::known::{Known, slot_of};
use crate::renaming::{Renaming, moved_act, moved_call, moved_expr};
use crate::trail::Trail;
use battle_algebra::{EffectUse, Node, NodeList, class_of, effect_way};
use sgl_typed::{AggUse, TExpr, TScript, copy_call};
use sgl_values::{Memory, Place};
use std::alloc::Global;

// Writes a call, or reads the slot of an equal one.
fn merge_call(
    alloc: Global,
    script: &TScript,
    slot: u32,
    call: AggUse,
    out: &mut NodeList,
    trail: &mut Trail,
) -> Result<(), Memory>
    ensures { OnOk result (MergesCall script.now slot call out.old (here_of trail.old) out.new (here_of trail.new)) }
{
    trail.check_room()?;
    match slot_of(trail.above.as_slice(), &call) {
        Some(other) => {
            trail.renamings.push(Renaming {
                from: slot,
                to: other,
            })?;
            Ok(())
        }
        None => {
            let way = class_of(script, &call);
            let copy = copy_call(alloc, &call)?;
            trail.above.push(Known { slot, call: copy })?;
            out.push(Node::Agg {
                slot,
                call,
                way,
                then: 0,
            })?;
            Ok(())
        }
    }
}

// Writes a node that sets a slot to an expression, with other slots.
fn write_extend(
    alloc: Global,
    trail: &Trail,
    slot: u32,
    value: &TExpr,
    place: Place,
    out: &mut NodeList,
) -> Result<(), Memory>
    ensures { OnOk result (out.new ≡ out.old ++ Node.Extend slot (moved (reverse (here_of trail.now).renamings) value.now) place 0 ∷ []) }
{
    let value = moved_expr(alloc, trail.renamings.as_slice(), value)?;
    out.push(Node::Extend {
        slot,
        value,
        place,
        then: 0,
    })?;
    Ok(())
}

// Writes a split with other slots.
fn write_split(
    alloc: Global,
    trail: &Trail,
    cond: &TExpr,
    place: Place,
    out: &mut NodeList,
) -> Result<(), Memory>
    ensures { OnOk result (out.new ≡ out.old ++ Node.Split (moved (reverse (here_of trail.now).renamings) cond.now) place 0 0 ∷ []) }
{
    let cond = moved_expr(alloc, trail.renamings.as_slice(), cond)?;
    out.push(Node::Split {
        cond,
        place,
        yes: 0,
        no: 0,
    })?;
    Ok(())
}

// Writes an effect with other slots, and with its way.
fn write_effect(
    alloc: Global,
    script: &TScript,
    trail: &Trail,
    act: &EffectUse,
    out: &mut NodeList,
) -> Result<(), Memory>
    ensures { OnOk result (out.new ≡ out.old ++ Node.Effect (act_moved (reverse (here_of trail.now).renamings) act.now) (way_of_act script.now (act_moved (reverse (here_of trail.now).renamings) act.now)) ∷ []) }
{
    let act = moved_act(alloc, trail.renamings.as_slice(), act)?;
    let way = effect_way(script, &act);
    out.push(Node::Effect { act, way })?;
    Ok(())
}

// Writes a node with other slots.
fn merge_node(
    alloc: Global,
    script: &TScript,
    node: &Node,
    out: &mut NodeList,
    trail: &mut Trail,
) -> Result<(), Memory>
    ensures { OnOk result (Merges script.now node.now out.old (here_of trail.old) out.new (here_of trail.new)) }
{
    match node {
        Node::Empty => {
            out.push(Node::Empty)?;
            trail.close();
            Ok(())
        }
        Node::Extend {
            slot,
            value,
            place,
            ..
        } => {
            write_extend(alloc, trail, *slot, value, *place, out)?;
            Ok(())
        }
        Node::Agg { slot, call, .. } => {
            let call = moved_call(alloc, trail.renamings.as_slice(), call)?;
            merge_call(alloc, script, *slot, call, out, trail)?;
            Ok(())
        }
        Node::Split { cond, place, .. } => {
            write_split(alloc, trail, cond, *place, out)?;
            trail.fork()?;
            Ok(())
        }
        Node::Effect { act, .. } => {
            write_effect(alloc, script, trail, act, out)?;
            trail.close();
            Ok(())
        }
        Node::Both { .. } => {
            out.push(Node::Both { left: 0, right: 0 })?;
            trail.fork()?;
            Ok(())
        }
    }
}

/// The nodes of a plan in preorder, in which no call is made again below itself, and with their ways.
pub fn merge_nodes(alloc: Global, script: &TScript, nodes: &[Node]) -> Result<NodeList, Memory>
    ensures { IfOk result (λ out. IsMerged script.now nodes.now out) }
{
    let mut out = NodeList::new(alloc);
    let mut trail = Trail::new(alloc);
    for node in nodes {
        merge_node(alloc, script, node, &mut out, &mut trail)?;
    }
    Ok(out)
}
