//! The forms of the right sides that a node asks with.
ghost use Rattle.std.specs.Prelude.{IfNone, IfOk, IfSome, Some};
ghost use Rattle.index_set.specs.Forms.{AreAllForms, AreCallForms, AreEffectForms, AreToldFor, HaveCallForms, HaveEffectForms};

use battle_algebra::{EffectUse, Node, clause_at};
use sgl_typed::{AggUse, TScript};
use sgl_values::{Memory, PARAMS_MAX};
use std::alloc::Global;
use test_boxes::TestForms;

/// The forms of the tests that each node asks with. `Memory` is its only refusal.
pub(crate) fn forms_by_node(
    alloc: Global,
    script: &TScript,
    nodes: &[Node],
) -> Result<Vec<Option<TestForms>>, Memory>
    ensures { IfOk result (λ list. AreAllForms script.now nodes.now list.items) }
{
    let list = nodes
        .iter()
        .map(
            |node: &Node| -> Option<TestForms>
                ensures { AreToldFor script.entry.now (Some node.now) result }
            { node_forms(script, node) },
        )
        .collect(alloc)?;
    Ok(list)
}

// The forms of the right sides of the aggregate that a node calls, or of the clause of its effect, for the arguments that are
// written there; `None` exactly where a right side has none, there are more than sixteen, or the node asks for nothing.
fn node_forms(script: &TScript, node: &Node) -> Option<TestForms>
    ensures { AreToldFor script.now (Some node.now) result }
{
    match node {
        Node::Agg { call, .. } => call_forms(script, call),
        Node::Effect { act, .. } => effect_forms(script, act),
        _ => None,
    }
}

// Those of a call.
fn call_forms(script: &TScript, call: &AggUse) -> Option<TestForms>
    ensures forms { IfSome result (AreCallForms script.now call.now) }
    ensures none { IfNone result (¬ HaveCallForms script.now call.now) }
{
    let count = call.args.len().min(PARAMS_MAX);
    match script.aggs.get(call.agg as usize) {
        None => None,
        Some(agg) => TestForms::of(&call.args.as_slice()[..count], agg.tests.as_slice()),
    }
}

// Those of an effect.
fn effect_forms(script: &TScript, act: &EffectUse) -> Option<TestForms>
    ensures forms { IfSome result (AreEffectForms script.now act.now) }
    ensures none { IfNone result (¬ HaveEffectForms script.now act.now) }
{
    match clause_at(script, act) {
        None => None,
        Some(clause) => TestForms::of(act.args.as_slice(), clause.tests.as_slice()),
    }
}
