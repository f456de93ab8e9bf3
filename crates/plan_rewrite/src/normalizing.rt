//! Rewriting as a whole.
ghost use Rattle.std.specs.Prelude.{◌≡◌, IfOk};
ghost use Rattle.battle_algebra.specs.OfScript.{IsOf};
ghost use Rattle.battle_algebra.specs.Plans.{tree_in};
ghost use Rattle.plan_rewrite.specs.Rewritten.{rewritten_for, Rewrites};
ghost use Rattle.battle_algebra.specs.Tree.{numbered};

use crate::merging::merge_nodes;
use crate::numbering::number_nodes;
use crate::pruning::tidy_nodes;
use battle_algebra::{NormalPlan, Plan};
use sgl_typed::TScript;
use sgl_values::Memory;
use std::alloc::Global;

/// Rewrites a plan of a script to normal form: a call that is made above is read from there, what nothing reads and what a
/// literal condition or an empty side leaves without effect is taken out, each node that sets a slot goes down to where
/// the slot is read, and each way is set by the tables. Refused for want of memory alone. It calls itself no deeper than
/// expressions nest.
pub fn rewrite(alloc: Global, script: &TScript, plan: Plan) -> Result<NormalPlan, Memory>
    requires { IsOf script.now (tree_in plan.nodes) }
    ensures nodes { IfOk result (λ q. q.plan.nodes ≡ numbered (rewritten_for script.now (tree_in plan.nodes)) 0) }
    ensures slots { IfOk result (λ q. q.plan.slots ≡ plan.slots) }
    ensures rewrites { IfOk result (λ q. Rewrites script.now plan.slots (tree_in plan.nodes) (tree_in q.plan.nodes)) }
{
    let mut nodes = merge_nodes(alloc, script, plan.nodes.as_slice())?;
    tidy_nodes(&mut nodes)?;
    number_nodes(alloc, &mut nodes)?;
    let slots = plan.slots;
    let made = Plan {
        nodes: nodes.into_list(),
        slots,
    };
    Ok(NormalPlan::new(made))
}
