//! The plan of a script.
ghost use Rattle.std.specs.Prelude.{◌≡◌, ◌+◌, IfOk};
ghost use Rattle.plan_translate.specs.Translation.{translation, translation_slots};
ghost use Rattle.battle_algebra.specs.Plans.{GivesItems, tree_in};
ghost use Rattle.battle_algebra.specs.OfScript.{IsOf};
ghost use Rattle.battle_algebra.specs.Tree.{numbered};

use crate::emission::emit_block;
use crate::translation::Emitted;
use battle_algebra::{NodeList, Plan};
use sgl_typed::TScript;
use sgl_values::Memory;
use std::alloc::Global;

/// The plan of a script whose routines are written out: its statements in order, each call of an aggregate a node with a
/// slot of its own above the node that reads it, and all ways `Scan`. On every world it gives the items of the script as
/// a bag. Refused for want of memory alone. It calls itself no deeper than blocks and expressions nest.
pub fn translate(alloc: Global, script: &TScript) -> Result<Plan, Memory>
    ensures nodes { IfOk result (λ plan. plan.nodes ≡ numbered (translation script.now) 0) }
    ensures items { IfOk result (λ plan. GivesItems script.now plan.nodes plan.slots) }
    ensures of { IfOk result (λ plan. IsOf script.now (tree_in plan.nodes)) }
    ensures slots { IfOk result (λ plan. plan.slots ≡ translation_slots script.now) }
{
    let mut out = Emitted {
        nodes: NodeList::new(alloc),
        next: script.slots,
    };
    emit_block(script.actions.as_slice(), script.main.as_slice(), &mut out)?;
    Ok(Plan {
        nodes: out.nodes.into_list(),
        slots: out.next,
    })
}
