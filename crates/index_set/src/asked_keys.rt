//! The rows of keys, for plans that ask for them.
ghost use Rattle.std.specs.Prelude.{◌≡◌, IfOk};
ghost use Rattle.key_table.specs.Keys.{keys_of};

use battle_algebra::{EffectUse, EffectWay, Node, NormalPlan, clause_at, is_own_key, sole_key};
use env_table::World;
use key_table::KeyTable;
use sgl_typed::TScript;
use sgl_values::Memory;
use std::alloc::Global;

/// The keys of a world, with their ranks where the plan may ask for many rows by their keys. Which of both is a guess of what
/// pays: the rows that are found are the same. `Memory` is its only refusal.
pub(crate) fn keys_for(
    alloc: Global,
    script: &TScript,
    plan: &NormalPlan,
    world: &World,
) -> Result<KeyTable, Memory>
    ensures { IfOk result (λ keys. keys ≡ keys_of world.now.world) }
{
    if ask_keys(script, plan.plan().nodes.as_slice()) {
        KeyTable::build(alloc, world)
    } else {
        Ok(KeyTable::without_ranks(world))
    }
}

// Whether nodes may ask for rows by their keys: where one calls an aggregate, or has an effect that goes by a key, and not each
// row to itself.
fn ask_keys(script: &TScript, nodes: &[Node]) -> bool {
    for node in nodes {
        match node {
            Node::Agg { .. } => return true,
            Node::Effect {
                act,
                way: EffectWay::Key,
            } if !goes_to_itself(script, act) => return true,
            _ => {}
        }
    }
    false
}

// Whether the only test of an effect is that the key is the acting unit's own.
fn goes_to_itself(script: &TScript, act: &EffectUse) -> bool {
    match clause_at(script, act) {
        None => false,
        Some(clause) => match sole_key(clause.tests.as_slice()) {
            None => false,
            Some(key) => is_own_key(key),
        },
    }
}
