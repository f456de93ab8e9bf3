//! The clause of an effect.
ghost use Rattle.std.specs.Prelude.{◌≡◌, slice_get};
ghost use Rattle.std.specs.Option.{option_copied};
ghost use Rattle.battle_algebra.specs.Meaning.{clause_of};

use crate::plan::EffectUse;
use sgl_typed::{TAction, TOn, TScript};

/// The clause of an action that an effect is of; `None` where the script has none with its numbers.
pub fn clause_at<'a>(script: &'a TScript, act: &EffectUse) -> Option<&'a TOn>
    ensures { option_copied result ≡ clause_of (slice_get script.now.actions act.now.action) act.now.clause }
{
    match action_at(script, act.action) {
        None => None,
        Some(found) => found.ons.get(act.clause as usize),
    }
}

fn action_at(script: &TScript, action: u32) -> Option<&TAction>
    ensures { option_copied result ≡ slice_get script.now.actions action }
{
    script.actions.get(action as usize)
}
