//! The tags of effect attributes.
ghost use Rattle.std.specs.Prelude.{◌≡◌, IfOk};
ghost use Rattle.tick_postprocess.specs.Answer.{tags_of};

use sgl_typed::EffectAttr;
use sgl_values::{List, Memory, Tag};
use std::alloc::Global;

/// The tags of the effect attributes. `Memory` is its only refusal.
pub(crate) fn tags_of(alloc: Global, effects: &[EffectAttr]) -> Result<List<Tag>, Memory>
    ensures { IfOk result (λ tags. tags ≡ tags_of effects.now) }
{
    let mut tags = List::new(alloc);
    for effect in effects {
        tags.push(effect.tag)?;
    }
    Ok(tags)
}
