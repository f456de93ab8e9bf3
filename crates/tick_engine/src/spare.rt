//! What one tick leaves to the next.
ghost use Rattle.std.specs.Prelude.{◌≡◌, ◌<◌, IfOk};
ghost use Rattle.task_scratch.specs.Scratch.{IsNew, IsScratchFor};
ghost use Rattle.tick_postprocess.specs.Rows.{IsReady};

use crate::kept_memory::early_piece;
use battle_algebra::NormalPlan;
use env_table::{World, WorldBuilder};
use sgl_values::{List, Memory, TICKS_MAX, Tag};
use std::alloc::Global;
use task_scratch::{Scratch, SpareRoom};

/// Memory that is used again: that of the world before the last, that of the pieces of a world, and the rooms of the
/// workers. Nothing of what it holds counts: each piece is made anew where it lies, and taken where there is none or too little of it.
#[derive(Drop)]
pub struct Spare {
    pub(crate) world: Option<World>,
    pub(crate) pieces: Vec<World>,
    pub(crate) rooms: Vec<SpareRoom>,
    // Given back before the first tick is prepared. It lies here until then, as a piece that is given back at once need
    // not be taken at all.
    pub(crate) early: Option<Vec<u8>>,
}

/// Nothing but the early piece, where there is memory for it.
pub(crate) fn no_spare(alloc: Global) -> Spare {
    Spare {
        world: None,
        pieces: Vec::new(alloc),
        rooms: Vec::new(alloc),
        early: early_piece(alloc),
    }
}

/// The scratch of a worker, in the room of an earlier one where there is one. `Memory` is its only refusal.
pub(crate) fn scratch_for(
    alloc: Global,
    plan: &NormalPlan,
    tags: &List<Tag>,
    rooms: &mut Vec<SpareRoom>,
) -> Result<Scratch, Memory>
    ensures fits { IfOk result (IsScratchFor plan.now tags.now) }
    ensures new { IfOk result IsNew }
{
    match rooms.pop() {
        Some(room) => Scratch::in_room(alloc, plan, tags, room),
        None => Scratch::new(alloc, plan, tags),
    }
}

/// Room for the world behind this one, in that of an earlier one where there is one. `Memory` is its only refusal.
pub(crate) fn builder_for(
    alloc: Global,
    world: &World,
    earlier: &mut Option<World>,
) -> Result<WorldBuilder, Memory>
    requires early { world.now.world.tick < TICKS_MAX }
    ensures { IfOk result (λ out. IsReady out world.now) }
{
    let tick = world.tick() + 1;
    let rows = world.len() * 2;
    match earlier.take() {
        Some(earlier) => WorldBuilder::in_place_of(earlier, tick, world.width(), rows),
        None => WorldBuilder::with_room(alloc, tick, world.width(), rows),
    }
}
