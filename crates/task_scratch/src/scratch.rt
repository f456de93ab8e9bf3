//! A worker's own room.
ghost use Rattle.std.specs.Prelude.{◌≡◌, IfOk};
ghost use Rattle.task_scratch.specs.Scratch.{IsNew, IsScratchFor, reach_at};

use crate::room::Room;
use crate::sink::Sink;
use crate::slot_rows::SlotRows;
use battle_algebra::NormalPlan;
use sgl_lanes::{LANES, LaneValues, SPARE_LANES};
use sgl_values::{CONSTS_MAX, EFFECTS_MAX, List, Memory, Num, PARAMS_MAX, Tag, Val};
use std::alloc::Global;

/// A worker's own room: what it works with, where its items go, and how many tasks were run with it.
#[derive(Drop)]
pub struct Scratch {
    pub room: Room,
    /// Room for the attributes of the rows of a task, a column each.
    pub columns: Vec<[Num; LANES]>,
    pub sink: Sink,
    pub runs: u32,
}

impl Scratch {
    /// Room for a plan, and for effect attributes of these tags. `Memory` is its only refusal.
    pub fn new(alloc: Global, plan: &NormalPlan, tags: &List<Tag>) -> Result<Scratch, Memory>
        ensures fits { IfOk result (IsScratchFor plan.now tags.now) }
        ensures new { IfOk result IsNew }
    {
        let plan = plan.plan();
        let room = Room {
            masks: vec![in alloc; 0; plan.nodes.len()]?,
            rows: SlotRows::new(alloc, plan.slots)?,
            frame: vec![in alloc; Val::N(Num::zero()); plan.slots as usize]?,
            args: vec![in alloc; Val::N(Num::zero()); PARAMS_MAX]?,
            arg_lanes: vec![in alloc; LaneValues::unknown(); PARAMS_MAX]?,
            amounts: vec![in alloc; LaneValues::unknown(); EFFECTS_MAX]?,
            spare: vec![in alloc; LaneValues::unknown(); SPARE_LANES]?,
            reach: vec![in alloc; 0; plan.nodes.len()]?,
        };
        Ok(Scratch {
            room,
            columns: vec![in alloc; [Num::zero(); LANES]; CONSTS_MAX]?,
            sink: Sink::new(alloc, tags)?,
            runs: 0,
        })
    }

    /// How many frames reached the node in the tasks that were run, and 0 past the last node. A count that would pass the
    /// greatest of 64 bits stops there.
    pub fn reach(&self, node: u32) -> u64
        ensures { result ≡ reach_at self.now.room.reach.items node }
    {
        let at = node as usize;
        if at < self.room.reach.len() {
            self.room.reach[at]
        } else {
            0
        }
    }

    /// How many items the tasks came to that were run and are within the limit.
    pub fn items(&self) -> u64
        ensures { result ≡ self.now.sink.items }
    {
        self.sink.items
    }
}
