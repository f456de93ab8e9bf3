//! What a scratch leaves to the next one.
ghost use Rattle.std.specs.Prelude.{◌≡◌, IfOk};
ghost use Rattle.task_scratch.specs.Scratch.{IsNew, IsScratchFor};

use crate::room::Room;
use crate::scratch::Scratch;
use crate::sink::Sink;
use crate::slot_rows::SlotRows;
use battle_algebra::NormalPlan;
use sgl_lanes::{LANES, LaneValues, SPARE_LANES};
use sgl_values::{CONSTS_MAX, EFFECTS_MAX, List, Memory, Num, PARAMS_MAX, Tag, Val};
use std::alloc::Global;
use std::mem::replace;

/// The memory of a scratch that is done with, whatever it holds: its sets of rows, its slots, and its room for frames,
/// arguments, amounts and attributes.
#[derive(Drop)]
pub struct SpareRoom {
    masks: Vec<u64>,
    rows: SlotRows,
    frame: Vec<Val>,
    args: Vec<Val>,
    arg_lanes: Vec<LaneValues>,
    amounts: Vec<LaneValues>,
    spare: Vec<LaneValues>,
    columns: Vec<[Num; LANES]>,
}

impl Scratch {
    /// Leaves its room to another scratch, and keeps its batch and its counts. It takes no memory.
    pub fn leave_room(&mut self, alloc: Global) -> SpareRoom
        ensures reach { self.new.room.reach ≡ self.old.room.reach }
        ensures sink { self.new.sink ≡ self.old.sink }
        ensures runs { self.new.runs ≡ self.old.runs }
    {
        let none = SlotRows {
            columns: Vec::new(alloc),
        };
        SpareRoom {
            masks: replace(&mut self.room.masks, Vec::new(alloc)),
            rows: replace(&mut self.room.rows, none),
            frame: replace(&mut self.room.frame, Vec::new(alloc)),
            args: replace(&mut self.room.args, Vec::new(alloc)),
            arg_lanes: replace(&mut self.room.arg_lanes, Vec::new(alloc)),
            amounts: replace(&mut self.room.amounts, Vec::new(alloc)),
            spare: replace(&mut self.room.spare, Vec::new(alloc)),
            columns: replace(&mut self.columns, Vec::new(alloc)),
        }
    }

    /// A scratch as `new` makes it, in the room that another left, of which nothing counts but its size. It takes memory for
    /// the batch and the counts, and for the rest only where the other scratch was made for another plan. `Memory` is its
    /// only refusal.
    pub fn in_room(
        alloc: Global,
        plan: &NormalPlan,
        tags: &List<Tag>,
        room: SpareRoom,
    ) -> Result<Scratch, Memory>
        ensures fits { IfOk result (IsScratchFor plan.now tags.now) }
        ensures new { IfOk result IsNew }
    {
        let plan = plan.plan();
        let SpareRoom {
            mut masks,
            mut rows,
            mut frame,
            mut args,
            mut arg_lanes,
            mut amounts,
            mut spare,
            mut columns,
        } = room;
        masks.resize(plan.nodes.len(), 0)?;
        rows.resize(plan.slots)?;
        frame.resize(plan.slots as usize, Val::N(Num::zero()))?;
        args.resize(PARAMS_MAX, Val::N(Num::zero()))?;
        arg_lanes.resize(PARAMS_MAX, LaneValues::unknown())?;
        amounts.resize(EFFECTS_MAX, LaneValues::unknown())?;
        spare.resize(SPARE_LANES, LaneValues::unknown())?;
        columns.resize(CONSTS_MAX, [Num::zero(); LANES])?;
        let room = Room {
            masks,
            rows,
            frame,
            args,
            arg_lanes,
            amounts,
            spare,
            reach: vec![in alloc; 0; plan.nodes.len()]?,
        };
        Ok(Scratch {
            room,
            columns,
            sink: Sink::new(alloc, tags)?,
            runs: 0,
        })
    }
}
