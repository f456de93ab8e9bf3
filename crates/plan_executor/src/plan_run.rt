//! The tasks of a plan on a world.
ghost use Rattle.std.specs.Prelude.{◌≡◌, ◌<◌, ◌≤◌, ◌+◌, length};
ghost use Rattle.effect_board.specs.Handles.{view_of, rows_of, tags_of, IsSeatOf};
ghost use Rattle.index_set.specs.Sets.{IsIndexOf};
ghost use Rattle.task_scratch.specs.Ran.{Ran};
ghost use Rattle.task_scratch.specs.Scratch.{IsScratchFor};
ghost use Rattle.plan_executor.specs.PlanJob.{effect_tags, job_of, tasks_for};

use crate::aiming::own_rows;
use crate::outlet::Outlet;
use crate::run::Run;
use crate::task::{begin, finish, run_rows};
use battle_algebra::NormalPlan;
use effect_board::{EffectBoard, Seat};
use env_table::World;
use index_set::IndexSet;
use sgl_evaluate::TickContext;
use sgl_lanes::read_columns;
use sgl_typed::TScript;
use sgl_values::{ITEMS_MAX, RUNS_MAX, TASK_ROWS};
use task_scratch::{Scratch, TaskDone};

/// What the tasks of a tick read: a plan of a script, a world with its indices, and the seed of the draw. Task t is the
/// rows from 64 t on that exist, at most 64.
#[derive(Clone, Copy)]
pub struct PlanRun<'a> {
    pub script: &'a TScript,
    pub plan: &'a NormalPlan,
    pub world: &'a World,
    pub index: &'a IndexSet,
    pub seed: u64,
}

impl PlanRun<'_> {
    /// Runs a task. Its items are over exactly where those that the scratch had and its own are more than the limit, and
    /// then it may have stopped early. Otherwise it tells their number and their least fault, all its effects were
    /// deposited, and the scratch's counts have grown by its items, by the frames that reached the nodes, and by one run.
    /// It takes no memory.
    pub fn run_task(
        &self,
        task: u32,
        scratch: &mut Scratch,
        board: &EffectBoard,
        seat: &mut Seat,
        limit: u64,
    ) -> TaskDone
        requires task { task < tasks_for (length self.now.world.now.world.rows) }
        requires limit { limit ≤ ITEMS_MAX }
        requires index { IsIndexOf self.now.index.now self.now.script.now self.now.plan.now self.now.world.now.world self.now.seed }
        requires scratch { IsScratchFor self.now.plan.now (effect_tags self.now.script.now) scratch.old }
        requires rows { rows_of board.now ≡ length self.now.world.now.world.rows }
        requires tags { tags_of board.now ≡ effect_tags self.now.script.now }
        requires of { IsSeatOf board.now seat.old }
        requires runs { scratch.old.runs < RUNS_MAX }
        ensures of { IsSeatOf board.now seat.new }
        ensures scratch { IsScratchFor self.now.plan.now (effect_tags self.now.script.now) scratch.new }
        ensures ran { Ran (job_of self.now.script.now self.now.plan.now self.now.world.now.world self.now.seed limit) task scratch.old result scratch.new (view_of seat.old) (view_of seat.new) }
    {
        let before = scratch.sink.items;
        let rows = self.world.len();
        let first = task * TASK_ROWS;
        read_columns(self.world, first, scratch.columns.as_mut_slice());
        let own = own_rows(first);
        let run = Run {
            tick: TickContext {
                script: self.script,
                world: self.world,
                seed: self.seed,
            },
            plan: self.plan,
            nodes: self.plan.plan().nodes.as_slice(),
            index: self.index,
            first,
            columns: scratch.columns.as_slice(),
            own: &own,
            out: Outlet { board, limit },
        };
        let count = (rows - first).min(TASK_ROWS);
        begin(limit, &mut scratch.sink);
        run_rows(&run, count, &mut scratch.room, seat, &mut scratch.sink);
        finish(&run.out, seat, &mut scratch.sink);
        scratch.runs += 1;
        TaskDone {
            items: scratch.sink.items.saturating_sub(before),
            over: scratch.sink.over,
            least: scratch.sink.least,
        }
    }
}
