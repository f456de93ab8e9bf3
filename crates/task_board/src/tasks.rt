//! What workers run: tasks by their numbers.
ghost use Rattle.std.specs.Prelude.{◌≡◌, ◌<◌, ◌≤◌, length};
ghost use Rattle.effect_board.specs.Handles.{view_of, IsSeatOf};
ghost use Rattle.task_scratch.specs.Job.{Job};
ghost use Rattle.task_scratch.specs.Ran.{IsBoardFor, Ran};
ghost use Rattle.task_scratch.specs.declared.scratch.Scratch.{Scratch as ScratchOf};

use crate::worker::Worker;
use effect_board::EffectBoard;
use sgl_values::{ITEMS_MAX, RUNS_MAX};
use task_scratch::TaskDone;

/// The tasks of one tick, by number.
pub trait Tasks {
    // The rows and tags of the board, the limit, the number of tasks, and the items of each.
    ghost job: { Self → Job };
    // The tasks may be run.
    ghost can: { Self → Type 0 };
    // The scratch was made for these tasks.
    ghost fits: { Self → ScratchOf → Type 0 };

    /// Runs a task by a worker, whose summary is not read: what the task gives goes to the board.
    fn run_task(&self, task: u32, worker: &mut Worker, board: &EffectBoard, limit: u64) -> TaskDone
        requires can { can self.now }
        requires task { task < (job self.now).count }
        requires limit { ((job self.now).limit ≡ limit) × (limit ≤ ITEMS_MAX) }
        requires board { IsBoardFor (job self.now) board.now }
        requires of { IsSeatOf board.now worker.old.seat }
        requires scratch { fits self.now worker.old.scratch }
        requires runs { worker.old.scratch.runs < RUNS_MAX }
        requires sized { length worker.old.scratch.room.reach.items ≡ (job self.now).nodes }
        ensures of { IsSeatOf board.now worker.new.seat }
        ensures scratch { fits self.now worker.new.scratch }
        ensures ran { Ran (job self.now) task worker.old.scratch result worker.new.scratch (view_of worker.old.seat) (view_of worker.new.seat) };
}
