//! The tasks of one tick.
ghost use Rattle.index_set.specs.Sets.{IsIndexOf};
ghost use Rattle.task_scratch.specs.Scratch.{IsScratchFor};
ghost use Rattle.plan_executor.specs.PlanJob.{effect_tags, job_of};

use battle_algebra::NormalPlan;
use effect_board::EffectBoard;
use index_set::IndexSet;
use plan_executor::PlanRun;
use sgl_evaluate::TickContext;
use task_board::{Tasks, Worker};
use task_scratch::TaskDone;

/// The tasks of a plan over a world and its indices.
#[derive(Drop)]
pub(crate) struct TickRun<'a> {
    pub(crate) tick: TickContext<'a>,
    pub(crate) plan: &'a NormalPlan,
    pub(crate) index: &'a IndexSet,
    pub(crate) limit: u64,
}

impl Tasks for TickRun<'_> {
    ghost job = { λ run. job_of run.tick.script.now run.plan.now run.tick.world.now.world run.tick.seed run.limit };

    ghost can = { λ run. IsIndexOf run.index.now run.tick.script.now run.plan.now run.tick.world.now.world run.tick.seed };

    ghost fits = { λ run. IsScratchFor run.plan.now (effect_tags run.tick.script.now) };

    fn run_task(
        &self,
        task: u32,
        worker: &mut Worker,
        board: &EffectBoard,
        limit: u64,
    ) -> TaskDone {
        let run = PlanRun {
            script: self.tick.script,
            plan: self.plan,
            world: self.tick.world,
            index: self.index,
            seed: self.tick.seed,
        };
        run.run_task(task, &mut worker.scratch, board, &mut worker.seat, limit)
    }
}
