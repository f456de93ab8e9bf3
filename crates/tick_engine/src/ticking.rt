//! One tick of a plan by all workers.
ghost use Rattle.std.specs.Prelude.{◌≡◌, ◌≢◌, ℕ, ◌<◌, ◌≤◌, All, Err, IfErr, IfOk, Ok, length, slice_index_or};
ghost use Rattle.battle_algebra.specs.Plans.{GivesItems};
ghost use Rattle.sgl_typed.specs.Tick.{tick};
ghost use Rattle.task_board.specs.Working.{AreDone, IsDone, IsSame};
ghost use Rattle.task_board.specs.declared.worker.Worker.{Worker as WorkerOf};
ghost use Rattle.task_scratch.specs.Ran.{IsBoardFor};
ghost use Rattle.tick_postprocess.specs.Rows.{IsReady as IsRoomFor};
ghost use Rattle.tick_engine.specs.Jobs.{AreReached};
ghost use Rattle.tick_engine.specs.Prepared.{IsPrepared, MayBePieces};
ghost use Rattle.tick_engine.specs.Runs.{job_for, CanWork, IsFresh};

use crate::ending::end_tick;
use crate::leaving::leave_rooms;
use crate::prepared::Prepared;
use crate::settings::EngineSettings;
use crate::spare::Spare;
use crate::task_run::TickRun;
use battle_algebra::{NormalPlan, normal_plans_are_shared};
use effect_board::EffectBoard;
use env_table::{World, WorldBuilder};
use sgl_evaluate::TickContext;
use sgl_outside::Gate;
use sgl_typed::{TScript, TickFault, scripts_are_shared};
use sgl_values::ITEMS_MAX;
use std::alloc::Global;
use std::thread::Threads;
use task_board::{Worker, finish_all, work};
use thread_share::for_each_mut;
use tick_postprocess::{PostPiece, leave_pieces};

// What one worker does.
fn work_for<G: Gate>(
    gate: &G,
    run: &TickRun,
    board: &EffectBoard,
    number: usize,
    worker: &mut Worker,
)
    requires can { CanWork run.now board.now }
    requires ready { IsFresh run.now board.now worker.old }
    ensures done { IsDone (job_for run.now) board.now worker.new }
    ensures same { IsSame worker.old worker.new }
{
    work(run, gate, run.limit, board, number, worker);
}

// Each worker works on a thread of its own. With one worker no thread is started.
fn work_beside<G: Gate, R: Threads + Sync>(
    rt: &R,
    gate: &G,
    run: &TickRun,
    board: &EffectBoard,
    workers: &mut [Worker],
)
    requires can { CanWork run.now board.now }
    requires some { 0 < length workers.old }
    requires ready { All (IsFresh run.now board.now) workers.old }
    ensures done { All (IsDone (job_for run.now) board.now) workers.new }
    ensures same { (i : ℕ) (d : WorkerOf) → i < length workers.old → IsSame (slice_index_or workers.old i d) (slice_index_or workers.new i d) }
{
    scripts_are_shared();
    normal_plans_are_shared();
    let threads = workers.len();
    for_each_mut(
        rt,
        workers,
        threads,
        &|number, worker: &mut Worker|
            requires can { CanWork run.now board.now }
            requires ready { IsFresh run.now board.now worker.old }
        { work_for(gate, run, board, number, worker) },
    );
}

// The work of all workers.
fn work_all<G: Gate, R: Threads + Sync>(
    rt: &R,
    gate: &G,
    run: &TickRun,
    board: &EffectBoard,
    mut workers: Vec<Worker>,
) -> Vec<Worker>
    requires can { CanWork run.now board.now }
    requires some { 0 < length workers.items }
    requires ready { All (IsFresh run.now board.now) workers.items }
    ensures long { length result.items ≡ length workers.items }
    ensures done { All (IsDone (job_for run.now) board.now) result.items }
    ensures same { (i : ℕ) (d : WorkerOf) → i < length workers.items → IsSame (slice_index_or workers.items i d) (slice_index_or result.items i d) }
{
    work_beside(rt, gate, run, board, workers.as_mut_slice());
    workers
}

// The end of a tick whose tasks were all run.
fn finish_tick<R: Threads + Sync>(
    rt: &R,
    run: &TickRun,
    board: EffectBoard,
    workers: Vec<Worker>,
    out: WorldBuilder,
    pieces: &mut [PostPiece],
) -> Result<(World, Vec<u64>), TickFault>
    requires gives { GivesItems run.now.tick.script.now run.now.plan.now.plan.nodes run.now.plan.now.plan.slots }
    requires limit { run.now.limit ≤ ITEMS_MAX }
    requires board { IsBoardFor (job_for run.now) board }
    requires workers { AreDone (job_for run.now) board workers.items }
    requires out { IsRoomFor out run.now.tick.world.now }
    requires pieces { MayBePieces run.now.tick.world.now pieces.old }
    ensures next { IfOk result (λ made. tick run.now.tick.script.now run.now.tick.world.now.world run.now.tick.seed run.now.limit ≡ Ok made.0.world) }
    ensures width { IfOk result (λ made. made.0.width ≡ run.now.tick.world.now.width) }
    ensures reach { IfOk result (λ made. AreReached run.now.tick.script.now run.now.plan.now run.now.tick.world.now.world run.now.tick.seed made.1.items) }
    ensures fault { IfErr result (λ fault. tick run.now.tick.script.now run.now.tick.world.now.world run.now.tick.seed run.now.limit ≡ Err fault) }
    ensures room { IfErr result (λ fault. fault ≢ TickFault.Memory) }
{
    let _few = run.tick.world.len();
    let (summary, combined, reach) = finish_all(run, run.limit, board, workers);
    match end_tick(rt, run, summary, &combined, out, pieces) {
        Ok(next) => Ok((next, reach)),
        Err(fault) => Err(fault),
    }
}

/// The world behind a tick with these settings and the counts of the nodes, or the refusal of the tick. The rooms of the
/// workers and the memory of the pieces go to the lists. It takes no memory.
pub(crate) fn run_planned<G: Gate, R: Threads + Sync>(
    rt: &R,
    gate: &G,
    script: &TScript,
    plan: &NormalPlan,
    world: &World,
    settings: EngineSettings,
    prepared: Prepared,
    alloc: Global,
    spare: &mut Spare,
) -> Result<(World, Vec<u64>), TickFault>
    requires gives { GivesItems script.now plan.now.plan.nodes plan.now.plan.slots }
    requires limit { settings.items ≤ ITEMS_MAX }
    requires prepared { IsPrepared script.now plan.now world.now settings.seed settings.workers prepared }
    ensures next { IfOk result (λ made. tick script.now world.now.world settings.seed settings.items ≡ Ok made.0.world) }
    ensures width { IfOk result (λ made. made.0.width ≡ world.now.width) }
    ensures reach { IfOk result (λ made. AreReached script.now plan.now world.now.world settings.seed made.1.items) }
    ensures fault { IfErr result (λ fault. tick script.now world.now.world settings.seed settings.items ≡ Err fault) }
    ensures room { IfErr result (λ fault. fault ≢ TickFault.Memory) }
{
    let Prepared {
        index,
        board,
        workers,
        out,
        mut pieces,
    } = prepared;
    let run = TickRun {
        tick: TickContext {
            script,
            world,
            seed: settings.seed,
        },
        plan,
        index: &index,
        limit: settings.items,
    };
    let workers = work_all(rt, gate, &run, &board, workers);
    let workers = leave_rooms(alloc, workers, &mut spare.rooms);
    let ended = finish_tick(rt, &run, board, workers, out, pieces.as_mut_slice());
    leave_pieces(pieces, &mut spare.pieces);
    ended
}
