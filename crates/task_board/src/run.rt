//! The work of all workers.
ghost use Rattle.std.specs.Prelude.{◌≡◌, ◌≢◌, ℕ, ◌+◌, ◌<◌, ◌≤◌, List, [], All, length, slice_index_or, vec_len};
ghost use Rattle.effect_board.specs.Handles.{view_of, tasks_of};
ghost use Rattle.std.specs.List.{range_with_len};
ghost use Rattle.task_scratch.specs.Job.{Job, capped};
ghost use Rattle.task_scratch.specs.Scratch.{reach_at};
ghost use Rattle.task_board.specs.Job.{all_items};
ghost use Rattle.task_scratch.specs.Ran.{IsBoardFor};
ghost use Rattle.task_board.specs.Summing.{Reaches, Totals};
ghost use Rattle.task_board.specs.Working.{AreDone, HasClaimed, IsDone, IsGathering, IsLater, IsReady, IsSame, IsWorking};
ghost use Rattle.task_board.specs.declared.worker.Worker.{Worker as WorkerOf};

use crate::summary::Summary;
use crate::sums::{both, told_of};
use crate::tasks::Tasks;
use crate::worker::Worker;
use effect_board::EffectBoard;
use effect_combine::Combined;
use sgl_outside::Gate;
use sgl_values::{ITEMS_MAX, ROWS_MAX, WORKERS_MAX};
use task_scratch::{Room, Scratch};

// Runs the task that was claimed last, where the limit is not passed yet.
fn run_claimed<T: Tasks>(tasks: &T, limit: u64, board: &EffectBoard, task: u32, worker: &mut Worker)
    requires can { T.can tasks.now }
    requires limit { ((T.job tasks.now).limit ≡ limit) × (limit ≤ ITEMS_MAX) }
    requires count { (T.job tasks.now).count ≤ ROWS_MAX }
    requires board { IsBoardFor (T.job tasks.now) board.now }
    requires claimed { HasClaimed (T.job tasks.now) (T.fits tasks.now) board.now task worker.old }
    ensures working { IsWorking (T.job tasks.now) (T.fits tasks.now) board.now worker.new }
    ensures tasks { (view_of worker.new.seat).claimed ≡ (view_of worker.old.seat).claimed }
    ensures same { IsSame worker.old worker.new }
{
    match worker.summary {
        Summary::Over => {}
        Summary::Counted { items: _, least: _ } => {
            let before = worker.summary;
            let done = tasks.run_task(task, worker, board, limit);
            let told = told_of(done);
            worker.summary = both(limit, before, told);
        }
    }
}

/// Claims and runs tasks until none is left. The worker passes the gate before each task. It takes no memory.
pub fn work<T: Tasks, G: Gate>(
    tasks: &T,
    gate: &G,
    limit: u64,
    board: &EffectBoard,
    number: usize,
    worker: &mut Worker,
)
    requires can { T.can tasks.now }
    requires limit { ((T.job tasks.now).limit ≡ limit) × (limit ≤ ITEMS_MAX) }
    requires count { (T.job tasks.now).count ≤ ROWS_MAX }
    requires board { IsBoardFor (T.job tasks.now) board.now }
    requires ready { IsReady (T.fits tasks.now) (T.job tasks.now).nodes board.now worker.old }
    ensures done { IsDone (T.job tasks.now) board.now worker.new }
    ensures same { IsSame worker.old worker.new }
{
    while let Some(task) = board.claim(&mut worker.seat) {
        gate.pass(u32::try_from(number).unwrap_or(WORKERS_MAX), task);
        run_claimed(tasks, limit, board, task, worker);
    }
}

// Adds counts to others, of which there are as many. One that would pass the greatest stops there.
fn add_counts(counts: &mut Vec<u64>, more: &[u64])
    requires { length counts.old.items ≡ length more.now }
    ensures sized { length counts.new.items ≡ length counts.old.items }
    ensures added { (node : ℕ) → node < length counts.old.items → reach_at counts.new.items node ≡ capped (reach_at counts.old.items node + reach_at more.now node) }
{
    for node in 0..more.len() {
        counts[node] = counts[node].saturating_add(more[node]);
    }
}

// The first worker takes in all others.
fn gather<T: Tasks>(
    tasks: &T,
    limit: u64,
    board: &EffectBoard,
    first: &mut Worker,
    mut workers: Vec<Worker>,
)
    requires limit { ((T.job tasks.now).limit ≡ limit) × (limit ≤ ITEMS_MAX) }
    requires others { All (IsDone (T.job tasks.now) board.now) workers.items }
    requires later { All IsLater workers.items }
    requires first { IsGathering (T.job tasks.now) board.now (vec_len workers) first.old }
    ensures { IsGathering (T.job tasks.now) board.now 0 first.new }
{
    while let Some(worker) = workers.pop() {
        let Worker {
            seat,
            scratch,
            summary,
        } = worker;
        board.join(&mut first.seat, seat);
        add_counts(&mut first.scratch.room.reach, scratch.room.reach.as_slice());
        first.summary = both(limit, first.summary, summary);
    }
}

/// Joins all workers, which have found all tasks given out, and closes the board. The last worker has the first seat. The
/// summary and the words are true of the items of all tasks. It takes no memory.
pub fn finish_all<T: Tasks>(
    tasks: &T,
    limit: u64,
    board: EffectBoard,
    workers: Vec<Worker>,
) -> (Summary, Combined, Vec<u64>)
    requires limit { ((T.job tasks.now).limit ≡ limit) × (limit ≤ ITEMS_MAX) }
    requires board { IsBoardFor (T.job tasks.now) board }
    requires workers { AreDone (T.job tasks.now) board workers.items }
    ensures totals { Totals (T.job tasks.now) result.1 result.0 (all_items (T.job tasks.now)) }
    ensures reaches { Reaches (T.job tasks.now) result.0 result.2.items (range_with_len 0 (T.job tasks.now).count) }
{
    let mut workers = workers;
    let mut first = workers.pop().unwrap();
    gather(tasks, limit, &board, &mut first, workers);
    let Worker {
        seat,
        scratch,
        summary,
    } = first;
    let Scratch { room, .. } = scratch;
    let Room { reach, .. } = room;
    (summary, board.close(seat), reach)
}
