//! Taking all that a tick needs.
ghost use Rattle.std.specs.Prelude.{◌≡◌, ◌<◌, ◌≤◌, ◌==◌, None, IfOk, length};
ghost use Rattle.battle_algebra.specs.OfScript.{IsOf};
ghost use Rattle.battle_algebra.specs.Plans.{tree_in};
ghost use Rattle.effect_board.specs.Handles.{view_of, tasks_of, tags_of as board_tags, is_alone, IsSeatOf};
ghost use Rattle.effect_board.specs.Views.{first_view};
ghost use Rattle.task_board.specs.Working.{AreWorkers};
ghost use Rattle.task_board.specs.declared.summary.Summary.TheVariants.{Counted};
ghost use Rattle.task_scratch.specs.Scratch.{IsScratchFor};
ghost use Rattle.tick_engine.specs.Jobs.{IsTickBoard};
ghost use Rattle.tick_engine.specs.Prepared.{IsSetup, MayBePieces};

use crate::prepared::{Prepared, Setup};
use crate::settings::EngineSettings;
use crate::spare::{Spare, builder_for, scratch_for};
use crate::tags::tags_of;
use battle_algebra::NormalPlan;
use effect_board::{EffectBoard, Seat};
use env_table::World;
use index_set::IndexSet;
use sgl_typed::TScript;
use sgl_values::{EFFECTS_MAX, List, Memory, TASK_ROWS, TICKS_MAX, Tag, WORKERS_MAX};
use std::alloc::Global;
use std::thread::Threads;
use task_board::{Summary, Worker};
use task_scratch::{Scratch, SpareRoom};
use tick_postprocess::{PostPiece, post_pieces};

/// A thread is worth its start for so many rows behind `post`.
const PIECE_ROWS: u32 = 1024;

/// What the tick behind this world needs with these settings, in what earlier ticks left, as far as that serves. At most as
/// many threads as there are workers make it, but for sorts, which take all processors where there is more than one worker.
/// `Memory` is its only refusal.
pub(crate) fn prepare_tick<R: Threads + Sync>(
    rt: &R,
    alloc: Global,
    script: &TScript,
    plan: &NormalPlan,
    world: &World,
    settings: EngineSettings,
    spare: &mut Spare,
) -> Result<Setup, Memory>
    requires of { IsOf script.now (tree_in plan.now.plan.nodes) }
    requires workers { (0 < settings.workers) × (settings.workers ≤ WORKERS_MAX) }
    requires early { world.now.world.tick < TICKS_MAX }
    ensures { IfOk result (IsSetup script.now plan.now world.now settings) }
{
    if settings.plain {
        return Ok(Setup::Plain);
    }
    let seed = settings.seed;
    let count = settings.workers;
    let index = IndexSet::build(rt, count as usize, alloc, script, plan, world, seed)?;
    let tags = tags_of(alloc, script.schema.effects.as_slice())?;
    let (board, first) = board_for(alloc, world, &tags, count)?;
    let workers = workers_for(alloc, plan, &tags, &board, first, count, &mut spare.rooms)?;
    let pieces = pieces_for(alloc, world, count, spare)?;
    // Behind the work the rooms and the memory of the pieces come back.
    spare.rooms.reserve(count as usize)?;
    spare.pieces.reserve(count as usize)?;
    let out = builder_for(alloc, world, &mut spare.world)?;
    Ok(Setup::Planned(Prepared {
        index,
        board,
        workers,
        out,
        pieces,
    }))
}

// The pieces of a world, one for each worker as far as that is worth a thread; none where one would be all.
fn pieces_for(
    alloc: Global,
    world: &World,
    workers: u32,
    spare: &mut Spare,
) -> Result<Vec<PostPiece>, Memory>
    requires { (0 < workers) × (workers ≤ WORKERS_MAX) }
    ensures { IfOk result (λ pieces. MayBePieces world.now pieces.items) }
{
    let count = workers.min(1 + world.len() / PIECE_ROWS);
    if count == 1 {
        return Ok(Vec::new(alloc));
    }
    post_pieces(alloc, world, count, &mut spare.pieces)
}

// The board of the tick behind this world for so many workers, and its first seat.
fn board_for(
    alloc: Global,
    world: &World,
    tags: &List<Tag>,
    workers: u32,
) -> Result<(EffectBoard, Seat), Memory>
    requires narrow { length tags.now ≤ EFFECTS_MAX }
    ensures board { IfOk result (λ made. IsTickBoard world.now.world tags.now made.0) }
    ensures alone { IfOk result (λ made. is_alone made.0 ≡ (workers == 1)) }
    ensures seat { IfOk result (λ made. IsSeatOf made.0 made.1 × (view_of made.1 ≡ first_view (tasks_of made.0) (board_tags made.0))) }
{
    let rows = world.len();
    let tasks = rows.div_ceil(TASK_ROWS);
    Ok(EffectBoard::new(alloc, rows, tags, tasks, workers == 1)?)
}

// So many workers. The last has the first seat.
fn workers_for(
    alloc: Global,
    plan: &NormalPlan,
    tags: &List<Tag>,
    board: &EffectBoard,
    first: Seat,
    count: u32,
    rooms: &mut Vec<SpareRoom>,
) -> Result<Vec<Worker>, Memory>
    requires count { (0 < count) × (count ≤ WORKERS_MAX) }
    requires alone { is_alone board.now ≡ (count == 1) }
    requires of { IsSeatOf board.now first }
    requires new { view_of first ≡ first_view (tasks_of board.now) (board_tags board.now) }
    ensures workers { IfOk result (λ workers. AreWorkers (IsScratchFor plan.now tags.now) (length plan.now.plan.nodes) board.now workers.items) }
    ensures many { IfOk result (λ workers. length workers.items ≡ count) }
{
    let mut first = first;
    let mut workers = Vec::with_capacity(alloc, count as usize)?;
    for _ in 0..count - 1 {
        let scratch = scratch_for(alloc, plan, tags, rooms)?;
        let seat = board.split(&mut first);
        workers.push(rested(seat, scratch))?;
    }
    let scratch = scratch_for(alloc, plan, tags, rooms)?;
    workers.push(rested(first, scratch))?;
    Ok(workers)
}

// A worker that has done nothing.
fn rested(seat: Seat, scratch: Scratch) -> Worker
    ensures { result ≡ record { seat = seat; scratch = scratch; summary = Counted 0 None } }
{
    Worker {
        seat,
        scratch,
        summary: Summary::Counted {
            items: 0,
            least: None,
        },
    }
}
