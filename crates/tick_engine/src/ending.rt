//! The end of a tick behind the work of all workers.
ghost use Rattle.std.specs.Prelude.{◌≡◌, ◌≢◌, ◌≤◌, Err, IfErr, IfOk, List, Ok, false, length};
ghost use Rattle.sgl_values.specs.declared.item.Item.{Item};
ghost use Rattle.sgl_typed.specs.Tick.{after_cells, combined_from, tick};
ghost use Rattle.tick_postprocess.specs.Answer.{answered, told, AreWords};
ghost use Rattle.tick_postprocess.specs.Rows.{IsReady};
ghost use Rattle.tick_engine.specs.Jobs.{is_over, IsTold};
ghost use Rattle.tick_engine.specs.Prepared.{MayBePieces};

use crate::task_run::TickRun;
use effect_combine::{Combined, combined_words_stand};
use env_table::{World, WorldBuilder};
use sgl_typed::TickFault;
use sgl_values::ITEMS_MAX;
use std::thread::Threads;
use task_board::Summary;
use tick_postprocess::{PostFault, PostPiece, post, post_beside};

/// The world behind a tick of whose items the summary and the words tell, or its refusal. Where the rows are in pieces, each
/// piece has a thread of its own. It takes no memory.
pub(crate) fn end_tick<R: Threads + Sync>(
    rt: &R,
    run: &TickRun,
    summary: Summary,
    combined: &Combined,
    out: WorldBuilder,
    pieces: &mut [PostPiece],
) -> Result<World, TickFault>
    requires limit { run.now.limit ≤ ITEMS_MAX }
    requires told { IsTold run.now.tick.script.now run.now.tick.world.now.world run.now.tick.seed run.now.limit combined.now summary }
    requires out { IsReady out run.now.tick.world.now }
    requires pieces { MayBePieces run.now.tick.world.now pieces.old }
    ensures next { IfOk result (λ next. tick run.now.tick.script.now run.now.tick.world.now.world run.now.tick.seed run.now.limit ≡ Ok next.world) }
    ensures width { IfOk result (λ next. next.width ≡ run.now.tick.world.now.width) }
    ensures fault { IfErr result (λ fault. tick run.now.tick.script.now run.now.tick.world.now.world run.now.tick.seed run.now.limit ≡ Err fault) }
    ensures room { IfErr result (λ fault. fault ≢ TickFault.Memory) }
    ensures within { IfOk result (λ _. is_over summary ≡ false) }
{
    combined_words_stand();
    match summary {
        Summary::Over => Err(TickFault::Items { limit: run.limit }),
        Summary::Counted { items: _, least } => match least {
            Some(item) => Err(TickFault::Script {
                key: item.key,
                fault: item.fault,
            }),
            None => match post_all(rt, run, combined, out, pieces) {
                Ok(next) => Ok(next),
                Err(fault) => Err(told(fault)),
            },
        },
    }
}

// The world behind `post`: row by row, or by the pieces of its rows where there are some.
fn post_all<R: Threads + Sync>(
    rt: &R,
    run: &TickRun,
    combined: &Combined,
    out: WorldBuilder,
    pieces: &mut [PostPiece],
) -> Result<World, PostFault>
    requires rows { combined.now.rows ≡ length run.now.tick.world.now.world.rows }
    requires effects { combined.now.width ≡ length run.now.tick.script.now.schema.effects }
    requires out { IsReady out run.now.tick.world.now }
    requires pieces { MayBePieces run.now.tick.world.now pieces.old }
    ensures told { (items : List Item) → AreWords run.now.tick.script.now.schema.effects combined.now items
        → answered result ≡ after_cells run.now.tick.script.now run.now.tick.world.now.world run.now.tick.seed (combined_from run.now.tick.script.now items 0 run.now.tick.world.now.world.rows) }
    ensures width { IfOk result (λ next. next.width ≡ run.now.tick.world.now.width) }
{
    if pieces.is_empty() {
        post(
            run.tick.script,
            run.tick.world,
            combined,
            run.tick.seed,
            out,
        )
    } else {
        post_beside(
            rt,
            run.tick.script,
            run.tick.world,
            combined,
            run.tick.seed,
            out,
            pieces,
        )
    }
}

/// A refusal behind the items as that of a tick.
pub(crate) fn told(fault: PostFault) -> TickFault
    ensures told { result ≡ told fault }
    ensures room { result ≢ TickFault.Memory }
{
    match fault {
        PostFault::Cell { key, attr } => TickFault::Cell { key, attr },
        PostFault::Script { key, fault } => TickFault::Post { key, fault },
        PostFault::KeysSpent { last, children } => TickFault::KeysSpent { last, children },
        PostFault::UnitsFull { units } => TickFault::UnitsFull { units },
    }
}
