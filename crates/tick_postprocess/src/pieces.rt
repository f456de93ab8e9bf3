//! The next world by several threads, each of which takes a run of the rows.
ghost use Rattle.std.specs.Prelude.{◌≡◌, ℕ, ◌<◌, ◌≤◌, None, length, slice_index_or, All, List, IfOk};
ghost use Rattle.std.specs.Option.{option_map};
ghost use Rattle.sgl_values.specs.declared.item.Item.{Item};
ghost use Rattle.sgl_typed.specs.declared.script.TScript.{TScript as ScriptOf};
ghost use Rattle.sgl_typed.specs.Tick.{after_cells, after_post, cell_fault, combined_from};
ghost use Rattle.effect_combine.specs.Combined.{CellWords};
ghost use Rattle.env_table.specs.Table.{Table};
ghost use Rattle.tick_postprocess.specs.Answer.{answered, told, AreWords};
ghost use Rattle.tick_postprocess.specs.Pieces.{AreDone, ArePieces, CanPushMade, IsDone, IsMade, IsPiece, IsSameRun, PushesMade};
ghost use Rattle.tick_postprocess.specs.Rows.{IsHalf, IsReady, PutsAll};
ghost use Rattle.tick_postprocess.specs.Runs.{key_before, posted_rows, wide_in, IsRoom, IsRun, TellsWide};
ghost use Rattle.tick_postprocess.specs.Unit.{IsEnding};
ghost use Rattle.tick_postprocess.specs.declared.piece.PostPiece.{PostPiece as PieceOf};

use crate::fault::PostFault;
use crate::next_world::{Counts, close_rows, put_run, wide_in};
use crate::piece::PostPiece;
use crate::row::Ending;
use effect_combine::Combined;
use env_table::{World, WorldBuilder};
use sgl_evaluate::TickContext;
use sgl_typed::{TScript, scripts_are_shared};
use std::thread::Threads;
use thread_share::for_each_mut;

/// The same as `post`, with each piece of the world on a thread of its own; where there is one piece, no thread is started.
/// The pieces are those that `post_pieces` made of this world. It takes no memory. What the pieces hold serves no further
/// tick: `leave_pieces` gives up their memory to that.
pub fn post_beside<R: Threads + Sync>(
    rt: &R,
    script: &TScript,
    world: &World,
    combined: &Combined,
    seed: u64,
    out: WorldBuilder,
    pieces: &mut [PostPiece],
) -> Result<World, PostFault>
    requires rows { combined.now.rows ≡ length world.now.world.rows }
    requires effects { combined.now.width ≡ length script.now.schema.effects }
    requires out { IsReady out world.now }
    requires pieces { ArePieces world.now pieces.old }
    ensures told { (items : List Item) → AreWords script.now.schema.effects combined.now items
        → answered result ≡ after_cells script.now world.now.world seed (combined_from script.now items 0 world.now.world.rows) }
    ensures width { IfOk result (λ next. next.width ≡ world.now.width) }
{
    let ending = Ending {
        tick: TickContext {
            script,
            world,
            seed,
        },
        combined,
    };
    run_beside(rt, &ending, pieces);
    if let Some(fault) = first_wide(pieces) {
        return Err(fault);
    }
    let mut out = out;
    let counts = join_pieces(&ending, pieces, &mut out)?;
    close_rows(&ending, counts, out)
}

// Puts the rows of each piece behind `post`, by threads.
fn run_beside<R: Threads + Sync>(rt: &R, ending: &Ending, pieces: &mut [PostPiece])
    requires ending { IsEnding ending.now }
    requires pieces { All (IsPiece ending.now.tick.world.now) pieces.old }
    ensures long { length pieces.new ≡ length pieces.old }
    ensures done { All (IsDone ending.now.tick.script.now ending.now.tick.world.now ending.now.combined.now ending.now.tick.seed) pieces.new }
    ensures same { (i : ℕ) (d : PieceOf) → i < length pieces.old → IsSameRun (slice_index_or pieces.old i d) (slice_index_or pieces.new i d) }
{
    scripts_are_shared();
    let threads = pieces.len().max(1);
    for_each_mut(
        rt,
        pieces,
        threads,
        &|_number, piece: &mut PostPiece|
            requires ending { IsEnding ending.now }
            requires piece { IsPiece ending.now.tick.world.now piece.old }
        { run_piece(ending, piece) },
    );
}

// Puts the rows of a piece behind `post`. Those that stay are put into its room.
fn run_piece(ending: &Ending, piece: &mut PostPiece)
    requires ending { IsEnding ending.now }
    requires piece { IsPiece ending.now.tick.world.now piece.old }
    ensures done { IsDone ending.now.tick.script.now ending.now.tick.world.now ending.now.combined.now ending.now.tick.seed piece.new }
    ensures same { IsSameRun piece.old piece.new }
{
    if let Some(room) = piece.room.take() {
        let (told, made) = fill(ending, piece.first, piece.end, room);
        piece.wide = wide_in(told);
        piece.told = told;
        piece.made = Some(made);
    }
}

// What is told of a run, and the world of its rows that stay.
fn fill(
    ending: &Ending,
    first: u32,
    end: u32,
    room: WorldBuilder,
) -> (Result<Counts, PostFault>, World)
    requires ending { IsEnding ending.now }
    requires run { IsRun ending.now.tick.world.now.world first end }
    requires room { IsRoom ending.now.tick.world.now first end room }
    ensures wide { (items : List Item) → AreWords ending.now.tick.script.now.schema.effects ending.now.combined.now items
        → TellsWide (combined_from ending.now.tick.script.now items 0 ending.now.tick.world.now.world.rows) first end (wide_in result.0) }
    ensures made { IsMade ending.now.tick.script.now ending.now.tick.world.now ending.now.combined.now ending.now.tick.seed first end result.0 result.1 }
{
    let mut room = room;
    let told = put_run(ending, first, end, &mut room);
    (told, room.finish(key_in_front(ending.tick.world, end)))
}

// The key of the row before the one with this number, and 0 where there is none.
fn key_in_front(world: &World, number: u32) -> u32
    requires { number ≤ length world.now.world.rows }
    ensures { result ≡ key_before world.now.world number }
{
    if number == 0 {
        0
    } else {
        world.key(number - 1)
    }
}

// The first cell outside the range that the pieces tell.
fn first_wide(pieces: &[PostPiece]) -> Option<PostFault>
    ensures { (script : ScriptOf) (world : Table) (combined : CellWords) (seed : ℕ) → AreDone script world combined seed pieces.now
        → (items : List Item) → AreWords script.schema.effects combined items → option_map told result ≡ cell_fault (combined_from script items 0 world.world.rows) }
{
    for at in 0..pieces.len() {
        let piece = &pieces[at];
        if let Some(fault) = piece.wide {
            return Some(fault);
        }
    }
    None
}

// The rows of all pieces, one piece behind the other, which are put into an empty next world.
fn join_pieces(
    ending: &Ending,
    pieces: &[PostPiece],
    out: &mut WorldBuilder,
) -> Result<Counts, PostFault>
    requires pieces { AreDone ending.now.tick.script.now ending.now.tick.world.now ending.now.combined.now ending.now.tick.seed pieces.now }
    requires out { IsReady out.old ending.now.tick.world.now }
    ensures half { IfOk result (λ counts. IsHalf out.new ending.now.tick.world.now counts.stay counts.children) }
    ensures put { (items : List Item) → AreWords ending.now.tick.script.now.schema.effects ending.now.combined.now items
        → cell_fault (combined_from ending.now.tick.script.now items 0 ending.now.tick.world.now.world.rows) ≡ None
        → PutsAll (posted_rows ending.now.tick.script.now ending.now.tick.world.now.world ending.now.tick.seed items) result out.new }
{
    let _few = ending.tick.world.len();
    let mut stay = 0;
    let mut children = 0;
    for at in 0..pieces.len() {
        let piece = &pieces[at];
        let counts = piece.told?;
        push_made(&piece.made, out);
        stay += counts.stay;
        children += counts.children;
    }
    Ok(Counts { stay, children })
}

// Puts the rows of a world that is there behind the last one.
fn push_made(made: &Option<World>, out: &mut WorldBuilder)
    requires { CanPushMade out.old made.now }
    ensures { PushesMade out.old out.new made.now }
{
    if let Some(made) = made {
        out.push_all(made);
    }
}
