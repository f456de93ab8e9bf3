//! `PostPiece`: a run of the rows of a world, for one thread.
ghost use Rattle.std.specs.Prelude.{◌≡◌, ◌<◌, ◌≤◌, length, IfOk};
ghost use Rattle.tick_postprocess.specs.Pieces.{ArePieces, IsPiece};
ghost use Rattle.tick_postprocess.specs.Runs.{IsRoom, IsRun};

use crate::fault::PostFault;
use crate::next_world::Counts;
use env_table::{World, WorldBuilder};
use sgl_values::{Memory, WORKERS_MAX};
use std::alloc::Global;

/// A run of the rows of a world, for one thread, and memory for those of them that stay.
#[derive(Drop)]
pub struct PostPiece {
    pub(crate) first: u32,
    pub(crate) end: u32,
    // Before `post`, a builder without rows.
    pub(crate) room: Option<WorldBuilder>,
    // Behind it, the first cell outside the range, what is told of the rows, and those that stay.
    pub(crate) wide: Option<PostFault>,
    pub(crate) told: Result<Counts, PostFault>,
    pub(crate) made: Option<World>,
}

/// The rows of a world in so many runs of about one length, one behind the other, each with room for its rows in the memory
/// of a world of `spare`, as far as there are such worlds. `Memory` is its only refusal.
pub fn post_pieces(
    alloc: Global,
    world: &World,
    count: u32,
    spare: &mut Vec<World>,
) -> Result<Vec<PostPiece>, Memory>
    requires { (0 < count) × (count ≤ WORKERS_MAX) }
    ensures { IfOk result (λ pieces. ArePieces world.now pieces.items) }
{
    let rows = world.len();
    let size = rows.div_ceil(count);
    let mut pieces = Vec::with_capacity(alloc, count as usize)?;
    let mut first = 0;
    for _ in 1..count {
        let end = (first + size).min(rows);
        pieces.push(new_piece(alloc, world, first, end, spare)?)?;
        first = end;
    }
    pieces.push(new_piece(alloc, world, first, rows, spare)?)?;
    Ok(pieces)
}

// A piece of a world from one row to before another.
fn new_piece(
    alloc: Global,
    world: &World,
    first: u32,
    end: u32,
    spare: &mut Vec<World>,
) -> Result<PostPiece, Memory>
    requires { IsRun world.now.world first end }
    ensures piece { IfOk result (IsPiece world.now) }
    ensures run { IfOk result (λ piece. (piece.first ≡ first) × (piece.end ≡ end)) }
{
    let room = room_for(alloc, world, end - first, spare)?;
    Ok(PostPiece {
        first,
        end,
        room: Some(room),
        wide: None,
        told: Ok(Counts {
            stay: 0,
            children: 0,
        }),
        made: None,
    })
}

// A builder without rows that has room for so many rows of a world, in the memory of an earlier one
// where there is one.
fn room_for(
    alloc: Global,
    world: &World,
    rows: u32,
    spare: &mut Vec<World>,
) -> Result<WorldBuilder, Memory>
    requires { rows ≤ length world.now.world.rows }
    ensures { IfOk result (IsRoom world.now 0 rows) }
{
    let _few = world.len();
    let tick = world.tick();
    let width = world.width();
    match spare.pop() {
        Some(earlier) => WorldBuilder::in_place_of(earlier, tick, width, rows),
        None => WorldBuilder::with_room(alloc, tick, width, rows),
    }
}

/// The memory of the pieces goes to the list, and what finds no place there is given up. It takes no memory where the list has
/// room for as many worlds as there are pieces.
pub fn leave_pieces(mut pieces: Vec<PostPiece>, spare: &mut Vec<World>) {
    for at in 0..pieces.len() {
        leave_world(&mut pieces[at], spare);
    }
}

// The same of one piece.
fn leave_world(piece: &mut PostPiece, spare: &mut Vec<World>) {
    if let Some(made) = piece.made.take() {
        let _ = spare.push(made);
    }
    if let Some(room) = piece.room.take() {
        let _ = spare.push(room.finish(u32::MAX));
    }
}
