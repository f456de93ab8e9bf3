//! The first row by an order among those that pass tests.
ghost use Rattle.std.specs.Prelude.{◌≡◌, ◌<◌, filter, length, IfSome};
ghost use Rattle.std.specs.Option.{option_map, ForSome};
ghost use Rattle.std.specs.Ordering.{is_gt};
ghost use Rattle.sgl_values.specs.Least.{least_of, lesser_of};
ghost use Rattle.sgl_values.specs.World.{row_at};
ghost use Rattle.sgl_evaluate.specs.Frame.{context_of, IsFrame};
ghost use Rattle.sgl_evaluate.specs.Rank.{ranked};
ghost use Rattle.sgl_evaluate.specs.Rights.{AreRights, passes_each};

use crate::attribute::{attribute_of, distance_of};
use crate::frame::Frame;
use crate::rights::Rights;
use crate::row_test::passes;
use sgl_typed::{Attr, TTest};
use std::cmp::Ordering;

/// How rows go, before those that are equal go by key.
#[derive(Clone, Copy)]
pub(crate) enum Rank {
    /// By an attribute from the least up.
    Rising(Attr),
    /// By an attribute from the greatest down.
    Falling(Attr),
    /// By the distance from the acting unit from the least up, where two attributes give the points.
    Near(Attr, Attr),
}

/// The first row among those that pass, where they go by rank.
pub(crate) fn first_ranked(
    frame: &Frame,
    tests: &[TTest],
    rights: &Rights,
    rank: Rank,
) -> Option<u32>
    requires frame { IsFrame frame.now }
    requires rights { AreRights (context_of frame.now) tests.now rights.now }
    ensures row { option_map (row_at frame.now.tick.world.now.world) result ≡ least_of (ranked rank (context_of frame.now).unit) (filter (passes_each (context_of frame.now) tests.now) frame.now.tick.world.now.world.rows) }
    ensures within { IfSome result (λ row. row < length frame.now.tick.world.now.world.rows) }
{
    let mut best = None;
    for row in (0..frame.tick.world.len()).rev() {
        if passes(frame, tests, rights, row) {
            best = Some(lesser(frame, rank, row, best));
        }
    }
    best
}

// The lesser of a row and of one that may be there; of equals the first.
fn lesser(frame: &Frame, rank: Rank, row: u32, best: Option<u32>) -> u32
    requires frame { IsFrame frame.now }
    requires row { row < length frame.now.tick.world.now.world.rows }
    requires best { ForSome best (λ other. other < length frame.now.tick.world.now.world.rows) }
    ensures row { Rattle.std.specs.Prelude.Some (row_at frame.now.tick.world.now.world result) ≡ lesser_of (ranked rank (context_of frame.now).unit) (Rattle.std.specs.Prelude.Some (row_at frame.now.tick.world.now.world row)) (option_map (row_at frame.now.tick.world.now.world) best) }
    ensures within { result < length frame.now.tick.world.now.world.rows }
{
    match best {
        None => row,
        Some(other) => {
            if is_behind(frame, rank, row, other) {
                other
            } else {
                row
            }
        }
    }
}

// Whether a row goes behind another one.
fn is_behind(frame: &Frame, rank: Rank, row: u32, other: u32) -> bool
    requires frame { IsFrame frame.now }
    requires row { row < length frame.now.tick.world.now.world.rows }
    requires other { other < length frame.now.tick.world.now.world.rows }
    ensures { result ≡ is_gt (ranked rank (context_of frame.now).unit (row_at frame.now.tick.world.now.world row) (row_at frame.now.tick.world.now.world other)) }
{
    let world = frame.tick.world;
    let by_value = match rank {
        Rank::Rising(attr) => {
            let theirs = attribute_of(world, other, attr);
            attribute_of(world, row, attr).cmp(&theirs)
        }
        Rank::Falling(attr) => {
            let ours = attribute_of(world, row, attr);
            attribute_of(world, other, attr).cmp(&ours)
        }
        Rank::Near(x, y) => {
            let theirs = distance_of(world, x, y, frame.unit, other);
            distance_of(world, x, y, frame.unit, row).cmp(&theirs)
        }
    };
    by_value.then(world.key(row).cmp(&world.key(other))) == Ordering::Greater
}
