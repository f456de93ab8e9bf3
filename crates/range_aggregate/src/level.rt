//! A level of the tree with weights.

ghost use Rattle.std.specs.Prelude.{◌≡◌, ◌+◌, ◌*◌, ◌≤◌, ◌<◌, ◌≤ℤ◌, List, length, IfOk, map, slice_range};
ghost use Rattle.range_aggregate.specs.declared.point.Point.{Point};
ghost use Rattle.range_aggregate.specs.Blocks.{blocks};
ghost use Rattle.range_aggregate.specs.Boxes.{weight_of};
ghost use Rattle.range_aggregate.specs.Levels.{AreRunningSums, HasBlock, IsSmall, Keeps, strip};

use crate::placing::ys_of;
use crate::point::Point;
use crate::span::span_of;
use sgl_values::{Memory, ROWS_MAX};
use std::alloc::Global;

/// A level of the tree: the points in blocks of so many neighbours by x, each block by rising y. The last ones, which
/// fill no block, are in any order. It keeps the y of each point, and of each number of first points the sum of their
/// weights.
#[derive(Debug, Drop)]
pub(crate) struct Level {
    pub(crate) size: usize,
    pub(crate) ys: Vec<i64>,
    pub(crate) sums: Vec<i64>,
}

impl Level {
    /// The level that keeps these points in their order.
    pub(crate) fn of(alloc: Global, size: usize, order: &[Point]) -> Result<Level, Memory>
        requires { length order.now ≤ ROWS_MAX }
        ensures { IfOk result (Keeps size order.now) }
    {
        let ys = ys_of(alloc, order)?;
        let sums = running_sums(alloc, order)?;
        Ok(Level { size, ys, sums })
    }

    /// The weight of the strip, of the blocks from one up to the one before another: of a single block, or of none.
    pub(crate) fn weigh(&self, from: usize, to: usize, y1: i64, y2: i64) -> i128
        requires ordered { y1 ≤ℤ y2 }
        requires forward { from ≤ to }
        requires single { to ≤ from + 1 }
        requires block { from < to → HasBlock (from * self.now.size) self.now }
        ensures found { (points : List Point) → Keeps self.now.size points self.now → result ≡ weight_of (strip y1 y2 (blocks self.now.size points from to)) }
        ensures small { IsSmall result }
    {
        if from < to {
            self.weigh_block(from * self.size, y1, y2)
        } else {
            0
        }
    }

    // The weight of the strip, of the block that begins at this place.
    fn weigh_block(&self, start: usize, y1: i64, y2: i64) -> i128
        requires ordered { y1 ≤ℤ y2 }
        requires block { HasBlock start self.now }
        ensures found { (points : List Point) → Keeps self.now.size points self.now → result ≡ weight_of (strip y1 y2 (slice_range points start (start + self.now.size))) }
        ensures small { IsSmall result }
    {
        let found = span_of(&self.ys[start..start + self.size], y1, y2);
        let before = i128::from(self.sums[start + found.from]);
        i128::from(self.sums[start + found.to]) - before
    }
}

// The sum of the weights of no point, of the first, of the first two, and so on.
fn running_sums(alloc: Global, points: &[Point]) -> Result<Vec<i64>, Memory>
    requires { length points.now ≤ ROWS_MAX }
    ensures { IfOk result (λ sums. AreRunningSums points.now sums.items) }
{
    let mut sums = Vec::with_capacity(alloc, points.len() + 1)?;
    let mut sum = 0;
    sums.push(sum)?;
    for point in points {
        sum += point.weight.get();
        sums.push(sum)?;
    }
    Ok(sums)
}
