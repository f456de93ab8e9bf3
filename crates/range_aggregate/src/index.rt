//! The index of points.

ghost use Rattle.std.specs.Prelude.{◌≡◌, ◌≤◌, ◌≤ℤ◌, length, map, filter, slice_range, IfOk};
ghost use Rattle.std.specs.List.Sorted.{IsPermutation};
ghost use Rattle.sgl_values.specs.Range.{is_between};
ghost use Rattle.rank_table.specs.Ranks.{IsRising};
ghost use Rattle.range_aggregate.specs.Heights.{AreHeights};
ghost use Rattle.range_aggregate.specs.Boxes.{count_of, sum_of, weight_of};
ghost use Rattle.range_aggregate.specs.Levels.{AreLevels, strip};

use crate::build::{WeightTree, weight_tree};
use crate::heights::{Heights, sorted_heights};
use crate::placing::{sorted_by_x, xs_of};
use crate::point::Point;
use crate::rank_index::RankIndex;
use crate::span::whole_blocks;
use rank_table::{RankTable, Span};
use sgl_values::{Memory, ROWS_MAX};
use std::alloc::Global;
use std::marker::Model;
use std::thread::Threads;

/// An index that tells how many points lie in a box, and the sum of their weights. The points stand by rising x. Counts
/// are those of a grid over the ranks of their y. Where some point has weight, a range tree (Bentley, 1979) has in each
/// block the points by rising y and running sums of their weights. Contracts see the points as a list, in no order that
/// is told.
#[derive(Debug, Drop)]
pub struct RangeIndex {
    points: Vec<Point>,
    xs: RankTable,
    ys: RankTable,
    ranks: RankIndex,
    weights: Option<WeightTree>,
}

impl Model for RangeIndex {
    ghost use Rattle.std.specs.Prelude.{List};
    ghost use Rattle.range_aggregate.specs.declared.point.Point.{Point};
    ghost use Rattle.range_aggregate.specs.Indexed.{IsIndexed};

    ghost Value = { List Point };

    ghost view = { λ it. it.points.items };

    ghost invariant = { λ it. IsIndexed it.points.items it.xs it.ys it.ranks it.weights };
}

impl RangeIndex {
    /// The index of at most 65,536 points, any number of which may be equal. It takes n log n time for n points. The
    /// thread that calls does all of the work, whatever `threads` is. `Memory` is its only refusal.
    pub fn build(
        rt: &(impl Threads + Sync),
        threads: usize,
        alloc: Global,
        points: &[Point],
    ) -> Result<RangeIndex, Memory>
        requires { length points.now ≤ ROWS_MAX }
        ensures { IfOk result (λ index. IsPermutation points.now index) }
    {
        let _ = rt;
        let _ = threads;
        let points = sorted_by_x(alloc, points)?;
        let heights = sorted_heights(alloc, points.as_slice())?;
        RangeIndex::of(alloc, points, heights)
    }

    // The index of points by rising x, of which the heights are given.
    fn of(alloc: Global, points: Vec<Point>, heights: Heights) -> Result<RangeIndex, Memory>
        requires few { length points.items ≤ ROWS_MAX }
        requires rising { IsRising (map (λ point. point.x) points.items) }
        requires heights { AreHeights (map (λ point. point.y) points.items) heights }
        ensures { IfOk result (λ index. index ≡ points.items) }
    {
        let xs = RankTable::build(alloc, xs_of(alloc, points.as_slice())?)?;
        let Heights { ys, places } = heights;
        let ranks = RankIndex::build(alloc, places)?;
        let ys = RankTable::build(alloc, ys)?;
        let weights = weight_tree(alloc, points.as_slice())?;
        Ok(RangeIndex {
            points,
            xs,
            ys,
            ranks,
            weights,
        })
    }

    /// The number of the points with x1 <= x <= x2 and y1 <= y <= y2, for all bounds: none, where x1 > x2 or y1 > y2.
    /// It looks at 1,024 ranks at most beside the tables of x and y, and takes no memory.
    pub fn count(&self, x1: i64, x2: i64, y1: i64, y2: i64) -> u32
        ensures { result ≡ count_of x1 x2 y1 y2 self.now }
    {
        let columns = self.columns(x1, x2);
        self.count_strip(columns, y1, y2)
    }

    /// The exact sum of the weights of the points with x1 <= x <= x2 and y1 <= y <= y2, which is 0 where there are
    /// none. It takes log squared time, and no memory.
    pub fn sum(&self, x1: i64, x2: i64, y1: i64, y2: i64) -> i128
        ensures { result ≡ sum_of x1 x2 y1 y2 self.now }
    {
        match &self.weights {
            None => 0,
            Some(tree) => {
                let columns = self.columns(x1, x2);
                self.weigh_strip(tree, columns, y1, y2)
            }
        }
    }

    // Where the points with x1 <= x <= x2 stand.
    fn columns(&self, x1: i64, x2: i64) -> Span
        ensures within { result.to ≤ length self.now }
        ensures found { filter (λ point. is_between x1 x2 point.x) self.now ≡ slice_range self.now result.from result.to }
    {
        Span {
            from: self.xs.below(x1) as usize,
            to: self.xs.through(x2) as usize,
        }
    }

    // How many of the points at these places lie in the strip.
    fn count_strip(&self, columns: Span, y1: i64, y2: i64) -> u32
        requires { columns.to ≤ length self.now }
        ensures { result ≡ length (strip y1 y2 (slice_range self.now columns.from columns.to)) }
    {
        let rows = Span {
            from: self.ys.below(y1) as usize,
            to: self.ys.through(y2) as usize,
        };
        if rows.from >= rows.to {
            return 0;
        }
        self.ranks.count(columns, rows)
    }

    // The weight of the strip, of the points at these places; from their levels.
    fn weigh_strip(&self, tree: &WeightTree, columns: Span, y1: i64, y2: i64) -> i128
        requires levels { AreLevels self.now tree.now.levels.items }
        requires within { columns.to ≤ length self.now }
        ensures { result ≡ weight_of (strip y1 y2 (slice_range self.now columns.from columns.to)) }
    {
        if columns.from >= columns.to || y1 > y2 {
            return 0;
        }
        self.weigh_blocks(tree, columns, y1, y2)
    }

    // The same. From level to level, blocks go together in pairs: a level is asked only for the block before the
    // first pair and for the one behind the last.
    fn weigh_blocks(&self, tree: &WeightTree, columns: Span, y1: i64, y2: i64) -> i128
        requires levels { AreLevels self.now tree.now.levels.items }
        requires ordered { y1 ≤ℤ y2 }
        requires forward { columns.from ≤ columns.to }
        requires within { columns.to ≤ length self.now }
        ensures { result ≡ weight_of (strip y1 y2 (slice_range self.now columns.from columns.to)) }
    {
        let mut sum = 0;
        let mut rest = columns;
        for level in &tree.levels {
            if rest.from >= rest.to {
                break;
            }
            let pairs = whole_blocks(rest, 2);
            let before = level.weigh(rest.from, 2 * pairs.from, y1, y2);
            let behind = level.weigh(2 * pairs.to, rest.to, y1, y2);
            sum += before + behind;
            rest = pairs;
        }
        sum
    }
}
