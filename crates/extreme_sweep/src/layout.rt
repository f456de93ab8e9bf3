//! The points of a sweep in the orders in which it meets them.
ghost use Rattle.std.specs.Prelude.{◌≡◌, ◌≤◌, length, IsPermutation, IfOk};
ghost use Rattle.sgl_values.specs.Range.{is_between};
ghost use Rattle.extreme_sweep.specs.Ranking.{pair_of};
ghost use Rattle.extreme_sweep.specs.Slots.{IsRange};
ghost use Rattle.extreme_sweep.specs.Sweeping.{laid_points, IsLayout, IsSpan};

use crate::along::{Columns, Heights, heights_and_columns};
use crate::axis::places_between;
use crate::pair::Pair;
use crate::placing::{Entrant, entrants_of};
use crate::ranking::points_by_pair;
use crate::window::{SweepPoint, Window};
use rank_table::{RankTable, elements_at};
use sgl_values::{Memory, ROWS_MAX};
use std::alloc::Global;
use std::thread::Threads;

/// The points by rising pair, where the number of a point is its rank; then a table of their y, and, place by place, the
/// ranks of points by rising y, and their groups; and a table of their x, and the points as they enter, by rising x.
#[derive(Debug, Drop)]
pub(crate) struct Layout {
    pub(crate) ranked: Vec<SweepPoint>,
    pub(crate) ys: RankTable,
    pub(crate) ranks: Vec<u32>,
    pub(crate) groups: Vec<i64>,
    pub(crate) xs: RankTable,
    pub(crate) entrants: Vec<Entrant>,
}

/// Where a window lies, and the group that it leaves out: the slots of the points that have their x in it go from `from` to
/// before `to`, and the places of those that have their y in it from `low` to before `high`.
#[derive(Clone, Copy, Debug)]
pub(crate) struct Span {
    pub(crate) other_than: Option<i64>,
    pub(crate) from: u32,
    pub(crate) to: u32,
    pub(crate) low: u32,
    pub(crate) high: u32,
}

impl Layout {
    /// The layout of points, by two threads where there are so many. `Memory` is its only refusal.
    pub(crate) fn new<R: Threads + Sync>(
        rt: &R,
        threads: usize,
        alloc: Global,
        points: &[SweepPoint],
    ) -> Result<Layout, Memory>
        requires few { length points.now ≤ ROWS_MAX }
        ensures layout { IfOk result IsLayout }
        ensures points { IfOk result (λ layout. IsPermutation points.now layout.ranked.items) }
    {
        let ranked = points_by_pair(alloc, points)?;
        let (heights, columns) = heights_and_columns(rt, threads, alloc, ranked.as_slice());
        let Heights { ranks, places, ys } = heights?;
        let Columns {
            ranks: across,
            xs,
            groups,
        } = columns?;
        let entrants = entrants_of(
            alloc,
            across.as_slice(),
            places.as_slice(),
            groups.as_slice(),
        )?;
        let groups = elements_at(alloc, groups.as_slice(), ranks.as_slice())?;
        Ok(Layout {
            ranked,
            ys,
            ranks,
            groups,
            xs,
            entrants,
        })
    }

    /// Where a window lies.
    pub(crate) fn span(&self, window: &Window) -> Span
        requires { IsLayout self.now }
        ensures { IsSpan self.now window.now result }
    {
        let (from, to) = self.slots_in(window);
        let (low, high) = self.places_in(window);
        Span {
            from,
            to,
            low,
            high,
            other_than: window.other_than,
        }
    }

    // The range of slots whose points have their x in a window.
    fn slots_in(&self, window: &Window) -> (u32, u32)
        requires { IsLayout self.now }
        ensures { IsRange (is_between window.now.x1 window.now.x2) self.now.xs result.0 result.1 }
    {
        places_between(&self.xs, window.x1, window.x2)
    }

    // The range of places whose points have their y in a window.
    fn places_in(&self, window: &Window) -> (u32, u32)
        requires { IsLayout self.now }
        ensures { IsRange (λ point. is_between window.now.y1 window.now.y2 point.y) (laid_points self.now) result.0 result.1 }
    {
        places_between(&self.ys, window.y1, window.y2)
    }

    /// The pair with this rank, where there is one.
    pub(crate) fn pair(&self, rank: u32) -> Option<Pair>
        ensures { result ≡ pair_of self.now.ranked.items rank }
    {
        match self.ranked.get(rank as usize) {
            None => None,
            Some(point) => Some(point.entry.pair),
        }
    }
}
