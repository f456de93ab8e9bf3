//! Points that are laid out before any window is known, and the least pair of each of many windows.
ghost use Rattle.std.specs.Prelude.{◌≡◌, ◌≤◌, length, map, IsPermutation, IfOk};
ghost use Rattle.extreme_sweep.specs.Answers.{AreRanks, IsRankIn};
ghost use Rattle.extreme_sweep.specs.Windows.{least_inside};

use crate::layout::Layout;
use crate::pair::Pair;
use crate::sweep_windows::{answer, ranks_of, sweep_layout};
use crate::window::{SweepPoint, Window};
use sgl_values::{List, Memory, ROWS_MAX};
use std::alloc::Global;
use std::marker::Model;
use std::thread::Threads;

/// Points that are laid out for sweeps. Contracts see them as a list, by rising pair.
#[derive(Debug, Drop)]
pub struct LaidPoints {
    layout: Layout,
}

impl Model for LaidPoints {
    ghost use Rattle.std.specs.Prelude.{List};
    ghost use Rattle.extreme_sweep.specs.declared.window.SweepPoint.{SweepPoint};
    ghost use Rattle.extreme_sweep.specs.Sweeping.{IsLayout};

    ghost Value = { List SweepPoint };

    ghost view = { λ it. it.layout.ranked.items };

    ghost invariant = { λ it. IsLayout it.layout };
}

impl LaidPoints {
    /// At most 65,536 points, laid out in n log n time for n points, by two threads where there are so many. `Memory` is
    /// its only refusal.
    pub fn build<R: Threads + Sync>(
        rt: &R,
        threads: usize,
        alloc: Global,
        points: &[SweepPoint],
    ) -> Result<LaidPoints, Memory>
        requires { length points.now ≤ ROWS_MAX }
        ensures { IfOk result (λ laid. IsPermutation points.now laid) }
    {
        let layout = Layout::new(rt, threads, alloc, points)?;
        Ok(LaidPoints { layout })
    }

    /// For each of at most 65,536 windows, in order, the least pair of the points in it whose group is not the given one;
    /// `None` exactly where there is none. `Memory` is its only refusal.
    ///
    /// Windows of one width are swept together: a tree holds the points that have their x in the window, by y, while the
    /// windows move to the right (plane sweep, Shamos and Hoey 1976). For n points and windows that takes n log n steps a
    /// width. The windows of the 16 least widths are swept, in up to four pieces side by side, each by a thread and with a
    /// tree of its own. Each other window looks at all points. At most so many threads share the work; one where it is 0.
    pub fn sweep(
        &self,
        rt: &(impl Threads + Sync),
        threads: usize,
        alloc: Global,
        windows: &[Window],
    ) -> Result<List<Option<Pair>>, Memory>
        requires { length windows.now ≤ ROWS_MAX }
        ensures { IfOk result (λ answers. answers ≡ map (least_inside self.now) windows.now) }
    {
        sweep_layout(rt, threads, alloc, &self.layout, windows)
    }

    /// The same up to where `answer` tells the pair for each window: so that a caller who goes over the windows anyway, by
    /// threads of its own, needs no list of the answers. `Memory` is its only refusal.
    pub fn ranks(
        &self,
        rt: &(impl Threads + Sync),
        threads: usize,
        alloc: Global,
        windows: &[Window],
    ) -> Result<Vec<u32>, Memory>
        requires { length windows.now ≤ ROWS_MAX }
        ensures { IfOk result (λ ranks. AreRanks self.now windows.now ranks.items) }
    {
        ranks_of(rt, threads, alloc, &self.layout, windows)
    }

    /// The least pair of the points in a window whose group is not the given one, by the rank that was found for it.
    pub fn answer(&self, window: &Window, rank: u32) -> Option<Pair>
        requires { IsRankIn self.now window.now rank }
        ensures { result ≡ least_inside self.now window.now }
    {
        answer(&self.layout, window, rank)
    }
}

/// For each window, in order, the least pair of the points in it whose group is not the given one; `None` exactly where
/// there is none. At most 65,536 points and 65,536 windows. `Memory` is its only refusal.
///
/// The points are laid out, and then swept for the windows.
pub fn sweep(
    rt: &(impl Threads + Sync),
    threads: usize,
    alloc: Global,
    points: &[SweepPoint],
    windows: &[Window],
) -> Result<List<Option<Pair>>, Memory>
    requires points { length points.now ≤ ROWS_MAX }
    requires windows { length windows.now ≤ ROWS_MAX }
    ensures { IfOk result (λ answers. answers ≡ map (least_inside points.now) windows.now) }
{
    let laid = LaidPoints::build(rt, threads, alloc, points)?;
    laid.sweep(rt, threads, alloc, windows)
}
