//! The least pair of each of many windows: those of the least widths are swept, the others look at
//! all points.
ghost use Rattle.std.specs.Prelude.{◌≡◌, ◌≤◌, length, map, IfOk};
ghost use Rattle.extreme_sweep.specs.Answers.{AreRanks, IsRankIn};
ghost use Rattle.extreme_sweep.specs.Sweeping.{IsLayout};
ghost use Rattle.extreme_sweep.specs.Windows.{least_inside};

use crate::layout::Layout;
use crate::pair::Pair;
use crate::piece::{UNSWEPT, sweep_turns};
use crate::turn::turns_of;
use crate::window::{Window, scan};
use sgl_values::{List, Memory, ROWS_MAX};
use std::alloc::Global;
use std::thread::Threads;

/// For each window, in order, the least pair of the points in it whose group is not the given one, of points that are laid
/// out. `Memory` is its only refusal.
pub(crate) fn sweep_layout(
    rt: &(impl Threads + Sync),
    threads: usize,
    alloc: Global,
    layout: &Layout,
    windows: &[Window],
) -> Result<List<Option<Pair>>, Memory>
    requires layout { IsLayout layout.now }
    requires windows { length windows.now ≤ ROWS_MAX }
    ensures { IfOk result (λ answers. answers ≡ map (least_inside layout.now.ranked.items) windows.now) }
{
    let ranks = ranks_of(rt, threads, alloc, layout, windows)?;
    let answers = answers_of(alloc, layout, windows, ranks.as_slice())?;
    Ok(List::from_vec(answers))
}

/// For each window, in order, the rank by which it is answered: that of its least pair, or a mark where it was not swept.
pub(crate) fn ranks_of(
    rt: &(impl Threads + Sync),
    threads: usize,
    alloc: Global,
    layout: &Layout,
    windows: &[Window],
) -> Result<Vec<u32>, Memory>
    requires layout { IsLayout layout.now }
    requires windows { length windows.now ≤ ROWS_MAX }
    ensures { IfOk result (λ ranks. AreRanks layout.now.ranked.items windows.now ranks.items) }
{
    let turns = turns_of(alloc, windows)?;
    let ranks = sweep_turns(rt, threads, alloc, layout, windows, turns.as_slice())?;
    Ok(ranks)
}

// The answers to windows, where the rank that was found for each is given.
fn answers_of(
    alloc: Global,
    layout: &Layout,
    windows: &[Window],
    ranks: &[u32],
) -> Result<Vec<Option<Pair>>, Memory>
    requires ranks { AreRanks layout.now.ranked.items windows.now ranks.now }
    ensures { IfOk result (λ answers. answers.items ≡ map (least_inside layout.now.ranked.items) windows.now) }
{
    let mut answers = Vec::with_capacity(alloc, windows.len())?;
    for number in 0..windows.len() {
        answers.push(answer(layout, &windows[number], ranks[number]))?;
    }
    Ok(answers)
}

/// The answer to a window: the pair with the rank that was found, or, where it was not swept, that of a scan.
pub(crate) fn answer(layout: &Layout, window: &Window, rank: u32) -> Option<Pair>
    requires { IsRankIn layout.now.ranked.items window.now rank }
    ensures { result ≡ least_inside layout.now.ranked.items window.now }
{
    if rank == UNSWEPT {
        scan(layout.ranked.as_slice(), window)
    } else {
        layout.pair(rank)
    }
}
