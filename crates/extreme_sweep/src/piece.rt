//! The turns of a sweep, cut into pieces of neighbours that threads sweep side by side.
ghost use Rattle.std.specs.Prelude.{◌≡◌, ◌<◌, List, length, All, IfOk};
ghost use Rattle.extreme_sweep.specs.declared.window.Window.{Window as WindowOf};
ghost use Rattle.extreme_sweep.specs.Answers.{turns_of_piece, AreFound, AreFoundByPiece, AreSpans, AreSwept, AreTurns, Gives};
ghost use Rattle.extreme_sweep.specs.Sweeping.{IsLayout};

use crate::layout::{Layout, Span};
use crate::sweeper::Sweeper;
use crate::window::Window;
use rank_table::elements_at;
use sgl_values::Memory;
use std::alloc::Global;
use std::thread::Threads;
use thread_share::{make_each, share_of};

// So many pieces are swept side by side at most.
const PIECES: usize = 4;

// A piece has at least so many turns, if there are so many.
const LEAST_TURNS: usize = 2048;

/// In the place of a rank: the window was not swept.
pub(crate) const UNSWEPT: u32 = u32::MAX - 1;

/// Window by window, the rank of the least pair of the points in it, and `NONE` where there is none; `UNSWEPT` where the
/// window has no turn. The turns are swept piece by piece, of which each is one thread's. `Memory` is its only refusal.
pub(crate) fn sweep_turns(
    rt: &(impl Threads + Sync),
    threads: usize,
    alloc: Global,
    layout: &Layout,
    windows: &[Window],
    turns: &[u32],
) -> Result<Vec<u32>, Memory>
    requires layout { IsLayout layout.now }
    requires turns { AreTurns windows.now turns.now }
    ensures { IfOk result (λ ranks. AreSwept layout.now windows.now ranks.items) }
{
    let size = share_of(turns.len(), threads.min(PIECES), LEAST_TURNS);
    let pieces = sweep_pieces(rt, alloc, layout, windows, turns, size)?;
    let mut ranks = vec![in alloc; UNSWEPT; windows.len()]?;
    for piece in 0..pieces.len() {
        let found = pieces[piece].as_slice();
        give(&mut ranks, turns_in(turns, piece, size), found);
    }
    Ok(ranks)
}

// What is found for the turns of each piece of so many turns.
fn sweep_pieces(
    rt: &(impl Threads + Sync),
    alloc: Global,
    layout: &Layout,
    windows: &[Window],
    turns: &[u32],
    size: usize,
) -> Result<Vec<Vec<u32>>, Memory>
    requires size { 0 < size }
    requires layout { IsLayout layout.now }
    requires turns { AreTurns windows.now turns.now }
    ensures { IfOk result (λ pieces. AreFoundByPiece layout.now windows.now turns.now size pieces.items) }
{
    make_each(
        rt,
        alloc,
        turns.len().div_ceil(size),
        &|piece: usize| -> Result<Vec<u32>, Memory>
            requires layout { IsLayout layout.now }
            requires turns { AreTurns windows.now turns.now }
            ensures { IfOk result (λ ranks. AreFound layout.entry.now windows.entry.now (turns_of_piece turns.entry.now piece size) ranks.items) }
        {
            let turns = turns_in(turns, piece, size);
            Piece {
                layout,
                windows,
                turns,
            }
            .ranks(alloc)
        },
    )
}

// The turns of the piece with this number.
fn turns_in(turns: &[u32], piece: usize, size: usize) -> &[u32]
    ensures turns { (windows : List WindowOf) → AreTurns windows turns.now → AreTurns windows result.now }
    ensures piece { result.now ≡ turns_of_piece turns.now piece size }
{
    let first = piece.saturating_mul(size).min(turns.len());
    let end = first.saturating_add(size).min(turns.len());
    &turns[first..end]
}

// Gives the windows of turns the ranks that were found for them.
fn give(ranks: &mut Vec<u32>, turns: &[u32], found: &[u32])
    requires turns { All (λ turn. turn < length ranks.old.items) turns.now }
    requires found { length found.now ≡ length turns.now }
    ensures count { length ranks.new.items ≡ length ranks.old.items }
    ensures gives { Gives ranks.old.items turns.now found.now ranks.new.items }
{
    for number in 0..turns.len() {
        ranks[turns[number] as usize] = found[number];
    }
}

// The turns of a piece, with the points and the windows that they are swept for.
#[derive(Clone, Copy)]
struct Piece<'a> {
    layout: &'a Layout,
    windows: &'a [Window],
    turns: &'a [u32],
}

impl Piece<'_> {
    ghost use Rattle.extreme_sweep.specs.Answers.{IsPiece};

    // The ranks of the least pairs of the windows of the turns, turn by turn, with a tree of its own. Where these windows
    // lie is found before the sweep.
    fn ranks(self, alloc: Global) -> Result<Vec<u32>, Memory>
        requires { IsPiece self }
        ensures { IfOk result (λ ranks. AreFound self.entry.layout.now self.entry.windows.now self.entry.turns.now ranks.items) }
    {
        let spans = self.spans(alloc)?;
        let Piece { layout, turns, .. } = self;
        let mut ranks = Vec::with_capacity(alloc, turns.len())?;
        let mut sweeper = Sweeper::new(alloc, layout)?;
        for number in 0..turns.len() {
            ranks.push(sweeper.answer(layout, &spans[number]))?;
        }
        Ok(ranks)
    }

    // Where the windows of the turns lie, turn by turn. The windows are copied in this order.
    fn spans(self, alloc: Global) -> Result<Vec<Span>, Memory>
        requires { IsPiece self }
        ensures { IfOk result (λ spans. AreSpans self.entry.layout.now self.entry.windows.now self.entry.turns.now spans.items) }
    {
        let Piece {
            layout,
            windows,
            turns,
        } = self;
        // These reads at random come first and alone, so that they do not wait for one another.
        let windows = elements_at(alloc, windows, turns)?;
        let mut spans = Vec::with_capacity(alloc, turns.len())?;
        for number in 0..windows.len() {
            spans.push(layout.span(&windows[number]))?;
        }
        Ok(spans)
    }
}
