//! A sweep: points enter and leave a tree of ranks while windows of one width move to the right.
ghost use Rattle.std.specs.Prelude.{◌≡◌, ◌+◌, ◌<◌, ◌≤◌, length, IsPermutation, IfOk};
ghost use Rattle.extreme_sweep.specs.declared.window.Window.{Window as WindowOf};
ghost use Rattle.extreme_sweep.specs.Ranking.{pair_of};
ghost use Rattle.extreme_sweep.specs.Windows.{least_inside};

use crate::layout::{Layout, Span};
use crate::placing::Entrant;
use crate::rank_node::NONE;
use crate::rank_tree::RankTree;
use sgl_values::Memory;
use std::alloc::Global;

/// A sweep over points that are laid out. They stand by rising y at the places of a tree, which holds those of them that
/// have the slots from `from` to before `to`, by rising x.
#[derive(Debug, Drop)]
pub(crate) struct Sweeper {
    tree: RankTree,
    from: usize,
    to: usize,
}

impl Sweeper {
    ghost use Rattle.extreme_sweep.specs.Sweeping.{laid_points, IsLayout, IsSpan, IsSweeper, IsAt};

    /// A sweeper whose tree holds no point. `Memory` is its only refusal.
    pub(crate) fn new(alloc: Global, layout: &Layout) -> Result<Sweeper, Memory>
        requires { IsLayout layout.now }
        ensures { IfOk result (IsSweeper layout.now) }
    {
        let tree = RankTree::new(alloc, layout.ranks.len() as u32)?;
        Ok(Sweeper {
            tree,
            from: 0,
            to: 0,
        })
    }

    /// The rank of the least pair of the points in the window that lies here; `NONE` where there is none. It costs little
    /// where the window lies a little behind the last one.
    pub(crate) fn answer(&mut self, layout: &Layout, span: &Span) -> u32
        requires sweeper { IsSweeper layout.now self.old }
        requires span { (window : WindowOf) × IsSpan layout.now window span.now }
        ensures value { (window : WindowOf) → IsSpan layout.now window span.now → pair_of layout.now.ranked.items result ≡ least_inside (laid_points layout.now) window }
        ensures sweeper { IsSweeper layout.now self.new }
    {
        if span.from >= span.to || span.low >= span.high {
            return NONE;
        }
        self.move_to(layout, span.from as usize, span.to as usize);
        let groups = layout.groups.as_slice();
        self.tree
            .least(groups, span.low, span.high - 1, span.other_than)
    }

    // Lets the tree hold the points with the slots from `from` to before `to`.
    fn move_to(&mut self, layout: &Layout, from: usize, to: usize)
        requires sweeper { IsSweeper layout.now self.old }
        requires order { from ≤ to }
        requires last { to ≤ length layout.now.entrants.items }
        ensures { IsAt layout.now self.new from to }
    {
        // An earlier window, or one that has no slot in common with the last.
        if from < self.from || to < self.to || self.to < from {
            self.restart(layout, from);
        }
        self.enter_before(layout, to);
        self.leave_before(layout, from);
    }

    // Lets all points leave, and goes to this slot.
    fn restart(&mut self, layout: &Layout, slot: usize)
        requires sweeper { IsSweeper layout.now self.old }
        requires inside { slot ≤ length layout.now.entrants.items }
        ensures { IsAt layout.now self.new slot slot }
    {
        self.leave_before(layout, self.to);
        self.from = slot;
        self.to = slot;
    }

    // Lets the points enter that have slots before this one.
    fn enter_before(&mut self, layout: &Layout, to: usize)
        requires sweeper { IsSweeper layout.now self.old }
        requires later { self.old.to ≤ to }
        requires last { to ≤ length layout.now.entrants.items }
        ensures { IsAt layout.now self.new self.old.from to }
    {
        while self.to < to {
            self.enter(layout);
        }
    }

    // Lets the points leave that have slots before this one.
    fn leave_before(&mut self, layout: &Layout, from: usize)
        requires sweeper { IsSweeper layout.now self.old }
        requires later { self.old.from ≤ from }
        requires held { from ≤ self.old.to }
        ensures { IsAt layout.now self.new from self.old.to }
    {
        while self.from < from {
            self.leave(layout);
        }
    }

    // Lets the next point enter.
    fn enter(&mut self, layout: &Layout)
        requires sweeper { IsSweeper layout.now self.old }
        requires more { self.old.to < length layout.now.entrants.items }
        ensures { IsAt layout.now self.new self.old.from (self.old.to + 1) }
    {
        let Entrant { place, rank, group } = layout.entrants[self.to];
        self.tree.enter(place, rank, group);
        self.to += 1;
    }

    // Lets the first point leave.
    fn leave(&mut self, layout: &Layout)
        requires sweeper { IsSweeper layout.now self.old }
        requires held { self.old.from < self.old.to }
        ensures { IsAt layout.now self.new (self.old.from + 1) self.old.to }
    {
        let place = layout.entrants[self.from].place;
        self.tree.leave(layout.groups.as_slice(), place);
        self.from += 1;
    }
}
