//! The rows of groups by rising value, and those in a strip of two values.
ghost use Rattle.std.specs.Prelude.{◌≡◌, List, length, IfOk};
ghost use Rattle.row_groups.specs.declared.ranked.Ranked.{Ranked as ARanked};
ghost use Rattle.row_groups.specs.Ranked.{rows_between};
ghost use Rattle.row_groups.specs.Sorted.{IsSorting};
ghost use Rattle.row_groups.specs.Stored.{AreSorted};

use crate::across::ranks_of;
use crate::beside::rows_and_table;
use crate::ends::Ends;
use crate::groups::Groups;
use crate::means::Means;
use crate::ranked::{Ordered, Ranked, rows_of};
use crate::strip::Strip;
use env_table::World;
use rank_table::RankTable;
use sgl_typed::Attr;
use sgl_values::Memory;
use std::alloc::Global;
use std::marker::Model;
use std::thread::Threads;

/// The rows of groups, those of each group by rising value of an attribute, and the rank of each by a second attribute.
/// Contracts see, for each group and the bounds of both values, the rows between them.
#[derive(Debug, Drop)]
pub struct SortedGroups {
    ranked: Vec<Ranked>,
    rows: Vec<u32>,
    ranks: Vec<u16>,
    table: RankTable,
    ends: Ends,
}

impl Model for SortedGroups {
    ghost Value = { List ARanked };

    ghost view = { λ it. it.ranked.items };

    ghost invariant = { AreSorted };
}

impl SortedGroups {
    /// The rows of the groups of a world by an attribute, with their ranks by another; where none is named, each value is 0.
    /// It takes n log n time for n rows, by two threads where there are so many and the rows are not few. `Memory` is its
    /// only refusal.
    pub fn build(
        rt: &(impl Threads + Sync),
        threads: usize,
        alloc: Global,
        world: &World,
        groups: &Groups,
        axis: Option<Attr>,
        across: Option<Attr>,
    ) -> Result<SortedGroups, Memory>
        requires { groups.now.rows ≡ length world.now.world.rows }
        ensures { IfOk result (λ sorted. IsSorting sorted groups.now axis across world.now.world) }
    {
        let means = Means { rt, threads, alloc };
        let (ordered, table) = rows_and_table(&means, world, groups, axis, across);
        let Ordered { ranked, ends } = ordered?;
        let table = table?;
        let rows = rows_of(alloc, ranked.as_slice())?;
        let ranks = ranks_of(alloc, &table, ranked.as_slice())?;
        Ok(SortedGroups {
            ranked,
            rows,
            ranks,
            table,
            ends,
        })
    }

    /// The rows of a group with a value from `x1` to `x2`, and a second one from `y1` to `y2`, all included; none, where
    /// `x1` is above `x2` or `y1` above `y2`. Where the first begin and end is told by a table; a rank is asked of each of
    /// them. It takes no memory.
    pub fn strip(&self, group: u32, x1: i64, x2: i64, y1: i64, y2: i64) -> Strip<'_>
        ensures { result ≡ rows_between self.now group x1 x2 y1 y2 }
    {
        let from = self.ends.before(group, x1) as usize;
        let to = (self.ends.through(group, x2) as usize).max(from);
        let low = self.table.below(y1);
        let end = self.table.through(y2);
        Strip::of(&self.rows[from..to], &self.ranks[from..to], low, end)
    }
}
