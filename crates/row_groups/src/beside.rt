//! The two parts of sorted groups that need nothing of each other.
ghost use Rattle.std.specs.Prelude.{◌≡◌, ◌≤◌, length, IfOk, IsPermutation};
ghost use Rattle.row_groups.specs.Across.{values_across};
ghost use Rattle.row_groups.specs.Ordered.{AreOrdered};

use crate::across::table_of;
use crate::groups::Groups;
use crate::means::Means;
use crate::ranked::{Ordered, ordered_rows};
use env_table::World;
use rank_table::RankTable;
use sgl_typed::Attr;
use sgl_values::{Memory, ROWS_MAX};
use std::thread::{self, Threads};

// Fewer rows are not worth a second thread.
const ROWS_FOR_TWO: u32 = 4_096;

/// The rows of groups in order, and a table of the values across, side by side where there are threads and rows enough.
pub(crate) fn rows_and_table<R: Threads + Sync>(
    means: &Means<R>,
    world: &World,
    groups: &Groups,
    axis: Option<Attr>,
    across: Option<Attr>,
) -> (Result<Ordered, Memory>, Result<RankTable, Memory>)
    requires { groups.now.rows ≡ length world.now.world.rows }
    ensures rows { IfOk result.0 (AreOrdered groups.now axis across world.now.world) }
    ensures few { IfOk result.1 (λ table. length table ≤ ROWS_MAX) }
    ensures table { IfOk result.1 (λ table. IsPermutation (values_across across world.now.world) table) }
{
    let Means { rt, threads, alloc } = *means;
    if threads < 2 || world.len() < ROWS_FOR_TWO {
        let rows = ordered_rows(alloc, world, groups, axis, across);
        let table = table_of(alloc, world, across);
        return (rows, table);
    }
    thread::join(
        rt,
        || -> Result<Ordered, Memory>
            requires { groups.now.rows ≡ length world.now.world.rows }
            ensures { IfOk result (AreOrdered groups.entry.now axis across world.entry.now.world) }
        { ordered_rows(alloc, world, groups, axis, across) },
        || -> Result<RankTable, Memory>
            ensures few { IfOk result (λ table. length table ≤ ROWS_MAX) }
            ensures table { IfOk result (λ table. IsPermutation (values_across across world.entry.now.world) table) }
        { table_of(alloc, world, across) },
    )
}
