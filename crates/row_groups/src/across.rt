//! Ranks by a second value.
ghost use Rattle.std.specs.Prelude.{◌≡◌, ◌≤◌, length, map, IfOk, IsPermutation};
ghost use Rattle.rank_table.specs.Ranks.{IsRising};
ghost use Rattle.row_groups.specs.Across.{rank_in, values_across};

use crate::key::along;
use crate::ranked::Ranked;
use env_table::World;
use rank_table::{RankTable, elements_at, order_of};
use sgl_typed::Attr;
use sgl_values::{Memory, ROWS_MAX};
use std::alloc::Global;

/// The values of an attribute of all rows, in order.
pub(crate) fn table_of(
    alloc: Global,
    world: &World,
    across: Option<Attr>,
) -> Result<RankTable, Memory>
    ensures few { IfOk result (λ table. length table ≤ ROWS_MAX) }
    ensures table { IfOk result (λ table. IsPermutation (values_across across world.now.world) table) }
{
    let values = values_of(alloc, world, across)?;
    RankTable::build(alloc, in_order(alloc, values.as_slice())?)
}

// The same numbers, each no less than the one before it.
fn in_order(alloc: Global, values: &[i64]) -> Result<Vec<i64>, Memory>
    requires { length values.now ≤ ROWS_MAX }
    ensures permutation { IfOk result (λ ordered. IsPermutation values.now ordered.items) }
    ensures rising { IfOk result (λ ordered. IsRising ordered.items) }
{
    let order = order_of(alloc, values)?;
    elements_at(alloc, values, order.as_slice())
}

fn values_of(alloc: Global, world: &World, across: Option<Attr>) -> Result<Vec<i64>, Memory>
    ensures few { IfOk result (λ values. length values.items ≤ ROWS_MAX) }
    ensures values { IfOk result (λ values. values.items ≡ values_across across world.now.world) }
{
    let mut values = Vec::with_capacity(alloc, world.len() as usize)?;
    for row in 0..world.len() {
        values.push(along(world, row, across).get())?;
    }
    Ok(values)
}

/// The rank of each row, in their order.
pub(crate) fn ranks_of(alloc: Global, table: &RankTable, all: &[Ranked]) -> Result<Vec<u16>, Memory>
    ensures { IfOk result (λ ranks. ranks.items ≡ map (rank_in table.now) all.now) }
{
    let mut ranks = Vec::with_capacity(alloc, all.len())?;
    for ranked in all {
        ranks.push(rank_of(table, ranked))?;
    }
    Ok(ranks)
}

// A value of the table has fewer than 65,536 others below it.
fn rank_of(table: &RankTable, ranked: &Ranked) -> u16
    ensures { result ≡ rank_in table.now ranked.now }
{
    table.below(ranked.across.get()).min(65_535) as u16
}
