//! The points of a sweep along each axis, by their ranks.
ghost use Rattle.std.specs.Prelude.{◌≤◌, length, IfOk};
ghost use Rattle.extreme_sweep.specs.Laying.{AreAlong, AreColumns, AreHeights};

use crate::axis::{Axis, coordinates_along};
use crate::placing::places_by_rank;
use crate::ranking::groups_of;
use crate::window::SweepPoint;
use rank_table::{RankTable, elements_at, order_of};
use sgl_values::{Memory, ROWS_MAX};
use std::alloc::Global;
use std::thread::{self, Threads};

/// The ranks of points by rising y, the place of each rank among them, and a table of these y.
#[derive(Debug, Drop)]
pub(crate) struct Heights {
    pub(crate) ranks: Vec<u32>,
    pub(crate) places: Vec<u32>,
    pub(crate) ys: RankTable,
}

/// The ranks of points by rising x, and a table of these x; and the groups of the points.
#[derive(Debug, Drop)]
pub(crate) struct Columns {
    pub(crate) ranks: Vec<u32>,
    pub(crate) xs: RankTable,
    pub(crate) groups: Vec<i64>,
}

// The ranks of points by rising coordinate, and a table of these coordinates.
#[derive(Debug, Drop)]
struct Along {
    ranks: Vec<u32>,
    numbers: RankTable,
}

/// The heights and the columns of points by rising pair, side by side where there is more than one thread.
pub(crate) fn heights_and_columns<R: Threads + Sync>(
    rt: &R,
    threads: usize,
    alloc: Global,
    ranked: &[SweepPoint],
) -> (Result<Heights, Memory>, Result<Columns, Memory>)
    requires { length ranked.now ≤ ROWS_MAX }
    ensures heights { IfOk result.0 (AreHeights ranked.now) }
    ensures columns { IfOk result.1 (AreColumns ranked.now) }
{
    if threads < 2 {
        let heights = heights_of(alloc, ranked);
        let columns = columns_of(alloc, ranked);
        return (heights, columns);
    }
    thread::join(
        rt,
        || -> Result<Heights, Memory>
            requires { length ranked.now ≤ ROWS_MAX }
            ensures { IfOk result (AreHeights ranked.entry.now) }
        { heights_of(alloc, ranked) },
        || -> Result<Columns, Memory>
            requires { length ranked.now ≤ ROWS_MAX }
            ensures { IfOk result (AreColumns ranked.entry.now) }
        { columns_of(alloc, ranked) },
    )
}

fn heights_of(alloc: Global, ranked: &[SweepPoint]) -> Result<Heights, Memory>
    requires { length ranked.now ≤ ROWS_MAX }
    ensures { IfOk result (AreHeights ranked.now) }
{
    let Along { ranks, numbers } = ranks_along(alloc, ranked, Axis::Y)?;
    let places = places_by_rank(alloc, ranks.as_slice())?;
    Ok(Heights {
        ranks,
        places,
        ys: numbers,
    })
}

fn columns_of(alloc: Global, ranked: &[SweepPoint]) -> Result<Columns, Memory>
    requires { length ranked.now ≤ ROWS_MAX }
    ensures { IfOk result (AreColumns ranked.now) }
{
    let groups = groups_of(alloc, ranked)?;
    let Along { ranks, numbers } = ranks_along(alloc, ranked, Axis::X)?;
    Ok(Columns {
        ranks,
        xs: numbers,
        groups,
    })
}

// The ranks of points by rising coordinate along an axis, and a table of these coordinates.
fn ranks_along(alloc: Global, ranked: &[SweepPoint], axis: Axis) -> Result<Along, Memory>
    requires { length ranked.now ≤ ROWS_MAX }
    ensures { IfOk result (λ along. AreAlong axis ranked.now along.ranks.items along.numbers) }
{
    let coordinates = coordinates_along(alloc, ranked, axis)?;
    let ranks = order_of(alloc, coordinates.as_slice())?;
    let rising = elements_at(alloc, coordinates.as_slice(), ranks.as_slice())?;
    let numbers = RankTable::build(alloc, rising)?;
    Ok(Along { ranks, numbers })
}
