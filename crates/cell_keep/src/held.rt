//! The points that are held, each in a row of its own.
ghost use Rattle.std.specs.Prelude.{◌≡◌, ◌≤◌, [], vec_capacity, IfOk, IsPermutation};
ghost use Rattle.std.specs.List.{range_with_len};
ghost use Rattle.cell_keep.specs.Kept.{point_at, ArePlaced};

use crate::grid::LISTS;
use crate::placing::no_links;
use crate::point::KeepPoint;
use cell_links::CellLinks;
use sgl_values::{Memory, ROWS_MAX};
use std::alloc::Global;

/// Points by row, the rows of those that are held by rising key, their keys beside them, and these rows in the lists of
/// their cells. A row that is not in the order has a point that is not held.
#[derive(Debug, Drop)]
pub(crate) struct Held {
    pub(crate) points: Vec<KeepPoint>,
    pub(crate) order: Vec<u32>,
    pub(crate) keys: Vec<u32>,
    pub(crate) links: CellLinks,
}

impl Held {
    /// No points, and room for the most.
    pub(crate) fn none(alloc: Global) -> Result<Held, Memory>
        ensures placed { IfOk result ArePlaced }
        ensures none { IfOk result (λ held. held.order.items ≡ []) }
        ensures room { IfOk result (λ held. ROWS_MAX ≤ vec_capacity held.order) }
        ensures room_keys { IfOk result (λ held. ROWS_MAX ≤ vec_capacity held.keys) }
    {
        let points = vec![in alloc; KeepPoint::none(); ROWS_MAX as usize]?;
        let order = Vec::with_capacity(alloc, ROWS_MAX as usize)?;
        let keys = Vec::with_capacity(alloc, ROWS_MAX as usize)?;
        let links = no_links(alloc, ROWS_MAX, LISTS)?;
        Ok(Held {
            points,
            order,
            keys,
            links,
        })
    }
}

/// So many rows, the last first: rows are taken from the end, so that rows rise with keys in the first advance.
pub(crate) fn all_rows(alloc: Global, rows: u32) -> Result<Vec<u32>, Memory>
    ensures { IfOk result (λ all. IsPermutation (range_with_len 0 rows) all.items) }
{
    let mut all = rising_rows(alloc, rows)?;
    all.as_mut_slice().reverse();
    Ok(all)
}

fn rising_rows(alloc: Global, rows: u32) -> Result<Vec<u32>, Memory>
    ensures { IfOk result (λ all. all.items ≡ range_with_len 0 rows) }
{
    Ok((0..rows).collect(alloc)?)
}

/// The key of the point of a row, and 0 where there is no such row.
pub(crate) fn key_at(points: &[KeepPoint], row: u32) -> u32
    ensures { result ≡ (point_at points.now row).key }
{
    match points.get(row as usize) {
        Some(point) => point.key,
        None => 0,
    }
}
