//! The y of points in order, with the places where these stand, and the ranks that this tells.

ghost use Rattle.std.specs.Prelude.{◌≡◌, ◌<◌, ◌≤◌, All, length, map, IfOk};
ghost use Rattle.std.specs.List.{range_with_len};
ghost use Rattle.std.specs.List.Sorted.{IsPermutation};
ghost use Rattle.range_aggregate.specs.Heights.{AreHeights};
ghost use Rattle.range_aggregate.specs.Rows.{AreInverse};

use crate::placing::ys_of;
use crate::point::Point;
use rank_table::{elements_at, order_of};
use sgl_values::{Memory, ROWS_MAX};
use std::alloc::{AllocError, Global};

/// Numbers y in order, and for each the place of its point among the points.
#[derive(Debug, Drop)]
pub(crate) struct Heights {
    pub(crate) ys: Vec<i64>,
    pub(crate) places: Vec<u16>,
}

/// The heights of points.
pub(crate) fn sorted_heights(alloc: Global, points: &[Point]) -> Result<Heights, Memory>
    requires { length points.now ≤ ROWS_MAX }
    ensures { IfOk result (AreHeights (map (λ point. point.y) points.now)) }
{
    let all = ys_of(alloc, points)?;
    let order = order_of(alloc, all.as_slice())?;
    let ys = elements_at(alloc, all.as_slice(), order.as_slice())?;
    let places = narrowed(alloc, order.as_slice())?;
    Ok(Heights { ys, places })
}

// The same places in half of the memory.
fn narrowed(alloc: Global, places: &[u32]) -> Result<Vec<u16>, AllocError>
    requires { All (λ place. place < ROWS_MAX) places.now }
    ensures { IfOk result (λ narrow. narrow.items ≡ places.now) }
{
    let mut narrow = Vec::with_capacity(alloc, places.len())?;
    for place in places {
        narrow.push(*place as u16)?;
    }
    Ok(narrow)
}

/// The rank of each place, where the places of all ranks are given.
pub(crate) fn ranks_of(alloc: Global, places: &[u16]) -> Result<Vec<u16>, Memory>
    requires few { length places.now ≤ ROWS_MAX }
    requires all { IsPermutation (range_with_len 0 (length places.now)) places.now }
    ensures { IfOk result (λ ranks. AreInverse ranks.items places.now) }
{
    let mut ranks = vec![in alloc; 0; places.len()]?;
    for number in 0..places.len() {
        ranks[usize::from(places[number])] = number as u16;
    }
    Ok(ranks)
}
