//! Points in the order of x, and their numbers.

ghost use Rattle.std.specs.Prelude.{◌≡◌, ◌≤◌, length, map, IfOk};
ghost use Rattle.std.specs.List.Sorted.{IsPermutation};
ghost use Rattle.rank_table.specs.Ranks.{IsRising};

use crate::point::Point;
use rank_table::{elements_at, order_of};
use sgl_values::{Memory, ROWS_MAX};
use std::alloc::{AllocError, Global};

/// The points by rising x.
pub(crate) fn sorted_by_x(alloc: Global, points: &[Point]) -> Result<Vec<Point>, Memory>
    requires { length points.now ≤ ROWS_MAX }
    ensures same { IfOk result (λ sorted. IsPermutation points.now sorted.items) }
    ensures rising { IfOk result (λ sorted. IsRising (map (λ point. point.x) sorted.items)) }
{
    let xs = xs_of(alloc, points)?;
    let order = order_of(alloc, xs.as_slice())?;
    elements_at(alloc, points, order.as_slice())
}

/// The numbers x of points, in their order.
pub(crate) fn xs_of(alloc: Global, points: &[Point]) -> Result<Vec<i64>, AllocError>
    ensures { IfOk result (λ xs. xs.items ≡ map (λ point. point.x) points.now) }
{
    points.iter().map(|point| point.x).collect(alloc)
}

/// The numbers y of points, in their order.
pub(crate) fn ys_of(alloc: Global, points: &[Point]) -> Result<Vec<i64>, AllocError>
    ensures { IfOk result (λ ys. ys.items ≡ map (λ point. point.y) points.now) }
{
    points.iter().map(|point| point.y).collect(alloc)
}
