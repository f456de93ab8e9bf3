//! The coordinates of points, and the run of places whose numbers lie between two bounds.
ghost use Rattle.std.specs.Prelude.{◌≡◌, map, IfOk};
ghost use Rattle.sgl_values.specs.Range.{is_between};
ghost use Rattle.rank_table.specs.Ranks.{IsRising};
ghost use Rattle.extreme_sweep.specs.Slots.{coordinate, IsRange};

use crate::window::SweepPoint;
use rank_table::RankTable;
use sgl_values::Memory;
use std::alloc::Global;

/// An axis of the plane.
#[derive(Clone, Copy, Debug)]
pub(crate) enum Axis {
    X,
    Y,
}

impl Axis {
    // The coordinate of a point along the axis.
    fn of(self, point: &SweepPoint) -> i64
        ensures { result ≡ coordinate self point.now }
    {
        match self {
            Axis::X => point.x,
            Axis::Y => point.y,
        }
    }
}

/// The coordinates of points along an axis, in their order.
pub(crate) fn coordinates_along(
    alloc: Global,
    points: &[SweepPoint],
    axis: Axis,
) -> Result<Vec<i64>, Memory>
    ensures { IfOk result (λ v. v.items ≡ map (coordinate axis) points.now) }
{
    let coordinates = points.iter().map(|point| axis.of(point)).collect(alloc)?;
    Ok(coordinates)
}

/// Where the numbers from `low` to `high`, both included, stand among those of a table: the first place, and the one
/// behind the last.
pub(crate) fn places_between(numbers: &RankTable, low: i64, high: i64) -> (u32, u32)
    requires { IsRising numbers.now }
    ensures { IsRange (is_between low high) numbers.now result.0 result.1 }
{
    let first = numbers.below(low);
    let end = numbers.through(high);
    (first, end)
}
