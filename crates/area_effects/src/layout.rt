//! Points as a sweep meets them.
ghost use Rattle.std.specs.Prelude.{◌≡◌, ◌≤◌, length, map, IfOk};
ghost use Rattle.area_effects.specs.Layouts.{AreSpots};
ghost use Rattle.area_effects.specs.Ranks.{IsRanked};

use crate::axis::Axis;
use crate::point::AreaPoint;
use crate::spot::Spot;
use sgl_values::{Memory, ROWS_MAX};
use std::alloc::{AllocError, Global};

/// Points as a sweep along x meets them: their numbers along both axes, and their spots by rising
/// place.
#[derive(Debug, Drop)]
pub(crate) struct Layout {
    pub(crate) points: Vec<AreaPoint>,
    pub(crate) xs: Axis,
    pub(crate) ys: Axis,
    pub(crate) spots: Vec<Spot>,
}

impl Layout {
    ghost use Rattle.area_effects.specs.Layouts.{IsLayout};

    /// The layout of at most 65,536 points. `Memory` is its only refusal.
    pub(crate) fn of(alloc: Global, points: &[AreaPoint]) -> Result<Layout, Memory>
        requires { length points.now ≤ ROWS_MAX }
        ensures points { IfOk result (λ layout. layout.points.items ≡ points.now) }
        ensures layout { IfOk result IsLayout }
    {
        let xs = Axis::of(xs_of(alloc, points)?);
        let ys = Axis::of(ys_of(alloc, points)?);
        let spots = spots_by_place(alloc, points, &xs, &ys)?;
        let points = Vec::from_slice(alloc, points)?;
        Ok(Layout {
            points,
            xs,
            ys,
            spots,
        })
    }
}

fn xs_of(alloc: Global, points: &[AreaPoint]) -> Result<Vec<i64>, AllocError>
    ensures { IfOk result (λ xs. xs.items ≡ map (λ point. point.x) points.now) }
{
    points.iter().map(|point| point.x).collect(alloc)
}

fn ys_of(alloc: Global, points: &[AreaPoint]) -> Result<Vec<i64>, AllocError>
    ensures { IfOk result (λ ys. ys.items ≡ map (λ point. point.y) points.now) }
{
    points.iter().map(|point| point.y).collect(alloc)
}

// The spots of points, by rising place.
fn spots_by_place(
    alloc: Global,
    points: &[AreaPoint],
    xs: &Axis,
    ys: &Axis,
) -> Result<Vec<Spot>, Memory>
    requires few { length points.now ≤ ROWS_MAX }
    requires xs { IsRanked xs.now.numbers.items }
    requires ys { IsRanked ys.now.numbers.items }
    ensures { IfOk result (λ spots. AreSpots xs.now.numbers.items ys.now.numbers.items points.now spots.items) }
{
    let mut spots = Vec::with_capacity(alloc, points.len())?;
    for number in 0..points.len() {
        let point = points[number];
        spots.push(Spot {
            place: xs.below(point.x),
            rank: ys.below(point.y),
            point: number as u32,
        })?;
    }
    spots.sort_unstable_by_key(|spot| spot.place);
    Ok(spots)
}
