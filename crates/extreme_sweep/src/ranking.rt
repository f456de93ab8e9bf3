//! Points by their pairs, which gives them their ranks.
ghost use Rattle.std.specs.Prelude.{◌≡◌, ◌≤◌, length, map, IsPermutation, IfOk};
ghost use Rattle.extreme_sweep.specs.Ranking.{PairsRise};

use crate::window::SweepPoint;
use rank_table::{elements_at, order_of};
use sgl_values::{Memory, ROWS_MAX};
use std::alloc::Global;

/// The points by rising pair. The rank of a point is its number among them.
pub(crate) fn points_by_pair(
    alloc: Global,
    points: &[SweepPoint],
) -> Result<Vec<SweepPoint>, Memory>
    requires { length points.now ≤ ROWS_MAX }
    ensures permutation { IfOk result (λ v. IsPermutation points.now v.items) }
    ensures rising { IfOk result (λ v. PairsRise v.items) }
{
    let values = values_of(alloc, points)?;
    let order = order_of(alloc, values.as_slice())?;
    let mut ranked = elements_at(alloc, points, order.as_slice())?;
    // Where keys rise with the places, so do pairs already, and the sort goes over them once.
    ranked.sort_unstable_by_key(|point| point.entry.pair);
    Ok(ranked)
}

// The values of points, in their order.
fn values_of(alloc: Global, points: &[SweepPoint]) -> Result<Vec<i64>, Memory>
    ensures { IfOk result (λ v. v.items ≡ map (λ point. point.entry.pair.value) points.now) }
{
    let values = points
        .iter()
        .map(|point| point.entry.pair.value.get())
        .collect(alloc)?;
    Ok(values)
}

/// The groups of points, in their order.
pub(crate) fn groups_of(alloc: Global, points: &[SweepPoint]) -> Result<Vec<i64>, Memory>
    ensures { IfOk result (λ v. v.items ≡ map (λ point. point.entry.group) points.now) }
{
    let groups = points.iter().map(|point| point.entry.group).collect(alloc)?;
    Ok(groups)
}
