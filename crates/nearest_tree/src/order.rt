//! The order in which points are halved.
ghost use Rattle.std.specs.Prelude.{◌<◌, length, IsPermutation};

use crate::mark::Mark;
use crate::point::NearPoint;

/// Puts points into the order of a tree: in the middle stands one that has those with lesser
/// coordinates before it and those with greater ones behind it, and so on in each half. It goes by
/// the coordinate in which the points differ most.
pub(crate) fn order(points: &mut [NearPoint])
    ensures { IsPermutation points.old points.new }
{
    if points.len() < 2 {
        return;
    }
    sort(points);
    let middle = points.len() / 2;
    order(&mut points[..middle]);
    order(&mut points[middle + 1..]);
}

// Sorts points, of which there is one at least, by the coordinate in which they differ most.
fn sort(points: &mut [NearPoint])
    requires { 0 < length points.old }
    ensures { IsPermutation points.old points.new }
{
    if Mark::of(points).is_wide() {
        points.sort_unstable_by_key(|point| point.x);
    } else {
        points.sort_unstable_by_key(|point| point.y);
    }
}
