//! What is kept of the points of a tree.
ghost use Rattle.std.specs.Prelude.{◌≡◌, List, [], ◌∷◌, ◌++◌, length, ◌<◌, ◌-ℤ◌};
ghost use Rattle.nearest_tree.specs.declared.point.NearPoint.{NearPoint};
ghost use Rattle.nearest_tree.specs.Marks.{StandsFor, box_distance, greater_of_two, is_wide, lesser_of_two, within};

use crate::keys::LeastKeys;
use crate::point::NearPoint;
use sgl_values::{Num, squared_distance};

/// What is kept of some points: the least box that holds them, with x from `west` to `east` and y
/// from `south` to `north`, and their least keys.
#[derive(Clone, Copy, Debug)]
pub(crate) struct Mark {
    west: Num,
    east: Num,
    south: Num,
    north: Num,
    pub(crate) keys: LeastKeys,
}

impl Mark {
    /// The mark of points, of which there is one at least.
    pub(crate) fn of(points: &[NearPoint]) -> Mark
        requires { 0 < length points.now }
        ensures { StandsFor result points.now }
    {
        let mut mark = Mark::alone(&points[0]);
        let others = &points[1..];
        for point in others {
            mark = mark.with(point);
        }
        mark
    }

    /// The square of the distance from (x, y) to the nearest place of the box: 0 inside it.
    pub(crate) fn distance(&self, x: Num, y: Num) -> i128
        ensures { result ≡ box_distance x y self.now }
    {
        let nearest_x = within(self.west, self.east, x);
        let nearest_y = within(self.south, self.north, y);
        squared_distance(x, y, nearest_x, nearest_y)
    }

    /// Whether the box is at least as wide as it is high.
    pub(crate) fn is_wide(&self) -> bool
        ensures { result ≡ is_wide self.now }
    {
        extent(self.south, self.north) <= extent(self.west, self.east)
    }

    // The mark of one point.
    fn alone(point: &NearPoint) -> Mark
        ensures { StandsFor result (point.now ∷ []) }
    {
        Mark {
            west: point.x,
            east: point.x,
            south: point.y,
            north: point.y,
            keys: LeastKeys::alone(point),
        }
    }

    // The mark of one point more.
    fn with(&self, point: &NearPoint) -> Mark
        ensures { (points : List NearPoint) → StandsFor self.now points → StandsFor result (points ++ point.now ∷ []) }
    {
        Mark {
            west: lesser(self.west, point.x),
            east: greater(self.east, point.x),
            south: lesser(self.south, point.y),
            north: greater(self.north, point.y),
            keys: self.keys.with(point),
        }
    }
}

// The number from the low one to the high one that is nearest to another.
fn within(low: Num, high: Num, number: Num) -> Num
    ensures { result ≡ within low high number }
{
    if number < low {
        low
    } else if high < number {
        high
    } else {
        number
    }
}

// How far it is from the low number to the high one.
fn extent(low: Num, high: Num) -> i64
    ensures { result ≡ high -ℤ low }
{
    high.get() - low.get()
}

// The lesser of two numbers.
fn lesser(a: Num, b: Num) -> Num
    ensures { result ≡ lesser_of_two a b }
{
    if b < a { b } else { a }
}

// The greater of two numbers.
fn greater(a: Num, b: Num) -> Num
    ensures { result ≡ greater_of_two a b }
{
    if a < b { b } else { a }
}
