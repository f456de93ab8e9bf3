//! Points of the plane, windows that ask for the least pair of some of them, and an answer by
//! looking at each point.
ghost use Rattle.std.specs.Prelude.{◌≡◌};
ghost use Rattle.sgl_values.specs.Range.{is_between};
ghost use Rattle.extreme_sweep.specs.Pairs.{pair_other_than};
ghost use Rattle.extreme_sweep.specs.Windows.{is_inside, is_reversed, pair_inside, least_inside, width_of};

use crate::pair::{Entry, Pair};
use sgl_values::lesser;

/// A point of the plane with its entry.
#[derive(Clone, Copy, Debug, PartialEq, Eq)]
pub struct SweepPoint {
    pub x: i64,
    pub y: i64,
    pub entry: Entry,
}

/// A window: the points with x from `x1` to `x2` and y from `y1` to `y2`, all ends included, whose group is not the
/// given one. None is in it where `x1` is above `x2` or `y1` above `y2`.
#[derive(Clone, Copy, Debug, PartialEq, Eq)]
pub struct Window {
    pub x1: i64,
    pub x2: i64,
    pub y1: i64,
    pub y2: i64,
    pub other_than: Option<i64>,
}

impl Window {
    /// Whether no point can be in the window.
    pub(crate) fn is_reversed(&self) -> bool
        ensures { result ≡ is_reversed self.now }
    {
        self.x1 > self.x2 || self.y1 > self.y2
    }

    /// How far its right end lies from the left one.
    pub(crate) fn width(&self) -> u64
        ensures { result ≡ width_of self.now }
    {
        self.x1.abs_diff(self.x2)
    }

    // The pair of a point that is in the window and of another group.
    fn pair_of(&self, point: &SweepPoint) -> Option<Pair>
        ensures { result ≡ pair_inside self.now point.now }
    {
        if self.contains(point) {
            pair_other_than(&point.entry, self.other_than)
        } else {
            None
        }
    }

    // Whether a point is in the window.
    fn contains(&self, point: &SweepPoint) -> bool
        ensures { result ≡ is_inside self.now point.now }
    {
        is_between(self.x1, self.x2, point.x) && is_between(self.y1, self.y2, point.y)
    }
}

// Whether a number is in a range, both ends included.
fn is_between(low: i64, high: i64, number: i64) -> bool
    ensures { result ≡ is_between low high number }
{
    low <= number && number <= high
}

// The pair of an entry, where its group is not the given one.
fn pair_other_than(entry: &Entry, other_than: Option<i64>) -> Option<Pair>
    ensures { result ≡ pair_other_than other_than entry.now }
{
    match other_than {
        Some(group) if group == entry.group => None,
        _ => Some(entry.pair),
    }
}

/// The least pair of the points in a window, found by looking at each.
pub(crate) fn scan(points: &[SweepPoint], window: &Window) -> Option<Pair>
    ensures { result ≡ least_inside points.now window.now }
{
    if window.is_reversed() {
        return None;
    }
    let mut least = None;
    for point in points {
        least = lesser(least, window.pair_of(point));
    }
    least
}
