//! Sums over points, over the cells of a square, and over all points.
ghost use Rattle.std.specs.Prelude.{◌≡◌, ◌+◌, ◌≤◌, ◌∷◌, [], filter, if◌then◌else◌, length, negsuc, pos, ◌≤ℤ◌};
ghost use Rattle.cell_keep.specs.Circles.{joined, sums_of};
ghost use Rattle.cell_keep.specs.Covers.{cell_above, foot, is_counted, is_counted_along, is_counted_in, IsBounded, IsSquareOf};
ghost use Rattle.cell_keep.specs.Kept.{points_of, ArePlaced};

use crate::circle::Circle;
use crate::grid::{is_in_cell, list_of};
use crate::held::Held;
use crate::point::{Cell, KeepPoint, Sums};
use crate::span::Square;
use cell_links::ListWalk;
use sgl_values::ROWS_MAX;

impl Sums {
    /// The sums over no points.
    pub(crate) const NONE: Sums = Sums { count: 0, sum: 0 };

    /// The sums over one point more, where it passes.
    fn with(self, passes: bool, point: &KeepPoint) -> Sums
        requires few { self.count ≤ ROWS_MAX }
        requires bounded { IsBounded self }
        ensures value { result ≡ joined self (sums_of (if passes then point.now ∷ [] else [])) }
        ensures bounded { IsBounded result }
    {
        if passes {
            Sums {
                count: self.count + 1,
                sum: self.sum + i128::from(point.weight.get()),
            }
        } else {
            self
        }
    }

    /// The sums over the points of both.
    fn joined(self, other: Sums) -> Sums
        requires few { self.count + other.count ≤ ROWS_MAX }
        requires bounded { IsBounded self }
        requires other { IsBounded other }
        ensures value { result ≡ joined self other }
        ensures bounded { IsBounded result }
    {
        Sums {
            count: self.count + other.count,
            sum: self.sum + other.sum,
        }
    }
}

/// The sums over the counted points, by a look at each point.
pub(crate) fn point_sums(held: &Held, circle: &Circle) -> Sums
    requires { ArePlaced held.now }
    ensures { result ≡ sums_of (filter (is_counted circle.now) (points_of held.now)) }
{
    let mut sums = Sums::NONE;
    for row in held.order.as_slice() {
        let point = &held.points[*row as usize];
        sums = sums.with(circle.counts(point), point);
    }
    sums
}

/// The sums over the counted points, by a look at the cells of the square around the circle.
pub(crate) fn square_sums(held: &Held, circle: &Circle, square: &Square) -> Sums
    requires placed { ArePlaced held.now }
    requires square { IsSquareOf circle.now square.now }
    ensures { result ≡ sums_of (filter (is_counted circle.now) (points_of held.now)) }
{
    let mut sums = Sums::NONE;
    for east in 0..square.across.count {
        let lowest = foot(circle, square, east);
        sums = sums.joined(column_sums(held, circle, &lowest, square.up.count));
    }
    sums
}

// The sums over the counted points in so many cells, one above the other.
fn column_sums(held: &Held, circle: &Circle, lowest: &Cell, cells: u32) -> Sums
    requires placed { ArePlaced held.now }
    requires group { lowest.now.group ≡ circle.now.group }
    requires low { negsuc 2000000000000 ≤ℤ lowest.now.cy }
    requires high { lowest.now.cy ≤ℤ pos 2000000000000 }
    ensures value { result ≡ sums_of (filter (is_counted_along circle.now lowest.now cells) (points_of held.now)) }
    ensures bounded { IsBounded result }
{
    let mut sums = Sums::NONE;
    for north in 0..cells {
        let cell = cell_above(lowest, north);
        sums = sums.joined(cell_sums(held, circle, &cell));
    }
    sums
}

// The sums over the counted points in a cell.
fn cell_sums(held: &Held, circle: &Circle, cell: &Cell) -> Sums
    requires { ArePlaced held.now }
    ensures value { result ≡ sums_of (filter (is_counted_in circle.now cell.now) (points_of held.now)) }
    ensures bounded { IsBounded result }
{
    let mut walk = ListWalk::new(&held.links, list_of(cell));
    let mut sums = Sums::NONE;
    'rows: while let Some(row) = walk.step() {
        let point = &held.points[row as usize];
        sums = sums.with(is_counted_in(circle, cell, point), point);
    }
    sums
}

// Whether a point is counted and lies in a cell.
fn is_counted_in(circle: &Circle, cell: &Cell, point: &KeepPoint) -> bool
    ensures { result ≡ is_counted_in circle.now cell.now point.now }
{
    circle.counts(point) && is_in_cell(cell, point)
}

// The lowest cell of a column of a square.
fn foot(circle: &Circle, square: &Square, column: u32) -> Cell
    requires low { negsuc 2000000000000 ≤ℤ square.now.across.first }
    requires high { square.now.across.first ≤ℤ pos 2000000000000 }
    ensures { result ≡ foot circle.now square.now column }
{
    Cell {
        group: circle.group,
        cx: square.across.first + i64::from(column),
        cy: square.up.first,
    }
}

// The cell so many cells above another.
fn cell_above(lowest: &Cell, cells: u32) -> Cell
    requires low { negsuc 2000000000000 ≤ℤ lowest.now.cy }
    requires high { lowest.now.cy ≤ℤ pos 2000000000000 }
    ensures { result ≡ cell_above lowest.now cells }
{
    Cell {
        group: lowest.group,
        cx: lowest.cx,
        cy: lowest.cy + i64::from(cells),
    }
}
