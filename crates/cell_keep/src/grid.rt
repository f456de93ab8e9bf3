//! Cells: squares of 64 by 64, apart for each group.
ghost use Rattle.std.specs.Prelude.{◌≡◌, ◌<◌};
ghost use Rattle.cell_keep.specs.Grid.{cell_of, is_in_cell, is_same_cell, is_same_group, list_of, mixed, quotient};

use crate::point::{Cell, Group, KeepPoint};
use sgl_values::{Num, ROWS_MAX};

/// The length of the side of a cell.
pub(crate) const SIDE: i64 = 64;

/// How many lists hold the points of all cells.
pub(crate) const LISTS: u32 = ROWS_MAX;

/// An odd number near 2^64 divided by the golden ratio.
const FACTOR: u64 = 0x9E37_79B9_7F4A_7C15;

/// The quotient by 64, rounded toward minus infinity.
pub(crate) fn quotient(number: i64) -> i64
    ensures { result ≡ quotient number }
{
    number.div_euclid(SIDE)
}

/// The cell of a point.
pub(crate) fn cell_of(point: &KeepPoint) -> Cell
    ensures { result ≡ cell_of point.now }
{
    Cell {
        group: point.group,
        cx: quotient(point.x.get()),
        cy: quotient(point.y.get()),
    }
}

pub(crate) fn is_same_group(group: &Group, other: &Group) -> bool
    ensures { result ≡ is_same_group group.now other.now }
{
    group.a == other.a && group.b == other.b && group.c == other.c && group.d == other.d
}

/// Whether a point lies in a cell.
pub(crate) fn is_in_cell(cell: &Cell, point: &KeepPoint) -> bool
    ensures { result ≡ is_in_cell cell.now point.now }
{
    is_same_cell(&cell_of(point), cell)
}

fn is_same_cell(cell: &Cell, other: &Cell) -> bool
    ensures { result ≡ is_same_cell cell.now other.now }
{
    is_same_group(&cell.group, &other.group) && cell.cx == other.cx && cell.cy == other.cy
}

/// The list of a cell, from 0 to 65,535: the upper bits of a product, by which near cells stand in lists far apart (Knuth,
/// The Art of Computer Programming 3, 6.4).
#[tactic(auto, unfolding(crate::specs::Grid::list_of))]
pub(crate) fn list_of(cell: &Cell) -> u32
    ensures value { result ≡ list_of cell.now }
    ensures inside { result < ROWS_MAX }
{
    let group = &cell.group;
    let word = mixed(mixed(mixed(mixed(0, group.a), group.b), group.c), group.d);
    (mixed(mixed(word, cell.cx), cell.cy) >> 48) as u32
}

/// A number more mixed into a word.
fn mixed(word: u64, number: i64) -> u64
    ensures { result ≡ mixed word number }
{
    (word ^ number.cast_unsigned()).wrapping_mul(FACTOR)
}
