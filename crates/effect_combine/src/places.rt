//! Finds the place of a cell among those of a batch, and merges or puts a word there.

ghost use Rattle.std.specs.Prelude.{◌≡◌, ◌≤◌, length, vec_capacity};
ghost use Rattle.effect_combine.specs.Batch.{CellsRise, is_before};
ghost use Rattle.effect_combine.specs.Places.{IsPlace, Puts, is_held_at};

use crate::cell::{Added, Cell};
use crate::word::merge;
use sgl_values::{BATCH_CELLS_MAX, Tag};

// The number of the cells before that of this row and attribute, found by halving.
pub(crate) fn find_place(cells: &[Cell], row: u32, attr: u32) -> usize
    requires { CellsRise cells.now }
    ensures { IsPlace cells.now row attr result }
{
    cells.partition_point(|cell| is_before(*cell, row, attr))
}

// Whether a cell stands before that of this row and attribute.
fn is_before(cell: Cell, row: u32, attr: u32) -> bool
    ensures { result ≡ is_before row attr cell }
{
    cell.row < row || (cell.row == row && cell.attr < attr)
}

// Merges a word into that of its cell, which stands at this place, or puts it there as a new cell, where there is room.
pub(crate) fn put_word(cells: &mut Vec<Cell>, place: usize, tag: Tag, put: Cell) -> Added
    requires place { IsPlace cells.old.items put.row put.attr place }
    requires rising { CellsRise cells.old.items }
    requires few { length cells.old.items ≤ BATCH_CELLS_MAX }
    requires room { BATCH_CELLS_MAX ≤ vec_capacity cells.old }
    ensures put { Puts cells.old.items tag put result cells.new.items }
    ensures few { length cells.new.items ≤ BATCH_CELLS_MAX }
    ensures room { BATCH_CELLS_MAX ≤ vec_capacity cells.new }
{
    if stands_at(cells.as_slice(), place, put.row, put.attr) {
        let word = merge(tag, put.word, cells[place].word);
        cells[place] = Cell { word, ..put };
        return Added::Kept;
    }
    if cells.len() >= BATCH_CELLS_MAX as usize {
        return Added::Full;
    }
    // It is not refused, as there is room.
    let _ = cells.insert(place, put);
    Added::Kept
}

// Whether the cell of this row and attribute stands at this place.
fn stands_at(cells: &[Cell], place: usize, row: u32, attr: u32) -> bool
    ensures { result ≡ is_held_at cells.now row attr place }
{
    if place < cells.len() {
        let cell = cells[place];
        cell.row == row && cell.attr == attr
    } else {
        false
    }
}
