//! The keys of the points in a cell.
ghost use Rattle.std.specs.Prelude.{◌<◌, All, length};
ghost use Rattle.cell_links.specs.Walks.{rows_left};

use crate::grid::is_in_cell;
use crate::point::{Cell, KeepPoint};
use cell_links::ListWalk;

/// The keys of the points in a cell, each once. It takes no memory.
#[derive(Drop)]
pub struct CellIter<'a> {
    pub(crate) points: &'a [KeepPoint],
    pub(crate) cell: Cell,
    pub(crate) walk: ListWalk<'a>,
    pub ghost within: { All (λ row. row < length points.now) (rows_left walk) },
}

impl<'a> Iterator for CellIter<'a> {
    type Item = u32;

    ghost use Rattle.cell_keep.specs.Keys.{keys_left};
    ghost use Rattle.std.specs.Iterator.{YieldsFirst, item_count};

    ghost next_gives = { YieldsFirst keys_left };

    ghost remaining = { item_count keys_left };

    fn next(&mut self) -> Option<u32> {
        'rows: while let Some(row) = self.walk.step() {
            let point = &self.points[row as usize];
            if is_in_cell(&self.cell, point) {
                return Some(point.key);
            }
        }
        None
    }
}
