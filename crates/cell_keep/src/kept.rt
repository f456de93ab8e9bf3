//! The points that are kept.
ghost use Rattle.std.specs.Prelude.{◌≡◌, ◌≤◌, [], length, vec_capacity, IfOk, OnErr, OnOk, IsPermutation};
ghost use Rattle.cell_keep.specs.Circles.{sums_within};
ghost use Rattle.cell_keep.specs.Grid.{cell_with as cell_with_key, keys_in};
ghost use Rattle.cell_keep.specs.Kept.{points_of, AreKept, KeysRise};
ghost use Rattle.cell_keep.specs.Keys.{keys_left};

use crate::cell_iter::CellIter;
use crate::circle::Circle;
use crate::finding::cell_with;
use crate::grid::list_of;
use crate::held::{Held, all_rows};
use crate::matching::Matching;
use crate::placing::{fill, give_back, put_all};
use crate::point::{Cell, Group, KeepPoint, Sums};
use crate::summing::{point_sums, square_sums};
use cell_links::ListWalk;
use sgl_values::{Memory, Num, ROWS_MAX};
use std::alloc::Global;
use std::marker::Model;

/// Points by rising key, each in the list of its cell. Contracts see the list of the points.
///
/// The lists are found by a hash of the cell, and a list may hold the points of several cells. A point has a row, which it
/// keeps from one advance to the next, and is linked by it. So an advance links anew only points that came, and those that
/// moved into another cell.
#[derive(Debug, Drop)]
pub struct Kept {
    held: Held,
    free: Vec<u32>,
    matching: Matching,
}

impl Model for Kept {
    ghost use Rattle.std.specs.Prelude.{List, vec_capacity};
    ghost use Rattle.cell_keep.specs.declared.point.KeepPoint.{KeepPoint};
    ghost use Rattle.cell_keep.specs.Kept.{AreKept, points_of};

    ghost Value = { List KeepPoint };

    ghost view = { λ it. points_of it.held };

    ghost invariant = { λ it. AreKept it.held it.free.items (vec_capacity it.free) };
}

impl Kept {
    /// No points. It makes the room for 65,536 of them. `Memory` is its only refusal.
    pub fn new(alloc: Global) -> Result<Kept, Memory>
        ensures { IfOk result (λ kept. kept ≡ []) }
    {
        let held = Held::none(alloc)?;
        let free = all_rows(alloc, ROWS_MAX)?;
        let matching = Matching::new(alloc)?;
        Ok(Kept {
            held,
            free,
            matching,
        })
    }

    /// Holds these points in place of those held before: at most 65,536, by rising key. Where memory is wanting it holds
    /// none; but it takes none, as `new` made the room.
    pub fn advance(&mut self, points: &[KeepPoint]) -> Result<(), Memory>
        requires few { length points.now ≤ ROWS_MAX }
        requires rising { KeysRise points.now }
        ensures ok { OnOk result (self.new ≡ points.now) }
        ensures memory { OnErr result (self.new ≡ []) }
    {
        hold(&mut self.held, &mut self.free, &mut self.matching, points);
        Ok(())
    }

    /// The count and the exact sum of weights of the points of a group within the radius of (x, y), the edge included;
    /// none where the radius is below 0. It takes no memory. It looks at the cells of the square around the circle, and
    /// where these are more than the points, at all points.
    pub fn within(&self, x: Num, y: Num, r: Num, group: &Group) -> Sums
        ensures { result ≡ sums_within x y r group.now self.now }
    {
        let circle = Circle {
            x,
            y,
            radius: r,
            group: *group,
        };
        match circle.square(self.held.order.len()) {
            Some(square) => square_sums(&self.held, &circle, &square),
            None => point_sums(&self.held, &circle),
        }
    }

    /// The cell of the point with this key, found by halving; `None` exactly where no point has it. It takes no memory.
    pub fn cell_of(&self, key: u32) -> Option<Cell>
        ensures { result ≡ cell_with_key key self.now }
    {
        cell_with(&self.held, key)
    }

    /// The keys of the points in a cell, each once, in no order that is told. It takes no memory.
    pub fn members(&self, cell: &Cell) -> CellIter<'_>
        ensures { IsPermutation (keys_in cell.now self.now) (keys_left result) }
    {
        let points = self.held.points.as_slice();
        let walk = ListWalk::new(&self.held.links, list_of(cell));
        CellIter {
            points,
            cell: *cell,
            walk,
        }
    }
}

// Holds these points. A point whose key stays has its row as before.
fn hold(held: &mut Held, free: &mut Vec<u32>, matching: &mut Matching, points: &[KeepPoint])
    requires kept { AreKept held.old free.old.items (vec_capacity free.old) }
    requires few { length points.now ≤ ROWS_MAX }
    requires rising { KeysRise points.now }
    ensures kept { AreKept held.new free.new.items (vec_capacity free.new) }
    ensures points { points_of held.new ≡ points.now }
{
    matching.run(held.order.as_slice(), held.keys.as_slice(), points);
    give_back(&mut held.links, matching.gone.as_slice(), free);
    fill(matching.taken.as_slice(), &mut held.order, free);
    put_all(held, points);
}
