//! The point with a key.
ghost use Rattle.std.specs.Prelude.{◌≡◌};
ghost use Rattle.cell_keep.specs.Grid.{cell_with as cell_with_key};
ghost use Rattle.cell_keep.specs.Kept.{points_of, ArePlaced, KeysRise};

use crate::grid::cell_of;
use crate::held::{Held, key_at};
use crate::point::Cell;

/// The cell of the point with this key, found by halving.
pub(crate) fn cell_with(held: &Held, key: u32) -> Option<Cell>
    requires placed { ArePlaced held.now }
    requires rising { KeysRise (points_of held.now) }
    ensures { result ≡ cell_with_key key (points_of held.now) }
{
    let points = held.points.as_slice();
    let order = held.order.as_slice();
    match order.binary_search_by_key(&key, |row| key_at(points, *row)) {
        Ok(place) => Some(cell_of(&points[order[place] as usize])),
        Err(_) => None,
    }
}
