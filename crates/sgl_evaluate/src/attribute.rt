//! Attributes of rows, and their distance.
ghost use Rattle.std.specs.Prelude.{◌≡◌, ◌<◌, length, pos, slice_index_or};
ghost use Rattle.sgl_values.specs.World.{row_at};
ghost use Rattle.sgl_typed.specs.Aggregate.{distance};
ghost use Rattle.sgl_typed.specs.Value.{attribute};

use env_table::World;
use sgl_typed::Attr;
use sgl_values::{Num, squared_distance};

/// The value of an attribute of a row, which is 0 where the world has no attribute with this number.
pub fn attribute_of(world: &World, row: u32, attr: Attr) -> Num
    requires { row < length world.now.world.rows }
    ensures { result ≡ attribute attr (row_at world.now.world row) }
{
    match attr {
        Attr::Key => Num::whole(world.key(row)),
        Attr::Const(attr) => value_or_zero(world, row, attr),
    }
}

fn value_or_zero(world: &World, row: u32, attr: u32) -> Num
    requires { row < length world.now.world.rows }
    ensures { result ≡ slice_index_or (row_at world.now.world row).values attr (pos 0) }
{
    if attr < world.width() {
        world.at(row, attr)
    } else {
        Num::zero()
    }
}

/// The square of the distance of two rows, whose points are given by two attributes.
pub fn distance_of(world: &World, x: Attr, y: Attr, from: u32, to: u32) -> i128
    requires from { from < length world.now.world.rows }
    requires to { to < length world.now.world.rows }
    ensures { result ≡ distance x y (row_at world.now.world from) (row_at world.now.world to) }
{
    squared_distance(
        attribute_of(world, from, x),
        attribute_of(world, from, y),
        attribute_of(world, to, x),
        attribute_of(world, to, y),
    )
}
