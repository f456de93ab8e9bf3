//! Attributes of the rows of a world, which stand one behind the other, into lanes.
ghost use Rattle.std.specs.Prelude.{◌≡◌, ◌<◌, ◌+◌, ℕ, length};
ghost use Rattle.sgl_values.specs.World.{row_at};
ghost use Rattle.sgl_typed.specs.Value.{attribute};
ghost use Rattle.sgl_lanes.specs.Columns.{AreColumns, IsColumn};
ghost use Rattle.sgl_lanes.specs.Lanes.{lane_of};

use crate::lane_set::LANES;
use env_table::World;
use sgl_evaluate::attribute_of;
use sgl_typed::Attr;
use sgl_values::Num;

/// Reads an attribute of the 64 rows from the first on into lanes. Lanes in which no row stands hold anything.
pub fn read_rows(world: &World, first: u32, attr: Attr, out: &mut [Num; LANES])
    ensures { (k : ℕ) → k < LANES → first + k < length world.now.world.rows → lane_of out.new k ≡ attribute attr (row_at world.now.world (first + k)) }
{
    match attr {
        Attr::Const(attr) if attr < world.width() => world.put_column(first, attr, out),
        _ => *out = column_of(world, first, attr),
    }
}

// The same in a list of its own, of which the compiler sees that no write to it changes the world.
fn column_of(world: &World, first: u32, attr: Attr) -> [Num; LANES]
    ensures { (k : ℕ) → k < LANES → first + k < length world.now.world.rows → lane_of result k ≡ attribute attr (row_at world.now.world (first + k)) }
{
    let mut column = [Num::zero(); LANES];
    let count = world.len().saturating_sub(first).min(64);
    for lane in 0..count {
        column[lane as usize] = attribute_of(world, first + lane, attr);
    }
    column
}

/// Reads the attributes of the 64 rows from the first on into columns, as far as there are columns. Lanes in which no row
/// stands hold anything.
pub fn read_columns(world: &World, first: u32, columns: &mut [[Num; LANES]])
    ensures long { length columns.new ≡ length columns.old }
    ensures read { AreColumns world.now first columns.new }
{
    let count = columns.len().min(world.width() as usize);
    for attr in 0..count {
        world.put_column(first, attr as u32, &mut columns[attr]);
    }
}
