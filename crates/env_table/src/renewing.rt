//! A builder in the memory of a world that is given up.
ghost use Rattle.std.specs.Prelude.{◌≡◌, ◌≤◌, min, [], IfOk};
ghost use Rattle.env_table.specs.Table.{empty_building};

use crate::arrays::Arrays;
use crate::builder::WorldBuilder;
use crate::table::World;
use sgl_values::{CONSTS_MAX, Memory, Num, ROWS_MAX};

impl WorldBuilder {
    /// A builder as `with_room` makes it, in the memory of a world that is given up. It takes memory only where that world
    /// has too little of it; `Memory` is its only refusal.
    pub fn in_place_of(world: World, tick: u16, width: u32, rows: u32) -> Result<Self, Memory>
        requires { width ≤ CONSTS_MAX }
        ensures { IfOk result (λ b. b ≡ empty_building tick width (min rows ROWS_MAX)) }
    {
        let room = rows.min(ROWS_MAX);
        let (mut keys, mut values) = emptied(world);
        keys.reserve(room as usize)?;
        values.reserve(room as usize * width as usize)?;
        Ok(WorldBuilder::without_rows(tick, width, room, keys, values))
    }
}

// The memory of a world, without its rows.
fn emptied(world: World) -> (Vec<u32>, Vec<Num>)
    ensures { (result.0.items ≡ []) × (result.1.items ≡ []) }
{
    let World { arrays } = world;
    let Arrays {
        mut keys,
        mut values,
        ..
    } = arrays;
    keys.clear();
    values.clear();
    (keys, values)
}
