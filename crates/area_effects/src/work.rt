//! The room of spreads, and the last one.
ghost use Rattle.std.specs.Prelude.{◌≡◌, ◌<◌, ◌≤◌, length, slice_get, Some, IfOk};
ghost use Rattle.area_effects.specs.Work.{empty_work};

use crate::tables::Tables;
use sgl_values::{Memory, ROWS_MAX};
use std::alloc::Global;
use std::marker::Model;

/// The room in which boxes are added up, and the last spread. Contracts see for how many points and
/// boxes there is room, and the sums and the numbers of boxes, point by point, of the last spread;
/// they are empty before the first.
#[derive(Debug, Drop)]
pub struct AreaWork {
    pub(crate) tables: Tables,
}

impl Model for AreaWork {
    ghost use Rattle.area_effects.specs.Work.{Work};

    ghost Value = { Work };

    ghost use Rattle.area_effects.specs.Rooms.{AreTables};
    ghost use Rattle.area_effects.specs.Tables.{work_of};

    ghost view = { λ it. work_of it.tables };

    ghost invariant = { λ it. AreTables it.tables };
}

impl AreaWork {
    /// Room for so many points and boxes, at most 65,536 of each, and no spread yet. It takes the
    /// memory for them; `Memory` is its only refusal, and no later call takes memory.
    pub fn new(alloc: Global, points: u32, boxes: u32) -> Result<AreaWork, Memory>
        requires points { points ≤ ROWS_MAX }
        requires boxes { boxes ≤ ROWS_MAX }
        ensures { IfOk result (λ work. work ≡ empty_work points boxes) }
    {
        let tables = Tables::with_room(alloc, points, boxes)?;
        Ok(AreaWork { tables })
    }

    /// The exact sum of the amounts of the boxes that point number `i` of the last spread lies in.
    pub fn sum(&self, i: u32) -> i64
        requires { i < length self.now.sums }
        ensures { slice_get self.now.sums i ≡ Some result }
    {
        self.tables.sums[i as usize]
    }

    /// The number of the boxes that point number `i` of the last spread lies in.
    pub fn count(&self, i: u32) -> u32
        requires { i < length self.now.counts }
        ensures { slice_get self.now.counts i ≡ Some result }
    {
        self.tables.counts[i as usize]
    }
}
