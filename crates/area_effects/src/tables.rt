//! The tables of a spread.
ghost use Rattle.std.specs.Prelude.{◌≡◌, ℕ, pos, ◌+◌, ◌<◌, ◌≤◌, length, replicate, take, slice_set, vec_capacity, IfOk};
ghost use Rattle.area_effects.specs.Edges.{covered};

use crate::area_box::AreaBox;
use crate::layout::Layout;
use crate::spot::Spot;
use crate::sweep::Sweep;
use sgl_values::{Memory, ROWS_MAX};
use std::alloc::Global;

/// The spread of each point of the last call, and a sweep, with room for so many points and boxes.
#[derive(Debug, Drop)]
pub(crate) struct Tables {
    pub(crate) sums: Vec<i64>,
    pub(crate) counts: Vec<u32>,
    pub(crate) sweep: Sweep,
    pub(crate) points: u32,
    pub(crate) boxes: u32,
}

impl Tables {
    ghost use Rattle.area_effects.specs.Layouts.{IsLayout};
    ghost use Rattle.area_effects.specs.Rooms.{AreTables};
    ghost use Rattle.area_effects.specs.Sweeping.{IsSweep};
    ghost use Rattle.area_effects.specs.Tables.{work_of, IsCounted, Clears, Puts};
    ghost use Rattle.area_effects.specs.Work.{empty_work, with_spread};

    /// Tables with this room, and no spread. `Memory` is the only refusal.
    pub(crate) fn with_room(alloc: Global, points: u32, boxes: u32) -> Result<Tables, Memory>
        requires points { points ≤ ROWS_MAX }
        requires boxes { boxes ≤ ROWS_MAX }
        ensures tables { IfOk result AreTables }
        ensures empty { IfOk result (λ tables. work_of tables ≡ empty_work points boxes) }
    {
        let sweep = Sweep::with_room(alloc, points, boxes)?;
        let sums = Vec::with_capacity(alloc, points as usize)?;
        let counts = Vec::with_capacity(alloc, points as usize)?;
        Ok(Tables {
            points,
            boxes,
            sweep,
            sums,
            counts,
        })
    }

    /// Puts the spread of the points in place of the last one. It takes no memory.
    pub(crate) fn spread(&mut self, layout: &Layout, boxes: &[AreaBox])
        requires tables { AreTables self.old }
        requires layout { IsLayout layout.now }
        requires points { length layout.now.points.items ≤ self.old.points }
        requires boxes { length boxes.now ≤ self.old.boxes }
        ensures tables { AreTables self.new }
        ensures spread { work_of self.new ≡ with_spread (work_of self.old) boxes.now layout.now.points.items }
    {
        self.clear(layout.points.len());
        self.sweep.begin(&layout.xs, &layout.ys, boxes);
        for spot in &layout.spots {
            self.sweep.advance(spot.place);
            self.put(spot);
        }
    }

    // Puts 0 for each of so many points.
    fn clear(&mut self, points: usize)
        requires sums { points ≤ vec_capacity self.old.sums }
        requires counts { points ≤ vec_capacity self.old.counts }
        ensures { Clears points self.old self.new }
    {
        self.sums.clear();
        self.counts.clear();
        // They are not refused, as there is room.
        let _ = self.sums.resize(points, 0);
        let _ = self.counts.resize(points, 0);
    }

    // Puts the spread of a point whose spot the sweep has come to.
    fn put(&mut self, spot: &Spot)
        requires sweep { IsSweep self.old.sweep }
        requires rank { spot.now.rank + 1 < length self.old.sweep.amounts.nodes.items }
        requires sums { spot.now.point < length self.old.sums.items }
        requires counts { spot.now.point < length self.old.counts.items }
        requires counted { IsCounted self.old.sweep (spot.now.rank + 1) }
        ensures { Puts spot.now self.old self.new }
    {
        let point = spot.point as usize;
        self.sums[point] = self.sweep.amount_at(spot.rank);
        self.counts[point] = self.sweep.count_at(spot.rank) as u32;
    }
}
