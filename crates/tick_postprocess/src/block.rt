//! `Block`: rows of a run behind the assignments of `post`, which are evaluated for all of them at once.
ghost use Rattle.std.specs.Prelude.{◌≡◌, ◌+◌, ◌<◌, ◌≤◌, length, List, IfSome, IsTrue};
ghost use Rattle.sgl_values.specs.declared.item.Item.{Item};
ghost use Rattle.sgl_typed.specs.Tick.{combined_from};
ghost use Rattle.sgl_lanes.specs.Columns.{AreColumns};
ghost use Rattle.tick_postprocess.specs.Answer.{AreWords};
ghost use Rattle.tick_postprocess.specs.Blocks.{values_in, AreAllCells, AreClear, HasRow, IsBlock};
ghost use Rattle.tick_postprocess.specs.Runs.{IsCell, TellsWide};
ghost use Rattle.tick_postprocess.specs.Unit.{IsEnding};

use crate::assigning::assign_all;
use crate::cells::{first_wide_between, put_column};
use crate::fault::PostFault;
use crate::row::Ending;
use crate::row_lanes::{NewLanes, RowLanes};
use crate::values::{read_condition, read_right_sides, spawn_condition};
use env_table::World;
use sgl_lanes::{LANES, LaneValues, SPARE_LANES, first_lanes, read_columns};
use sgl_values::{CONSTS_MAX, EFFECTS_MAX, Fault, Num};

/// At most 64 rows of a world, one behind the other: the cells of each, its new values, the least fault of the right sides,
/// and what is known of `spawn when` and of `remove when` over the new values.
#[derive(Drop)]
pub(crate) struct Block {
    pub first: u32,
    pub end: u32,
    // A list of lanes for each effect attribute.
    pub cells: [[Num; LANES]; EFFECTS_MAX],
    // Room for the first 32 right sides.
    pub values: [LaneValues; CONSTS_MAX],
    // A list of lanes for each attribute, with the old values and with the new ones.
    pub columns: [[Num; LANES]; CONSTS_MAX],
    pub changed: [[Num; LANES]; CONSTS_MAX],
    pub faults: [Option<Fault>; LANES],
    // It is known that there is no such fault.
    pub quiet: bool,
    pub spawning: LaneValues,
    pub removal: LaneValues,
    // Room for right sides of operations.
    pub spare: [LaneValues; SPARE_LANES],
}

impl Block {
    /// A block without rows, in front of a row.
    pub(crate) fn before(row: u32) -> Block
        ensures first { result.first ≡ row }
        ensures end { result.end ≡ row }
    {
        Block {
            first: row,
            end: row,
            cells: [[Num::zero(); LANES]; EFFECTS_MAX],
            values: [LaneValues::unknown(); CONSTS_MAX],
            columns: [[Num::zero(); LANES]; CONSTS_MAX],
            changed: [[Num::zero(); LANES]; CONSTS_MAX],
            faults: [None; LANES],
            quiet: true,
            spawning: LaneValues::unknown(),
            removal: LaneValues::unknown(),
            spare: [LaneValues::unknown(); SPARE_LANES],
        }
    }

    /// Goes on to a row, with those behind it and before the end of a run, where the row is not one of the block.
    pub(crate) fn turn_again_to(&mut self, ending: &Ending, row: u32, end: u32)
        requires ending { IsEnding ending.now }
        requires row { row < end }
        requires end { end ≤ length ending.now.tick.world.now.world.rows }
        requires block { IsBlock ending.now self.old }
        ensures block { IsBlock ending.now self.new }
        ensures row { HasRow self.new row }
    {
        if row < self.first || self.end <= row {
            let _ = self.begin_at(ending, row, end);
        }
    }

    /// Puts the new values of a lane into a list of their number.
    pub(crate) fn put_values(&self, ending: &Ending, lane: u32, row: &mut [Num])
        requires lane { lane < LANES }
        requires row { length row.old ≡ ending.now.tick.world.now.width }
        ensures { row.new ≡ values_in ending.now self.now.changed lane }
    {
        let width = ending.tick.world.width() as usize;
        for attr in 0..width {
            row[attr] = self.changed[attr][lane as usize];
        }
    }

    /// Goes on to a row, with those behind it and before the end of a run. It tells the first cell outside the range among the rows
    /// that it goes on to.
    #[inline(never)]
    pub(crate) fn begin_at(&mut self, ending: &Ending, row: u32, end: u32) -> Option<PostFault>
        requires ending { IsEnding ending.now }
        requires row { row < end }
        requires end { end ≤ length ending.now.tick.world.now.world.rows }
        ensures block { IsBlock ending.now self.new }
        ensures first { self.new.first ≡ row }
        ensures row { row < self.new.end }
        ensures end { self.new.end ≤ end }
        ensures cell { IfSome result IsCell }
        ensures wide { (items : List Item) → AreWords ending.now.tick.script.now.schema.effects ending.now.combined.now items
            → TellsWide (combined_from ending.now.tick.script.now items 0 ending.now.tick.world.now.world.rows) row self.new.end result }
    {
        let _few = ending.tick.world.len();
        self.first = row;
        self.end = end.min(row + 64);
        let wide = put_all_cells(ending, row, self.end, &mut self.cells);
        self.change(ending);
        wide
    }

    // Puts the new values and what is read behind them, from the cells.
    fn change(&mut self, ending: &Ending)
        requires ending { IsEnding ending.now }
        requires some { self.old.first < self.old.end }
        requires few { self.old.end ≤ self.old.first + LANES }
        requires inside { self.old.end ≤ length ending.now.tick.world.now.world.rows }
        requires cells { AreAllCells ending.now self.old.first self.old.end self.old.cells }
        ensures block { IsBlock ending.now self.new }
        ensures first { self.new.first ≡ self.old.first }
        ensures end { self.new.end ≡ self.old.end }
    {
        let script = ending.tick.script;
        let count = self.end - self.first;
        let mask = first_lanes(count);
        read_old(ending.tick.world, self.first, &mut self.columns);
        let old = RowLanes {
            ending,
            first: self.first,
            cells: &self.cells,
            columns: &self.columns,
        };
        read_right_sides(
            &old,
            mask,
            script.rules.as_slice(),
            &mut self.values,
            &mut self.spare,
        );
        self.quiet = assign_all(
            &old,
            count,
            &self.values,
            &mut self.changed,
            &mut self.faults,
        );
        let new = NewLanes {
            old,
            values: &self.changed,
        };
        let spawn = spawn_condition(&script.spawn);
        read_condition(&new, mask, spawn, &mut self.spawning, &mut self.spare);
        read_condition(
            &new,
            mask,
            script.removal.as_ref(),
            &mut self.removal,
            &mut self.spare,
        );
    }
}

// Reads the attributes of 64 rows from the first one on.
fn read_old(world: &World, first: u32, columns: &mut [[Num; LANES]; CONSTS_MAX])
    ensures wide { world.now.width ≤ length columns.new }
    ensures read { AreColumns world.now first columns.new }
{
    let _narrow = world.width();
    read_columns(world, first, columns);
}

// Puts the cells of the rows of a block, a lane each, and tells the first one outside the range.
fn put_all_cells(
    ending: &Ending,
    first: u32,
    end: u32,
    cells: &mut [[Num; LANES]; EFFECTS_MAX],
) -> Option<PostFault>
    requires ending { IsEnding ending.now }
    requires few { end ≤ first + LANES }
    requires order { first ≤ end }
    requires inside { end ≤ length ending.now.tick.world.now.world.rows }
    ensures cells { AreAllCells ending.now first end cells.new }
    ensures cell { IfSome result IsCell }
    ensures wide { (items : List Item) → AreWords ending.now.tick.script.now.schema.effects ending.now.combined.now items
        → TellsWide (combined_from ending.now.tick.script.now items 0 ending.now.tick.world.now.world.rows) first end result }
{
    if put_columns(ending, first, end, cells) {
        None
    } else {
        first_wide_between(ending, first, end)
    }
}

// Puts the cells of the rows of a block, a lane each, and tells whether all of them are in the range.
fn put_columns(
    ending: &Ending,
    first: u32,
    end: u32,
    cells: &mut [[Num; LANES]; EFFECTS_MAX],
) -> bool
    requires ending { IsEnding ending.now }
    requires few { end ≤ first + LANES }
    requires order { first ≤ end }
    requires inside { end ≤ length ending.now.tick.world.now.world.rows }
    ensures cells { AreAllCells ending.now first end cells.new }
    ensures clear { IsTrue result → AreClear ending.now first end }
{
    let effects = ending.tick.script.schema.effects.as_slice();
    let mut words = [0; LANES];
    let mut exact = true;
    for attr in 0..effects.len() {
        exact &= put_column(
            effects,
            ending.combined,
            first,
            end,
            attr,
            &mut words,
            &mut cells[attr],
        );
    }
    exact
}
