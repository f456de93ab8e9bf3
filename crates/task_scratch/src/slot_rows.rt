//! The slots of the rows of a task.
ghost use Rattle.std.specs.Prelude.{◌≡◌, ◌<◌, ℕ, pos, length, slice_index_or, IfOk, IfSome};
ghost use Rattle.sgl_values.specs.declared.fault.Val.TheVariants.{N};
ghost use Rattle.sgl_lanes.specs.Lanes.{HoldEach};
ghost use Rattle.sgl_lanes.specs.declared.kind.Lanes.TheVariants.{Numbers};
ghost use Rattle.task_scratch.specs.Scratch.{slots_in, AreLanesSet, AreWide, IsRowSet};
ghost use Rattle.task_scratch.specs.Sorts.{sort_of};

use crate::slot_column::SlotColumn;
use sgl_lanes::{LANES, Lanes, fill};
use sgl_values::{Memory, Num, TASK_ROWS, Val};
use std::alloc::Global;
use std::marker::Model;

/// The slots of 64 rows, a column for each slot, so that all rows of a set read and write a slot at once. Contracts see
/// the rows, each a list of its slots.
#[derive(Debug, Drop)]
pub struct SlotRows {
    pub(crate) columns: Vec<SlotColumn>,
}

impl Model for SlotRows {
    ghost use Rattle.std.specs.Prelude.{List};
    ghost use Rattle.sgl_values.specs.declared.fault.Val.{Val};
    ghost use Rattle.task_scratch.specs.Columns.{rows_in};

    ghost Value = { List (List Val) };

    ghost view = { λ it. rows_in it.columns.items };
}

impl SlotRows {
    /// Room for 64 rows with so many slots each. `Memory` is the only refusal.
    pub fn new(alloc: Global, width: u32) -> Result<SlotRows, Memory>
        ensures rows { IfOk result (λ rows. length rows ≡ TASK_ROWS) }
        ensures wide { IfOk result (AreWide width) }
    {
        let mut rows = SlotRows {
            columns: Vec::with_capacity(alloc, width as usize)?,
        };
        rows.resize(width)?;
        Ok(rows)
    }

    /// A slot of a row. It reads 0 where there is none.
    pub fn value(&self, row: u32, slot: u32) -> Val
        requires { row < TASK_ROWS }
        ensures { result ≡ slice_index_or (slots_in self.now row) slot (N (pos 0)) }
    {
        let at = slot as usize;
        if at < self.columns.len() {
            self.columns[at].value(row)
        } else {
            Val::N(Num::zero())
        }
    }

    /// Puts the slots of a row into a list of as many values.
    pub fn put_row(&self, row: u32, values: &mut [Val])
        requires row { row < TASK_ROWS }
        requires long { length values.old ≡ length (slots_in self.now row) }
        ensures { values.new ≡ slots_in self.now row }
    {
        for slot in 0..self.columns.len() {
            values[slot] = self.columns[slot].value(row);
        }
    }

    /// Sets a slot of a row, where there is one.
    pub fn set(&mut self, row: u32, slot: u32, value: Val)
        requires { row < TASK_ROWS }
        ensures set { IsRowSet row slot value self.old self.new }
        ensures long { length self.new ≡ length self.old }
    {
        let at = slot as usize;
        if at < self.columns.len() {
            self.columns[at].set(row, value);
        }
    }

    /// Sets a slot, where there is one, for the rows of a set to what lanes hold, and to numbers where that is unknown.
    pub fn set_lanes(&mut self, slot: u32, mask: u64, kind: Lanes, numbers: &[Num; LANES])
        ensures set { AreLanesSet slot mask kind numbers.now self.old self.new }
        ensures long { length self.new ≡ length self.old }
    {
        let at = slot as usize;
        if at < self.columns.len() {
            self.columns[at].set_lanes(mask, kind, numbers);
        }
    }

    /// Reads a slot of the rows of a set into lanes: numbers, or truths as 0 and 1. It reads 0 where there is no such slot.
    /// `Unknown`, where the values are not of one sort or a fault is among them, says nothing; of no row it tells numbers.
    pub fn lanes(&self, slot: u32, mask: u64, out: &mut [Num; LANES]) -> Lanes
        ensures held { HoldEach result mask out.new (λ k. slice_index_or (slots_in self.now k) slot (N (pos 0))) }
        ensures known { result ≡ sort_of mask (λ k. slice_index_or (slots_in self.now k) slot (N (pos 0))) }
    {
        let at = slot as usize;
        if at < self.columns.len() {
            self.columns[at].lanes(mask, out)
        } else {
            fill(Num::zero(), out);
            Lanes::Numbers
        }
    }

    /// The numbers of a slot where they stand, if each row of a set has one.
    pub fn lent(&self, slot: u32, mask: u64) -> Option<&[Num; LANES]>
        ensures { IfSome result (λ numbers. HoldEach Numbers mask numbers.now (λ k. slice_index_or (slots_in self.now k) slot (N (pos 0)))) }
    {
        let at = slot as usize;
        if at < self.columns.len() {
            self.columns[at].lent(mask)
        } else {
            None
        }
    }

    /// Becomes as `new` makes it for so many slots, but for the values, in the memory that it has as far as that goes.
    pub(crate) fn resize(&mut self, width: u32) -> Result<(), Memory>
        ensures rows { IfOk result (λ _. length self.new ≡ TASK_ROWS) }
        ensures wide { IfOk result (λ _. AreWide width self.new) }
    {
        self.columns.resize(width as usize, SlotColumn::zeros())?;
        Ok(())
    }
}
