//! `World`: the units of a tick as rows by rising key, read by row, attribute or key.
ghost use Rattle.std.specs.Prelude.{◌≡◌, ◌≢◌, ◌<◌, ◌≤◌, ◌+◌, ℕ, ℤ, pos, length, slice_index_or, IfNone, IfSome, IfOk, All};
ghost use Rattle.sgl_values.specs.World.{row_at};
ghost use Rattle.env_table.specs.Arrays.{table_of, IsStored};
ghost use Rattle.env_table.specs.Table.{IsTable, Table};

use crate::arrays::{Arrays, take_each};
use sgl_values::{CONSTS_MAX, Memory, Num, ROWS_MAX};
use std::alloc::Global;
use std::marker::Model;

/// The units of a tick: at most 65,536 rows by rising key, each with as many values as the table is wide, which is at
/// most 32. No key is above the last key, which is the greatest that any unit of the run has had. Rows and attributes are
/// numbered from 0.
#[derive(Debug, Drop)]
pub struct World {
    pub(crate) arrays: Arrays,
}

impl Model for World {
    ghost Value = { Table };

    ghost view = { λ w. table_of w.arrays };

    ghost invariant = { λ w. IsStored w.arrays };
}

impl World {
    /// The world that these arrays hold.
    pub(crate) fn of(arrays: Arrays) -> World
        requires { IsStored arrays }
        ensures { result ≡ table_of arrays }
    {
        World { arrays }
    }

    /// The number of the tick.
    pub fn tick(&self) -> u16
        ensures value { result ≡ self.now.world.tick }
        ensures table { IsTable self.now }
    {
        self.arrays.tick
    }

    /// The greatest key that any unit of the run has had, and 0 where there was none. No key of a row is above it.
    pub fn last_key(&self) -> u32
        ensures value { result ≡ self.now.world.last_key }
        ensures table { IsTable self.now }
    {
        self.arrays.last_key
    }

    /// The number of rows, at most 65,536.
    pub fn len(&self) -> u32
        ensures value { result ≡ length self.now.world.rows }
        ensures few { result ≤ ROWS_MAX }
        ensures table { IsTable self.now }
    {
        self.arrays.keys.len() as u32
    }

    /// The number of values in each row, at most 32.
    pub fn width(&self) -> u32
        ensures value { result ≡ self.now.width }
        ensures narrow { result ≤ CONSTS_MAX }
        ensures table { IsTable self.now }
    {
        self.arrays.width
    }

    /// The key of a row, from 1 on.
    pub fn key(&self, row: u32) -> u32
        requires { row < length self.now.world.rows }
        ensures { result ≡ (row_at self.now.world row).key }
    {
        self.arrays.keys[row as usize]
    }

    /// The value of an attribute of a row.
    pub fn at(&self, row: u32, attr: u32) -> Num
        requires row { row < length self.now.world.rows }
        requires attr { attr < self.now.width }
        ensures { result ≡ slice_index_or (row_at self.now.world row).values attr (pos 0) }
    {
        self.arrays.values[row as usize * self.arrays.width as usize + attr as usize]
    }

    /// Puts the values of a row into a buffer of their number.
    pub fn put_values(&self, row: u32, buffer: &mut [Num])
        requires row { row < length self.now.world.rows }
        requires buffer { length buffer.old ≡ self.now.width }
        ensures { buffer.new ≡ (row_at self.now.world row).values }
    {
        let width = self.arrays.width as usize;
        let first = row as usize * width;
        buffer.copy_from_slice(&self.arrays.values[first..first + width]);
    }

    /// Puts the values of an attribute into a column, for the rows from one on: as many as there are rows and the column has
    /// places. The other places stay.
    pub fn put_column(&self, first: u32, attr: u32, column: &mut [Num])
        requires { attr < self.now.width }
        ensures put { (k : ℕ) → k < length column.old → first + k < length self.now.world.rows
            → slice_index_or column.new k (pos 0) ≡ slice_index_or (row_at self.now.world (first + k)).values attr (pos 0) }
        ensures rest { (k : ℕ) (d : ℤ) → length self.now.world.rows ≤ first + k → slice_index_or column.new k d ≡ slice_index_or column.old k d }
    {
        let width = self.arrays.width as usize;
        let from = first as usize * width + attr as usize;
        let rows = self.len().saturating_sub(first) as usize;
        let count = rows.min(column.len());
        take_each(
            self.arrays.values.as_slice(),
            from,
            width,
            &mut column[..count],
        );
    }

    /// A copy of the world. `Memory` is its only refusal.
    pub fn copy(&self, alloc: Global) -> Result<World, Memory>
        ensures { IfOk result (λ copy. copy ≡ self.now) }
    {
        let keys = Vec::from_slice(alloc, self.arrays.keys.as_slice())?;
        let values = Vec::from_slice(alloc, self.arrays.values.as_slice())?;
        Ok(World::of(Arrays {
            tick: self.arrays.tick,
            width: self.arrays.width,
            last_key: self.arrays.last_key,
            keys,
            values,
        }))
    }

    /// The row with this key; `None` exactly where no row has it. Where no key is left out before it one row is looked
    /// at, and else the rows are halved.
    pub fn find(&self, key: u32) -> Option<u32>
        ensures inside { IfSome result (λ row. row < length self.now.world.rows) }
        ensures found { IfSome result (λ row. (row_at self.now.world row).key ≡ key) }
        ensures missing { IfNone result (All (λ row. row.key ≢ key) self.now.world.rows) }
    {
        match self.counted(key) {
            Some(row) => Some(row),
            None => self.halved(key),
        }
    }

    // The row with a key, where it stands as far behind the first row as its key is above the first one.
    fn counted(&self, key: u32) -> Option<u32>
        ensures inside { IfSome result (λ row. row < length self.now.world.rows) }
        ensures found { IfSome result (λ row. (row_at self.now.world row).key ≡ key) }
    {
        if self.len() == 0 {
            return None;
        }
        let row = key.checked_sub(self.key(0))?;
        if row < self.len() && self.key(row) == key {
            Some(row)
        } else {
            None
        }
    }

    // The row with a key, found by halving.
    fn halved(&self, key: u32) -> Option<u32>
        ensures inside { IfSome result (λ row. row < length self.now.world.rows) }
        ensures found { IfSome result (λ row. (row_at self.now.world row).key ≡ key) }
        ensures missing { IfNone result (All (λ row. row.key ≢ key) self.now.world.rows) }
    {
        match self.arrays.keys.as_slice().binary_search(&key) {
            Ok(row) => Some(row as u32),
            Err(_) => None,
        }
    }
}
