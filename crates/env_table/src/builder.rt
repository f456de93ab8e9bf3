//! `WorldBuilder`: rows are added by rising key, and become a world.
ghost use Rattle.std.specs.Prelude.{◌≡◌, ◌+◌, ◌-◌, ◌*◌, ◌<◌, ◌≤◌, ◌==◌, ℕ, true, false, min, [], length, vec_len, vec_capacity, IfOk, IfErr, OnOk, OnErr};
ghost use Rattle.std.specs.Int.{bit_at};
ghost use Rattle.env_table.specs.Table.{empty_building, with_lanes, with_last_key, with_row, with_rows, with_run, IsTable};

use crate::arrays::Arrays;
use crate::table::World;
use sgl_values::{CONSTS_MAX, Memory, Num, ROWS_MAX};
use std::alloc::Global;
use std::marker::Model;

// The most rows that are put at once: a few times more, and the memory that they take would be filled with 0 by an instruction
// that is slow to start.
const RUN_MAX: u32 = 32;

/// Why a row is refused. The first of these that applies is told.
#[derive(Clone, Copy, Debug, PartialEq, Eq)]
pub enum PushFault {
    /// The world has 65,536 rows.
    Full,
    /// The key is not above that of the last row, which is told, and is 0 where there is no row.
    Key { last: u32 },
    /// Want of memory. It never comes where the builder has room.
    Memory,
}

/// A world to which rows are added by rising key.
#[derive(Debug, Drop)]
pub struct WorldBuilder {
    pub(crate) arrays: Arrays,
    pub(crate) room: u32,
}

impl Model for WorldBuilder {
    ghost use Rattle.env_table.specs.Table.{Building};

    ghost Value = { Building };

    ghost use Rattle.env_table.specs.Arrays.{table_of, IsStored, HasRoomFor};

    ghost view = { λ b. record { table = table_of b.arrays; room = b.room } };

    ghost invariant = { λ b. IsStored b.arrays × HasRoomFor b.arrays b.room };
}

impl WorldBuilder {
    ghost use Rattle.env_table.specs.Pushes.{CanPushAll, CanPushLanes, IsAccepted, IsRefusedWith};

    /// A builder without rows for the world of a tick, of at most 32 values in a row, with room for so many rows, and
    /// no more than 65,536. It takes the memory for them; `Memory` is its only refusal.
    pub fn with_room(alloc: Global, tick: u16, width: u32, rows: u32) -> Result<Self, Memory>
        requires { width ≤ CONSTS_MAX }
        ensures { IfOk result (λ b. b ≡ empty_building tick width (min rows ROWS_MAX)) }
    {
        let room = rows.min(ROWS_MAX);
        let keys = Vec::with_capacity(alloc, room as usize)?;
        let values = Vec::with_capacity(alloc, room as usize * width as usize)?;
        Ok(WorldBuilder::without_rows(tick, width, room, keys, values))
    }

    /// A builder without rows in this memory, which has room for so many.
    pub(crate) fn without_rows(
        tick: u16,
        width: u32,
        room: u32,
        keys: Vec<u32>,
        values: Vec<Num>,
    ) -> WorldBuilder
        requires width { width ≤ CONSTS_MAX }
        requires empty { (keys.items ≡ []) × (values.items ≡ []) }
        requires keys_fit { vec_len keys + room ≤ vec_capacity keys }
        requires values_fit { vec_len values + room * width ≤ vec_capacity values }
        ensures { result ≡ empty_building tick width room }
    {
        let arrays = Arrays {
            tick,
            width,
            last_key: 0,
            keys,
            values,
        };
        WorldBuilder { arrays, room }
    }

    /// The number of rows that can be added without taking memory.
    pub fn room(&self) -> u32
        ensures value { result ≡ self.now.room }
        ensures table { IsTable self.now.table }
    {
        self.room
    }

    /// Puts a row behind the last, where the world has less than 65,536 rows and the key is above the last one. It takes
    /// no memory where there is room, and then there is room for one row less. A refusal changes nothing.
    pub fn push(&mut self, key: u32, vals: &[Num]) -> Result<(), PushFault>
        requires { length vals.now ≡ self.old.table.width }
        ensures ok { OnOk result (self.new ≡ with_row self.old key vals.now) }
        ensures accepted { OnOk result (IsAccepted self.old.table.world key) }
        ensures err { OnErr result (self.new ≡ self.old) }
        ensures refused { IfErr result (IsRefusedWith self.old key) }
    {
        if self.arrays.keys.len() >= ROWS_MAX as usize {
            return Err(PushFault::Full);
        }
        let last = self.arrays.last_key;
        if key <= last {
            return Err(PushFault::Key { last });
        }
        if let Err(Memory) = self.arrays.reserve_row() {
            return Err(PushFault::Memory);
        }
        self.arrays.put_row(key, vals);
        self.room = self.room.saturating_sub(1);
        Ok(())
    }

    /// Puts all rows of a world behind the last, where there is room for them and their keys are above the last one, and
    /// takes no memory. The last key is then that of this world.
    pub fn push_all(&mut self, more: &World)
        requires { CanPushAll self.old more.now }
        ensures { self.new ≡ with_rows self.old more.now }
    {
        let count = more.len();
        self.arrays.put_rows(&more.arrays);
        self.room = self.room.saturating_sub(count);
    }

    /// Puts a row behind the last for each of the first lanes, so many, that is in a set. It has the key of the row of a world
    /// that stands as far behind the first one, and the numbers of its lane, of which there is a column for each attribute.
    /// There is room for all of these lanes, and their keys are above the last one. It takes no memory.
    pub fn push_lanes(
        &mut self,
        world: &World,
        first: u32,
        columns: &[[Num; 64]],
        lanes: u64,
        count: u32,
    )
        requires { CanPushLanes self.old world.now first 0 count (length columns.now) }
        ensures { self.new ≡ with_lanes self.old world.now.world first columns.now lanes count }
    {
        let _few = world.len();
        let mut lane = 0;
        while lane < count {
            let end = run_end(lanes, lane, count.min(lane + RUN_MAX));
            if end > lane {
                self.push_run(world, first, columns, lane, end);
                lane = end;
            } else {
                lane += 1;
            }
        }
    }

    // The same for the lanes from one to before the end, all of which are in the set.
    fn push_run(&mut self, world: &World, first: u32, columns: &[[Num; 64]], lane: u32, end: u32)
        requires some { lane < end }
        requires can { CanPushLanes self.old world.now first lane end (length columns.now) }
        ensures { self.new ≡ with_run self.old world.now.world first columns.now lane (end - lane) }
    {
        let rows = end - lane;
        let from = first as usize + lane as usize;
        let keys = &world.arrays.keys[from..from + rows as usize];
        self.arrays.put_lanes(keys, lane as usize, columns);
        self.room = self.room.saturating_sub(rows);
    }

    /// The world of the rows so far, with this last key, which is not below the key of the last row.
    pub fn finish(self, last_key: u32) -> World
        requires { self.table.world.last_key ≤ last_key }
        ensures { result ≡ with_last_key self.table last_key }
    {
        let WorldBuilder { arrays, room: _ } = self;
        let Arrays {
            tick,
            width,
            last_key: _,
            keys,
            values,
        } = arrays;
        World::of(Arrays {
            tick,
            width,
            last_key,
            keys,
            values,
        })
    }
}

// The first lane from one on that is not in a set, up to an end.
fn run_end(lanes: u64, lane: u32, end: u32) -> u32
    requires order { lane ≤ end }
    requires few { end ≤ 64 }
    ensures from { lane ≤ result }
    ensures upto { result ≤ end }
    ensures in_set { (k : ℕ) → lane ≤ k → k < result → (bit_at lanes k == 1) ≡ true }
    ensures ends { result < end → (bit_at lanes result == 1) ≡ false }
{
    for at in lane..end {
        if (lanes >> at) & 1 != 1 {
            return at;
        }
    }
    end
}
