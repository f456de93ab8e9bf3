//! The table of the keys of a world.
ghost use Rattle.std.specs.Prelude.{◌≡◌, ◌≢◌, ◌<◌, ◌≤◌, length, All, IfNone, IfOk, IfSome};
ghost use Rattle.rank_table.specs.Ranks.{IsRising};
ghost use Rattle.sgl_values.specs.World.{row_at};
ghost use Rattle.key_table.specs.Keys.{keys_of};

use boxcar::tag::{Names, Tag};
use env_table::World;
use rank_table::RankTable;
use sgl_values::{Memory, ROWS_MAX};
use std::alloc::Global;
use std::marker::Model;

/// The keys of a world, with a table that tells how many of them are below a key: its row, where a row has it. Contracts see
/// the keys as a list. Where it was made without the table the rows of the world are halved in place of that.
#[derive(Drop)]
pub struct KeyTable {
    ranks: Option<RankTable>,
    // The keys, for contracts alone.
    told: Tag,
}

impl Model for KeyTable {
    ghost use Rattle.std.specs.Prelude.{◌≡◌, map, pos, ℤ, List, IfSome};

    ghost Value = { List ℤ };

    ghost view = { λ it. map pos it.told.numbers };

    ghost invariant = { λ it. IfSome it.ranks (λ ranks. ranks ≡ map pos it.told.numbers) };
}

// The keys of a world, as a tag has them.
struct WorldKeys;

impl Names<World> for WorldKeys {
    ghost use Rattle.std.specs.Prelude.{map};

    ghost numbers = { λ table. map (λ row. row.key) table.world.rows };
}

impl KeyTable {
    /// The table of the keys of a world. It takes time and memory for a few buckets a row. `Memory` is its only refusal.
    pub fn build(alloc: Global, world: &World) -> Result<KeyTable, Memory>
        ensures { IfOk result (λ table. table ≡ keys_of world.now.world) }
    {
        let ranks = RankTable::build(alloc, keys_in(alloc, world)?)?;
        Ok(KeyTable {
            ranks: Some(ranks),
            told: Tag::of::<World, WorldKeys>(world),
        })
    }

    /// The same without the table, for whoever asks for few rows or for none. It takes no time and no memory.
    pub fn without_ranks(world: &World) -> KeyTable
        ensures { result ≡ keys_of world.now.world }
    {
        KeyTable {
            ranks: None,
            told: Tag::of::<World, WorldKeys>(world),
        }
    }

    /// The row with this key; `None` exactly where no row has it. With the table it looks at the keys of one bucket alone. It
    /// takes no memory.
    pub fn find(&self, world: &World, key: u32) -> Option<u32>
        requires { self.now ≡ keys_of world.now.world }
        ensures inside { IfSome result (λ row. row < length world.now.world.rows) }
        ensures found { IfSome result (λ row. (row_at world.now.world row).key ≡ key) }
        ensures missing { IfNone result (All (λ row. row.key ≢ key) world.now.world.rows) }
    {
        match &self.ranks {
            Some(ranks) => find_ranked(ranks, world, key),
            None => world.find(key),
        }
    }
}

// The same by the ranks of the keys.
fn find_ranked(ranks: &RankTable, world: &World, key: u32) -> Option<u32>
    requires { ranks.now ≡ keys_of world.now.world }
    ensures inside { IfSome result (λ row. row < length world.now.world.rows) }
    ensures found { IfSome result (λ row. (row_at world.now.world row).key ≡ key) }
    ensures missing { IfNone result (All (λ row. row.key ≢ key) world.now.world.rows) }
{
    let row = ranks.below(i64::from(key));
    if row < world.len() && world.key(row) == key {
        Some(row)
    } else {
        None
    }
}

// The keys of all rows, in their order.
fn keys_in(alloc: Global, world: &World) -> Result<Vec<i64>, Memory>
    ensures few { IfOk result (λ keys. length keys.items ≤ ROWS_MAX) }
    ensures rising { IfOk result (λ keys. IsRising keys.items) }
    ensures keys { IfOk result (λ keys. keys.items ≡ keys_of world.now.world) }
{
    let mut keys = Vec::with_capacity(alloc, world.len() as usize)?;
    for row in 0..world.len() {
        keys.push(i64::from(world.key(row)))?;
    }
    Ok(keys)
}
