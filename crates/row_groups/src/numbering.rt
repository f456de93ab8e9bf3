//! Numbers for keys, and rows linked by the numbers of their keys.
ghost use Rattle.std.specs.Prelude.{◌≡◌, ◌<◌, ◌≤◌, ◌++◌, ◌∷◌, [], ℤ, List, All, length, map, IfOk, OnOk, Some};
ghost use Rattle.std.specs.BTreeMap.{get, btree_map_len};
ghost use Rattle.std.specs.Cmp.Lexicographic.{slice_cmp};
ghost use Rattle.std.specs.Ordering.{int_cmp};
ghost use Rattle.sgl_values.specs.World.{Row};
ghost use Rattle.row_groups.specs.Keys.{four_of, row_values, IsNumbering};
ghost use Rattle.row_groups.specs.Numbered.{AreKeysNumbered, AreNumbered, KeepsNumbers};
ghost use Rattle.row_groups.specs.Places.{AreLinked};

use crate::key::row_keys;
use crate::means::Means;
use cell_links::CellLinks;
use env_table::World;
use sgl_typed::Attr;
use sgl_values::{Memory, Num, ROWS_MAX};
use std::alloc::Global;
use std::collections::BTreeMap;
use std::thread::Threads;

/// Numbers for the different keys of rows, and for each row that of its key.
#[derive(Debug, Drop)]
pub(crate) struct Numbered {
    pub(crate) numbers: BTreeMap<[Num; 4], u32>,
    pub(crate) groups: Vec<u32>,
}

/// The keys of all rows, numbered. Where no attribute is named, all rows have one key, and none is asked for its own.
pub(crate) fn number_rows<R: Threads + Sync>(
    means: &Means<R>,
    world: &World,
    attrs: &[Attr],
) -> Result<Numbered, Memory>
    requires { length world.now.world.rows ≤ ROWS_MAX }
    ensures { IfOk result (AreNumbered attrs.now world.now.world.rows) }
{
    if attrs.is_empty() {
        return number_alike(means.alloc, world);
    }
    let keys = row_keys(means, world, attrs)?;
    number_keys(means.alloc, keys.as_slice())
}

// The same where no attribute is named.
fn number_alike(alloc: Global, world: &World) -> Result<Numbered, Memory>
    ensures { IfOk result (AreNumbered [] world.now.world.rows) }
{
    let numbers = numbering_of_one(alloc, world.len())?;
    let groups = vec![in alloc; 0; world.len() as usize]?;
    Ok(Numbered { numbers, groups })
}

// A number for the key of so many rows that all have four zeros; none, where there is no row.
fn numbering_of_one(alloc: Global, rows: u32) -> Result<BTreeMap<[Num; 4], u32>, Memory>
    ensures keys { IfOk result (λ numbers. (all : List Row) → length all ≡ rows → IsNumbering numbers (map (λ row. four_of (row_values [] row)) all)) }
    ensures one { IfOk result (λ numbers. btree_map_len numbers ≤ 1) }
{
    let keys = [[Num::zero(); 4]];
    let Numbered { numbers, .. } = number_keys(alloc, &keys[..keys.len().min(rows as usize)])?;
    Ok(numbers)
}

// Numbers for the different keys, counted from 0 in the order in which they come, and for each key
// its number.
fn number_keys(alloc: Global, keys: &[[Num; 4]]) -> Result<Numbered, Memory>
    requires { length keys.now ≤ ROWS_MAX }
    ensures { IfOk result (AreKeysNumbered keys.now) }
{
    let mut numbers = BTreeMap::new(alloc);
    let mut groups = Vec::with_capacity(alloc, keys.len())?;
    for key in keys {
        groups.push(number_key(&mut numbers, key)?)?;
    }
    Ok(Numbered { numbers, groups })
}

// The number of a key, which is the next one where it has none.
fn number_key(numbers: &mut BTreeMap<[Num; 4], u32>, key: &[Num; 4]) -> Result<u32, Memory>
    requires { btree_map_len numbers.old < ROWS_MAX }
    ensures keys { OnOk result ((keys : List (List ℤ)) → IsNumbering numbers.old keys → IsNumbering numbers.new (keys ++ key.now ∷ [])) }
    ensures number { IfOk result (λ number. get (slice_cmp int_cmp) numbers.new key.now ≡ Some number) }
    ensures others { OnOk result (KeepsNumbers numbers.old numbers.new) }
{
    if let Some(number) = numbers.get(key) {
        return Ok(*number);
    }
    let next = numbers.len() as u32;
    numbers.insert(*key, next)?;
    Ok(next)
}

/// The rows linked by their group numbers, of which there are so many.
pub fn link_groups(alloc: Global, groups: &[u32], count: u32) -> Result<CellLinks, Memory>
    requires rows { length groups.now ≤ ROWS_MAX }
    requires few { count ≤ ROWS_MAX }
    requires below { All (λ group. group < count) groups.now }
    ensures { IfOk result (λ links. AreLinked links groups.now (length groups.now) count) }
{
    let mut links = CellLinks::new(alloc, groups.len() as u32, count)?;
    for row in 0..groups.len() {
        links.link(row as u32, groups[row]);
    }
    Ok(links)
}
