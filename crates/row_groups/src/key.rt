//! The keys of rows: the values of up to four attributes, in a fixed length.
ghost use Rattle.std.specs.Prelude.{◌≡◌, ◌<◌, pos, length, map, slice_index_or, IfOk};
ghost use Rattle.sgl_values.specs.World.{row_at};
ghost use Rattle.row_groups.specs.Keys.{along as value_along, four_of, row_values};

use crate::means::Means;
use env_table::World;
use rayon::prelude::*;
use sgl_evaluate::attribute_of;
use sgl_typed::Attr;
use sgl_values::{Memory, Num};
use std::thread::Threads;
use thread_share::share_of;

// Fewer rows are not worth a thread.
const PIECE: usize = 16_384;

/// The value of an attribute of a row, and 0 where none is named.
pub fn along(world: &World, row: u32, axis: Option<Attr>) -> Num
    requires { row < length world.now.world.rows }
    ensures { result ≡ value_along axis (row_at world.now.world row) }
{
    match axis {
        None => Num::zero(),
        Some(attr) => attribute_of(world, row, attr),
    }
}

/// The key of each row: the values of the first four attributes, and 0 in the place of each that is missing.
pub(crate) fn row_keys<R: Threads + Sync>(
    means: &Means<R>,
    world: &World,
    attrs: &[Attr],
) -> Result<Vec<[Num; 4]>, Memory>
    ensures { IfOk result (λ keys. keys.items ≡ map (λ row. four_of (row_values attrs.now row)) world.now.world.rows) }
{
    let Means { rt, threads, alloc } = *means;
    let keys: Vec<[Num; 4]> = (0..world.len())
        .into_par_iter()
        .with_min_len(share_of(world.len() as usize, threads, PIECE))
        .map(
            |row: u32| -> [Num; 4]
                requires { row < length world.now.world.rows }
                ensures { result ≡ four_of (row_values attrs.entry.now (row_at world.entry.now.world row)) }
            { row_key(world, row, attrs) },
        )
        .collect(rt, alloc)?;
    Ok(keys)
}

// The key of a row.
fn row_key(world: &World, row: u32, attrs: &[Attr]) -> [Num; 4]
    requires { row < length world.now.world.rows }
    ensures { result ≡ four_of (row_values attrs.now (row_at world.now.world row)) }
{
    [
        value_of(world, row, attrs, 0),
        value_of(world, row, attrs, 1),
        value_of(world, row, attrs, 2),
        value_of(world, row, attrs, 3),
    ]
}

// The value of the attribute with this place, and 0 where there is none.
fn value_of(world: &World, row: u32, attrs: &[Attr], place: usize) -> Num
    requires { row < length world.now.world.rows }
    ensures { result ≡ slice_index_or (row_values attrs.now (row_at world.now.world row)) place (pos 0) }
{
    match attrs.get(place) {
        None => Num::zero(),
        Some(attr) => attribute_of(world, row, *attr),
    }
}
