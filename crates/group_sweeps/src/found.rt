//! What a sweep found for a row.
ghost use Rattle.std.specs.Prelude.{◌≡◌, ◌≢◌, ◌<◌, All, IfNone, IfSome, length, slice_get};
ghost use Rattle.sgl_values.specs.World.{row_at};
ghost use Rattle.key_table.specs.Keys.{keys_of};
ghost use Rattle.sgl_typed.specs.Value.{attribute};
ghost use Rattle.group_sweeps.specs.Extremes.{target_of};
ghost use Rattle.group_sweeps.specs.Found.{IsFoundOf, fault_at, found_value};

use crate::sides::target;
use env_table::World;
use extreme_sweep::Pair;
use key_table::KeyTable;
use sgl_evaluate::attribute_of;
use sgl_typed::{Attr, TAgg};
use sgl_values::{Fault, Num, Val};

/// What was found, in four bytes: a row by its number, nothing, or a fault by its number.
#[derive(Clone, Copy, Debug)]
pub(crate) enum Found {
    Row(u16),
    Nothing,
    Fault(u16),
}

/// The row with the key of a pair.
pub(crate) fn found_of(world: &World, keys: &KeyTable, pair: Option<Pair>) -> Found
    requires { keys.now ≡ keys_of world.now.world }
    ensures { IsFoundOf world.now.world pair result }
{
    let _ = world.len();
    match pair {
        None => Found::Nothing,
        Some(pair) => match keys.find(world, pair.key) {
            None => Found::Nothing,
            Some(row) => Found::Row(row as u16),
        },
    }
}

/// The value for what was found. It takes no memory.
pub(crate) fn value_found(world: &World, agg: &TAgg, faults: &[Fault], found: Found) -> Val
    ensures { result ≡ found_value world.now.world (target_of agg.now.kind agg.now.attr) agg.now.otherwise faults.now found }
{
    match found {
        Found::Row(row) => Val::N(attribute_or_zero(
            world,
            u32::from(row),
            target(agg.kind, agg.attr),
        )),
        Found::Nothing => Val::N(agg.otherwise),
        Found::Fault(number) => fault_or_zero(faults, number),
    }
}

fn fault_or_zero(faults: &[Fault], number: u16) -> Val
    ensures { result ≡ fault_at (slice_get faults.now number) }
{
    match faults.get(usize::from(number)) {
        None => Val::N(Num::zero()),
        Some(fault) => Val::F(*fault),
    }
}

fn attribute_or_zero(world: &World, row: u32, attr: Attr) -> Num
    ensures { result ≡ attribute attr (row_at world.now.world row) }
{
    if row < world.len() {
        attribute_of(world, row, attr)
    } else {
        Num::zero()
    }
}
