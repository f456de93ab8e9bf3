//! One tick by the plain engine.
ghost use Rattle.std.specs.Prelude.{◌≡◌, ◌∷◌, ◌<◌, ◌≤◌, ◌≢◌, [], All, Err, IfErr, IfOk, Ok, Some, length, true};
ghost use Rattle.std.specs.Ordering.{is_gt};
ghost use Rattle.effect_combine.specs.Combined.{IsWithin};
ghost use Rattle.sgl_typed.specs.Tick.{after_cells, combined_from, item_faults, tick};
ghost use Rattle.sgl_typed.specs.WrittenOut.{is_written_out};
ghost use Rattle.sgl_values.specs.ItemOrder.{item_fault_cmp};
ghost use Rattle.sgl_values.specs.Least.{least_of, lesser_of};

use crate::ending::told;
use crate::settings::EngineSettings;
use crate::tags::tags_of;
use effect_combine::{combine_items, combined_words_stand};
use env_table::{World, WorldBuilder};
use sgl_plain::plain_items;
use sgl_typed::{TScript, TickFault};
use sgl_values::{ITEMS_MAX, Item, ItemFault, TICKS_MAX};
use std::alloc::Global;
use std::cmp::Ordering;
use tick_postprocess::post;

/// The world behind a tick with these settings, or the refusal of the tick: the first that applies of `Items`,
/// `Script`, `Cell`, `Post`, `KeysSpent` and `UnitsFull`. `Memory` may come in place of either.
pub(crate) fn next_world(
    alloc: Global,
    script: &TScript,
    world: &World,
    settings: EngineSettings,
) -> Result<World, TickFault>
    requires written_out { is_written_out script.now ≡ true }
    requires width { world.now.width ≡ length script.now.schema.consts }
    requires few { settings.items ≤ ITEMS_MAX }
    requires early { world.now.world.tick < TICKS_MAX }
    ensures next { IfOk result (λ next. tick script.now world.now.world settings.seed settings.items ≡ Ok next.world) }
    ensures width { IfOk result (λ next. next.width ≡ world.now.width) }
    ensures fault { IfErr result (λ fault. fault ≢ TickFault.Memory → tick script.now world.now.world settings.seed settings.items ≡ Err fault) }
{
    let EngineSettings {
        seed,
        items: limit,
        ..
    } = settings;
    let Ok(items) = plain_items(alloc, script, world, seed, limit) else {
        return Err(TickFault::Memory);
    };
    if items.over {
        return Err(TickFault::Items { limit });
    }
    match least_fault(items.items.as_slice()) {
        Some(item) => Err(TickFault::Script {
            key: item.key,
            fault: item.fault,
        }),
        None => end_items(alloc, script, world, seed, items.items.as_slice()),
    }
}

// The end of a tick whose items are these.
fn end_items(
    alloc: Global,
    script: &TScript,
    world: &World,
    seed: u64,
    items: &[Item],
) -> Result<World, TickFault>
    requires within { All (IsWithin (length world.now.world.rows) (length script.now.schema.effects)) items.now }
    requires few { length items.now ≤ ITEMS_MAX }
    requires early { world.now.world.tick < TICKS_MAX }
    ensures next { IfOk result (λ next. after_cells script.now world.now.world seed (combined_from script.now items.now 0 world.now.world.rows) ≡ Ok next.world) }
    ensures width { IfOk result (λ next. next.width ≡ world.now.width) }
    ensures fault { IfErr result (λ fault. fault ≢ TickFault.Memory → after_cells script.now world.now.world seed (combined_from script.now items.now 0 world.now.world.rows) ≡ Err fault) }
{
    let Ok(tags) = tags_of(alloc, script.schema.effects.as_slice()) else {
        return Err(TickFault::Memory);
    };
    let Ok(combined) = combine_items(alloc, world.len(), &tags, items) else {
        return Err(TickFault::Memory);
    };
    let Ok(out) = WorldBuilder::with_room(alloc, world.tick() + 1, world.width(), world.len() * 2)
    else {
        return Err(TickFault::Memory);
    };
    combined_words_stand();
    match post(script, world, &combined, seed, out) {
        Ok(next) => Ok(next),
        Err(fault) => Err(told(fault)),
    }
}

// The least fault among items, and of equals the first.
fn least_fault(items: &[Item]) -> Option<ItemFault>
    ensures { result ≡ least_of item_fault_cmp (item_faults items.now) }
{
    let mut least = None;
    for at in (0..items.len()).rev() {
        least = take_fault(items[at], least);
    }
    least
}

// The lesser of the fault of an item, where it is one, and of those behind it.
fn take_fault(item: Item, least: Option<ItemFault>) -> Option<ItemFault>
    ensures { result ≡ lesser_of item_fault_cmp (least_of item_fault_cmp (item_faults (item ∷ []))) least }
{
    match item {
        Item::Effect { .. } => least,
        Item::Faulty(fault) => Some(lesser(fault, least)),
    }
}

// The lesser of a fault and of one that may be there; of equals the first.
fn lesser(fault: ItemFault, other: Option<ItemFault>) -> ItemFault
    ensures { Some result ≡ lesser_of item_fault_cmp (Some fault) other }
{
    match other {
        None => fault,
        Some(other) => {
            if fault.cmp(&other) == Ordering::Greater {
                other
            } else {
                fault
            }
        }
    }
}
