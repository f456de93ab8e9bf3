//! The items of a tick, unit by unit.
ghost use Rattle.std.specs.Prelude.{◌≡◌, [], false, true, length, nat_lt, pos, replicate, take, All, IfOk, OnOk};
ghost use Rattle.sgl_values.specs.World.{row_at};
ghost use Rattle.sgl_values.specs.declared.fault.Val.TheVariants.{N};
ghost use Rattle.sgl_typed.specs.Items.{tick_items, unit_items};
ghost use Rattle.sgl_typed.specs.WrittenOut.{is_written_out};
ghost use Rattle.effect_combine.specs.Combined.{IsWithin};
ghost use Rattle.sgl_evaluate.specs.Frame.{IsFrame};
ghost use Rattle.sgl_plain.specs.Collected.{collected, Adds};

use crate::collected::Collected;
use crate::slots::{Slots, no_slots};
use crate::statements::block;
use env_table::World;
use sgl_evaluate::{Frame, TickContext};
use sgl_typed::TScript;
use sgl_values::{Item, List, Memory};
use std::alloc::Global;

/// The items of a tick, and whether there are more than the limit. Where there are, `items` has the first of them, as
/// many as the limit.
#[derive(Drop)]
pub struct PlainTick {
    pub items: List<Item>,
    pub over: bool,
}

/// The items of a tick of a script that is written out, unit by unit in rising key. `over` is true exactly where the tick
/// has more items than the limit; then the work stops at the first item past it. `Memory` is the only refusal.
///
/// An aggregate and a clause of an action go once over the world for each call.
pub fn plain_items(
    alloc: Global,
    script: &TScript,
    world: &World,
    seed: u64,
    limit: u64,
) -> Result<PlainTick, Memory>
    requires written_out { is_written_out script.now ≡ true }
    requires width { world.now.width ≡ length script.now.schema.consts }
    ensures over { IfOk result (λ tick. tick.over ≡ nat_lt limit (length (tick_items script.now world.now.world seed))) }
    ensures items { IfOk result (λ tick. tick.over ≡ false → tick.items ≡ tick_items script.now world.now.world seed) }
    ensures first { IfOk result (λ tick. tick.items ≡ take limit (tick_items script.now world.now.world seed)) }
    ensures within { IfOk result (λ tick. All (IsWithin (length world.now.world.rows) (length script.now.schema.effects)) tick.items) }
{
    let tick = TickContext {
        script,
        world,
        seed,
    };
    let collected = collect(alloc, tick, limit)?;
    let over = collected.is_over();
    Ok(PlainTick {
        items: collected.into_items(),
        over,
    })
}

fn collect(alloc: Global, tick: TickContext, limit: u64) -> Result<Collected, Memory>
    ensures { IfOk result (λ out. out ≡ collected limit (tick_items tick.entry.script.now tick.entry.world.now.world tick.entry.seed)) }
{
    let mut slots = no_slots(alloc, tick.script.slots)?;
    let mut out = Collected::new(alloc, limit);
    for unit in 0..tick.world.len() {
        if out.is_over() {
            return Ok(out);
        }
        let acting = Frame {
            tick,
            unit,
            slots: &[],
            target: unit,
            combined: &[],
        };
        act_as(alloc, &acting, &mut slots, &mut out)?;
    }
    Ok(out)
}

// The items of one unit, whose slots are not set before and not behind.
fn act_as(
    alloc: Global,
    acting: &Frame,
    slots: &mut Slots,
    out: &mut Collected,
) -> Result<(), Memory>
    requires unit { IsFrame acting.now }
    requires target { acting.now.target ≡ acting.now.unit }
    requires combined { acting.now.combined.now ≡ [] }
    requires slots { slots.old.values.items ≡ replicate acting.now.tick.script.now.slots (N (pos 0)) }
    ensures items { OnOk result (Adds out.old out.new (unit_items acting.now.tick.script.now acting.now.tick.world.now.world acting.now.tick.seed (row_at acting.now.tick.world.now.world acting.now.unit))) }
    ensures slots { OnOk result (slots.new.values.items ≡ slots.old.values.items) }
{
    block(
        alloc,
        acting,
        slots,
        acting.tick.script.main.as_slice(),
        out,
    )
}
