//! The slots of a unit, set back at the end of a block.
ghost use Rattle.std.specs.Prelude.{◌≡◌, ◌≤◌, [], drop, length, pos, replicate, slice_set, take, IfOk, OnOk};
ghost use Rattle.sgl_values.specs.declared.fault.Val.TheVariants.{N};
ghost use Rattle.sgl_plain.specs.Restored.{restored, IsLogged};

use sgl_values::{Memory, Num, Val};
use std::alloc::Global;

/// What a slot held before it was set.
#[derive(Clone, Copy)]
pub struct Earlier {
    pub slot: u32,
    pub value: Val,
}

/// The slots of a unit, with a log of what they held before, by which a block sets them back at its end.
#[derive(Drop)]
pub struct Slots {
    pub values: Vec<Val>,
    pub log: Vec<Earlier>,
}

/// So many slots, of which none is set.
pub fn no_slots(alloc: Global, slots: u32) -> Result<Slots, Memory>
    ensures { IfOk result (λ s. s.values.items ≡ replicate slots (N (pos 0))) }
{
    Ok(Slots {
        values: vec![in alloc; Val::N(Num::zero()); slots as usize]?,
        log: Vec::new(alloc),
    })
}

/// Sets a slot, where there is one, and logs what it held.
pub fn set_slot(slots: &mut Slots, slot: u32, value: Val) -> Result<(), Memory>
    ensures set { OnOk result (slots.new.values.items ≡ slice_set slots.old.values.items slot value) }
    ensures logged { OnOk result (IsLogged slots.old slots.new) }
{
    let at = slot as usize;
    if at < slots.values.len() {
        let earlier = Earlier {
            slot,
            value: slots.values[at],
        };
        slots.log.push(earlier)?;
        slots.values[at] = value;
    }
    Ok(())
}

/// Sets the slots back to what they held when the log had this length.
pub fn restore(slots: &mut Slots, mark: usize)
    requires { mark ≤ length slots.old.log.items }
    ensures values { slots.new.values.items ≡ restored (drop mark slots.old.log.items) slots.old.values.items }
    ensures log { slots.new.log.items ≡ take mark slots.old.log.items }
{
    undo(&mut slots.values, &slots.log[mark..]);
    slots.log.truncate(mark);
}

// Writes the earlier values back, the last of them first.
fn undo(values: &mut Vec<Val>, log: &[Earlier])
    ensures { values.new.items ≡ restored log.now values.old.items }
{
    for at in (0..log.len()).rev() {
        write_back(values, log[at]);
    }
}

fn write_back(values: &mut Vec<Val>, earlier: Earlier)
    ensures { values.new.items ≡ slice_set values.old.items earlier.slot earlier.value }
{
    let at = earlier.slot as usize;
    if at < values.len() {
        values[at] = earlier.value;
    }
}
