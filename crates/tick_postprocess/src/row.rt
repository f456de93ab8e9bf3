//! One row behind `post`.
ghost use Rattle.std.specs.Prelude.{◌≡◌, ℕ, ◌-◌, ◌<◌, ◌≤◌, None, Ok, false, length, List, IfSome, IsTrue};
ghost use Rattle.sgl_values.specs.World.{row_at};
ghost use Rattle.sgl_values.specs.declared.fault.Val.{Val as ValueOf};
ghost use Rattle.sgl_values.specs.declared.fault.Val.TheVariants.{B};
ghost use Rattle.sgl_values.specs.declared.item.Item.{Item};
ghost use Rattle.sgl_typed.specs.Tick.{cells_from, posted, wide_cell};
ghost use Rattle.sgl_lanes.specs.Lanes.{has, lane_of, Holds};
ghost use Rattle.tick_postprocess.specs.Answer.{AreWords};
ghost use Rattle.tick_postprocess.specs.Blocks.{values_in, HasRow, IsBlock};
ghost use Rattle.tick_postprocess.specs.Rows.{Tells, TellsFate};
ghost use Rattle.tick_postprocess.specs.Unit.{context_of, IsEnding};

use crate::block::Block;
use crate::lane_sets::known_lanes;
use crate::row_lanes::cells_of;
use crate::rules::{Fate, fate_of, removal_of, spawn_child};
use crate::unit::PostUnit;
use effect_combine::Combined;
use sgl_evaluate::TickContext;
use sgl_lanes::{LANES, LaneValues, Lanes, first_lanes, lanes_in_both, lanes_without, truth_at};
use sgl_values::{CONSTS_MAX, Fault, Num};

/// What `post` reads: that which the units of the tick read, and the words of its cells.
#[derive(Clone, Copy)]
pub(crate) struct Ending<'a> {
    pub tick: TickContext<'a>,
    pub combined: &'a Combined,
}

/// What becomes of a row of a block behind `post`, or its least fault.
pub(crate) fn fate_in(ending: &Ending, block: &Block, row: u32) -> Result<Fate, Fault>
    requires ending { IsEnding ending.now }
    requires block { IsBlock ending.now block.now }
    requires row { HasRow block.now row }
    ensures { (items : List Item) → AreWords ending.now.tick.script.now.schema.effects ending.now.combined.now items
        → wide_cell 0 (cells_from items row 0 ending.now.tick.script.now.schema.effects) ≡ None
        → TellsFate (posted ending.now.tick.script.now ending.now.tick.world.now.world ending.now.tick.seed record { row = row_at ending.now.tick.world.now.world row; cells = cells_from items row 0 ending.now.tick.script.now.schema.effects }) result (values_in ending.now block.now.changed (row - block.now.first)) }
{
    match known_fate(ending, block, row) {
        Some(fate) => Ok(fate),
        None => {
            let mut child = [Num::zero(); CONSTS_MAX];
            let child = &mut child[..ending.tick.world.width() as usize];
            post_row(ending, block, row, child)
        }
    }
}

/// The rows of a block that stay, where it is known of all of them that they have no fault and no child, and which stay.
pub(crate) fn known_stays(ending: &Ending, block: &Block) -> Option<u64>
    requires ending { IsEnding ending.now }
    requires block { IsBlock ending.now block.now }
    requires some { block.now.first < block.now.end }
    ensures { (items : List Item) (row : ℕ) → AreWords ending.now.tick.script.now.schema.effects ending.now.combined.now items → HasRow block.now row
        → wide_cell 0 (cells_from items row 0 ending.now.tick.script.now.schema.effects) ≡ None
        → IfSome result (λ lanes. TellsFate (posted ending.now.tick.script.now ending.now.tick.world.now.world ending.now.tick.seed record { row = row_at ending.now.tick.world.now.world row; cells = cells_from items row 0 ending.now.tick.script.now.schema.effects }) (Ok record { stays = has lanes (row - block.now.first); spawns = false }) (values_in ending.now block.now.changed (row - block.now.first))) }
{
    if !block.quiet {
        return None;
    }
    let script = ending.tick.script;
    let all = first_lanes(block.end - block.first);
    let spawning = known_lanes(script.spawn.is_some(), &block.spawning)?;
    if lanes_in_both(all, spawning) != 0 {
        return None;
    }
    let removed = known_lanes(script.removal.is_some(), &block.removal)?;
    Some(lanes_without(all, removed))
}

// What becomes of a row of which it is known that it has no fault and no child.
fn known_fate(ending: &Ending, block: &Block, row: u32) -> Option<Fate>
    requires ending { IsEnding ending.now }
    requires block { IsBlock ending.now block.now }
    requires row { HasRow block.now row }
    ensures { (items : List Item) → AreWords ending.now.tick.script.now.schema.effects ending.now.combined.now items
        → wide_cell 0 (cells_from items row 0 ending.now.tick.script.now.schema.effects) ≡ None
        → IfSome result (λ fate. TellsFate (posted ending.now.tick.script.now ending.now.tick.world.now.world ending.now.tick.seed record { row = row_at ending.now.tick.world.now.world row; cells = cells_from items row 0 ending.now.tick.script.now.schema.effects }) (Ok fate) (values_in ending.now block.now.changed (row - block.now.first))) }
{
    let lane = row - block.first;
    if block.faults[lane as usize].is_some() {
        return None;
    }
    let script = ending.tick.script;
    if !is_known_false(script.spawn.is_some(), &block.spawning, lane) {
        return None;
    }
    let removed = known_truth(script.removal.is_some(), &block.removal, lane)?;
    Some(Fate {
        stays: !removed,
        spawns: false,
    })
}

// Whether a condition is known to be false in a lane, as it is where there is none.
fn is_known_false(is_there: bool, known: &LaneValues, lane: u32) -> bool
    requires { lane < LANES }
    ensures { (value : ValueOf) → (is_there ≡ false → value ≡ B false) → Holds known.now.kind (lane_of known.now.numbers lane) value
        → IsTrue result → value ≡ B false }
{
    match known_truth(is_there, known, lane) {
        Some(truth) => !truth,
        None => false,
    }
}

// The value of a condition in a lane where it is known to be a truth, and false where there is none.
fn known_truth(is_there: bool, known: &LaneValues, lane: u32) -> Option<bool>
    requires { lane < LANES }
    ensures { (value : ValueOf) → (is_there ≡ false → value ≡ B false) → Holds known.now.kind (lane_of known.now.numbers lane) value
        → IfSome result (λ truth. value ≡ B truth) }
{
    if !is_there {
        return Some(false);
    }
    match known.kind {
        Lanes::Truths => Some(truth_at(&known.numbers, lane)),
        Lanes::Numbers => None,
        Lanes::Unknown => None,
    }
}

/// A row of a block behind `post`: it is told what becomes of it, or else its least fault. The values of its child, where it
/// has one, are put into the buffer.
pub(crate) fn post_row(
    ending: &Ending,
    block: &Block,
    row: u32,
    child: &mut [Num],
) -> Result<Fate, Fault>
    requires ending { IsEnding ending.now }
    requires block { IsBlock ending.now block.now }
    requires row { HasRow block.now row }
    requires child { length child.old ≡ ending.now.tick.world.now.width }
    ensures child { length child.new ≡ ending.now.tick.world.now.width }
    ensures told { (items : List Item) → AreWords ending.now.tick.script.now.schema.effects ending.now.combined.now items
        → wide_cell 0 (cells_from items row 0 ending.now.tick.script.now.schema.effects) ≡ None
        → Tells (posted ending.now.tick.script.now ending.now.tick.world.now.world ending.now.tick.seed record { row = row_at ending.now.tick.world.now.world row; cells = cells_from items row 0 ending.now.tick.script.now.schema.effects }) result (values_in ending.now block.now.changed (row - block.now.first)) child.new }
{
    let lane = row - block.first;
    if let Some(fault) = block.faults[lane as usize] {
        return Err(fault);
    }
    let cells = cells_of(&block.cells, lane);
    let mut values = [Num::zero(); CONSTS_MAX];
    let values = &mut values[..ending.tick.world.width() as usize];
    block.put_values(ending, lane, values);
    let unit = PostUnit {
        ending,
        key: ending.tick.world.key(row),
        values,
        cells: &cells[..ending.tick.script.schema.effects.len()],
    };
    child.copy_from_slice(unit.values);
    let spawning = spawn_child(
        &unit,
        &ending.tick.script.spawn,
        &block.spawning,
        lane,
        child,
    );
    let removal = removal_of(&unit, &ending.tick.script.removal, &block.removal, lane);
    fate_of(&spawning, &removal)
}
