//! The next world, from the words of all cells.
ghost use Rattle.std.specs.Prelude.{◌≡◌, ℕ, ◌+◌, ◌-◌, ◌<◌, ◌≤◌, ◌++◌, None, Ok, false, length, map, take, List, IfErr, IfNone, IfOk};
ghost use Rattle.std.specs.Option.{option_map};
ghost use Rattle.sgl_values.specs.ItemOrder.{fault_cmp};
ghost use Rattle.sgl_values.specs.Least.{least_of};
ghost use Rattle.sgl_values.specs.World.{row_at};
ghost use Rattle.sgl_values.specs.declared.item.Item.{Item};
ghost use Rattle.sgl_typed.specs.Tick.{after_cells, after_post, cell_fault, cells_from, children_behind, combined_from, post_fault, posted, wide_cell};
ghost use Rattle.env_table.specs.Pushes.{CanPushLanes};
ghost use Rattle.env_table.specs.Table.{with_lanes, with_row, with_row_if};
ghost use Rattle.sgl_lanes.specs.Lanes.{has};
ghost use Rattle.tick_postprocess.specs.Answer.{answered, told, AreWords};
ghost use Rattle.tick_postprocess.specs.Blocks.{values_in, HasRow, IsBlock};
ghost use Rattle.tick_postprocess.specs.Rows.{births, bit, has_child, shortage_of, stay_of, Bears, CanPush, Grows, IsHalf, IsReady, Puts, PutsAll, TellsFate};
ghost use Rattle.tick_postprocess.specs.Runs.{cell_in, key_before, posted_rows, wide_in, IsOpen, IsRoom, IsRun, IsRunOut, PutsOn, PutsRun, RunsOn, TellsNext, TellsWide};
ghost use Rattle.tick_postprocess.specs.Unit.{IsEnding};

use crate::block::Block;
use crate::cells::first_wide_between;
use crate::fault::PostFault;
use crate::row::{Ending, fate_in, known_stays, post_row};
use crate::rules::{Fate, one_if};
use effect_combine::Combined;
use env_table::{World, WorldBuilder};
use sgl_evaluate::TickContext;
use sgl_lanes::LANES;
use sgl_typed::TScript;
use sgl_values::{CONSTS_MAX, Fault, Num, ROWS_MAX};

/// The next world, from the words of all cells: first the cells, then for each row all assignments of `post` at once over
/// its old values, and then over the new ones `spawn when`, its block and `remove when`. The rows that stay come first, and
/// behind them the children, whose keys count up from the last key plus 1. `combined` has the rows of the world and the
/// effect attributes of the script, and `out`, which is used up, is empty, of the next tick and the same width, with room
/// for twice the rows of the world or for 65,536, whichever is less. The answer is that of a tick whose items the words
/// stand for: `Cell` for the first cell outside the range of values, else `Script` for the least fault of `post`, else
/// `KeysSpent` or `UnitsFull`. It takes no memory. Where there are children, `post` is evaluated once more for the rows up
/// to the block of the last parent.
pub fn post(
    script: &TScript,
    world: &World,
    combined: &Combined,
    seed: u64,
    out: WorldBuilder,
) -> Result<World, PostFault>
    requires rows { combined.now.rows ≡ length world.now.world.rows }
    requires effects { combined.now.width ≡ length script.now.schema.effects }
    requires out { IsReady out world.now }
    ensures told { (items : List Item) → AreWords script.now.schema.effects combined.now items
        → answered result ≡ after_cells script.now world.now.world seed (combined_from script.now items 0 world.now.world.rows) }
    ensures width { IfOk result (λ next. next.width ≡ world.now.width) }
{
    let ending = Ending {
        tick: TickContext {
            script,
            world,
            seed,
        },
        combined,
    };
    let mut out = out;
    let counts = put_rows(&ending, &mut out)?;
    close_rows(&ending, counts, out)
}

/// The end behind all rows, of which so many stay and so many have a child: the refusal for too few keys or for too many
/// units, or the next world, with the children behind the rows that stay.
pub(crate) fn close_rows(
    ending: &Ending,
    counts: Counts,
    out: WorldBuilder,
) -> Result<World, PostFault>
    requires ending { IsEnding ending.now }
    requires half { IsHalf out ending.now.tick.world.now counts.stay counts.children }
    ensures told { (items : List Item) → AreWords ending.now.tick.script.now.schema.effects ending.now.combined.now items
        → cell_fault (combined_from ending.now.tick.script.now items 0 ending.now.tick.world.now.world.rows) ≡ None
        → PutsAll (posted_rows ending.now.tick.script.now ending.now.tick.world.now.world ending.now.tick.seed items) (Ok counts) out
        → answered result ≡ after_post ending.now.tick.world.now.world (posted_rows ending.now.tick.script.now ending.now.tick.world.now.world ending.now.tick.seed items) }
    ensures width { IfOk result (λ next. next.width ≡ ending.now.tick.world.now.width) }
{
    let last = ending.tick.world.last_key();
    if let Some(fault) = shortage(last, counts) {
        return Err(fault);
    }
    let mut out = out;
    put_children(ending, counts.children, &mut out);
    Ok(out.finish(last + counts.children))
}

/// The refusal for a cell, where that is told of a run.
pub(crate) fn wide_in(told: Result<Counts, PostFault>) -> Option<PostFault>
    ensures { result ≡ wide_in told }
{
    match told {
        Ok(_) => None,
        Err(fault) => match fault {
            PostFault::Cell { .. } => Some(fault),
            PostFault::Script { .. } => None,
            PostFault::KeysSpent { .. } => None,
            PostFault::UnitsFull { .. } => None,
        },
    }
}

/// How many rows stay, and how many have a child.
#[derive(Clone, Copy)]
pub(crate) struct Counts {
    pub stay: u32,
    pub children: u32,
}

// All rows behind `post`, which are put into an empty next world where they stay.
fn put_rows(ending: &Ending, out: &mut WorldBuilder) -> Result<Counts, PostFault>
    requires ending { IsEnding ending.now }
    requires out { IsReady out.old ending.now.tick.world.now }
    ensures half { IfOk result (λ counts. IsHalf out.new ending.now.tick.world.now counts.stay counts.children) }
    ensures wide { (items : List Item) → AreWords ending.now.tick.script.now.schema.effects ending.now.combined.now items
        → option_map told (wide_in result) ≡ cell_fault (combined_from ending.now.tick.script.now items 0 ending.now.tick.world.now.world.rows) }
    ensures put { (items : List Item) → AreWords ending.now.tick.script.now.schema.effects ending.now.combined.now items
        → cell_fault (combined_from ending.now.tick.script.now items 0 ending.now.tick.world.now.world.rows) ≡ None
        → PutsAll (map (posted ending.now.tick.script.now ending.now.tick.world.now.world ending.now.tick.seed) (combined_from ending.now.tick.script.now items 0 ending.now.tick.world.now.world.rows)) result out.new }
{
    put_run(ending, 0, ending.tick.world.len(), out)
}

/// The rows of a run behind `post`, which are put into an empty next world where they stay. The refusal for the first cell
/// outside the range comes before a fault.
pub(crate) fn put_run(
    ending: &Ending,
    first: u32,
    end: u32,
    out: &mut WorldBuilder,
) -> Result<Counts, PostFault>
    requires ending { IsEnding ending.now }
    requires run { IsRun ending.now.tick.world.now.world first end }
    requires out { IsRoom ending.now.tick.world.now first end out.old }
    ensures last { out.new.table.world.last_key ≤ key_before ending.now.tick.world.now.world end }
    ensures out { IfOk result (λ counts. IsRunOut ending.now.tick.world.now first end out.old counts out.new) }
    ensures wide { (items : List Item) → AreWords ending.now.tick.script.now.schema.effects ending.now.combined.now items
        → TellsWide (combined_from ending.now.tick.script.now items 0 ending.now.tick.world.now.world.rows) first end (wide_in result) }
    ensures put { (items : List Item) → AreWords ending.now.tick.script.now.schema.effects ending.now.combined.now items
        → cell_fault (combined_from ending.now.tick.script.now items 0 ending.now.tick.world.now.world.rows) ≡ None
        → PutsRun (posted_rows ending.now.tick.script.now ending.now.tick.world.now.world ending.now.tick.seed items) first end result out.new.table.world.rows }
{
    let _few = ending.tick.world.len();
    let mut block = Block::before(first);
    let mut stay = 0;
    let mut children = 0;
    while block.end < end {
        let counts = put_next(ending, &mut block, end, out)?;
        stay += counts.stay;
        children += counts.children;
    }
    Ok(Counts { stay, children })
}

// The next block of the rows of a run behind `post`, which are put into the next world where they stay. Before a fault comes the
// refusal for a cell of all rows from this block on.
fn put_next(
    ending: &Ending,
    block: &mut Block,
    end: u32,
    out: &mut WorldBuilder,
) -> Result<Counts, PostFault>
    requires ending { IsEnding ending.now }
    requires more { block.old.end < end }
    requires end { end ≤ length ending.now.tick.world.now.world.rows }
    requires out { IsOpen ending.now.tick.world.now block.old.end end out.old }
    ensures more { block.old.end < block.new.end }
    ensures within { block.new.end ≤ end }
    ensures last { out.new.table.world.last_key ≤ key_before ending.now.tick.world.now.world end }
    ensures put { PutsOn ending.now block.old.end block.new.end out.old result out.new }
    ensures wide { (items : List Item) → AreWords ending.now.tick.script.now.schema.effects ending.now.combined.now items
        → TellsNext (combined_from ending.now.tick.script.now items 0 ending.now.tick.world.now.world.rows) block.old.end block.new.end end result }
{
    let _few = ending.tick.world.len();
    let first = block.end;
    if let Some(fault) = block.begin_at(ending, first, end) {
        return Err(fault);
    }
    match put_block(ending, block, out) {
        Ok(counts) => Ok(counts),
        Err(fault) => match first_wide_between(ending, block.end, end) {
            Some(wide) => Err(wide),
            None => Err(fault),
        },
    }
}

// The rows of a block behind `post`, which are put into the next world where they stay.
fn put_block(ending: &Ending, block: &Block, out: &mut WorldBuilder) -> Result<Counts, PostFault>
    requires ending { IsEnding ending.now }
    requires block { IsBlock ending.now block.now }
    requires some { block.now.first < block.now.end }
    requires out { IsOpen ending.now.tick.world.now block.now.first block.now.end out.old }
    ensures last { out.new.table.world.last_key ≤ key_before ending.now.tick.world.now.world block.now.end }
    ensures script { IfErr result (λ fault. cell_in fault ≡ None) }
    ensures put { PutsOn ending.now block.now.first block.now.end out.old result out.new }
{
    match known_stays(ending, block) {
        Some(lanes) => Ok(put_lanes(ending, block, lanes, out)),
        None => put_each(ending, block, out),
    }
}

// The same where these are the rows that stay, and none has a fault or a child.
fn put_lanes(ending: &Ending, block: &Block, lanes: u64, out: &mut WorldBuilder) -> Counts
    requires ending { IsEnding ending.now }
    requires block { IsBlock ending.now block.now }
    requires some { block.now.first < block.now.end }
    requires out { IsOpen ending.now.tick.world.now block.now.first block.now.end out.old }
    requires stays { (items : List Item) (row : ℕ) → AreWords ending.now.tick.script.now.schema.effects ending.now.combined.now items → HasRow block.now row
        → wide_cell 0 (cells_from items row 0 ending.now.tick.script.now.schema.effects) ≡ None
        → TellsFate (posted ending.now.tick.script.now ending.now.tick.world.now.world ending.now.tick.seed record { row = row_at ending.now.tick.world.now.world row; cells = cells_from items row 0 ending.now.tick.script.now.schema.effects }) (Ok record { stays = has lanes (row - block.now.first); spawns = false }) (values_in ending.now block.now.changed (row - block.now.first)) }
    ensures { RunsOn ending.now block.now.first block.now.end out.old result out.new }
{
    let _few = ending.tick.world.len();
    let room = out.room();
    let count = block.end - block.first;
    push_lanes(ending, block.first, &block.changed, lanes, count, out);
    Counts {
        stay: room - out.room(),
        children: 0,
    }
}

// Puts the rows of the lanes of a set behind the last one, of the first lanes, so many.
fn push_lanes(
    ending: &Ending,
    first: u32,
    values: &[[Num; LANES]; CONSTS_MAX],
    lanes: u64,
    count: u32,
    out: &mut WorldBuilder,
)
    requires { CanPushLanes out.old ending.now.tick.world.now first 0 count ending.now.tick.world.now.width }
    ensures { out.new ≡ with_lanes out.old ending.now.tick.world.now.world first (take ending.now.tick.world.now.width values.now) lanes count }
{
    let world = ending.tick.world;
    let values: &[[Num; LANES]] = values;
    let columns = &values[..world.width() as usize];
    out.push_lanes(world, first, columns, lanes, count);
}

// The rows of a block behind `post`, one after the other.
fn put_each(ending: &Ending, block: &Block, out: &mut WorldBuilder) -> Result<Counts, PostFault>
    requires ending { IsEnding ending.now }
    requires block { IsBlock ending.now block.now }
    requires some { block.now.first < block.now.end }
    requires out { IsOpen ending.now.tick.world.now block.now.first block.now.end out.old }
    ensures last { out.new.table.world.last_key ≤ key_before ending.now.tick.world.now.world block.now.end }
    ensures script { IfErr result (λ fault. cell_in fault ≡ None) }
    ensures put { PutsOn ending.now block.now.first block.now.end out.old result out.new }
{
    let _few = ending.tick.world.len();
    let mut stay = 0;
    let mut children = 0;
    for row in block.first..block.end {
        let fate = put_row(ending, block, row, out)?;
        stay += one_if(fate.stays);
        children += one_if(fate.spawns);
    }
    Ok(Counts { stay, children })
}

// One row of a block behind `post`, which is put into the next world where it stays.
fn put_row(
    ending: &Ending,
    block: &Block,
    row: u32,
    out: &mut WorldBuilder,
) -> Result<Fate, PostFault>
    requires ending { IsEnding ending.now }
    requires block { IsBlock ending.now block.now }
    requires row { HasRow block.now row }
    requires push { CanPush out.old (row_at ending.now.tick.world.now.world row).key ending.now.tick.world.now.width }
    ensures grows { Grows out.old out.new (row_at ending.now.tick.world.now.world row).key (stay_of result) }
    ensures script { IfErr result (λ fault. cell_in fault ≡ None) }
    ensures put { (items : List Item) → AreWords ending.now.tick.script.now.schema.effects ending.now.combined.now items
        → wide_cell 0 (cells_from items row 0 ending.now.tick.script.now.schema.effects) ≡ None
        → Puts (posted ending.now.tick.script.now ending.now.tick.world.now.world ending.now.tick.seed record { row = row_at ending.now.tick.world.now.world row; cells = cells_from items row 0 ending.now.tick.script.now.schema.effects }) out.old result out.new }
{
    let key = ending.tick.world.key(row);
    match fate_in(ending, block, row) {
        Err(fault) => Err(PostFault::Script { key, fault }),
        Ok(fate) => {
            let mut new = [Num::zero(); CONSTS_MAX];
            let new = &mut new[..ending.tick.world.width() as usize];
            block.put_values(ending, row - block.first, new);
            push_if(fate.stays, out, key, new);
            Ok(fate)
        }
    }
}

// Why there can be no next world with so many rows that stay and so many children.
fn shortage(last: u32, counts: Counts) -> Option<PostFault>
    requires stay { counts.stay ≤ ROWS_MAX }
    requires children { counts.children ≤ ROWS_MAX }
    ensures keys { IfNone result (last + counts.children ≤ 4294967295) }
    ensures units { IfNone result (counts.stay + counts.children ≤ ROWS_MAX) }
    ensures told { option_map told result ≡ shortage_of last counts.stay counts.children }
{
    let Counts { stay, children } = counts;
    let units = stay + children;
    if children > u32::MAX - last {
        Some(PostFault::KeysSpent { last, children })
    } else if units > ROWS_MAX {
        Some(PostFault::UnitsFull { units })
    } else {
        None
    }
}

// Puts the children of all rows behind the rows that stay. No row has a fault, and so many have a child.
fn put_children(ending: &Ending, children: u32, out: &mut WorldBuilder)
    requires ending { IsEnding ending.now }
    requires width { out.old.table.width ≡ ending.now.tick.world.now.width }
    requires few { length out.old.table.world.rows + children ≤ ROWS_MAX }
    requires room { children ≤ out.old.room }
    requires above { out.old.table.world.last_key ≤ ending.now.tick.world.now.world.last_key }
    requires keys { ending.now.tick.world.now.world.last_key + children ≤ 4294967295 }
    ensures width { out.new.table.width ≡ out.old.table.width }
    ensures tick { out.new.table.world.tick ≡ out.old.table.world.tick }
    ensures last { out.new.table.world.last_key ≤ ending.now.tick.world.now.world.last_key + children }
    ensures put { (items : List Item) → AreWords ending.now.tick.script.now.schema.effects ending.now.combined.now items
        → cell_fault (combined_from ending.now.tick.script.now items 0 ending.now.tick.world.now.world.rows) ≡ None
        → post_fault (map (posted ending.now.tick.script.now ending.now.tick.world.now.world ending.now.tick.seed) (combined_from ending.now.tick.script.now items 0 ending.now.tick.world.now.world.rows)) ≡ None
        → children ≡ births (map (posted ending.now.tick.script.now ending.now.tick.world.now.world ending.now.tick.seed) (combined_from ending.now.tick.script.now items 0 ending.now.tick.world.now.world.rows))
        → out.new.table.world.rows ≡ out.old.table.world.rows ++ children_behind ending.now.tick.world.now.world.last_key (map (posted ending.now.tick.script.now ending.now.tick.world.now.world ending.now.tick.seed) (combined_from ending.now.tick.script.now items 0 ending.now.tick.world.now.world.rows)) }
{
    if children == 0 {
        return;
    }
    let mut block = Block::before(0);
    let mut left = children;
    let mut last = ending.tick.world.last_key();
    let rows = ending.tick.world.len();
    for row in 0..rows {
        if left > 0 {
            block.turn_again_to(ending, row, rows);
            let born = one_if(put_child(ending, &block, row, last + 1, out));
            last += born;
            left -= born;
        }
    }
}

// Puts the child of a row of a block into the next world with this key, where it has one.
fn put_child(ending: &Ending, block: &Block, row: u32, key: u32, out: &mut WorldBuilder) -> bool
    requires ending { IsEnding ending.now }
    requires block { IsBlock ending.now block.now }
    requires row { HasRow block.now row }
    requires push { CanPush out.old key ending.now.tick.world.now.width }
    ensures grows { Grows out.old out.new key (bit result) }
    ensures put { (items : List Item) → AreWords ending.now.tick.script.now.schema.effects ending.now.combined.now items
        → wide_cell 0 (cells_from items row 0 ending.now.tick.script.now.schema.effects) ≡ None
        → least_of fault_cmp (posted ending.now.tick.script.now ending.now.tick.world.now.world ending.now.tick.seed record { row = row_at ending.now.tick.world.now.world row; cells = cells_from items row 0 ending.now.tick.script.now.schema.effects }).faults ≡ None
        → Bears (posted ending.now.tick.script.now ending.now.tick.world.now.world ending.now.tick.seed record { row = row_at ending.now.tick.world.now.world row; cells = cells_from items row 0 ending.now.tick.script.now.schema.effects }) key out.old result out.new }
{
    let mut child = [Num::zero(); CONSTS_MAX];
    let child = &mut child[..ending.tick.world.width() as usize];
    let born = spawns(post_row(ending, block, row, child));
    push_if(born, out, key, child);
    born
}

// Whether a row has a child.
fn spawns(told: Result<Fate, Fault>) -> bool
    ensures { result ≡ has_child told }
{
    match told {
        Ok(fate) => fate.spawns,
        Err(_) => false,
    }
}

// Puts a row behind the last one where it is to be put, for which there is room, with a key above it.
fn push_if(is_put: bool, out: &mut WorldBuilder, key: u32, values: &[Num])
    requires { CanPush out.old key (length values.now) }
    ensures { out.new ≡ with_row_if is_put out.old key values.now }
{
    if is_put {
        push(out, key, values);
    }
}

/// Puts a row behind the last one, for which there is room, with a key above it.
pub(crate) fn push(out: &mut WorldBuilder, key: u32, values: &[Num])
    requires { CanPush out.old key (length values.now) }
    ensures { out.new ≡ with_row out.old key values.now }
{
    let _ = out.push(key, values);
}
