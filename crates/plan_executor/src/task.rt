//! A task: its rows go from the root to the last node.
ghost use Rattle.std.specs.Prelude.{◌≡◌, ◌<◌, ◌≤◌, ◌+◌, ℕ, map, false, true, List, [], length, take, drop};
ghost use Rattle.sgl_values.specs.declared.item.Item.{Item as ItemOf};
ghost use Rattle.sgl_typed.specs.Items.{start_with};
ghost use Rattle.effect_board.specs.declared.view.View.{View as ViewOf};
ghost use Rattle.battle_algebra.specs.Fit.{tree_fits};
ghost use Rattle.battle_algebra.specs.Meaning.{reached, rows_items};
ghost use Rattle.battle_algebra.specs.Tree.{Tree, numbered};
ghost use Rattle.task_scratch.specs.Scratch.{AreWide};
ghost use Rattle.plan_executor.specs.Counting.{Counted};
ghost use Rattle.plan_executor.specs.Rooms.{HasBuffers};
ghost use Rattle.plan_executor.specs.Running.{AreEmpty, CanRun, KeepWidth};
ghost use Rattle.plan_executor.specs.Sinking.{bounds_of, state_of, Begins, Ended, Holds, IsReady, Pushes};

use crate::batching::give_rest;
use crate::outlet::Outlet;
use crate::run::Run;
use crate::step::{put, run_nodes};
use effect_board::Seat;
use sgl_lanes::first_lanes;
use sgl_values::TASK_ROWS;
use task_scratch::{Room, Sink};

// Takes all rows from all nodes.
fn clear(masks: &mut Vec<u64>)
    ensures sized { length masks.new.items ≡ length masks.old.items }
    ensures empty { AreEmpty masks.new.items }
{
    for node in 0..masks.len() {
        masks[node] = 0;
    }
}

/// The items of so many rows from the first on.
pub(crate) fn run_rows(run: &Run, count: u32, room: &mut Room, seat: &mut Seat, sink: &mut Sink)
    requires can { CanRun run.now }
    requires sized { length room.old.masks.items ≡ length run.now.nodes.now }
    requires some { 0 < length run.now.nodes.now }
    requires buffers { HasBuffers room.old }
    requires reach { length room.old.reach.items ≡ length run.now.nodes.now }
    requires ready { IsReady run.now.out.board.now seat.old sink.old.batch }
    requires count { count ≤ TASK_ROWS }
    requires within { run.now.first + count ≤ length run.now.tick.world.now.world.rows }
    ensures sized { length room.new.masks.items ≡ length run.now.nodes.now }
    ensures buffers { HasBuffers room.new }
    ensures long { length room.new.reach.items ≡ length room.old.reach.items }
    ensures wide { KeepWidth room.old.rows room.new.rows }
    ensures ready { IsReady run.now.out.board.now seat.new sink.new.batch }
    ensures reach { sink.new.over ≡ false → (tree : Tree) (width : ℕ) → run.now.nodes.now ≡ numbered tree 0 → tree_fits width tree ≡ true → AreWide width room.old.rows
        → Counted (reached tree (map (start_with width run.now.tick.script.now run.now.tick.world.now.world run.now.tick.seed) (take count (drop run.now.first run.now.tick.world.now.world.rows)))) (length run.now.nodes.now) room.old.reach.items room.new.reach.items }
    ensures pushes { (tree : Tree) (width : ℕ) → run.now.nodes.now ≡ numbered tree 0 → tree_fits width tree ≡ true → AreWide width room.old.rows
        → Pushes (bounds_of run.now.out) (state_of sink.old seat.old) (state_of sink.new seat.new)
        (rows_items tree width run.now.tick.script.now (take count (drop run.now.first run.now.tick.world.now.world.rows)) run.now.tick.world.now.world run.now.tick.seed) }
{
    clear(&mut room.masks);
    put(&mut room.masks, 0, first_lanes(count));
    run_nodes(run, room, seat, sink);
}

/// A task begins, behind the items of earlier ones.
pub(crate) fn begin(limit: u64, sink: &mut Sink)
    ensures begins { sink.old.batch.cells ≡ [] → Begins limit sink.new }
    ensures items { sink.new.items ≡ sink.old.items }
    ensures batch { sink.new.batch ≡ sink.old.batch }
{
    sink.least = None;
    sink.over = sink.items > limit;
}

/// A task ends: what the batch still holds is given, and given up where the items are past the limit.
pub(crate) fn finish(out: &Outlet, seat: &mut Seat, sink: &mut Sink)
    requires ready { IsReady out.now.board.now seat.old sink.old.batch }
    ensures ready { IsReady out.now.board.now seat.new sink.new.batch }
    ensures empty { sink.new.batch.cells ≡ [] }
    ensures over { sink.new.over ≡ sink.old.over }
    ensures ended { (before : ℕ) (start : ViewOf) (items : List ItemOf) → Holds (bounds_of out.now) before start (state_of sink.old seat.old) items
        → Ended (bounds_of out.now) before start (state_of sink.new seat.new) items }
{
    if sink.over {
        sink.batch.clear();
    } else {
        give_rest(out.board, seat, &mut sink.batch);
    }
}
