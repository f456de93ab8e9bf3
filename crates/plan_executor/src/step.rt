//! The nodes of a plan, one after the other.
ghost use Rattle.std.specs.Prelude.{◌≡◌, ◌<◌, false, ℕ, List, [], length, slice_index_or, slice_set};
ghost use Rattle.sgl_values.specs.declared.item.Item.{Item as ItemOf};
ghost use Rattle.battle_algebra.specs.declared.plan.Node.TheVariants as Node;
ghost use Rattle.task_scratch.specs.Scratch.{slots_in};
ghost use Rattle.plan_executor.specs.Counting.{Counted};
ghost use Rattle.plan_executor.specs.Frames.{mask_at, Running};
ghost use Rattle.plan_executor.specs.Rooms.{HasBuffers};
ghost use Rattle.plan_executor.specs.Running.{base_of, AreInside, CanRun, KeepWidth};
ghost use Rattle.plan_executor.specs.Sinking.{bounds_of, state_of, IsReady, Pushes};
ghost use Rattle.plan_executor.specs.Steps.{node_items, Steps};

use crate::acting::act_rows;
use crate::reach::add_reach;
use crate::run::Run;
use crate::setting::set_rows;
use crate::splitting::split_rows;
use battle_algebra::Node;
use effect_board::Seat;
use task_scratch::{Room, Sink};

/// Sets the rows of a node, where there is one.
pub(crate) fn put(masks: &mut Vec<u64>, node: u32, mask: u64)
    ensures set { masks.new.items ≡ slice_set masks.old.items node mask }
    ensures small { node < 4294967296 }
{
    let at = node as usize;
    if at < masks.len() {
        masks[at] = mask;
    }
}

// The rows of a node.
fn mask_of(masks: &Vec<u64>, node: usize) -> u64
    requires { node < length masks.now.items }
    ensures { result ≡ mask_at masks.now.items node }
{
    masks[node]
}

// One node: its rows go down to its children, and its items are given.
fn step(run: &Run, node: usize, room: &mut Room, seat: &mut Seat, sink: &mut Sink)
    requires can { CanRun run.now }
    requires node { node < length run.now.nodes.now }
    requires inside { AreInside run.now room.old.masks.items }
    requires sized { length room.old.masks.items ≡ length run.now.nodes.now }
    requires buffers { HasBuffers room.old }
    requires ready { IsReady run.now.out.board.now seat.old sink.old.batch }
    ensures inside { AreInside run.now room.new.masks.items }
    ensures sized { length room.new.masks.items ≡ length run.now.nodes.now }
    ensures buffers { HasBuffers room.new }
    ensures reach { room.new.reach.items ≡ room.old.reach.items }
    ensures wide { KeepWidth room.old.rows room.new.rows }
    ensures ready { IsReady run.now.out.board.now seat.new sink.new.batch }
    ensures steps { Steps (base_of run.now) node room.old.masks.items (slots_in room.old.rows) (slice_index_or run.now.nodes.now node Node.Empty) room.new.masks.items (slots_in room.new.rows) }
    ensures pushes { Pushes (bounds_of run.now.out) (state_of sink.old seat.old) (state_of sink.new seat.new)
        (node_items (base_of run.now) (slots_in room.old.rows) (mask_at room.old.masks.items node) (slice_index_or run.now.nodes.now node Node.Empty)) }
{
    let mask = mask_of(&room.masks, node);
    match &run.nodes[node] {
        Node::Empty => {}
        Node::Extend { slot, then, .. } => {
            let (frame, args) = (room.frame.as_mut_slice(), room.args.as_mut_slice());
            let (rows, spare) = (&mut room.rows, room.spare.as_mut_slice());
            set_rows(run, node, *slot, mask, rows, frame, args, spare);
            put(&mut room.masks, *then, mask);
        }
        Node::Agg { slot, then, .. } => {
            let (frame, args) = (room.frame.as_mut_slice(), room.args.as_mut_slice());
            let (rows, spare) = (&mut room.rows, room.spare.as_mut_slice());
            set_rows(run, node, *slot, mask, rows, frame, args, spare);
            put(&mut room.masks, *then, mask);
        }
        Node::Split { cond, yes, no, .. } => {
            let (frame, spare) = (room.frame.as_mut_slice(), room.spare.as_mut_slice());
            let parts = split_rows(run, cond, mask, &room.rows, frame, spare, seat, sink);
            put(&mut room.masks, *yes, parts.taken);
            put(&mut room.masks, *no, parts.other);
        }
        Node::Effect { act, .. } => act_rows(run, node, act, mask, room, seat, sink),
        Node::Both { left, right } => {
            put(&mut room.masks, *left, mask);
            put(&mut room.masks, *right, mask);
        }
    }
}

/// All nodes, from the root on.
pub(crate) fn run_nodes(run: &Run, room: &mut Room, seat: &mut Seat, sink: &mut Sink)
    requires can { CanRun run.now }
    requires inside { AreInside run.now room.old.masks.items }
    requires sized { length room.old.masks.items ≡ length run.now.nodes.now }
    requires buffers { HasBuffers room.old }
    requires reach { length room.old.reach.items ≡ length run.now.nodes.now }
    requires ready { IsReady run.now.out.board.now seat.old sink.old.batch }
    ensures sized { length room.new.masks.items ≡ length run.now.nodes.now }
    ensures buffers { HasBuffers room.new }
    ensures long { length room.new.reach.items ≡ length room.old.reach.items }
    ensures reach { sink.new.over ≡ false → (whole : List ItemOf) (counts : List ℕ) → Running (base_of run.now) run.now.nodes.now whole counts 0 room.old.masks.items (slots_in room.old.rows) []
        → Counted counts (length run.now.nodes.now) room.old.reach.items room.new.reach.items }
    ensures wide { KeepWidth room.old.rows room.new.rows }
    ensures ready { IsReady run.now.out.board.now seat.new sink.new.batch }
    ensures pushes { (whole : List ItemOf) (counts : List ℕ) → Running (base_of run.now) run.now.nodes.now whole counts 0 room.old.masks.items (slots_in room.old.rows) []
        → Pushes (bounds_of run.now.out) (state_of sink.old seat.old) (state_of sink.new seat.new) whole }
{
    for node in 0..run.nodes.len() {
        if sink.over {
            return;
        }
        let mask = mask_of(&room.masks, node);
        add_reach(&mut room.reach, node, mask);
        step(run, node, room, seat, sink);
    }
}
