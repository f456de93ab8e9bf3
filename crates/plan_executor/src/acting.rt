//! Nodes that act.
ghost use Rattle.std.specs.Prelude.{◌≡◌, ◌<◌, ◌≤◌, ◌+◌, length, flat_map};
ghost use Rattle.std.specs.Option.{ForSome};
ghost use Rattle.battle_algebra.specs.Meaning.{effects};
ghost use Rattle.task_scratch.specs.Scratch.{slots_in};
ghost use Rattle.index_set.specs.Forms.{AreFormsAt};
ghost use Rattle.plan_executor.specs.Frames.{frames, members, with_slots};
ghost use Rattle.plan_executor.specs.Rooms.{HasBuffers, KeepsRows};
ghost use Rattle.plan_executor.specs.Running.{base_of, CanRun, IsActAt, IsInside};
ghost use Rattle.plan_executor.specs.Sinking.{bounds_of, state_of, IsReady, Pushes};

use crate::aiming::Aims;
use crate::giving::give;
use crate::lane_giving::{gift_of, give_lanes, own_gift_of};
use crate::run::Run;
use battle_algebra::EffectUse;
use effect_board::Seat;
use sgl_lanes::has_lane;
use sgl_values::TASK_ROWS;
use task_scratch::{Room, Sink};
use test_boxes::TestForms;

// The items of an effect node for one row.
fn act_row(
    run: &Run,
    node: usize,
    act: &EffectUse,
    row: u32,
    forms: Option<&TestForms>,
    room: &mut Room,
    seat: &mut Seat,
    sink: &mut Sink,
)
    requires can { CanRun run.now }
    requires forms { ForSome forms (λ forms. AreFormsAt run.now.tick.script.now run.now.plan.now node forms.now) }
    requires act { IsActAt run.now node act.now }
    requires small { node < 4294967296 }
    requires buffers { HasBuffers room.old }
    requires row { run.now.first + row < length run.now.tick.world.now.world.rows }
    requires below { row < TASK_ROWS }
    requires ready { IsReady run.now.out.board.now seat.old sink.old.batch }
    ensures buffers { HasBuffers room.new }
    ensures same { KeepsRows room.old room.new }
    ensures ready { IsReady run.now.out.board.now seat.new sink.new.batch }
    ensures pushes { Pushes (bounds_of run.now.out) (state_of sink.old seat.old) (state_of sink.new seat.new)
        (effects act.now (with_slots (base_of run.now) (slots_in room.old.rows) row)) }
{
    let slots = room.frame.as_mut_slice();
    room.rows.put_row(row, slots);
    let args = room.args.as_mut_slice();
    give(run, node, act, row, slots, forms, args, seat, sink);
}

/// The items of an effect node for the rows of a set: for all of them side by side, where they go by a key alone and no
/// fault can be among their values, and else one by one.
pub(crate) fn act_rows(
    run: &Run,
    node: usize,
    act: &EffectUse,
    mask: u64,
    room: &mut Room,
    seat: &mut Seat,
    sink: &mut Sink,
)
    requires can { CanRun run.now }
    requires act { IsActAt run.now node act.now }
    requires small { 4294967296 ≤ node → mask ≡ 0 }
    requires buffers { HasBuffers room.old }
    requires inside { IsInside run.now mask }
    requires ready { IsReady run.now.out.board.now seat.old sink.old.batch }
    ensures buffers { HasBuffers room.new }
    ensures same { KeepsRows room.old room.new }
    ensures ready { IsReady run.now.out.board.now seat.new sink.new.batch }
    ensures pushes { Pushes (bounds_of run.now.out) (state_of sink.old seat.old) (state_of sink.new seat.new)
        (flat_map (effects act.now) (frames (base_of run.now) (slots_in room.old.rows) (members mask))) }
{
    if mask == 0 {
        return;
    }
    if let Some(writes) = own_gift_of(run, act, mask, room) {
        let amounts = room.amounts.as_slice();
        give_lanes(run, writes, mask, run.own, amounts, seat, sink);
        return;
    }
    act_anywhere(run, node, act, mask, room, seat, sink);
}

// The same where rows may go to others, or where it is not known what they give.
fn act_anywhere(
    run: &Run,
    node: usize,
    act: &EffectUse,
    mask: u64,
    room: &mut Room,
    seat: &mut Seat,
    sink: &mut Sink,
)
    requires can { CanRun run.now }
    requires act { IsActAt run.now node act.now }
    requires small { node < 4294967296 }
    requires buffers { HasBuffers room.old }
    requires inside { IsInside run.now mask }
    requires ready { IsReady run.now.out.board.now seat.old sink.old.batch }
    ensures buffers { HasBuffers room.new }
    ensures same { KeepsRows room.old room.new }
    ensures ready { IsReady run.now.out.board.now seat.new sink.new.batch }
    ensures pushes { Pushes (bounds_of run.now.out) (state_of sink.old seat.old) (state_of sink.new seat.new)
        (flat_map (effects act.now) (frames (base_of run.now) (slots_in room.old.rows) (members mask))) }
{
    let mut aims = Aims::none();
    if let Some(writes) = gift_of(run, act, mask, room, &mut aims) {
        let amounts = room.amounts.as_slice();
        give_lanes(run, writes, aims.aimed, &aims.targets, amounts, seat, sink);
        return;
    }
    let forms = run.forms(node);
    for row in 0..64 {
        if has_lane(mask, row) {
            act_row(run, node, act, row, forms, room, seat, sink);
        }
    }
}
