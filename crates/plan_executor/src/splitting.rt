//! Nodes that split the frames.
ghost use Rattle.std.specs.Prelude.{◌≡◌, ◌&&◌, ◌<◌, ◌+◌, ℕ, true, length, flat_map};
ghost use Rattle.sgl_values.specs.declared.fault.Val.{Val as ValOf};
ghost use Rattle.sgl_typed.specs.Aggregate.{simple_value};
ghost use Rattle.battle_algebra.specs.Meaning.{condition_items, is_taken, is_other};
ghost use Rattle.sgl_lanes.specs.Lanes.{has, HoldEach};
ghost use Rattle.sgl_lanes.specs.declared.kind.Lanes.TheVariants.{Truths};
ghost use Rattle.task_scratch.specs.Scratch.{slots_in, AreWide};
ghost use Rattle.plan_executor.specs.Below.{given_if, IsMarked};
ghost use Rattle.plan_executor.specs.Frames.{frames, members, with_slots};
ghost use Rattle.plan_executor.specs.Running.{base_of, IsInside};
ghost use Rattle.plan_executor.specs.Sinking.{bounds_of, state_of, IsReady, Pushes};
ghost use Rattle.plan_executor.specs.Steps.{condition_of, IsPart};

use crate::items::push_fault;
use crate::row_set::{true_rows, with_row};
use crate::run::Run;
use crate::values::read_values;
use effect_board::Seat;
use sgl_lanes::{LaneValues, Lanes, has_lane, lanes_in_both, lanes_without};
use sgl_typed::TExpr;
use sgl_values::{ItemFault, Num, TASK_ROWS, Val};
use task_scratch::{Sink, SlotRows};

/// The rows at which a condition is true, and those at which it is false.
#[derive(Clone, Copy)]
pub(crate) struct Parts {
    pub taken: u64,
    pub other: u64,
}

// Puts a row into the part of its value.
fn mark_row(row: u32, value: &Val, parts: &mut Parts)
    requires { row < TASK_ROWS }
    ensures taken { IsMarked (is_taken value.now) parts.old.taken row parts.new.taken }
    ensures other { IsMarked (is_other value.now) parts.old.other row parts.new.other }
{
    match value {
        Val::F(_) => {}
        Val::B(true) => parts.taken = with_row(parts.taken, row),
        _ => parts.other = with_row(parts.other, row),
    }
}

// Tells the fault of a condition, where it is one.
fn push_condition(run: &Run, row: u32, value: &Val, seat: &mut Seat, sink: &mut Sink)
    requires row { run.now.first + row < length run.now.tick.world.now.world.rows }
    requires ready { IsReady run.now.out.board.now seat.old sink.old.batch }
    ensures ready { IsReady run.now.out.board.now seat.new sink.new.batch }
    ensures pushes { Pushes (bounds_of run.now.out) (state_of sink.old seat.old) (state_of sink.new seat.new) (condition_items (base_of run.now row) value.now) }
{
    if let Val::F(fault) = value {
        let _rows = run.tick.world.len();
        let key = run.tick.world.key(run.first + row);
        push_fault(
            &run.out,
            seat,
            sink,
            ItemFault {
                key,
                fault: *fault,
                target: 0,
            },
        );
    }
}

// The parts of a set by the truths in its lanes.
fn split_truths(mask: u64, truths: &[Num; 64]) -> Parts
    requires { (row : ℕ) → has mask row ≡ true → row < TASK_ROWS }
    ensures taken { (value : ℕ → ValOf) → HoldEach Truths mask truths.now value → (row : ℕ) → has result.taken row ≡ (has mask row && is_taken (value row)) }
    ensures other { (value : ℕ → ValOf) → HoldEach Truths mask truths.now value → (row : ℕ) → has result.other row ≡ (has mask row && is_other (value row)) }
{
    let taken = lanes_in_both(mask, true_rows(truths));
    Parts {
        taken,
        other: lanes_without(mask, taken),
    }
}

// Splits one row, where it is in the set.
fn split_row(
    run: &Run,
    cond: &TExpr,
    mask: u64,
    row: u32,
    rows: &SlotRows,
    frame: &mut [Val],
    parts: &mut Parts,
    seat: &mut Seat,
    sink: &mut Sink,
)
    requires row { row < TASK_ROWS }
    requires inside { IsInside run.now mask }
    requires frame { length frame.old ≡ length (slots_in rows.now row) }
    requires ready { IsReady run.now.out.board.now seat.old sink.old.batch }
    ensures frame { length frame.new ≡ length frame.old }
    ensures ready { IsReady run.now.out.board.now seat.new sink.new.batch }
    ensures taken { IsMarked (has mask row && is_taken (simple_value (with_slots (base_of run.now) (slots_in rows.now) row) cond.now)) parts.old.taken row parts.new.taken }
    ensures other { IsMarked (has mask row && is_other (simple_value (with_slots (base_of run.now) (slots_in rows.now) row) cond.now)) parts.old.other row parts.new.other }
    ensures pushes { Pushes (bounds_of run.now.out) (state_of sink.old seat.old) (state_of sink.new seat.new)
        (given_if (has mask row) (condition_of cond.now (with_slots (base_of run.now) (slots_in rows.now) row))) }
{
    if has_lane(mask, row) {
        rows.put_row(row, frame);
        let value = run.value(row, frame, cond);
        mark_row(row, &value, parts);
        push_condition(run, row, &value, seat, sink);
    }
}

/// The parts of a set by a condition, whose faults are told: row by row, unless all its values are known to be truths. The
/// buffer has room for the slots of a row.
pub(crate) fn split_rows(
    run: &Run,
    cond: &TExpr,
    mask: u64,
    rows: &SlotRows,
    frame: &mut [Val],
    spare: &mut [LaneValues],
    seat: &mut Seat,
    sink: &mut Sink,
) -> Parts
    requires inside { IsInside run.now mask }
    requires rows { length rows.now ≡ TASK_ROWS }
    requires frame { AreWide (length frame.old) rows.now }
    requires ready { IsReady run.now.out.board.now seat.old sink.old.batch }
    ensures frame { length frame.new ≡ length frame.old }
    ensures ready { IsReady run.now.out.board.now seat.new sink.new.batch }
    ensures taken { IsPart (base_of run.now) (slots_in rows.now) cond.now is_taken mask result.taken }
    ensures other { IsPart (base_of run.now) (slots_in rows.now) cond.now is_other mask result.other }
    ensures pushes { Pushes (bounds_of run.now.out) (state_of sink.old seat.old) (state_of sink.new seat.new)
        (flat_map (condition_of cond.now) (frames (base_of run.now) (slots_in rows.now) (members mask))) }
{
    if mask == 0 {
        return Parts { taken: 0, other: 0 };
    }
    if let Some((values, rest)) = spare.split_first_mut() {
        read_values(run, cond, mask, rows, values, rest);
        if let Lanes::Truths = values.kind {
            return split_truths(mask, &values.numbers);
        }
    }
    let mut parts = Parts { taken: 0, other: 0 };
    for row in 0..64 {
        split_row(run, cond, mask, row, rows, frame, &mut parts, seat, sink);
    }
    parts
}
