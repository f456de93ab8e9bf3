//! Nodes that set a slot.
ghost use Rattle.std.specs.Prelude.{◌≡◌, ◌<◌, ◌≤◌, ◌+◌, ℕ, length, slice_index_or, IfSome};
ghost use Rattle.std.specs.Option.{ForSome};
ghost use Rattle.index_set.specs.Forms.{AreFormsAt};
ghost use Rattle.sgl_typed.specs.Aggregate.{simple_value};
ghost use Rattle.battle_algebra.specs.Meaning.{Frame, source_value};
ghost use Rattle.battle_algebra.specs.Tree.{Source, node_of};
ghost use Rattle.battle_algebra.specs.declared.plan.Node.TheVariants as Node;
ghost use Rattle.task_scratch.specs.Scratch.{slots_in, AreWide, IsRowSet};
ghost use Rattle.plan_executor.specs.Frames.{with_slots};
ghost use Rattle.plan_executor.specs.Running.{base_of, CanRun, IsInside, KeepWidth};
ghost use Rattle.plan_executor.specs.Steps.{IsSet};
ghost use Rattle.plan_executor.specs.Written.{AreRead};

use crate::run::Run;
use crate::values::read_node_values;
use battle_algebra::Node;
use sgl_lanes::{LaneValues, has_lane};
use sgl_typed::TExpr;
use sgl_values::{Num, PARAMS_MAX, TASK_ROWS, Val};
use task_scratch::SlotRows;
use test_boxes::TestForms;

// What a node sets its slot to, for a row with these slots.
fn value_at(run: &Run, node: usize, row: u32, slots: &[Val], forms: Option<&TestForms>) -> Val
    requires can { CanRun run.now }
    requires forms { ForSome forms (λ forms. AreFormsAt run.now.tick.script.now run.now.plan.now node forms.now) }
    requires node { node < length run.now.nodes.now }
    requires small { node < 4294967296 }
    requires row { run.now.first + row < length run.now.tick.world.now.world.rows }
    ensures { (slot : ℕ) (source : Source) (child : ℕ) → slice_index_or run.now.nodes.now node Node.Empty ≡ node_of slot source child
        → result ≡ source_value (record (base_of run.now row) { slots = slots.now }) source }
{
    match &run.nodes[node] {
        Node::Extend { value, .. } => run.value(row, slots, value),
        Node::Agg { .. } => {
            let unit = run.unit_row(row);
            run.index
                .answer_by(run.of(), node as u32, unit, slots, forms)
        }
        _ => Val::N(Num::zero()),
    }
}

// The value of an argument that is written as a number.
fn written(arg: &TExpr) -> Option<Val>
    ensures { IfSome result (λ value. (f : Frame) → value ≡ simple_value f arg.now) }
{
    match arg {
        TExpr::Number(number) => Some(Val::N(*number)),
        _ => None,
    }
}

// Reads the arguments of the call of a node, where all are written as numbers, and tells how many there are. They are the
// same for each row, and no slot is read for them.
fn read_written(run: &Run, node: usize, args: &mut [Val]) -> Option<usize>
    requires node { node < length run.now.nodes.now }
    requires room { length args.old ≡ PARAMS_MAX }
    ensures room { length args.new ≡ PARAMS_MAX }
    ensures written { IfSome result (λ count. AreRead run.now node count args.new) }
{
    match &run.nodes[node] {
        Node::Agg { call, .. } => {
            let exprs = call.args.as_slice();
            if exprs.len() > PARAMS_MAX {
                return None;
            }
            for number in 0..exprs.len() {
                args[number] = written(&exprs[number])?;
            }
            Some(exprs.len())
        }
        _ => None,
    }
}

// Sets the slot for one row: by the arguments of the call, where so many are written, or by the
// slots of the row.
fn set_row(
    run: &Run,
    node: usize,
    slot: u32,
    row: u32,
    args: &[Val],
    count: Option<usize>,
    forms: Option<&TestForms>,
    rows: &mut SlotRows,
    frame: &mut [Val],
)
    requires can { CanRun run.now }
    requires forms { ForSome forms (λ forms. AreFormsAt run.now.tick.script.now run.now.plan.now node forms.now) }
    requires written { ForSome count (λ count. AreRead run.now node count args.now) }
    requires node { node < length run.now.nodes.now }
    requires small { node < 4294967296 }
    requires row { run.now.first + row < length run.now.tick.world.now.world.rows }
    requires below { row < TASK_ROWS }
    requires frame { length frame.old ≡ length (slots_in rows.old row) }
    ensures set { (source : Source) (child : ℕ) → slice_index_or run.now.nodes.now node Node.Empty ≡ node_of slot source child
        → IsRowSet row slot (source_value (with_slots (base_of run.now) (slots_in rows.old) row) source) rows.old rows.new }
    ensures wide { KeepWidth rows.old rows.new }
    ensures long { length rows.new ≡ length rows.old }
    ensures frame { length frame.new ≡ length frame.old }
{
    let value = match count {
        Some(count) => run.answer_of(node, row, &args[..count], forms),
        None => {
            rows.put_row(row, frame);
            value_at(run, node, row, frame, forms)
        }
    };
    rows.set(row, slot, value);
}

/// Sets the slot of a node for the rows of a set: for all of them side by side, where all values are known, and else one by
/// one. The buffers have room for the slots of a row, and for sixteen arguments.
pub(crate) fn set_rows(
    run: &Run,
    node: usize,
    slot: u32,
    mask: u64,
    rows: &mut SlotRows,
    frame: &mut [Val],
    args: &mut [Val],
    spare: &mut [LaneValues],
)
    requires can { CanRun run.now }
    requires node { node < length run.now.nodes.now }
    requires small { 4294967296 ≤ node → mask ≡ 0 }
    requires inside { IsInside run.now mask }
    requires rows { length rows.old ≡ TASK_ROWS }
    requires frame { AreWide (length frame.old) rows.old }
    requires args { length args.old ≡ PARAMS_MAX }
    ensures long { length rows.new ≡ TASK_ROWS }
    ensures wide { KeepWidth rows.old rows.new }
    ensures frame { length frame.new ≡ length frame.old }
    ensures args { length args.new ≡ PARAMS_MAX }
    ensures set { (source : Source) (child : ℕ) → slice_index_or run.now.nodes.now node Node.Empty ≡ node_of slot source child
        → IsSet (base_of run.now) slot source mask (slots_in rows.old) (slots_in rows.new) }
{
    if mask == 0 {
        return;
    }
    if let Some((values, rest)) = spare.split_first_mut() {
        read_node_values(run, node, mask, rows, values, rest);
        if values.are_known() {
            rows.set_lanes(slot, mask, values.kind, &values.numbers);
            return;
        }
    }
    let forms = run.forms(node);
    let count = read_written(run, node, args);
    for row in 0..64 {
        if has_lane(mask, row) {
            set_row(run, node, slot, row, args, count, forms, rows, frame);
        }
    }
}
