//! The items of an effect for one row.
ghost use Rattle.std.specs.Prelude.{◌≡◌, ◌<◌, ◌≤◌, ◌+◌, ◌∷◌, [], All, Some, flat_map, length, slice_get, IfSome};
ghost use Rattle.std.specs.Option.{ForSome};
ghost use Rattle.sgl_typed.specs.Items.{clause_items};
ghost use Rattle.sgl_evaluate.specs.Frame.{context_of, IsFrame};
ghost use Rattle.effect_board.specs.Handles.{rows_of, tags_of};
ghost use Rattle.battle_algebra.specs.Meaning.{effects};
ghost use Rattle.index_set.specs.Aims.{IsAim};
ghost use Rattle.index_set.specs.Forms.{AreFormsAt};
ghost use Rattle.index_set.specs.Slabs.{tests_of};
ghost use Rattle.index_set.specs.Targets.{passing_rows_rest};
ghost use Rattle.test_boxes.specs.Forms.{FitTests};
ghost use Rattle.plan_executor.specs.Running.{base_of, CanRun, IsActAt};
ghost use Rattle.plan_executor.specs.Sinking.{bounds_of, state_of, IsReady, Pushes};
ghost use Rattle.plan_executor.specs.Targets.{writes_at};

use crate::outlet::Outlet;
use crate::run::Run;
use crate::writing::{push_faulty, push_writes};
use battle_algebra::{EffectUse, clause_at};
use effect_board::Seat;
use index_set::{KeyedAim, PassingRows};
use sgl_evaluate::{Frame, NoCalls, Rights, evaluate_args};
use sgl_typed::TOn;
use sgl_values::{PARAMS_MAX, Val};
use task_scratch::Sink;
use test_boxes::{TestForms, read_rights};

// The writes at these rows.
fn give_rows(
    frame: &Frame,
    clause: &TOn,
    rows: &mut PassingRows,
    out: &Outlet,
    seat: &mut Seat,
    sink: &mut Sink,
)
    requires frame { IsFrame frame.now }
    requires inside { All (λ row. row < length frame.now.tick.world.now.world.rows) (passing_rows_rest rows.old) }
    requires rows { rows_of out.now.board.now ≡ length frame.now.tick.world.now.world.rows }
    requires tags { length frame.now.tick.script.now.schema.effects ≡ length (tags_of out.now.board.now) }
    requires ready { IsReady out.now.board.now seat.old sink.old.batch }
    ensures ready { IsReady out.now.board.now seat.new sink.new.batch }
    ensures pushes { Pushes (bounds_of out.now) (state_of sink.old seat.old) (state_of sink.new seat.new)
        (flat_map (writes_at (context_of frame.now) clause.now.writes) (passing_rows_rest rows.old)) }
{
    'rows: while let Some(row) = rows.next() {
        if sink.over {
            return;
        }
        let frame = frame.with_target(row);
        push_writes(&frame, clause.writes.as_slice(), out, seat, sink);
    }
}

// The items of a clause whose tests ask for a key, and which goes to at most one row.
fn give_keyed(
    frame: &Frame,
    clause: &TOn,
    aim: KeyedAim,
    out: &Outlet,
    seat: &mut Seat,
    sink: &mut Sink,
)
    requires frame { IsFrame frame.now }
    requires aim { IsAim aim (context_of frame.now) clause.now.tests }
    requires rows { rows_of out.now.board.now ≡ length frame.now.tick.world.now.world.rows }
    requires tags { length frame.now.tick.script.now.schema.effects ≡ length (tags_of out.now.board.now) }
    requires ready { IsReady out.now.board.now seat.old sink.old.batch }
    ensures ready { IsReady out.now.board.now seat.new sink.new.batch }
    ensures pushes { Pushes (bounds_of out.now) (state_of sink.old seat.old) (state_of sink.new seat.new) (clause_items (context_of frame.now) clause.now) }
{
    match aim {
        KeyedAim::Faulty(fault) => push_faulty(frame, fault, 0, out, seat, sink),
        KeyedAim::Row(found) => {
            if let Some(row) = found {
                let frame = frame.with_target(row);
                push_writes(&frame, clause.writes.as_slice(), out, seat, sink);
            }
        }
    }
}

// The items of a clause of an effect node, whose arguments are the slots of the frame.
fn give_clause(
    run: &Run,
    node: usize,
    frame: &Frame,
    clause: &TOn,
    forms: Option<&TestForms>,
    seat: &mut Seat,
    sink: &mut Sink,
)
    requires can { CanRun run.now }
    requires small { node < 4294967296 }
    requires frame { IsFrame frame.now }
    requires world { frame.now.tick.world.now.world ≡ run.now.tick.world.now.world }
    requires script { frame.now.tick.script.now ≡ run.now.tick.script.now }
    requires tests { tests_of run.now.tick.script.now (slice_get run.now.plan.now.plan.nodes node) ≡ Some clause.now.tests }
    requires forms { ForSome forms (λ forms. FitTests forms.now frame.now.slots.now clause.now.tests) }
    requires ready { IsReady run.now.out.board.now seat.old sink.old.batch }
    ensures ready { IsReady run.now.out.board.now seat.new sink.new.batch }
    ensures pushes { Pushes (bounds_of run.now.out) (state_of sink.old seat.old) (state_of sink.new seat.new) (clause_items (context_of frame.now) clause.now) }
{
    let tests = clause.tests.as_slice();
    if let Some(aim) = run.index.keyed_aim(frame, tests) {
        give_keyed(frame, clause, aim, &run.out, seat, sink);
        return;
    }
    let mut rights = Rights::zero();
    match read_rights(frame, tests, forms, &mut rights) {
        Err(fault) => push_faulty(frame, fault, 0, &run.out, seat, sink),
        Ok(()) => {
            let own = frame.with_slots(frame.slots);
            let mut rows = run
                .index
                .passing_rows(run.of(), node as u32, own, tests, &rights, forms);
            give_rows(frame, clause, &mut rows, &run.out, seat, sink);
        }
    }
}

/// The items of an effect node for a row with these slots. The buffer has room for its arguments.
pub(crate) fn give(
    run: &Run,
    node: usize,
    act: &EffectUse,
    row: u32,
    slots: &[Val],
    forms: Option<&TestForms>,
    args: &mut [Val],
    seat: &mut Seat,
    sink: &mut Sink,
)
    requires can { CanRun run.now }
    requires forms { ForSome forms (λ forms. AreFormsAt run.now.tick.script.now run.now.plan.now node forms.now) }
    requires row { run.now.first + row < length run.now.tick.world.now.world.rows }
    requires act { IsActAt run.now node act.now }
    requires small { node < 4294967296 }
    requires room { length args.old ≡ PARAMS_MAX }
    requires ready { IsReady run.now.out.board.now seat.old sink.old.batch }
    ensures room { length args.new ≡ PARAMS_MAX }
    ensures ready { IsReady run.now.out.board.now seat.new sink.new.batch }
    ensures pushes { Pushes (bounds_of run.now.out) (state_of sink.old seat.old) (state_of sink.new seat.new) (effects act.now (record (base_of run.now row) { slots = slots.now })) }
{
    let count = act.args.len();
    evaluate_args(&NoCalls, &run.frame(row, slots), act.args.as_slice(), args);
    if let Some(clause) = clause_at(run.tick.script, act) {
        let args = &args[..count];
        let frame = run.frame(row, args);
        give_clause(run, node, &frame, clause, forms, seat, sink);
    }
}
