//! The writes of a clause.
ghost use Rattle.std.specs.Prelude.{◌≡◌, ◌<◌, ◌∷◌, [], length};
ghost use Rattle.sgl_values.specs.declared.item.Item.TheVariants.{Effect};
ghost use Rattle.sgl_typed.specs.Aggregate.{simple_value};
ghost use Rattle.sgl_typed.specs.Items.{faulty as faulty_item, writes as writes_of, written};
ghost use Rattle.sgl_evaluate.specs.Frame.{context_of, IsFrame};
ghost use Rattle.effect_board.specs.Handles.{rows_of, tags_of};
ghost use Rattle.plan_executor.specs.Sinking.{bounds_of, state_of, IsReady, Pushes};

use crate::items::{push_effect, push_fault, push_lost};
use crate::outlet::Outlet;
use effect_board::Seat;
use sgl_evaluate::{Frame, amount_given};
use sgl_typed::{TScript, TWrite};
use sgl_values::{Amount, Fault, ItemFault};
use task_scratch::Sink;

/// One amount for an effect attribute of a row, which the board may lack. It goes to the board at once, past the batch, or
/// else through the batch.
pub(crate) fn push_amount<const AT_ONCE: bool>(
    script: &TScript,
    row: u32,
    attr: u32,
    amount: Amount,
    out: &Outlet,
    seat: &mut Seat,
    sink: &mut Sink,
)
    requires rows { row < rows_of out.now.board.now }
    requires tags { length script.now.schema.effects ≡ length (tags_of out.now.board.now) }
    requires ready { IsReady out.now.board.now seat.old sink.old.batch }
    ensures ready { IsReady out.now.board.now seat.new sink.new.batch }
    ensures pushes { Pushes (bounds_of out.now) (state_of sink.old seat.old) (state_of sink.new seat.new) (Effect row attr amount ∷ []) }
{
    if (attr as usize) < script.schema.effects.len() {
        push_effect::<AT_ONCE>(out, seat, sink, row, attr, amount);
    } else {
        push_lost(out, seat, sink, amount);
    }
}

/// A fault of the unit of the frame.
pub(crate) fn push_faulty(
    frame: &Frame,
    fault: Fault,
    target: u32,
    out: &Outlet,
    seat: &mut Seat,
    sink: &mut Sink,
)
    requires frame { IsFrame frame.now }
    requires ready { IsReady out.now.board.now seat.old sink.old.batch }
    ensures ready { IsReady out.now.board.now seat.new sink.new.batch }
    ensures pushes { Pushes (bounds_of out.now) (state_of sink.old seat.old) (state_of sink.new seat.new) (faulty_item (context_of frame.now).unit.key fault target ∷ []) }
{
    let key = frame.tick.world.key(frame.unit);
    push_fault(out, seat, sink, ItemFault { key, fault, target });
}

// The item of a write.
fn push_write(frame: &Frame, write: &TWrite, out: &Outlet, seat: &mut Seat, sink: &mut Sink)
    requires frame { IsFrame frame.now }
    requires rows { frame.now.target < rows_of out.now.board.now }
    requires tags { length frame.now.tick.script.now.schema.effects ≡ length (tags_of out.now.board.now) }
    requires ready { IsReady out.now.board.now seat.old sink.old.batch }
    ensures ready { IsReady out.now.board.now seat.new sink.new.batch }
    ensures pushes { Pushes (bounds_of out.now) (state_of sink.old seat.old) (state_of sink.new seat.new)
        (written (context_of frame.now) frame.now.target write.now (simple_value (context_of frame.now) write.now.amount) ∷ []) }
{
    match amount_given(frame, write) {
        Ok(amount) => {
            let target = frame.target;
            push_amount::<false>(
                frame.tick.script,
                target,
                write.effect,
                amount,
                out,
                seat,
                sink,
            );
        }
        Err(fault) => {
            let target = frame.tick.world.key(frame.target);
            push_faulty(frame, fault, target, out, seat, sink);
        }
    }
}

/// The writes at the target of the frame.
pub(crate) fn push_writes(
    frame: &Frame,
    writes: &[TWrite],
    out: &Outlet,
    seat: &mut Seat,
    sink: &mut Sink,
)
    requires frame { IsFrame frame.now }
    requires rows { frame.now.target < rows_of out.now.board.now }
    requires tags { length frame.now.tick.script.now.schema.effects ≡ length (tags_of out.now.board.now) }
    requires ready { IsReady out.now.board.now seat.old sink.old.batch }
    ensures ready { IsReady out.now.board.now seat.new sink.new.batch }
    ensures pushes { Pushes (bounds_of out.now) (state_of sink.old seat.old) (state_of sink.new seat.new) (writes_of (context_of frame.now) frame.now.target writes.now) }
{
    for write in writes {
        push_write(frame, write, out, seat, sink);
    }
}
