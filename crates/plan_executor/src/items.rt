//! Items are told and given, one by one.
ghost use Rattle.std.specs.Prelude.{◌≡◌, ◌<◌, ◌≤◌, ◌∷◌, ℕ, [], length};
ghost use Rattle.sgl_values.specs.declared.item.Item.TheVariants.{Effect, Faulty};
ghost use Rattle.effect_board.specs.Handles.{rows_of, tags_of};
ghost use Rattle.plan_executor.specs.Sinking.{bounds_of, state_of, IsCounted, IsReady, Pushes};

use crate::batching::give_amount;
use crate::outlet::Outlet;
use effect_board::Seat;
use sgl_values::{Amount, ItemFault, lesser};
use task_scratch::Sink;

// Counts one more item where it is within the limit, and tells whether it is.
fn count_one(limit: u64, sink: &mut Sink) -> bool
    ensures { IsCounted limit sink.old result sink.new }
{
    if sink.over {
        return false;
    }
    if sink.items >= limit {
        sink.over = true;
        return false;
    }
    sink.items += 1;
    true
}

/// One more effect: it goes to the board at once, past the batch, or else through the batch.
pub(crate) fn push_effect<const AT_ONCE: bool>(
    out: &Outlet,
    seat: &mut Seat,
    sink: &mut Sink,
    row: u32,
    attr: u32,
    amount: Amount,
)
    requires ready { IsReady out.now.board.now seat.old sink.old.batch }
    requires row { row < rows_of out.now.board.now }
    requires attr { attr < length (tags_of out.now.board.now) }
    ensures ready { IsReady out.now.board.now seat.new sink.new.batch }
    ensures pushes { Pushes (bounds_of out.now) (state_of sink.old seat.old) (state_of sink.new seat.new) (Effect row attr amount ∷ []) }
{
    if count_one(out.limit, sink) {
        let _number = amount.value();
        if AT_ONCE {
            out.board.give(seat, row, attr, amount);
        } else {
            give_amount(out.board, seat, &mut sink.batch, row, attr, amount);
        }
    }
}

/// One more effect on an attribute that the board lacks: it is only counted.
pub(crate) fn push_lost(out: &Outlet, seat: &mut Seat, sink: &mut Sink, amount: Amount)
    requires ready { IsReady out.now.board.now seat.old sink.old.batch }
    ensures ready { IsReady out.now.board.now seat.new sink.new.batch }
    ensures pushes { (row attr : ℕ) → length (tags_of out.now.board.now) ≤ attr
        → Pushes (bounds_of out.now) (state_of sink.old seat.old) (state_of sink.new seat.new) (Effect row attr amount ∷ []) }
{
    if count_one(out.limit, sink) {
        let _number = amount.value();
    }
}

/// One more fault.
pub(crate) fn push_fault(out: &Outlet, seat: &mut Seat, sink: &mut Sink, fault: ItemFault)
    requires ready { IsReady out.now.board.now seat.old sink.old.batch }
    ensures ready { IsReady out.now.board.now seat.new sink.new.batch }
    ensures pushes { Pushes (bounds_of out.now) (state_of sink.old seat.old) (state_of sink.new seat.new) (Faulty fault ∷ []) }
{
    if count_one(out.limit, sink) {
        sink.least = lesser(sink.least, Some(fault));
    }
}
