//! Effects go to the board through a batch.
ghost use Rattle.std.specs.Prelude.{◌≡◌, ◌∷◌, ◌++◌, ◌<◌, [], List, length};
ghost use Rattle.sgl_values.specs.declared.item.Item.TheVariants.{Effect};
ghost use Rattle.sgl_values.specs.declared.item.Item.{Item as ItemOf};
ghost use Rattle.effect_board.specs.Handles.{rows_of, tags_of};
ghost use Rattle.effect_board.specs.declared.view.View.{View as ViewOf};
ghost use Rattle.plan_executor.specs.Sinking.{GaveItems, IsReady};

use effect_board::{EffectBoard, Seat};
use effect_combine::{Added, Batch};
use sgl_values::Amount;

/// So many cells are held at most. Where a few are held, a cell is soon found among them, and the amounts of one are still
/// merged; a step on the board costs less than a search among many.
const CELLS_HELD: u32 = 32;

/// One more effect: it goes into the batch, which is given to the board where it holds many cells.
pub(crate) fn give_amount(
    board: &EffectBoard,
    seat: &mut Seat,
    batch: &mut Batch,
    row: u32,
    attr: u32,
    amount: Amount,
)
    requires ready { IsReady board.now seat.old batch.old }
    requires row { row < rows_of board.now }
    requires attr { attr < length (tags_of board.now) }
    ensures ready { IsReady board.now seat.new batch.new }
    ensures given { (start : ViewOf) (items : List ItemOf) → GaveItems board.now start seat.old batch.old items
        → GaveItems board.now start seat.new batch.new (items ++ Effect row attr amount ∷ []) }
{
    make_room(board, seat, batch);
    match batch.add(row, attr, amount) {
        Added::Kept => {}
        Added::Full => {
            board.deposit(seat, batch);
            let _ = batch.add(row, attr, amount);
        }
    }
}

// The batch is given to the board where it holds many cells.
fn make_room(board: &EffectBoard, seat: &mut Seat, batch: &mut Batch)
    requires ready { IsReady board.now seat.old batch.old }
    ensures ready { IsReady board.now seat.new batch.new }
    ensures given { (start : ViewOf) (items : List ItemOf) → GaveItems board.now start seat.old batch.old items
        → GaveItems board.now start seat.new batch.new items }
{
    if batch.len() >= CELLS_HELD {
        give_rest(board, seat, batch);
    }
}

/// What the batch still holds is given to the board.
pub(crate) fn give_rest(board: &EffectBoard, seat: &mut Seat, batch: &mut Batch)
    requires ready { IsReady board.now seat.old batch.old }
    ensures ready { IsReady board.now seat.new batch.new }
    ensures empty { batch.new.cells ≡ [] }
    ensures given { (start : ViewOf) (items : List ItemOf) → GaveItems board.now start seat.old batch.old items
        → GaveItems board.now start seat.new batch.new items }
{
    board.deposit(seat, batch);
}
