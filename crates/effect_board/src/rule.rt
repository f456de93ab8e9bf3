//! The rule of a board, for its contracts: what a board is told when it is made, and the step of
//! each call.

use crate::view::View;
use sgl_values::Tag;

/// What a board is told when it is made: the number of tasks, the number of rows, whether it is for one worker alone, and
/// the tags of the effect attributes.
#[derive(Drop)]
pub struct BoardLayout {
    pub(crate) tasks: u32,
    pub(crate) rows: u32,
    pub(crate) alone: bool,
    pub(crate) tags: Vec<Tag>,
}

/// The rule of a board: between any two steps its words and the views of all seats are a fair state of the tick's machine.
/// Where one worker is alone, its seat has the words of the rows, and the machine is one of no rows.
pub struct BoardRule;

impl atomic_table::TableRule<u8, View, BoardLayout> for BoardRule {
    ghost use Rattle.effect_board.specs.Rule.{Kept};
    ghost use Rattle.effect_board.specs.Views.{first_view, table_rows};

    ghost holds = { λ layout state. Kept layout.tasks (table_rows layout.alone layout.rows) layout.tags.items state.words state.views };

    ghost first = { λ layout. first_view layout.tasks layout.tags.items };
}

/// The step of a claim: one more task, or one more miss where all tasks are given out.
pub struct ClaimStep;

impl atomic_table::Play<u8, View> for ClaimStep {
    ghost use Rattle.effect_board.specs.Rule.{Claims};

    ghost then = { Claims };
}

/// The step of a give, an addition to a sum, or the lesser or the greater put in place of a word: one more give.
pub struct GiveStep;

impl atomic_table::Play<u8, View> for GiveStep {
    ghost use Rattle.effect_board.specs.Rule.{Gives};

    ghost then = { Gives };
}

/// The step by which the first seat makes one more.
pub struct SplitStep;

impl atomic_table::Split<View> for SplitStep {
    ghost use Rattle.effect_board.specs.Views.{splitting, newcomer};

    ghost left = { splitting };

    ghost right = { newcomer };
}

/// The step by which a seat takes over what another did.
pub struct JoinStep;

impl atomic_table::Join<View> for JoinStep {
    ghost use Rattle.effect_board.specs.Views.{joining, spent};

    ghost both = { joining };

    ghost spent = { spent };
}
