//! That steps on a board are events of the tick's machine, and how claims and gives are counted.

ghost use Rattle.effect_board.specs.Laws.{ClaimIsEvent, GiveIsEvent, SplitIsEvent, JoinIsEvent, ClaimsAreCounted, MissesComeLast, CellsGiveWhatIsHeld};

/// A law, and no work: each step on a board is one event of the tick's machine, on the state that the words and the
/// views are.
pub fn steps_are_events()
    ensures claim { ClaimIsEvent }
    ensures give { GiveIsEvent }
    ensures split { SplitIsEvent }
    ensures join { JoinIsEvent }
{}

/// A law, and no work: the least of word 0 and the number of tasks is the number of claimed tasks.
pub fn claims_are_counted()
    ensures { ClaimsAreCounted }
{}

/// A law, and no work: where a claim of any seat found no task left, all tasks are given out.
pub fn misses_come_last()
    ensures { MissesComeLast }
{}

/// A law, and no work: what a deposit gives for the cells of a batch comes, for each word, to what the batch held for its
/// cell.
pub fn cells_give_what_is_held()
    ensures { CellsGiveWhatIsHeld }
{}
