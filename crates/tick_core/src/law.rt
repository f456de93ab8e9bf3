//! Laws of cores: they stay fair, and neither a task nor an amount is lost or counted twice.

ghost use Rattle.std.specs.Prelude.{ℕ, Bool, Option};
ghost use Rattle.sgl_values.specs.declared.item.ItemFault.{ItemFault};
ghost use Rattle.tick_core.specs.Laws.{StartsAreFair, EventsKeepFair, CellsHaveWords, GivesJoin, EachTaskOnce, TotalsIgnoreOrder, TotalsJoin, ClaimsStandInOrder, WorkersStandForAll};

/// A law, and no work: a core is fair at the start.
pub fn starts_are_fair()
    ensures { StartsAreFair }
{}

/// A law, and no work: each event that is allowed keeps a core fair.
pub fn events_keep_fair()
    ensures { EventsKeepFair }
{}

/// A law, and no work: the word of a row and an attribute has the attribute's tag.
pub fn cells_have_words()
    ensures { CellsHaveWords }
{}

/// A law, and no work: gives that stand for the items of two lists stand for both.
pub fn gives_join()
    ensures { GivesJoin }
{}

/// A law, and no work: what is given for tasks that were claimed each once does not depend on the order of the claims.
pub fn each_task_once()
    ensures { EachTaskOnce }
{}

/// A law, and no work: a total over tasks that were claimed each once does not depend on the order of the claims. It is
/// stated of numbers, as counts of items, of faults that may be, as the least of them, and of tests of all items.
#[tactic(auto, using(crate::proofs::Workers::total_in_any_order))]
pub fn totals_ignore_order()
    ensures numbers { TotalsIgnoreOrder ℕ }
    ensures faults { TotalsIgnoreOrder (Option ItemFault) }
    ensures tests { TotalsIgnoreOrder Bool }
{}

/// A law, and no work: totals over the tasks of two workers are joined to that over the tasks of both.
#[tactic(auto, using(crate::proofs::Workers::total_joined))]
pub fn totals_join()
    ensures numbers { TotalsJoin ℕ }
    ensures faults { TotalsJoin (Option ItemFault) }
    ensures tests { TotalsJoin Bool }
{}

/// A law, and no work: where all tasks were claimed, each once, and what was given stands for the items of the claimed
/// tasks, by one worker for all or by each for its own, it stands for the items of all tasks in order.
pub fn workers_stand_for_all()
    ensures claims { ClaimsStandInOrder }
    ensures workers { WorkersStandForAll }
{}
