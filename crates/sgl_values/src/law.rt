//! Cells ignore the order of their items, and least faults and greatest amounts are what they say.

ghost use Rattle.sgl_values.specs.Laws.{CellsIgnoreOrder, LeastItemFaultsAreLeast, NoLeastItemFaultIsNone, GreatestAmountsAreGreatest, NoGreatestAmountIsNone};

/// A law, and no work: a cell is the same for the same items in any order.
pub fn cells_ignore_order()
    ensures { CellsIgnoreOrder }
{}

/// A law, and no work: the least fault of items is one of them, none is below it, and it is missing only where there
/// is no fault.
pub fn item_faults_have_a_least()
    ensures least { LeastItemFaultsAreLeast }
    ensures none { NoLeastItemFaultIsNone }
{}

/// A law, and no work: the greatest of amounts is one of them, none is above it, and it is missing only where there is no
/// amount.
pub fn amounts_have_a_greatest()
    ensures greatest { GreatestAmountsAreGreatest }
    ensures none { NoGreatestAmountIsNone }
{}
