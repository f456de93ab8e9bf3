//! Laws of the least pair, for proofs above: it is the least of its list, and the order of points does not matter.

ghost use Rattle.extreme_sweep.specs.Laws.{LeastInAnyOrder, LeastPairsAreLeast, NoLeastPairIsNone};

/// A law, and no work: the least pair is one of its list and none is below it, and there is one where there is a pair.
pub fn pairs_have_a_least()
    ensures least { LeastPairsAreLeast }
    ensures none { NoLeastPairIsNone }
{}

/// A law, and no work: the least pair of a window is the same in whatever order the points stand.
pub fn order_changes_no_least()
    ensures { LeastInAnyOrder }
{}
