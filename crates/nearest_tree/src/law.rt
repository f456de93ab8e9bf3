//! Laws of the nearest, for proofs above.
ghost use Rattle.nearest_tree.specs.Laws.{NearestIgnoresOrder, NearestIsLeast, NoNearestIsNone};

/// A law, and no work: the nearest is one of the points that are not left out, with none below it,
/// and there is one where there is such a point.
pub fn nearest_is_least()
    ensures least { NearestIsLeast }
    ensures none { NoNearestIsNone }
{}

/// A law, and no work: the nearest does not depend on the order of the points.
pub fn nearest_ignores_order()
    ensures { NearestIgnoresOrder }
{}
