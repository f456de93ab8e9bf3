//! Laws of boxes, for proofs above.

ghost use Rattle.range_aggregate.specs.Laws.{CountsIgnoreOrder, SumsIgnoreOrder};

/// A law, and no work: what a box holds does not depend on the order of the points.
pub fn boxes_ignore_order()
    ensures counts { CountsIgnoreOrder }
    ensures sums { SumsIgnoreOrder }
{}
