//! That a world has the rows of its records, none more and none less, in another order.

ghost use Rattle.unit_csv.specs.Laws.{RowsAreKept};

/// A law, and no work: the rows of a world are those of the records, none more and none less, and only their order is
/// another. That the keys rise is a fact of the type of a world.
pub fn rows_are_kept()
    ensures { RowsAreKept }
{}
