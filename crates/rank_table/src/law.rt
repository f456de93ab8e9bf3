//! Laws of ranks, for proofs above.

ghost use Rattle.rank_table.specs.Laws.{RanksAreBounded, RanksPart, RanksRise, RanksTellFrom, RanksTellTo};

/// Laws, and no work. Ranks are no more than there are numbers, and rise with the number asked for; whether one of the
/// numbers lies between two bounds is told by ranks; and where the numbers rise, a rank is a place among them.
pub fn ranks_keep_order()
    ensures bounded { RanksAreBounded }
    ensures rising { RanksRise }
    ensures from { RanksTellFrom }
    ensures to { RanksTellTo }
    ensures part { RanksPart }
{}
