//! Laws of words, of combined items and of batches, which proofs of other crates use.

ghost use Rattle.sgl_values.specs.Totals.{IsAssociative, IsCommutative};
ghost use Rattle.sgl_values.specs.declared.fault.Tag.{Tag};
ghost use Rattle.effect_combine.specs.Words.{merged};
ghost use Rattle.effect_combine.specs.Laws.{WordsIgnoreOrder, CombinedWordsStand, BatchesTakeWords, BatchesKeepOthers, BatchesHoldAmounts, TopWordsTellTheGreatest};

/// A law, and no work: words may be merged in any order, for each tag.
pub fn words_merge()
    ensures associative { (tag : Tag) → IsAssociative (merged tag) }
    ensures commutative { (tag : Tag) → IsCommutative (merged tag) }
{}

/// A law, and no work: a word stands for its amounts in any order.
pub fn words_ignore_order()
    ensures { WordsIgnoreOrder }
{}

/// A law, and no work: where words stand for the items of a tick, of which there are at most 8,000,000, each word can be
/// finished to its cell.
pub fn combined_words_stand()
    ensures { CombinedWordsStand }
{}

/// A law, and no work: a word that is put to a batch is merged into what is held for its cell, and changes no other.
pub fn batches_take_words()
    ensures taken { BatchesTakeWords }
    ensures others { BatchesKeepOthers }
{}

/// A law, and no work: where the amounts of items were added to a batch without cells, what it holds for a cell is the word
/// of the items' amounts for that cell, which is the start word where there are none.
pub fn batches_hold_amounts()
    ensures { BatchesHoldAmounts }
{}

/// A law, and no work: a word of a `Top` attribute is below 2^61, is 0 exactly where it stands for no amount, and tells the
/// value and the priority of the greatest amount that it stands for.
pub fn top_words_tell_the_greatest()
    ensures { TopWordsTellTheGreatest }
{}
