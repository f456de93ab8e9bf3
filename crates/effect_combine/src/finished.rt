//! From the word of a cell to its value, or to the exact sum where that is out of range.
ghost use Rattle.std.specs.Prelude.{◌≡◌, List, IfErr, true, ◌⊎◌};
ghost use Rattle.sgl_values.specs.Amounts.{Amount};
ghost use Rattle.sgl_values.specs.Cells.{combination};
ghost use Rattle.sgl_values.specs.Range.{in_range};
ghost use Rattle.sgl_values.specs.declared.fault.Tag.TheVariants.{Sum};
ghost use Rattle.effect_combine.specs.Standing.{StandsFor, least_in, greatest_in, top_in};
ghost use Rattle.effect_combine.specs.Finished.{cell_or_overflow};

use crate::word::PRIORITY_STEP;
use sgl_values::{Num, Tag};

/// The exact total of a cell, which is outside the range of values.
#[derive(Clone, Copy, Debug, PartialEq, Eq)]
pub struct CellOverflow {
    pub total: i64,
}

/// The cell of a starting value and of the amounts that the word stands for, of which there are at most 8,000,000:
/// their exact sum, the least or the greatest of them, or for `Top` the value of the greatest amount by priority and value,
/// and the starting value only where the word stands for none. `CellOverflow` comes exactly where the tag is `Sum` and the sum
/// is outside the range, and tells that sum.
pub fn finish(tag: Tag, init: Num, word: u64) -> Result<Num, CellOverflow>
    ensures cell { (amounts : List Amount) → StandsFor tag word amounts
        → result ≡ cell_or_overflow (combination tag init amounts) }
    ensures overflow { IfErr result (λ _. tag ≡ Sum) }
{
    cell_of(total_of(tag, init, word))
}

// The exact cell. 8,000,000 amounts and a starting value, each of at most 10^12, stay below 2^63.
fn total_of(tag: Tag, init: Num, word: u64) -> i64
    ensures total { (amounts : List Amount) → StandsFor tag word amounts → result ≡ combination tag init amounts }
    ensures bounded { (tag ≡ Sum) ⊎ (in_range result ≡ true) }
{
    let start = init.get();
    match tag {
        Tag::Sum => start.wrapping_add(word.cast_signed()),
        Tag::Min => least(start, word),
        Tag::Max => greatest(start, word),
        Tag::Top => top(start, word),
    }
}

fn cell_of(total: i64) -> Result<Num, CellOverflow>
    ensures { result ≡ cell_or_overflow total }
{
    Num::new(total).ok_or(CellOverflow { total })
}

// The least of a starting value and of the least amount that a word stands for, where it stands for any.
fn least(init: i64, word: u64) -> i64
    ensures { result ≡ least_in init word }
{
    if word <= 2_000_000_000_000 {
        init.min(word as i64 - 1_000_000_000_000)
    } else {
        init
    }
}

// The greatest, in the same way.
fn greatest(init: i64, word: u64) -> i64
    ensures { result ≡ greatest_in init word }
{
    if word >= 1 && word <= 2_000_000_000_001 {
        init.max(word as i64 - 1_000_000_000_001)
    } else {
        init
    }
}

// The value of the top amount that a word stands for, which stands below the priority in it.
fn top(init: i64, word: u64) -> i64
    ensures { result ≡ top_in init word }
{
    let low = word % PRIORITY_STEP;
    if low >= 1 && low <= 2_000_000_000_001 {
        low as i64 - 1_000_000_000_001
    } else {
        init
    }
}
