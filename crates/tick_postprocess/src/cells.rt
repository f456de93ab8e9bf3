//! The cells of a tick, finished from their words.
ghost use Rattle.std.specs.Prelude.{◌≡◌, ◌+◌, ◌<◌, ◌≤◌, ℕ, length, pos, slice_index_or, List, IfSome};
ghost use Rattle.sgl_values.specs.Amounts.{Amount};
ghost use Rattle.sgl_values.specs.Cells.{combination};
ghost use Rattle.sgl_values.specs.declared.item.Item.{Item};
ghost use Rattle.sgl_typed.specs.Tick.{cells_from, combined_from, wide_cell};
ghost use Rattle.effect_combine.specs.Combined.{word_at};
ghost use Rattle.effect_combine.specs.Finished.{cell_or_overflow};
ghost use Rattle.effect_combine.specs.Standing.{StandsFor};
ghost use Rattle.sgl_lanes.specs.Lanes.{lane_of};
ghost use Rattle.tick_postprocess.specs.Answer.{AreWords};
ghost use Rattle.tick_postprocess.specs.Blocks.{IsPut};
ghost use Rattle.tick_postprocess.specs.Runs.{IsCell, IsRun, TellsWide};
ghost use Rattle.tick_postprocess.specs.Unit.{IsEnding};

use crate::fault::PostFault;
use crate::row::Ending;
use effect_combine::{CellOverflow, Combined, finish};
use sgl_lanes::LANES;
use sgl_typed::EffectAttr;
use sgl_values::{EFFECTS_MAX, Num, Tag};

/// The first row of a run, and there the first effect attribute, whose cell is outside the range of values.
pub(crate) fn first_wide_between(ending: &Ending, first: u32, end: u32) -> Option<PostFault>
    requires ending { IsEnding ending.now }
    requires run { IsRun ending.now.tick.world.now.world first end }
    ensures cell { IfSome result IsCell }
    ensures told { (items : List Item) → AreWords ending.now.tick.script.now.schema.effects ending.now.combined.now items
        → TellsWide (combined_from ending.now.tick.script.now items 0 ending.now.tick.world.now.world.rows) first end result }
{
    let effects = ending.tick.script.schema.effects.as_slice();
    for row in first..end {
        if let Some(attr) = wide_attr(effects, ending.combined, row) {
            let key = ending.tick.world.key(row);
            return Some(PostFault::Cell { key, attr });
        }
    }
    None
}

// The cell of a row and an effect attribute.
fn cell(
    effects: &[EffectAttr],
    combined: &Combined,
    row: u32,
    attr: usize,
) -> Result<Num, CellOverflow>
    requires row { row < combined.now.rows }
    requires attr { attr < length effects.now }
    requires width { combined.now.width ≡ length effects.now }
    requires narrow { length effects.now ≤ EFFECTS_MAX }
    ensures { (items : List Item) → AreWords effects.now combined.now items
        → result ≡ cell_or_overflow (slice_index_or (cells_from items row 0 effects.now) attr (pos 0)) }
{
    let effect = &effects[attr];
    finish(effect.tag, effect.init, combined.word(row, attr as u32))
}

// The first effect attribute of a row whose cell is outside the range of values.
fn wide_attr(effects: &[EffectAttr], combined: &Combined, row: u32) -> Option<u32>
    requires row { row < combined.now.rows }
    requires width { combined.now.width ≡ length effects.now }
    requires narrow { length effects.now ≤ EFFECTS_MAX }
    ensures { (items : List Item) → AreWords effects.now combined.now items
        → result ≡ wide_cell 0 (cells_from items row 0 effects.now) }
{
    for attr in 0..effects.len() {
        if cell(effects, combined, row, attr).is_err() {
            return Some(attr as u32);
        }
    }
    None
}

/// Puts the cells of an effect attribute for the rows of a run, a lane each, and tells whether all of them are in the range of
/// values. Their words are put into a list of their own before, of which the compiler sees that no write to it changes the others.
pub(crate) fn put_column(
    effects: &[EffectAttr],
    combined: &Combined,
    first: u32,
    end: u32,
    attr: usize,
    words: &mut [u64; LANES],
    out: &mut [Num; LANES],
) -> bool
    requires order { first ≤ end }
    requires few { end ≤ first + LANES }
    requires rows { end ≤ combined.now.rows }
    requires attr { attr < length effects.now }
    requires width { combined.now.width ≡ length effects.now }
    requires narrow { length effects.now ≤ EFFECTS_MAX }
    ensures { (items : List Item) → AreWords effects.now combined.now items → (lane : ℕ) → first + lane < end
        → IsPut (slice_index_or (cells_from items (first + lane) 0 effects.now) attr (pos 0)) (lane_of out.new lane) result }
{
    let effect = &effects[attr];
    put_words(combined, first, end, attr as u32, words);
    put_finished(effect.tag, effect.init, words, out)
}

// Puts the words of an effect attribute for the rows of a run, a lane each.
fn put_words(combined: &Combined, first: u32, end: u32, attr: u32, words: &mut [u64; LANES])
    requires order { first ≤ end }
    requires few { end ≤ first + LANES }
    requires rows { end ≤ combined.now.rows }
    requires attr { attr < combined.now.width }
    ensures { (lane : ℕ) → first + lane < end → slice_index_or words.new lane 0 ≡ word_at combined.now (first + lane) attr }
{
    let fours = (end - first) / 4;
    for four in 0..fours {
        put_four(combined, first + 4 * four, attr, 4 * four, words);
    }
    for row in first + 4 * fours..end {
        words[(row - first) as usize] = combined.word(row, attr);
    }
}

// Puts those of four rows.
#[inline(always)]
fn put_four(combined: &Combined, row: u32, attr: u32, lane: u32, words: &mut [u64; LANES])
    requires rows { row + 4 ≤ combined.now.rows }
    requires lanes { lane + 4 ≤ LANES }
    requires attr { attr < combined.now.width }
    ensures put { (k : ℕ) → k < 4 → slice_index_or words.new (lane + k) 0 ≡ word_at combined.now (row + k) attr }
    ensures before { (i : ℕ) → i < lane → slice_index_or words.new i 0 ≡ slice_index_or words.old i 0 }
{
    let four = combined.four_words(row, attr);
    for step in 0..4 {
        words[lane as usize + step] = four[step];
    }
}

// Puts the cells of these words, lane by lane, and tells whether all of them are in the range. Sums, which most cells are, stand
// apart, so that the compiler sees no other tag in their loop.
fn put_finished(tag: Tag, init: Num, words: &[u64; LANES], out: &mut [Num; LANES]) -> bool
    ensures { (lane : ℕ) (amounts : List Amount) → lane < LANES → StandsFor tag (slice_index_or words.now lane 0) amounts
        → IsPut (combination tag init amounts) (lane_of out.new lane) result }
{
    if tag == Tag::Sum {
        put_each(Tag::Sum, init, words, out)
    } else {
        put_each(tag, init, words, out)
    }
}

// The same for any tag.
fn put_each(tag: Tag, init: Num, words: &[u64; LANES], out: &mut [Num; LANES]) -> bool
    ensures { (lane : ℕ) (amounts : List Amount) → lane < LANES → StandsFor tag (slice_index_or words.now lane 0) amounts
        → IsPut (combination tag init amounts) (lane_of out.new lane) result }
{
    let mut exact = true;
    for lane in 0..LANES {
        let outcome = finish(tag, init, words[lane]);
        exact &= outcome.is_ok();
        out[lane] = outcome.unwrap_or(Num::zero());
    }
    exact
}
