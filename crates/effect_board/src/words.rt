//! The words that a board is made with, those that are read back when it is closed, and the tag of
//! a word.

ghost use Rattle.std.specs.Prelude.{◌≡◌, ℕ, ◌+◌, ◌*◌, ◌<◌, ◌≤◌, ◌++◌, if◌then◌else◌, length, slice_index, IfOk, OnOk};
ghost use Rattle.std.specs.Mem.Slots.{slots_items, slots_len, IsFull};
ghost use Rattle.tick_core.specs.Core.{start_words, tag_of};
ghost use Rattle.effect_board.specs.Views.{own_rows, table_rows};

use atomic_table::Closed;
use effect_combine::start_word;
use sgl_values::{EFFECTS_MAX, Memory, ROWS_MAX, Tag};
use std::alloc::Global;

// So many rows are put down together.
const BLOCK_ROWS: u32 = 64;

// One word for each row and tag, behind those that stand ahead: that of the claims, or none. The words of all blocks of rows are
// the same, so they are made once, and copied.
pub(crate) fn start_words(
    alloc: Global,
    ahead: &[u64],
    rows: u32,
    tags: &[Tag],
) -> Result<Vec<u64>, Memory>
    requires ahead { length ahead.now ≤ 1 }
    requires few { rows ≤ ROWS_MAX }
    requires narrow { length tags.now ≤ EFFECTS_MAX }
    ensures { IfOk result (λ words. words.items ≡ ahead.now ++ start_words rows tags.now) }
{
    let count = rows as usize * tags.len();
    let block = words_by_row(alloc, BLOCK_ROWS.min(rows), tags)?;
    let mut words = Vec::with_capacity(alloc, ahead.len() + count)?;
    words.extend_from_slice(ahead)?;
    for _ in 0..rows / BLOCK_ROWS {
        words.extend_from_slice(block.as_slice())?;
    }
    for row in rows / BLOCK_ROWS * BLOCK_ROWS..rows {
        push_row(&mut words, ahead, tags, row)?;
    }
    Ok(words)
}

// The same of few rows, row by row, with none ahead.
fn words_by_row(alloc: Global, rows: u32, tags: &[Tag]) -> Result<Vec<u64>, Memory>
    requires few { rows ≤ ROWS_MAX }
    requires narrow { length tags.now ≤ EFFECTS_MAX }
    ensures { IfOk result (λ words. words.items ≡ start_words rows tags.now) }
{
    let mut words = Vec::with_capacity(alloc, rows as usize * tags.len())?;
    for row in 0..rows {
        push_row(&mut words, &[], tags, row)?;
    }
    Ok(words)
}

// Puts the words of a row behind those of the rows before it.
fn push_row(words: &mut Vec<u64>, ahead: &[u64], tags: &[Tag], row: u32) -> Result<(), Memory>
    requires narrow { length tags.now ≤ EFFECTS_MAX }
    requires before { words.old.items ≡ ahead.now ++ start_words row tags.now }
    ensures { OnOk result (words.new.items ≡ ahead.now ++ start_words (row + 1) tags.now) }
{
    let _ = ahead;
    for attr in 0..tags.len() {
        words.push(start_word(tag_of(tags, row, attr as u32)))?;
    }
    Ok(())
}

// The same with none ahead, where one worker is alone, and else none at all.
pub(crate) fn own_words(
    alloc: Global,
    alone: bool,
    rows: u32,
    tags: &[Tag],
) -> Result<Vec<u64>, Memory>
    requires few { rows ≤ ROWS_MAX }
    requires narrow { length tags.now ≤ EFFECTS_MAX }
    ensures { IfOk result (λ words. words.items ≡ start_words (own_rows alone rows) tags.now) }
{
    if !alone {
        return Ok(Vec::new(alloc));
    }
    start_words(alloc, &[], rows, tags)
}

// So many rows have words that workers share.
pub(crate) fn table_rows(alone: bool, rows: u32) -> u32
    ensures { result ≡ table_rows alone rows }
{
    if alone { 0 } else { rows }
}

// The words of the one seat where its worker is alone, and else those that workers shared.
pub(crate) fn one_of(alone: bool, own: Vec<u64>, shared: Vec<u64>) -> Vec<u64>
    ensures { result.items ≡ (if alone then own.items else shared.items) }
{
    if alone { own } else { shared }
}

// The words behind that of the claims, put into the vector.
pub(crate) fn read_words(closed: &Closed<u8, Global>, mut words: Vec<u64>) -> Vec<u64>
    requires full { IsFull closed.now.words }
    requires sized { slots_len closed.now.words ≡ length words.items + 1 }
    ensures sized { length result.items ≡ length words.items }
    ensures words { (word : ℕ) → word < length result.items
        → slice_index result.items word ≡ slice_index (slots_items closed.now.words) (word + 1) }
{
    for place in 0..words.len() {
        words[place] = closed.word(place + 1);
    }
    words
}

// The tag of a word is that of its attribute, as the words of a row stand one behind the other.
pub(crate) fn tag_of(tags: &[Tag], row: u32, attr: u32) -> Tag
    requires { attr < length tags.now }
    ensures { result ≡ tag_of tags.now (row * length tags.now + attr) }
{
    let _ = row;
    tags[attr as usize]
}
