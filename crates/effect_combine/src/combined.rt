//! The words of all cells of a tick in one list, and those of given items.
ghost use Rattle.std.specs.Prelude.{◌≡◌, ◌+◌, ◌*◌, ◌<◌, ◌≤◌, ℕ, length, slice_index_or, All, IfOk};
ghost use Rattle.effect_combine.specs.Combined.{word_at, IsTable, IsWithin, Combines, with_item, AreStarts, IsPlaced, HasNumber};

use crate::word::{merge, start_word, word_of};
use sgl_values::{EFFECTS_MAX, Item, List, Memory, ROWS_MAX, Tag};
use std::alloc::Global;
use std::marker::Model;

/// The words of all cells of a tick: one for each row and effect attribute, both numbered from 0; at most 65,536 rows of
/// at most 16 words.
#[derive(Debug, Drop)]
pub struct Combined {
    rows: u32,
    width: u32,
    words: Vec<u64>,
}

impl Model for Combined {
    ghost use Rattle.effect_combine.specs.Combined.{CellWords, IsTable};

    ghost Value = { CellWords };

    ghost view = { λ it. record { rows = it.rows; width = it.width; words = it.words.items } };

    ghost invariant = { λ it. IsTable record { rows = it.rows; width = it.width; words = it.words.items } };
}

impl Combined {
    /// The words of so many rows, `width` of each row one behind the other: the word of an attribute of a row stands at
    /// row * width + attribute. It takes no memory.
    pub fn of(rows: u32, width: u32, words: Vec<u64>) -> Combined
        requires few { rows ≤ ROWS_MAX }
        requires narrow { width ≤ EFFECTS_MAX }
        requires full { length words.items ≡ rows * width }
        ensures { result ≡ record { rows = rows; width = width; words = words.items } }
    {
        Combined { rows, width, words }
    }

    /// The word of a cell.
    pub fn word(&self, row: u32, attr: u32) -> u64
        requires row { row < self.now.rows }
        requires attr { attr < self.now.width }
        ensures value { result ≡ word_at self.now row attr }
        ensures table { IsTable self.now }
    {
        self.words[row as usize * self.width as usize + attr as usize]
    }

    /// The words of an attribute for four rows one behind the other, from one on. Their places are counted once, which
    /// takes less than one by one.
    #[inline(always)]
    pub fn four_words(&self, row: u32, attr: u32) -> [u64; 4]
        requires rows { row + 4 ≤ self.now.rows }
        requires attr { attr < self.now.width }
        ensures { (k : ℕ) → k < 4 → slice_index_or result k 0 ≡ word_at self.now (row + k) attr }
    {
        let width = self.width as usize;
        let at = row as usize * width + attr as usize;
        [
            self.words[at],
            self.words[at + width],
            self.words[at + 2 * width],
            self.words[at + 3 * width],
        ]
    }
}

/// The words of the items' amounts: each word stands for the amounts of its cell among the items. There are at most
/// 65,536 rows and 16 tags, one for each effect attribute, and the items name no others. `Memory` is its only refusal.
pub fn combine_items(
    alloc: Global,
    rows: u32,
    tags: &List<Tag>,
    items: &[Item],
) -> Result<Combined, Memory>
    requires few { rows ≤ ROWS_MAX }
    requires narrow { length tags.now ≤ EFFECTS_MAX }
    requires within { All (IsWithin rows (length tags.now)) items.now }
    ensures { IfOk result (Combines rows tags.now items.now) }
{
    let tags = tags.as_slice();
    let mut words = start_words(alloc, rows, tags)?;
    for item in items {
        take_item(&mut words, tags, *item);
    }
    Ok(Combined::of(rows, tags.len() as u32, words))
}

// The words of cells without amounts.
fn start_words(alloc: Global, rows: u32, tags: &[Tag]) -> Result<Vec<u64>, Memory>
    requires few { rows ≤ ROWS_MAX }
    requires narrow { length tags.now ≤ EFFECTS_MAX }
    ensures { IfOk result (λ words. AreStarts rows tags.now words.items) }
{
    let width = tags.len();
    let count = rows as usize * width;
    let mut words = Vec::with_capacity(alloc, count)?;
    for place in 0..count {
        words.push(start_word(tags[place % width]))?;
    }
    Ok(words)
}

// Merges an item's amount into the word of its cell.
fn take_item(words: &mut Vec<u64>, tags: &[Tag], item: Item)
    requires { IsPlaced (length words.old.items) (length tags.now) item }
    ensures words { words.new.items ≡ with_item tags.now words.old.items item }
    ensures number { HasNumber item }
{
    if let Item::Effect { row, attr, amount } = item {
        let tag = tags[attr as usize];
        let place = row as usize * tags.len() + attr as usize;
        words[place] = merge(tag, word_of(tag, amount), words[place]);
    }
}
