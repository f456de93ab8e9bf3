//! The words of a core: at their start, and with an amount merged into one of them.
ghost use Rattle.std.specs.Prelude.{◌≡◌, ◌<◌, ◌≤◌, length, map, slice_index, slice_set, IfOk};
ghost use Rattle.std.specs.List.{range_with_len};
ghost use Rattle.effect_combine.specs.Words.{start_of, merged};
ghost use Rattle.tick_core.specs.Core.{tag_of, start_words};

use effect_combine::{merge, start_word};
use sgl_values::{EFFECTS_MAX, Memory, ROWS_MAX, Tag};
use std::alloc::Global;

/// The words of so many rows at the start, one for each tag.
pub(crate) fn start_words(alloc: Global, rows: u32, tags: &[Tag]) -> Result<Vec<u64>, Memory>
    requires few { rows ≤ ROWS_MAX }
    requires narrow { length tags.now ≤ EFFECTS_MAX }
    ensures { IfOk result (λ words. words.items ≡ start_words rows tags.now) }
{
    let mut words = vec![in alloc; 0; rows as usize * tags.len()]?;
    reset_words(&mut words, tags);
    Ok(words)
}

/// Makes all words what they are at the start.
pub(crate) fn reset_words(words: &mut Vec<u64>, tags: &[Tag])
    requires { 0 < length words.old.items → 0 < length tags.now }
    ensures { words.new.items
        ≡ map (λ word. start_of (tag_of tags.now word)) (range_with_len 0 (length words.old.items)) }
{
    for place in 0..words.len() {
        words[place] = start_word(tag_of(tags, place));
    }
}

/// Merges an amount into a word.
pub(crate) fn merge_amount(words: &mut Vec<u64>, tags: &[Tag], word: u32, amount: u64)
    requires word { word < length words.old.items }
    requires tagged { 0 < length tags.now }
    ensures { words.new.items ≡ slice_set words.old.items word
        (merged (tag_of tags.now word) (slice_index words.old.items word) amount) }
{
    let place = word as usize;
    words[place] = merge(tag_of(tags, place), words[place], amount);
}

// The tag of a word.
fn tag_of(tags: &[Tag], word: usize) -> Tag
    requires { 0 < length tags.now }
    ensures { result ≡ tag_of tags.now word }
{
    tags[word % tags.len()]
}
