//! How the effects of a tick are combined: words that stand for the amounts of a cell in any order, the words of all
//! cells, and batches of cells on their way to them.
#![tactic(auto)]

mod batch;
mod cell;
mod combined;
mod finished;
mod law;
mod places;
mod word;

pub use batch::Batch;
pub use cell::{Added, Cell};
pub use combined::{Combined, combine_items};
pub use finished::{CellOverflow, finish};
pub use law::{
    batches_hold_amounts, batches_take_words, combined_words_stand, top_words_tell_the_greatest,
    words_ignore_order, words_merge,
};
pub use word::{merge, start_word, word_of};
