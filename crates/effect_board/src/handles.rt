//! The board of a tick, which its workers share, and the seat that each of them works with.
ghost use Rattle.std.specs.Prelude.{◌≡◌, ℕ, ◌+◌, ◌*◌, ◌<◌, ◌≤◌, nat_lt, [], length, slice_index};
ghost use Rattle.sgl_values.specs.declared.limit.TheConstants.{EFFECTS_MAX, ROWS_MAX};
ghost use Rattle.tick_core.specs.Core.{tag_of};
ghost use Rattle.tick_core.specs.Fair.{gathered};
ghost use Rattle.effect_board.specs.Views.{gives_in, table_rows};

use crate::rule::{BoardLayout, BoardRule};
use crate::view::View;
use atomic_table::Table;
use boxcar::tag::Tag;
use std::alloc::Global;

/// The board of a tick: a word from which tasks are claimed, and one word for each row and effect attribute, row by row,
/// into which amounts are merged. Threads share it, and each works on it with a seat of its own. Where it is for one worker
/// alone, the words of the rows lie in that worker's seat.
#[derive(Drop)]
pub struct EffectBoard {
    pub(crate) table: Table<u8, View, BoardLayout, BoardRule, Global>,
    pub(crate) layout: BoardLayout,
    // The words go here at the end.
    pub(crate) room: Vec<u64>,
    ghost few: { layout.rows ≤ ROWS_MAX },
    ghost narrow: { length layout.tags.items ≤ EFFECTS_MAX },
    ghost words: { table.shared.table_id.words ≡ table_rows layout.alone layout.rows * length layout.tags.items + 1 },
    ghost slots: { table.shared.table_id.slots ≡ 0 },
    ghost roomy: { length room.items ≡ table_rows layout.alone layout.rows * length layout.tags.items },
    ghost key: { table.shared.key ≡ layout },
}

/// A worker's place at a board. Contracts see the tasks that it claimed and what it gave. The seat of a worker that is
/// alone has the words of all rows, and each is its start word merged with what the seat gave.
#[derive(Drop)]
pub struct Seat {
    pub(crate) place: atomic_table::Seat<u8, View>,
    pub(crate) own: Vec<u64>,
    pub(crate) told: Tag,
    pub(crate) number: u32,
    pub(crate) made: u32,
    pub(crate) done: bool,
    ghost lives: { 0 < place.me.0.seats },
    ghost bare: { place.me.1 ≡ [] },
    ghost own_is: { (word : ℕ) → word < length own.items
        → slice_index own.items word ≡ gathered (tag_of place.me.0.tags word) word (gives_in told.numbers) },
    ghost shared: { length own.items ≡ 0 → told.numbers ≡ [] },
    ghost alone: { 0 < length own.items → place.me.0.gives ≡ [] },
    ghost first: { 0 < length own.items → number ≡ 0 },
    ghost number_is: { number ≡ place.me.0.number },
    ghost made_is: { made ≡ place.me.0.made },
    ghost done_is: { done ≡ nat_lt 0 place.me.0.misses },
}
