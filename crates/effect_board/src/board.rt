//! The calls on a board: it is made, tasks are claimed, cells are given, seats split and join, and
//! it is closed.
ghost use Rattle.std.specs.Prelude.{◌≡◌, ◌≢◌, ◌*◌, ◌<◌, ◌≤◌, ◌||◌, [], All, true, false, is_none, length, map, IfOk, MatchOption};
ghost use Rattle.tick_core.specs.Core.{tag_of, word_number};
ghost use Rattle.effect_board.specs.Views.{is_done, may_split, stands_for_all, first_view, taking, missing, giving, giving_all, cell_of, give_of_cell, splitting, newcomer, joining, IsOnBoard};
ghost use Rattle.effect_board.specs.Rule.{Ends};
ghost use Rattle.effect_board.specs.Handles.{view_of, tasks_of, rows_of, tags_of, is_alone, IsSeatOf};

use crate::handles::{EffectBoard, Seat};
use crate::rule::{BoardLayout, ClaimStep, GiveStep, JoinStep, SplitStep};
use crate::words::{one_of, own_words, read_words, start_words, table_rows, tag_of};
use atomic_table::Table;
use boxcar::tag::Tag as Told;
use effect_combine::{Batch, Cell, Combined, word_of};
use sgl_values::{Amount, EFFECTS_MAX, List, Memory, ROWS_MAX, Tag};
use std::alloc::Global;

impl EffectBoard {
    /// A board of so many tasks with a word for each row and effect attribute, at most 65,536 rows and 16 attributes,
    /// and its first seat. A board for one worker alone has no other seat, and what that gives takes no atomic step.
    /// `Memory` is its only refusal, and no later call takes memory.
    pub fn new(
        alloc: Global,
        rows: u32,
        tags: &List<Tag>,
        tasks: u32,
        alone: bool,
    ) -> Result<(EffectBoard, Seat), Memory>
        requires few { rows ≤ ROWS_MAX }
        requires narrow { length tags.now ≤ EFFECTS_MAX }
        ensures board { IfOk result (λ made. (tasks_of made.0 ≡ tasks) × (rows_of made.0 ≡ rows) × (tags_of made.0 ≡ tags.now)) }
        ensures alone { IfOk result (λ made. is_alone made.0 ≡ alone) }
        ensures seat { IfOk result (λ made. IsSeatOf made.0 made.1 × (view_of made.1 ≡ first_view tasks tags.now)) }
    {
        let tags = Vec::from_slice(alloc, tags.as_slice())?;
        let own = own_words(alloc, alone, rows, tags.as_slice())?;
        let shared = table_rows(alone, rows);
        let mut room = start_words(alloc, &[0], shared, tags.as_slice())?;
        let layout = BoardLayout {
            tasks,
            rows,
            alone,
            tags,
        };
        let (table, place) = Table::of_words(alloc, room.as_slice(), &layout)?;
        // At the end there is no word of the claims.
        room.truncate(shared as usize * layout.tags.len());
        let board = EffectBoard {
            table,
            layout,
            room,
        };
        let seat = Seat {
            place,
            own,
            told: Told::empty(),
            number: 0,
            made: 1,
            done: false,
        };
        Ok((board, seat))
    }

    /// The next task, or `None` exactly where this call's own step found all tasks given out. The seat, which is one of
    /// this board and not done, has that task then, which is above all that it claimed before, or is done. One atomic
    /// step.
    pub fn claim(&self, seat: &mut Seat) -> Option<u32>
        requires of { IsSeatOf self.now seat.old }
        requires not_done { is_done (view_of seat.old) ≡ false }
        ensures of { IsSeatOf self.now seat.new }
        ensures view { MatchOption result (view_of seat.new ≡ missing (view_of seat.old)) (λ task. view_of seat.new ≡ taking (view_of seat.old) task) }
        ensures task { MatchOption result (Unit {0}) (λ task. (task < tasks_of self.now) × All (λ other. other < task) (view_of seat.old).claimed) }
        ensures done { is_done (view_of seat.new) ≡ is_none result }
    {
        let found = self
            .table
            .shared
            .fetch_add::<ClaimStep>(&mut seat.place, 0, 1);
        if found < u64::from(self.layout.tasks) {
            Some(found as u32)
        } else {
            seat.done = true;
            None
        }
    }

    /// Gives the word of each cell of the batch once, and empties the batch. The seat is one of this board, and the cells
    /// are on it. One atomic step for each cell, and none where the worker is alone.
    pub fn deposit(&self, seat: &mut Seat, batch: &mut Batch)
        requires of { IsSeatOf self.now seat.old }
        requires cells { IsOnBoard (rows_of self.now) (tags_of self.now) batch.old.cells }
        ensures of { IsSeatOf self.now seat.new }
        ensures view { view_of seat.new ≡ giving_all (view_of seat.old) (map (give_of_cell (tags_of self.now)) batch.old.cells) }
        ensures batch { batch.new ≡ record { tags = batch.old.tags; cells = [] } }
    {
        for cell in batch.cells() {
            self.give_cell(seat, *cell);
        }
        batch.clear();
    }

    /// Gives the word of an amount for a row and an effect attribute once. The seat is one of this board, and the row and the
    /// attribute are on it. One atomic step, and none where the worker is alone.
    pub fn give(&self, seat: &mut Seat, row: u32, attr: u32, amount: Amount)
        requires of { IsSeatOf self.now seat.old }
        requires row { row < rows_of self.now }
        requires attr { attr < length (tags_of self.now) }
        ensures of { IsSeatOf self.now seat.new }
        ensures view { view_of seat.new ≡ giving (view_of seat.old) (give_of_cell (tags_of self.now) (cell_of (tags_of self.now) row attr amount)) }
    {
        let word = word_of(self.layout.tags[attr as usize], amount);
        self.give_cell(seat, Cell { row, attr, word });
    }

    // Merges a cell's word into that of the board.
    fn give_cell(&self, seat: &mut Seat, cell: Cell)
        requires of { IsSeatOf self.now seat.old }
        requires row { cell.row < rows_of self.now }
        requires attr { cell.attr < length (tags_of self.now) }
        ensures of { IsSeatOf self.now seat.new }
        ensures view { view_of seat.new ≡ giving (view_of seat.old) (give_of_cell (tags_of self.now) cell) }
    {
        let tags = self.layout.tags.as_slice();
        let word = cell.row as usize * tags.len() + cell.attr as usize;
        let tag = tag_of(tags, cell.row, cell.attr);
        self.give_word(seat, tag, word, cell.word);
    }

    // Merges an amount into a word of this tag: one of the seat's own, or else one that workers share.
    fn give_word(&self, seat: &mut Seat, tag: Tag, word: usize, amount: u64)
        requires of { IsSeatOf self.now seat.old }
        requires inside { word < rows_of self.now * length (tags_of self.now) }
        requires tag { tag ≡ tag_of (tags_of self.now) word }
        ensures of { IsSeatOf self.now seat.new }
        ensures view { view_of seat.new ≡ giving (view_of seat.old) record { word = word; amount = amount } }
    {
        if word < seat.own.len() {
            seat.keep(tag, word, amount);
        } else {
            self.share(seat, tag, word, amount);
        }
    }

    /// Merges an amount into a word that workers share.
    pub(crate) fn share(&self, seat: &mut Seat, tag: Tag, word: usize, amount: u64)
        requires of { IsSeatOf self.now seat.old }
        requires inside { word < rows_of self.now * length (tags_of self.now) }
        requires not_own { length seat.old.own.items ≤ word }
        requires tag { tag ≡ tag_of (tags_of self.now) word }
        ensures of { IsSeatOf self.now seat.new }
        ensures view { view_of seat.new ≡ giving (view_of seat.old) record { word = word; amount = amount } }
    {
        let table = &self.table.shared;
        match tag {
            Tag::Sum => table.fetch_add::<GiveStep>(&mut seat.place, word + 1, amount),
            Tag::Min => table.fetch_min::<GiveStep>(&mut seat.place, word + 1, amount),
            Tag::Max => table.fetch_max::<GiveStep>(&mut seat.place, word + 1, amount),
            Tag::Top => table.fetch_max::<GiveStep>(&mut seat.place, word + 1, amount),
        };
    }

    /// A new seat for another worker, whose number is the number of seats made before. Only the first seat makes seats,
    /// 63 at most, and none where its worker is alone. One atomic step.
    pub fn split(&self, seat: &mut Seat) -> Seat
        requires of { IsSeatOf self.now seat.old }
        requires may { may_split (view_of seat.old) ≡ true }
        requires several { is_alone self.now ≡ false }
        ensures of { IsSeatOf self.now seat.new × IsSeatOf self.now result }
        ensures view { view_of seat.new ≡ splitting (view_of seat.old) }
        ensures new { view_of result ≡ newcomer (view_of seat.old) }
    {
        let place = self.table.shared.split_seat::<SplitStep>(&mut seat.place);
        let number = seat.made;
        seat.made += 1;
        Seat {
            place,
            own: Vec::new(*self.room.allocator()),
            told: Told::empty(),
            number,
            made: 0,
            done: false,
        }
    }

    /// Moves the claimed tasks and the gives of a seat, which is not the first, to another. One that was done makes the
    /// other done. One atomic step.
    pub fn join(&self, into: &mut Seat, from: Seat)
        requires of { IsSeatOf self.now into.old × IsSeatOf self.now from }
        requires later { (view_of from).number ≢ 0 }
        ensures of { IsSeatOf self.now into.new }
        ensures view { view_of into.new ≡ joining (view_of into.old) (view_of from) }
        ensures done { is_done (view_of into.new) ≡ (is_done (view_of into.old) || is_done (view_of from)) }
    {
        let done = from.done;
        self.table
            .shared
            .join_seat::<JoinStep>(&mut into.place, from.place);
        into.done = into.done || done;
    }

    /// The words at the end: each is its start word merged with all that was given for it. Each seat that was made was
    /// joined into the first, which is this one.
    pub fn close(self, seat: Seat) -> Combined
        requires of { IsSeatOf self seat }
        requires whole { stands_for_all (view_of seat) ≡ true }
        ensures { Ends (tasks_of self) (rows_of self) (tags_of self) (view_of seat) result }
    {
        let EffectBoard {
            table,
            layout,
            room,
        } = self;
        let Seat { place, own, .. } = seat;
        let closed = table.close_with(place);
        let shared = read_words(&closed, room);
        closed.free();
        let words = one_of(layout.alone, own, shared);
        Combined::of(layout.rows, layout.tags.len() as u32, words)
    }
}
