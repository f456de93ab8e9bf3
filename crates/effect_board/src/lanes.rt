//! Amounts that many rows give side by side.
ghost use Rattle.std.specs.Prelude.{◌≡◌, ◌<◌, ℕ, pos, true, length, slice_index_or};
ghost use Rattle.sgl_values.specs.Amounts.{is_amount, plain_amount};
ghost use Rattle.effect_combine.specs.Combined.{tag_at};
ghost use Rattle.effect_board.specs.Handles.{view_of, rows_of, tags_of, IsSeatOf};
ghost use Rattle.effect_board.specs.Lanes.{is_in, lane_gives};
ghost use Rattle.effect_board.specs.Views.{giving_all};

use crate::handles::{EffectBoard, Seat};
use effect_combine::word_of;
use sgl_values::{Amount, Num, Tag};

/// So many rows at most give side by side.
pub(crate) const LANES: usize = 64;

impl EffectBoard {
    /// Gives a number for an effect attribute in each lane of a set, a bit each, to the row of that lane, lane by lane. The
    /// seat is one of this board, and the attribute and the rows of the set are on it. One atomic step for each lane of
    /// the set, and none where the worker is alone.
    pub fn give_lanes(
        &self,
        seat: &mut Seat,
        attr: u32,
        lanes: u64,
        rows: &[u32; LANES],
        numbers: &[Num; LANES],
    )
        requires of { IsSeatOf self.now seat.old }
        requires attr { attr < length (tags_of self.now) }
        requires rows { (lane : ℕ) → is_in lanes lane ≡ true → slice_index_or rows.now lane 0 < rows_of self.now }
        ensures of { IsSeatOf self.now seat.new }
        ensures view { view_of seat.new ≡ giving_all (view_of seat.old) (lane_gives (tags_of self.now) attr lanes rows.now numbers.now) }
        ensures fit { (lane : ℕ) → lane < LANES → is_in lanes lane ≡ true → is_amount (plain_amount (slice_index_or numbers.now lane (pos 0))) ≡ true }
    {
        match self.layout.tags[attr as usize] {
            Tag::Sum => self.give_tagged(seat, Tag::Sum, attr, lanes, rows, numbers),
            Tag::Min => self.give_tagged(seat, Tag::Min, attr, lanes, rows, numbers),
            Tag::Max => self.give_tagged(seat, Tag::Max, attr, lanes, rows, numbers),
            Tag::Top => self.give_tagged(seat, Tag::Top, attr, lanes, rows, numbers),
        }
    }

    // The same of an attribute with this tag. Inlined, so that the tag is told once and not at each amount.
    #[inline(always)]
    fn give_tagged(
        &self,
        seat: &mut Seat,
        tag: Tag,
        attr: u32,
        lanes: u64,
        rows: &[u32; LANES],
        numbers: &[Num; LANES],
    )
        requires of { IsSeatOf self.now seat.old }
        requires attr { attr < length (tags_of self.now) }
        requires tag { tag ≡ tag_at (tags_of self.now) attr }
        requires rows { (lane : ℕ) → is_in lanes lane ≡ true → slice_index_or rows.now lane 0 < rows_of self.now }
        ensures of { IsSeatOf self.now seat.new }
        ensures view { view_of seat.new ≡ giving_all (view_of seat.old) (lane_gives (tags_of self.now) attr lanes rows.now numbers.now) }
        ensures fit { (lane : ℕ) → lane < LANES → is_in lanes lane ≡ true → is_amount (plain_amount (slice_index_or numbers.now lane (pos 0))) ≡ true }
    {
        if seat.own.is_empty() {
            self.share_lanes(seat, tag, attr, lanes, rows, numbers);
        } else {
            seat.keep_lanes(self.layout.tags.as_slice(), tag, attr, lanes, rows, numbers);
        }
    }

    // The same of words that workers share.
    #[inline(always)]
    fn share_lanes(
        &self,
        seat: &mut Seat,
        tag: Tag,
        attr: u32,
        lanes: u64,
        rows: &[u32; LANES],
        numbers: &[Num; LANES],
    )
        requires of { IsSeatOf self.now seat.old }
        requires none_own { length seat.old.own.items ≡ 0 }
        requires attr { attr < length (tags_of self.now) }
        requires tag { tag ≡ tag_at (tags_of self.now) attr }
        requires rows { (lane : ℕ) → is_in lanes lane ≡ true → slice_index_or rows.now lane 0 < rows_of self.now }
        ensures of { IsSeatOf self.now seat.new }
        ensures view { view_of seat.new ≡ giving_all (view_of seat.old) (lane_gives (tags_of self.now) attr lanes rows.now numbers.now) }
        ensures fit { (lane : ℕ) → lane < LANES → is_in lanes lane ≡ true → is_amount (plain_amount (slice_index_or numbers.now lane (pos 0))) ≡ true }
    {
        let tags = self.layout.tags.as_slice();
        let width = tags.len();
        let mut left = lanes;
        let mut next = 0;
        // From one lane of the set to the next, with no branch at the others.
        while left != 0 {
            let lane = left.trailing_zeros();
            let amount = Amount::plain(numbers[lane as usize]);
            let _number = amount.value();
            let word = rows[lane as usize] as usize * width + attr as usize;
            self.share(seat, tag, word, word_of(tag, amount));
            left &= left - 1;
            next = lane + 1;
        }
    }
}
