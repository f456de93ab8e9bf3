//! Amounts that many rows give side by side to a seat's own words.
ghost use Rattle.std.specs.Prelude.{◌≡◌, ◌<◌, ◌≤◌, ◌++◌, ℕ, pos, true, length, slice_index, slice_index_or};
ghost use Rattle.sgl_values.specs.Amounts.{is_amount, plain_amount};
ghost use Rattle.effect_combine.specs.Combined.{tag_at};
ghost use Rattle.tick_core.specs.Core.{tag_of, word_number};
ghost use Rattle.tick_core.specs.Fair.{gathered};
ghost use Rattle.effect_board.specs.Handles.{view_of};
ghost use Rattle.effect_board.specs.Lanes.{is_in, lane_gives};
ghost use Rattle.effect_board.specs.Views.{gives_in, giving_all};

use crate::handles::Seat;
use crate::lanes::LANES;
use crate::told::told_with;
use boxcar::tag::Tag as Told;
use effect_combine::{merge, word_of};
use sgl_values::{Amount, EFFECTS_MAX, Num, Tag};

impl Seat {
    // Merges the numbers of a set of lanes into the words of their rows, which are the seat's own.
    #[inline(always)]
    pub(crate) fn keep_lanes(
        &mut self,
        tags: &[Tag],
        tag: Tag,
        attr: u32,
        lanes: u64,
        rows: &[u32; LANES],
        numbers: &[Num; LANES],
    )
        requires own { 0 < length self.old.own.items }
        requires tags { tags.now ≡ (view_of self.old).tags }
        requires narrow { length tags.now ≤ EFFECTS_MAX }
        requires attr { attr < length tags.now }
        requires tag { tag ≡ tag_at tags.now attr }
        requires inside { (lane : ℕ) → is_in lanes lane ≡ true → word_number tags.now (slice_index_or rows.now lane 0) attr < length self.old.own.items }
        ensures place { self.new.place ≡ self.old.place }
        ensures own { length self.new.own.items ≡ length self.old.own.items }
        ensures view { view_of self.new ≡ giving_all (view_of self.old) (lane_gives tags.now attr lanes rows.now numbers.now) }
        ensures fit { (lane : ℕ) → lane < LANES → is_in lanes lane ≡ true → is_amount (plain_amount (slice_index_or numbers.now lane (pos 0))) ≡ true }
    {
        let own = self.own.as_mut_slice();
        merge_lanes(own, &mut self.told, tags, tag, attr, lanes, rows, numbers);
    }
}

// Merges the numbers of a set of lanes into the words of their rows, lane by lane, and tells what was given. The words stand
// in a slice of their own, so that where they lie is asked once and not at each lane.
#[inline(always)]
fn merge_lanes(
    own: &mut [u64],
    told: &mut Told,
    tags: &[Tag],
    tag: Tag,
    attr: u32,
    lanes: u64,
    rows: &[u32; LANES],
    numbers: &[Num; LANES],
)
    requires narrow { length tags.now ≤ EFFECTS_MAX }
    requires attr { attr < length tags.now }
    requires tag { tag ≡ tag_at tags.now attr }
    requires inside { (lane : ℕ) → is_in lanes lane ≡ true → word_number tags.now (slice_index_or rows.now lane 0) attr < length own.old }
    requires merged { (word : ℕ) → word < length own.old → slice_index own.old word ≡ gathered (tag_of tags.now word) word (gives_in told.old.numbers) }
    ensures length { length own.new ≡ length own.old }
    ensures merged { (word : ℕ) → word < length own.new → slice_index own.new word ≡ gathered (tag_of tags.now word) word (gives_in told.new.numbers) }
    ensures told { gives_in told.new.numbers ≡ gives_in told.old.numbers ++ lane_gives tags.now attr lanes rows.now numbers.now }
    ensures fit { (lane : ℕ) → lane < LANES → is_in lanes lane ≡ true → is_amount (plain_amount (slice_index_or numbers.now lane (pos 0))) ≡ true }
{
    let width = tags.len();
    let mut left = lanes;
    let mut next = 0;
    while left != 0 {
        let lane = left.trailing_zeros();
        let amount = Amount::plain(numbers[lane as usize]);
        let _number = amount.value();
        let word = rows[lane as usize] as usize * width + attr as usize;
        let given = word_of(tag, amount);
        own[word] = merge(tag, own[word], given);
        *told = told_with(told, word as u64, given);
        left &= left - 1;
        next = lane + 1;
    }
}
